//! Rows that are tests: of runs in threads.
#![tactic(auto)]

#[cfg(test)]
mod held;
#[cfg(test)]
mod making;
#[cfg(test)]
mod runs;
#[cfg(test)]
mod settled_logs;

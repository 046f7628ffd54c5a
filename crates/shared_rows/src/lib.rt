//! Rows that are tests: of a world that threads share.
#![tactic(auto)]

#[cfg(test)]
mod turns;

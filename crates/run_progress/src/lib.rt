//! How far a run has come, for a person at standard error. It stands outside of what is promised: wrappers count what passes
//! through them, and give on what they were given.
#![tactic(auto)]

mod clock;
mod crossing;
mod line;
mod log;
mod progress;
mod sink;
mod store;
#[cfg(test)]
mod tests;

pub use clock::ProgressClock;
pub use crossing::{clock_sent, log_sent, store_sent};
pub use line::ProgressLine;
pub use log::{CountedLog, count_logs};
pub use progress::{Kind, Progress};
pub use sink::EndingSink;
pub use store::CountedStore;

//! The two reports on an index: a line for each of its splits, and the index as a whole.
#![tactic(auto)]

mod counts;
mod describe;
mod laws;
mod splits;

pub use describe::print_describe;
pub use laws::partitions_are_named;
pub use splits::print_splits;

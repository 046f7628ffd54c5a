//! Partitions of a source, deltas over their records, and how far each partition was taken in.
#![tactic(auto)]

pub mod delta;
pub mod ledger;
pub mod partition;
pub mod span;

pub use delta::{Delta, Part, StaleDelta};
pub use ledger::{Checkpoint, Ledger};
pub use partition::{Partition, PartitionError};
pub use span::{Span, Spans};

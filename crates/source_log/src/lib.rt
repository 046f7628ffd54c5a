//! What is indexed: partitions of records, read in slices.
#![tactic(auto)]

mod faulty;
mod lists;
mod log;
mod memory;

pub use faulty::FaultyLog;
pub use lists::{Partitions, RecordList, Records};
pub use log::{ReadError, SourceLog};
pub use memory::{MemoryLog, PartitionLog};

//! An indexer for each log of a run, with the partitions that are its own.

ghost use Rattle.std.specs.Prelude.{◌≡◌, ◌<◌, IfOk, IfErr, length};
ghost use Rattle.thread_run.specs.Beginning.{AreBegun, IsBegun};

use crate::filling::push_within;
use indexing_run::Indexer;
use run_plan::assigned;
use source_log::{ReadError, SourceLog};
use std::alloc::Global;

/// An indexer that is to read its own partitions, or why there is none.
#[derive(Drop)]
pub enum Begun<L: SourceLog> {
    /// It is idle.
    Ready(Indexer<L>),
    /// The log failed where it was asked for the names: its count of faults before the call and after it.
    Failed { log: L, before: u64, after: u64 },
    /// There was no memory for the names.
    Short(L),
}

// The indexer of a log, as one of so many.
fn begin<L: SourceLog>(alloc: Global, log: L, count: usize, skipped: usize) -> Begun<L>
    requires { skipped < count }
    ensures { IsBegun L.told L.fault_count L.since count skipped log result }
{
    let mut log = log;
    let before = log.faults();
    match assigned(alloc, &mut log, count, skipped) {
        Ok(partitions) => {
            let mut indexer = Indexer::start(log);
            indexer.assign(partitions);
            // The count of a log has its range.
            let _count = indexer.log_faults();
            Begun::Ready(indexer)
        }
        Err(ReadError::Failed) => {
            let after = log.faults();
            Begun::Failed { log, before, after }
        }
        Err(ReadError::Memory(_)) => Begun::Short(log),
    }
}

/// The indexers of logs, in their order: the partitions of each are every so many of those of its own log, the first of them behind as many as
/// there are indexers before it. Where there is no memory to begin, the logs come back as they were.
pub fn indexers_of<L: SourceLog>(alloc: Global, logs: Vec<L>) -> Result<Vec<Begun<L>>, Vec<L>>
    ensures begun { IfOk result (λ all. AreBegun L.told L.fault_count L.since (length logs.items) 0 logs.items all.items) }
    ensures back { IfErr result (λ back. back ≡ logs) }
{
    let count = logs.len();
    let Ok(mut all) = Vec::with_capacity(alloc, count) else {
        return Err(logs);
    };
    let mut skipped = 0;
    for log in logs {
        push_within(&mut all, begin(alloc, log, count, skipped));
        skipped += 1;
    }
    Ok(all)
}

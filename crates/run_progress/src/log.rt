//! A log whose records are counted.

ghost use Rattle.std.specs.Prelude.{◌≡◌, IfOk};

use crate::Progress;
use source_checkpoint::Partition;
use source_log::{Partitions, ReadError, Records, SourceLog};
use std::alloc::{AllocError, Global};
use std::marker::Model;
use std::time::Clock;

/// A log, which contracts see as the one that it reads. Each record that a read gives is counted, also where it was read before.
#[derive(Drop)]
pub struct CountedLog<'a, L: SourceLog, R: Eprint + Clock> {
    log: L,
    progress: &'a Progress<'a, R>,
}

impl<'a, L: SourceLog, R: Eprint + Clock> Model for CountedLog<'a, L, R> {
    ghost Value = { L };

    ghost coded = { L.code };

    ghost view = { λ it. it.log };
}

impl<'a, L: SourceLog, R: Eprint + Clock> CountedLog<'a, L, R> {
    pub fn over(log: L, progress: &'a Progress<'a, R>) -> CountedLog<'a, L, R>
        ensures { result ≡ log }
    {
        CountedLog { log, progress }
    }

    /// The log that it reads.
    pub fn log(&self) -> &L
        ensures { result.now ≡ self.now }
    {
        &self.log
    }
}

impl<'a, L: SourceLog, R: Eprint + Clock> SourceLog for CountedLog<'a, L, R> {
    ghost told = { L.told };

    ghost fault_count = { L.fault_count };

    ghost since = { L.since };

    fn partitions(&mut self, alloc: Global) -> Result<Partitions, ReadError> {
        self.log.partitions(alloc)
    }

    fn read(
        &mut self,
        alloc: Global,
        partition: &Partition,
        from: u64,
        max: u32,
    ) -> Result<Records, ReadError> {
        let records = self.log.read(alloc, partition, from, max);
        if let Ok(records) = &records {
            self.progress.add_records(records.list.len() as u64);
        }
        records
    }

    fn faults(&self) -> u64 {
        self.log.faults()
    }

    ghost since_itself = { L.since_itself };

    ghost since_then = { L.since_then };
}

/// Each of these logs counted, in their order.
pub fn count_logs<'a, L: SourceLog, R: Eprint + Clock>(
    alloc: Global,
    logs: Vec<L>,
    progress: &'a Progress<'a, R>,
) -> Result<Vec<CountedLog<'a, L, R>>, AllocError>
    ensures { IfOk result (λ counted. counted.items ≡ logs.items) }
{
    let mut counted = Vec::with_capacity(alloc, logs.len())?;
    for log in logs {
        counted.push(CountedLog::over(log, progress))?;
    }
    Ok(counted)
}

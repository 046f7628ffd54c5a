//! The logs of a call as they are given back.

ghost use Rattle.std.specs.Prelude.{◌≡◌, map, min, sum};
ghost use Rattle.index_world.specs.Core.{last_count};
ghost use Rattle.node_run.specs.Logs.{logs_in};

use indexing_run::Indexer;
use source_log::SourceLog;

/// Logs that are given back: as they were handed in, or, where a node was started over them, each in its indexer.
#[derive(Drop)]
pub enum Logs<L: SourceLog> {
    Unread(Vec<L>),
    Read(Vec<Indexer<L>>),
}

fn sum_of_unread<L: SourceLog>(logs: &[L]) -> u64
    ensures { result ≡ min (sum (map L.fault_count logs.now)) last_count }
{
    let mut sum: u64 = 0;
    for log in logs {
        sum = sum.saturating_add(log.faults());
    }
    sum
}

fn sum_of_read<L: SourceLog>(indexers: &[Indexer<L>]) -> u64
    ensures { result ≡ min (sum (map (λ reader. L.fault_count reader.log) indexers.now)) last_count }
{
    let mut sum: u64 = 0;
    for indexer in indexers {
        sum = sum.saturating_add(indexer.log_faults());
    }
    sum
}

impl<L: SourceLog> Logs<L> {
    /// The sum of their counts of faults, at most 2 ^ 64 - 1.
    pub fn faults(&self) -> u64
        ensures { result ≡ min (sum (map L.fault_count (logs_in self.now))) last_count }
    {
        match self {
            Logs::Unread(logs) => sum_of_unread(logs.as_slice()),
            Logs::Read(indexers) => sum_of_read(indexers.as_slice()),
        }
    }
}

//! The logs of a run as one source.

ghost use Rattle.std.specs.Prelude.{◌≡◌};
ghost use Rattle.source_log.specs.Log.{IsToldLog};
ghost use Rattle.thread_run.specs.Sources.{common};

use source_checkpoint::Partition;
use source_log::{Partitions, ReadError, Records, SourceLog};
use std::alloc::Global;

/// Logs that are read side by side. As one source they tell the log that each of them tells; each is read by itself, and none through this.
#[derive(Drop)]
pub struct Sources<L: SourceLog> {
    pub logs: Vec<L>,
}

impl<L: SourceLog> Sources<L> {
    // What they tell is a log.
    fn sound(&self)
        ensures { IsToldLog (common L.told self.now.logs.items) }
    {
        if let Some(log) = self.logs.as_slice().first() {
            let _ = log.faults();
        }
    }
}

impl<L: SourceLog> SourceLog for Sources<L> {
    ghost use Rattle.std.specs.Prelude.{◌≡◌, refl};
    ghost use Rattle.std.proofs.Common.{◌∙◌};
    ghost use Rattle.byte_fields.specs.Causes.{last_count};
    ghost use Rattle.thread_run.specs.Sources.{common};

    ghost told = { λ sources. common L.told sources.logs.items };

    // Each read through this fails.
    ghost fault_count = { λ sources. last_count };

    ghost since = { λ first now. now.logs.items ≡ first.logs.items };

    fn partitions(&mut self, _alloc: Global) -> Result<Partitions, ReadError> {
        self.sound();
        Err(ReadError::Failed)
    }

    fn read(
        &mut self,
        _alloc: Global,
        _partition: &Partition,
        _from: u64,
        _max: u32,
    ) -> Result<Records, ReadError> {
        self.sound();
        Err(ReadError::Failed)
    }

    fn faults(&self) -> u64 {
        self.sound();
        u64::MAX
    }

    ghost since_itself = { λ sources. refl };

    ghost since_then = { λ first second third a b. b ∙ a };
}

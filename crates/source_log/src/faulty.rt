ghost use Rattle.std.specs.Prelude.{◌≡◌, ◌≤◌, ◌<◌, ◌+◌, ◌^◌, ◌++◌, ◌∷◌, [], ◌↔◌, ℕ, List, length, Some, Contains, OnOk, OnErr, IfOk, IsErrOf};
ghost use Rattle.byte_fields.specs.Causes.{HasCause, following};
ghost use Rattle.source_log.specs.Log.{IsLog, GivesNames, ReadsSlice};
ghost use Rattle.source_log.specs.declared.log.ReadError.TheVariants.{Failed};

use crate::{MemoryLog, Partitions, ReadError, Records, SourceLog};
use byte_fields::Calls;
use source_checkpoint::Partition;
use std::alloc::{AllocError, Global};
use std::marker::Model;

/// A log in memory, some calls of which fail.
#[derive(Drop)]
pub struct FaultyLog {
    log: MemoryLog,
    calls: Calls,
}

impl Model for FaultyLog {
    ghost use Rattle.source_log.specs.Log.{IsLog};
    ghost use Rattle.source_log.specs.Memory.{Faulty};

    ghost Value = { Faulty };

    ghost view = { λ log. record { log = log.log; made = log.calls.made; failing = log.calls.failing.items; faults = log.calls.faults } };

    ghost invariant = { λ log. IsLog log.log };
}

impl FaultyLog {
    /// A reader of this log, none of whose calls is to fail.
    pub fn over(alloc: Global, log: MemoryLog) -> FaultyLog
        ensures { result ≡ record { log = log; made = 0; failing = []; faults = 0 } }
    {
        let _parts = &log.parts;
        FaultyLog {
            log,
            calls: Calls::vacant(alloc),
        }
    }

    /// Makes the call of `partitions` or `read` with this number, counted from 1, fail. An `Err` changes nothing.
    pub fn fail_call(&mut self, number: u64) -> Result<(), AllocError>
        ensures ok { OnOk result (self.new ≡ record self.old { failing = self.old.failing ++ number ∷ [] }) }
        ensures err { OnErr result (self.new ≡ self.old) }
    {
        self.calls.fail_call(number)
    }
}

impl SourceLog for FaultyLog {
    ghost use Rattle.std.proofs.Common.{◌∙◌};
    ghost use Rattle.std.proofs.Math.Nat.{le_refl, le_trans};

    ghost told = { λ log. Some log.log };

    ghost fault_count = { λ log. log.faults };

    ghost since = { λ first now. (now.log ≡ first.log) × (first.faults ≤ now.faults) };

    fn partitions(&mut self, alloc: Global) -> Result<Partitions, ReadError>
        ensures names { GivesNames result self.old.log self.new.log }
        ensures sound { IsLog self.new.log }
        ensures later { (self.new.log ≡ self.old.log) × (self.old.faults ≤ self.new.faults) }
        ensures cause { HasCause self.old.faults self.new.faults (IsErrOf result ReadError.Failed) }
        // It fails exactly where the call's number is among those that are to fail.
        ensures fails { IsErrOf result ReadError.Failed ↔ Contains self.old.failing (following self.old.made) }
        ensures made { self.new.made ≡ following self.old.made }
        ensures failing { self.new.failing ≡ self.old.failing }
    {
        if self.calls.begin().is_err() {
            return Err(ReadError::Failed);
        }
        self.log.partitions(alloc)
    }

    fn read(
        &mut self,
        alloc: Global,
        partition: &Partition,
        from: u64,
        max: u32,
    ) -> Result<Records, ReadError>
        requires { 1 ≤ max }
        ensures slice { ReadsSlice partition.now from max result self.old.log self.new.log }
        ensures bound { IfOk result (λ records. length records.list ≤ max) }
        ensures places { IfOk result (λ records. from + length records.list < 2 ^ 64) }
        ensures sound { IsLog self.new.log }
        ensures later { (self.new.log ≡ self.old.log) × (self.old.faults ≤ self.new.faults) }
        ensures cause { HasCause self.old.faults self.new.faults (IsErrOf result ReadError.Failed) }
        // It fails exactly where the call's number is among those that are to fail.
        ensures fails { IsErrOf result ReadError.Failed ↔ Contains self.old.failing (following self.old.made) }
        ensures made { self.new.made ≡ following self.old.made }
        ensures failing { self.new.failing ≡ self.old.failing }
    {
        if self.calls.begin().is_err() {
            return Err(ReadError::Failed);
        }
        self.log.read(alloc, partition, from, max)
    }

    fn faults(&self) -> u64 {
        self.calls.faults()
    }

    ghost since_itself = { λ log. (λ i. log.log, le_refl log.faults) };

    ghost since_then = { λ first second third a b. (b.0 ∙ a.0, le_trans a.1 b.1) };
}

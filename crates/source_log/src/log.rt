ghost use Rattle.std.specs.Prelude.{◌≡◌, ◌≤◌, ◌<◌, ◌+◌, ◌^◌, ℕ, List, length, Option, IfOk, IsErrOf};
ghost use Rattle.byte_fields.specs.Causes.{HasCause};
ghost use Rattle.source_log.specs.Log.{Log, WhereLogTold, IsToldLog, GivesNames, ReadsSlice};
ghost use Rattle.source_log.specs.declared.log.ReadError.TheVariants.{Failed};

use crate::{Partitions, Records};
use source_checkpoint::Partition;
use std::alloc::{AllocError, Global};

/// Why a log was not read.
#[derive(Debug, Drop)]
pub enum ReadError {
    Memory(AllocError),
    Failed,
}

impl From<AllocError> for ReadError {
    ghost use Rattle.std.specs.Prelude.{◌≡◌};
    ghost use Rattle.source_log.specs.declared.log.ReadError.TheVariants.{Memory};

    ghost from_gives = { λ a e. e ≡ Memory a };

    fn from(refused: AllocError) -> Self {
        ReadError::Memory(refused)
    }
}

/// Partitions of records. A call changes no record.
pub trait SourceLog: Drop {
    /// What it has, where it tells.
    ghost told: { Self → Option Log };

    /// How often it has failed, up to 2 ^ 64 - 1.
    ghost fault_count: { Self → ℕ };

    /// The second is a later state of the first.
    ghost since: { Self → Self → Type 0 };

    /// The names of all partitions, in the order of their bytes.
    fn partitions(&mut self, alloc: Global) -> Result<Partitions, ReadError>
        // Where it tells, the log is as before, and the names are those of its partitions in their order.
        ensures names { WhereLogTold (told self.old) (told self.new) (GivesNames result) }
        ensures sound { IsToldLog (told self.new) }
        ensures later { since self.old self.new }
        ensures cause { HasCause (fault_count self.old) (fault_count self.new) (IsErrOf result ReadError.Failed) };

    /// The records of a partition from a place on, as many as there are up to `max`. A partition that the log
    /// does not have reads as an empty one.
    fn read(
        &mut self,
        alloc: Global,
        partition: &Partition,
        from: u64,
        max: u32,
    ) -> Result<Records, ReadError>
        requires { 1 ≤ max }
        // Where it tells, the log is as before, and the records are that slice of it.
        ensures slice { WhereLogTold (told self.old) (told self.new) (ReadsSlice partition.now from max result) }
        // Over every log.
        ensures bound { IfOk result (λ records. length records.list ≤ max) }
        ensures places { IfOk result (λ records. from + length records.list < 2 ^ 64) }
        ensures sound { IsToldLog (told self.new) }
        ensures later { since self.old self.new }
        ensures cause { HasCause (fault_count self.old) (fault_count self.new) (IsErrOf result ReadError.Failed) };

    /// How often it has failed, up to 2 ^ 64 - 1.
    fn faults(&self) -> u64
        ensures count { result ≡ fault_count self.now }
        ensures sound { IsToldLog (told self.now) };

    /// Each state is a later state of itself.
    ghost since_itself: { (log : Self) → since log log };

    /// What is later than a later state is later.
    ghost since_then: { (first second third : Self) → since first second → since second third → since first third };
}

//! The partitions of one of many indexers.

ghost use Rattle.std.specs.Prelude.{◌≡◌, ◌<◌, IfOk, IsErrOf, Some};
ghost use Rattle.byte_fields.specs.Causes.{HasCause};
ghost use Rattle.source_log.specs.Log.{Log, names_of};
ghost use Rattle.source_log.specs.declared.log.ReadError.TheVariants.{Failed};
ghost use Rattle.run_plan.specs.Every.{every};

use source_log::{Partitions, ReadError, SourceLog};
use std::alloc::{AllocError, Global};

/// The names of every so many, the first of them behind so many others.
pub fn every(
    alloc: Global,
    names: &Partitions,
    count: usize,
    skipped: usize,
) -> Result<Partitions, AllocError>
    requires { skipped < count }
    ensures { IfOk result (λ own. own ≡ every count skipped names.now) }
{
    let mut own = Partitions::vacant(alloc);
    let mut left = skipped;
    for name in names.as_slice() {
        if left == 0 {
            own.push(name.copy())?;
            left = count - 1;
        } else {
            left -= 1;
        }
    }
    Ok(own)
}

/// The partitions of one of so many indexers, by its own log: those of the log, in turn.
pub fn assigned<L: SourceLog>(
    alloc: Global,
    log: &mut L,
    count: usize,
    skipped: usize,
) -> Result<Partitions, ReadError>
    requires { skipped < count }
    ensures later { L.since log.old log.new }
    ensures told { (read : Log) → L.told log.old ≡ Some read → L.told log.new ≡ Some read }
    ensures names { (read : Log) → L.told log.old ≡ Some read → IfOk result (λ own. own ≡ every count skipped (names_of read)) }
    ensures cause { HasCause (L.fault_count log.old) (L.fault_count log.new) (IsErrOf result Failed) }
{
    let names = log.partitions(alloc)?;
    Ok(every(alloc, &names, count, skipped)?)
}

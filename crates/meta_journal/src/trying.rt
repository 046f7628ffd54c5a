//! What is done at one number.

ghost use Rattle.std.specs.Prelude.{◌≡◌, ◌≤◌, ◌<◌, ◌^◌, IfErr, IfOk, IsErrOf};
ghost use Rattle.byte_fields.specs.Causes.{HasCause};
ghost use Rattle.object_store.specs.Store.{WhereTold};
ghost use Rattle.meta_journal.specs.Spelling.{CanSpell};
ghost use Rattle.meta_journal.specs.Journal.{FaultIs, IsOfRead, IsOfAppend, Appends, SettlesAt, Adopts, Tries, fence};

use crate::objects::{create_entry, read_entry};
use crate::{Act, Entry, JournalError, meta_key};
use object_store::{CreateError, ObjectStore};
use std::alloc::Global;
use std::mem;

// The number of an append is taken: by a foreign hand where a place before it was settled, else what stands is adopted.
fn taken<S: ObjectStore>(
    alloc: Global,
    store: &mut S,
    number: u64,
    settled: bool,
    before: u64,
) -> JournalError
    requires { before ≤ S.fault_count store.old }
    ensures adopts { WhereTold (S.told store.old) (S.told store.new) (Adopts number result) }
    ensures faults { FaultIs before (S.fault_count store.new) result }
    ensures later { S.fault_count store.old ≤ S.fault_count store.new }
    ensures kinds { IsOfAppend settled result }
{
    if settled {
        return JournalError::Foreign {
            key: meta_key(number),
        };
    }
    match read_entry(alloc, store, number, before) {
        Ok(entry) => JournalError::Adopted { entry },
        Err(refused) => refused,
    }
}

/// Tries an entry at a number.
pub fn append_at<S: ObjectStore>(
    alloc: Global,
    store: &mut S,
    number: u64,
    entry: &Entry,
    settled: bool,
    before: u64,
) -> Result<u64, JournalError>
    requires can { CanSpell entry.now }
    requires before { before ≡ S.fault_count store.old }
    ensures answer { WhereTold (S.told store.old) (S.told store.new) (Appends number entry.now result) }
    ensures faults { IfErr result (FaultIs before (S.fault_count store.new)) }
    ensures later { S.fault_count store.old ≤ S.fault_count store.new }
    ensures kinds { IfErr result (IsOfAppend settled) }
    ensures number { IfOk result (λ n. n ≡ number) }
{
    match create_entry(alloc, store, number, entry) {
        Ok(()) => Ok(number),
        Err(CreateError::Exists) => Err(taken(alloc, store, number, settled, before)),
        Err(CreateError::Failed) => Err(JournalError::StoreFault {
            before,
            after: store.faults(),
        }),
        Err(CreateError::Memory(refused)) => Err(JournalError::Memory(refused)),
    }
}

// Tries a fence at a number.
fn create_fence<S: ObjectStore>(
    alloc: Global,
    store: &mut S,
    number: u64,
    moment: u64,
) -> Result<(), CreateError>
    requires { moment < 2 ^ 62 }
    ensures tried { WhereTold (S.told store.old) (S.told store.new) (Tries number (fence moment) result) }
    ensures cause { HasCause (S.fault_count store.old) (S.fault_count store.new) (IsErrOf result CreateError.Failed) }
{
    let fence = Entry {
        moment,
        act: Act::Fence,
    };
    let answer = create_entry(alloc, store, number, &fence);
    mem::drop(fence);
    answer
}

/// Tries a fence at a number, and gives what then stands there.
pub fn settle_at<S: ObjectStore>(
    alloc: Global,
    store: &mut S,
    number: u64,
    moment: u64,
    before: u64,
) -> Result<Entry, JournalError>
    requires moment { moment < 2 ^ 62 }
    requires before { before ≡ S.fault_count store.old }
    ensures answer { WhereTold (S.told store.old) (S.told store.new) (SettlesAt number moment result) }
    ensures faults { IfErr result (FaultIs before (S.fault_count store.new)) }
    ensures later { S.fault_count store.old ≤ S.fault_count store.new }
    ensures refusals { IfErr result IsOfRead }
{
    match create_fence(alloc, store, number, moment) {
        Ok(()) => Ok(Entry {
            moment,
            act: Act::Fence,
        }),
        Err(CreateError::Exists) => read_entry(alloc, store, number, before),
        Err(CreateError::Failed) => Err(JournalError::StoreFault {
            before,
            after: store.faults(),
        }),
        Err(CreateError::Memory(refused)) => Err(JournalError::Memory(refused)),
    }
}

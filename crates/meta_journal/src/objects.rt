//! One call of the store, in the words of the journal.

ghost use Rattle.std.specs.Prelude.{◌≡◌, ◌≤◌, IsErrOf, IfErr};
ghost use Rattle.byte_fields.specs.Causes.{HasCause};
ghost use Rattle.object_store.specs.Store.{WhereTold};
ghost use Rattle.meta_journal.specs.Spelling.{CanSpell};
ghost use Rattle.meta_journal.specs.Journal.{DecodesTo, ReadsEntry, FaultIs, IsOfRead, Tries};
ghost use Rattle.meta_journal.specs.Loading.{Looks, IsOfLoad};

use crate::reading::kind_at;
use crate::{Entry, EntryError, JournalError, decode_entry, encode_entry, meta_key};
use object_store::{CreateError, GetError, Key, ObjectStore};
use std::alloc::Global;

// So many bytes of an object are read first; most entries have fewer.
const FRONT: u64 = 65_536;

// The entry that the bytes of an object are.
fn entry_of_object(alloc: Global, key: Key, bytes: &[u8]) -> Result<Entry, JournalError>
    ensures { DecodesTo bytes.now key result }
{
    match decode_entry(alloc, bytes) {
        Ok(entry) => Ok(entry),
        Err(EntryError::Memory(refused)) => Err(JournalError::Memory(refused)),
        Err(_) => Err(JournalError::Corrupt { key }),
    }
}

// The entry of the object with a number, however long the object is.
fn read_whole<S: ObjectStore>(
    alloc: Global,
    store: &mut S,
    number: u64,
    before: u64,
) -> Result<Entry, JournalError>
    requires { before ≤ S.fault_count store.old }
    ensures reads { WhereTold (S.told store.old) (S.told store.new) (ReadsEntry number result) }
    ensures refusals { IfErr result IsOfRead }
    ensures faults { IfErr result (FaultIs before (S.fault_count store.new)) }
    ensures later { S.fault_count store.old ≤ S.fault_count store.new }
{
    let key = meta_key(number);
    match store.get(alloc, &key, 0, u64::MAX) {
        Ok(piece) => entry_of_object(alloc, key, piece.bytes.as_slice()),
        Err(GetError::Absent) => Err(JournalError::Missing { key }),
        Err(GetError::Failed) => Err(JournalError::StoreFault {
            before,
            after: store.faults(),
        }),
        Err(GetError::Memory(refused)) => Err(JournalError::Memory(refused)),
    }
}

/// The entry of the object with a number. `before` is the count of faults when the call of the journal began. Of an object
/// that has more than 65,536 bytes no more than these are read where they begin as no entry does.
pub fn read_entry<S: ObjectStore>(
    alloc: Global,
    store: &mut S,
    number: u64,
    before: u64,
) -> Result<Entry, JournalError>
    requires { before ≤ S.fault_count store.old }
    ensures reads { WhereTold (S.told store.old) (S.told store.new) (ReadsEntry number result) }
    ensures refusals { IfErr result IsOfRead }
    ensures faults { IfErr result (FaultIs before (S.fault_count store.new)) }
    ensures later { S.fault_count store.old ≤ S.fault_count store.new }
{
    let key = meta_key(number);
    match store.get(alloc, &key, 0, FRONT) {
        Ok(piece) => {
            if piece.size <= FRONT {
                return entry_of_object(alloc, key, piece.bytes.as_slice());
            }
            match kind_at(piece.bytes.as_slice()) {
                Ok(_) => read_whole(alloc, store, number, before),
                Err(_) => Err(JournalError::Corrupt { key }),
            }
        }
        Err(GetError::Absent) => Err(JournalError::Missing { key }),
        Err(GetError::Failed) => Err(JournalError::StoreFault {
            before,
            after: store.faults(),
        }),
        Err(GetError::Memory(refused)) => Err(JournalError::Memory(refused)),
    }
}

/// Whether an object with a number stands. `before` is the count of faults when the call of the journal began.
pub fn stands<S: ObjectStore>(
    alloc: Global,
    store: &mut S,
    number: u64,
    before: u64,
) -> Result<bool, JournalError>
    requires { before ≤ S.fault_count store.old }
    ensures looks { WhereTold (S.told store.old) (S.told store.new) (Looks number result) }
    ensures refusals { IfErr result IsOfLoad }
    ensures faults { IfErr result (FaultIs before (S.fault_count store.new)) }
    ensures later { S.fault_count store.old ≤ S.fault_count store.new }
{
    match store.get(alloc, &meta_key(number), 0, 1) {
        Ok(_) => Ok(true),
        Err(GetError::Absent) => Ok(false),
        Err(GetError::Failed) => Err(JournalError::StoreFault {
            before,
            after: store.faults(),
        }),
        Err(GetError::Memory(refused)) => Err(JournalError::Memory(refused)),
    }
}

/// Makes the object of an entry with a number.
pub fn create_entry<S: ObjectStore>(
    alloc: Global,
    store: &mut S,
    number: u64,
    entry: &Entry,
) -> Result<(), CreateError>
    requires { CanSpell entry.now }
    ensures tried { WhereTold (S.told store.old) (S.told store.new) (Tries number entry.now result) }
    ensures cause { HasCause (S.fault_count store.old) (S.fault_count store.new) (IsErrOf result CreateError.Failed) }
{
    match encode_entry(alloc, entry) {
        Ok(bytes) => store.create(alloc, &meta_key(number), bytes.as_slice()),
        Err(refused) => Err(CreateError::Memory(refused)),
    }
}

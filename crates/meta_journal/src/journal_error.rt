//! Why a call of the journal did not go through.

use crate::Entry;
use object_store::Key;
use std::alloc::AllocError;

/// Why a call of the journal did not go through.
#[derive(Drop)]
pub enum JournalError {
    Memory(AllocError),
    /// The place of an append was taken by this entry, which stands there.
    Adopted { entry: Entry },
    /// The store failed: its count of faults before the call and after it.
    StoreFault { before: u64, after: u64 },
    /// A key under `meta/` that no entry of this journal has.
    Foreign { key: Key },
    /// The object's bytes are no entry.
    Corrupt { key: Key },
    /// No further entry has a number.
    Full,
    /// A key that stood is absent.
    Missing { key: Key },
}

ghost use Rattle.std.specs.Prelude.{◌≡◌, ◌≤◌, ◌<◌, ◌^◌, List, ℕ, length, take, drop, Option, IfOk, IsErr, IsErrOf};
ghost use Rattle.std.specs.Option.{option_copied};
ghost use Rattle.byte_fields.specs.Causes.{HasCause};
ghost use Rattle.object_store.specs.Store.{State, AfterLanding, Creates, Gets, Deletes, Lists, given_more};

use crate::{Key, Keys};
use byte_fields::{Bytes, Failed};
use std::alloc::{AllocError, Global};
use thiserror::Error;

/// Why an object was not created.
#[derive(Debug, Drop, Error)]
pub enum CreateError {
    #[error("out of memory")]
    Memory(AllocError),
    /// The key stands; nothing changed.
    #[error("the key stands")]
    Exists,
    /// The store failed: the object came to stand, or may yet.
    #[error("the create failed")]
    Failed,
}

/// Why an object was not read.
#[derive(Debug, Drop, Error)]
pub enum GetError {
    #[error("out of memory")]
    Memory(AllocError),
    /// The key does not stand.
    #[error("no object stands under the key")]
    Absent,
    #[error("the read failed")]
    Failed,
}

/// Why keys were not listed.
#[derive(Debug, Drop, Error)]
pub enum ListError {
    #[error("out of memory")]
    Memory(AllocError),
    #[error("the listing failed")]
    Failed,
}

impl From<AllocError> for CreateError {
    ghost use Rattle.std.specs.Prelude.{◌≡◌};
    ghost use Rattle.object_store.specs.declared.store.CreateError.TheVariants.{Memory};

    ghost from_gives = { λ a e. e ≡ Memory a };

    fn from(refused: AllocError) -> Self {
        CreateError::Memory(refused)
    }
}

impl From<AllocError> for GetError {
    ghost use Rattle.std.specs.Prelude.{◌≡◌};
    ghost use Rattle.object_store.specs.declared.store.GetError.TheVariants.{Memory};

    ghost from_gives = { λ a e. e ≡ Memory a };

    fn from(refused: AllocError) -> Self {
        GetError::Memory(refused)
    }
}

impl From<AllocError> for ListError {
    ghost use Rattle.std.specs.Prelude.{◌≡◌};
    ghost use Rattle.object_store.specs.declared.store.ListError.TheVariants.{Memory};

    ghost from_gives = { λ a e. e ≡ Memory a };

    fn from(refused: AllocError) -> Self {
        ListError::Memory(refused)
    }
}

/// Some bytes of an object, and how many it has in all.
#[derive(Drop)]
pub struct Piece {
    pub bytes: Bytes,
    pub size: u64,
}

/// Objects under keys. A failed create may take effect at once, as a later call begins while its key is absent, or never.
/// A failed delete took effect or never will.
pub trait ObjectStore {
    /// What it holds, where it tells.
    ghost told: { Self → Option State };

    /// How often it has failed, up to 2 ^ 64 - 1.
    ghost fault_count: { Self → ℕ };

    /// How many bytes of objects it has given, up to 2 ^ 64 - 1.
    ghost given: { Self → ℕ };

    /// Makes an object under a key that is absent. An object that stands keeps its bytes.
    fn create(&mut self, alloc: Global, key: &Key, content: &[u8]) -> Result<(), CreateError>
        ensures step { AfterLanding (told self.old) (told self.new) (Creates key.now content.now result) }
        ensures cause { HasCause (fault_count self.old) (fault_count self.new) (IsErrOf result CreateError.Failed) };

    /// The object's bytes from `from` on, as many as there are up to `len`, and its whole size.
    fn get(&mut self, alloc: Global, key: &Key, from: u64, len: u64) -> Result<Piece, GetError>
        ensures step { AfterLanding (told self.old) (told self.new) (Gets key.now from len result) }
        ensures bound { IfOk result (λ piece. length piece.bytes ≤ len) }
        ensures given { given self.new ≡ given_more result (given self.old) }
        ensures cause { HasCause (fault_count self.old) (fault_count self.new) (IsErrOf result GetError.Failed) };

    /// Removes an object. An absent key is `Ok`. It takes no memory.
    fn delete(&mut self, key: &Key) -> Result<(), Failed>
        ensures step { AfterLanding (told self.old) (told self.new) (Deletes key.now result) }
        ensures cause { HasCause (fault_count self.old) (fault_count self.new) (IsErr result) };

    /// The first `max` keys, in the order of their bytes, that begin with the prefix and are greater than `after`.
    fn list(
        &mut self,
        alloc: Global,
        prefix: &Key,
        after: Option<&Key>,
        max: u32,
    ) -> Result<Keys, ListError>
        requires { 1 ≤ max }
        ensures step { AfterLanding (told self.old) (told self.new) (Lists prefix.now (option_copied after.entry) max result) }
        ensures bound { IfOk result (λ keys. length keys ≤ max) }
        ensures cause { HasCause (fault_count self.old) (fault_count self.new) (IsErrOf result ListError.Failed) };

    /// How often it has failed, up to 2 ^ 64 - 1.
    fn faults(&self) -> u64
        ensures { result ≡ fault_count self.now };
}

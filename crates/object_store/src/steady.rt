ghost use Rattle.std.specs.Prelude.{◌≡◌, [], IfOk, IsErr, IsErrOf, length, ◌≤◌, None, Some};
ghost use Rattle.std.specs.Option.{option_copied};
ghost use Rattle.std.specs.FinMap as finmap;

use crate::given::given_behind;
use crate::kept::Kept;
use crate::{CreateError, GetError, Key, Keys, ListError, ObjectStore, Piece};
use byte_fields::Failed;
use std::alloc::Global;

/// Objects in memory. None of its calls fails.
#[derive(Drop)]
pub struct SteadyStore {
    kept: Kept,
    // How many bytes it gave.
    given: u64,
}

impl SteadyStore {
    ghost use Rattle.object_store.specs.SteadyStore.{steady_state};

    /// No objects, and nothing late.
    pub fn vacant(alloc: Global) -> SteadyStore
        ensures objects { (steady_state result).objects ≡ finmap.empty }
        ensures late { (steady_state result).late ≡ [] }
    {
        SteadyStore {
            kept: Kept::vacant(alloc),
            given: 0,
        }
    }
}

impl ObjectStore for SteadyStore {
    ghost use Rattle.object_store.specs.SteadyStore.{steady_state};
    ghost use Rattle.object_store.specs.Store.{AfterLanding, Creates, Gets, Deletes, Lists};

    ghost told = { λ s. Some (steady_state s) };

    ghost fault_count = { λ _. 0 };

    ghost given = { λ s. s.given };

    fn create(&mut self, alloc: Global, key: &Key, content: &[u8]) -> Result<(), CreateError> {
        self.kept.create(alloc, key, content)
    }

    fn get(&mut self, alloc: Global, key: &Key, from: u64, len: u64) -> Result<Piece, GetError> {
        let answer = self.kept.shelf.get(alloc, key, from, len);
        self.given = given_behind(self.given, &answer);
        answer
    }

    fn delete(&mut self, key: &Key) -> Result<(), Failed> {
        self.kept.take_out(key);
        Ok(())
    }

    fn list(
        &mut self,
        alloc: Global,
        prefix: &Key,
        after: Option<&Key>,
        max: u32,
    ) -> Result<Keys, ListError> {
        self.kept.shelf.list(alloc, prefix, after, max)
    }

    /// Always 0.
    fn faults(&self) -> u64
        ensures { result ≡ 0 }
    {
        0
    }
}

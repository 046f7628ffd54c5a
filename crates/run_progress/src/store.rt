//! A store whose split files are counted.

ghost use Rattle.std.specs.Prelude.{◌≡◌};

use crate::Progress;
use byte_fields::Failed;
use meta_journal::split_number;
use object_store::{CreateError, GetError, Key, Keys, ListError, ObjectStore, Piece};
use std::alloc::Global;
use std::marker::Model;
use std::time::Clock;

/// A store, which contracts see as the one that it calls. Each create of a split file that it says was done is counted.
#[derive(Drop)]
pub struct CountedStore<'a, S: ObjectStore, R: Eprint + Clock> {
    store: S,
    progress: &'a Progress<'a, R>,
}

impl<'a, S: ObjectStore, R: Eprint + Clock> Model for CountedStore<'a, S, R> {
    ghost Value = { S };

    ghost coded = { S.code };

    ghost view = { λ it. it.store };
}

impl<'a, S: ObjectStore, R: Eprint + Clock> CountedStore<'a, S, R> {
    pub fn over(store: S, progress: &'a Progress<'a, R>) -> CountedStore<'a, S, R>
        ensures { result ≡ store }
    {
        CountedStore { store, progress }
    }

    /// The store that it calls.
    pub fn store(&self) -> &S
        ensures { result.now ≡ self.now }
    {
        &self.store
    }
}

impl<'a, S: ObjectStore, R: Eprint + Clock> ObjectStore for CountedStore<'a, S, R> {
    ghost told = { S.told };

    ghost fault_count = { S.fault_count };

    ghost given = { S.given };

    fn create(&mut self, alloc: Global, key: &Key, content: &[u8]) -> Result<(), CreateError> {
        let created = self.store.create(alloc, key, content);
        if created.is_ok() && split_number(key).is_some() {
            self.progress.add_split();
        }
        created
    }

    fn get(&mut self, alloc: Global, key: &Key, from: u64, len: u64) -> Result<Piece, GetError> {
        self.progress.tick();
        self.store.get(alloc, key, from, len)
    }

    fn delete(&mut self, key: &Key) -> Result<(), Failed> {
        self.progress.tick();
        self.store.delete(key)
    }

    fn list(
        &mut self,
        alloc: Global,
        prefix: &Key,
        after: Option<&Key>,
        max: u32,
    ) -> Result<Keys, ListError> {
        self.store.list(alloc, prefix, after, max)
    }

    fn faults(&self) -> u64 {
        self.store.faults()
    }
}

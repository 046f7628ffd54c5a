//! Files in memory.

ghost use Rattle.std.specs.Prelude.{◌≡◌, ◌≤◌, ◌<◌, ◌+◌, List as Items, ℕ, false, None, MatchOption, Some, IfOk, OnOk, OnErr, is_some};
ghost use Rattle.real_edge.specs.Disk.{Begins, Names};
ghost use Rattle.std.specs.FinMap as finmap;

use crate::shelf_files::{self, Object};
use byte_fields::{Bytes, List};
use std::alloc::{AllocError, Global};
use std::marker::Model;

/// Objects in the order of their keys, which contracts see as a finite map, and room for more.
#[derive(Drop)]
pub struct Shelf {
    held: Vec<Object>,
}

impl Model for Shelf {
    ghost use Rattle.std.specs.Prelude.{◌-◌, vec_len, vec_capacity};
    ghost use Rattle.std.specs.FinMap as finmap;
    ghost use Rattle.real_edge.specs.Entries.{entries, IsInOrder};
    ghost use Rattle.real_edge.specs.Shelved.{Shelved, shelved_code};

    ghost Value = { Shelved };

    ghost coded = { shelved_code };

    ghost view = { λ s. record { objects = finmap.from_sorted (entries s.held.items); spare = vec_capacity s.held - vec_len s.held } };

    ghost invariant = { λ s. IsInOrder s.held.items };
}

impl Shelf {
    pub fn vacant(alloc: Global) -> Shelf
        ensures { result.objects ≡ finmap.empty }
    {
        Shelf {
            held: Vec::new(alloc),
        }
    }

    pub fn find(&self, key: &[u8]) -> Option<&Bytes>
        ensures { MatchOption result (finmap.get self.now.objects key.now ≡ None) (λ b. finmap.get self.now.objects key.now ≡ Some b.now) }
    {
        shelf_files::find(&self.held, key)
    }

    /// Makes room for so many more.
    pub fn reserve(&mut self, count: usize) -> Result<(), AllocError>
        ensures objects { self.new.objects ≡ self.old.objects }
        ensures room { OnOk result (count ≤ self.new.spare) }
        ensures spare { self.old.spare ≤ self.new.spare }
    {
        self.held.reserve(count)
    }

    /// Puts an object where there is room for it.
    pub fn put(&mut self, object: Object)
        requires absent { finmap.get self.old.objects object.key ≡ None }
        requires room { 0 < self.old.spare }
        ensures objects { self.new.objects ≡ finmap.insert self.old.objects object.key object.content }
        ensures spare { self.old.spare ≤ self.new.spare + 1 }
    {
        shelf_files::insert(&mut self.held, object);
    }

    pub fn take_out(&mut self, key: &[u8])
        ensures objects { self.new.objects ≡ finmap.remove self.old.objects key.now }
        ensures spare { self.old.spare ≤ self.new.spare }
    {
        shelf_files::remove(&mut self.held, key);
    }

    pub fn stands(&self, key: &[u8]) -> bool
        ensures { result ≡ is_some (finmap.get self.now.objects key.now) }
    {
        match self.find(key) {
            Some(_) => true,
            None => false,
        }
    }

    /// A copy of the bytes under a name.
    pub fn copy_of(&self, alloc: Global, key: &[u8]) -> Result<Option<Bytes>, AllocError>
        ensures { IfOk result (λ copy. copy ≡ finmap.get self.now.objects key.now) }
    {
        match self.find(key) {
            Some(content) => match Bytes::from_slice(alloc, content.as_slice()) {
                Ok(copy) => Ok(Some(copy)),
                Err(refused) => Err(refused),
            },
            None => Ok(None),
        }
    }

    /// A copy of all.
    pub fn copy(&self, alloc: Global) -> Result<Shelf, AllocError>
        ensures { IfOk result (λ copy. copy.objects ≡ self.now.objects) }
    {
        Ok(Shelf {
            held: shelf_files::copied(alloc, &self.held)?,
        })
    }

    /// The first parts of the names in a folder.
    pub fn parts(&self, alloc: Global, folder: &[u8]) -> Result<List<Bytes>, AllocError>
        ensures { IfOk result (λ names. Names folder.now names self.now.objects) }
    {
        shelf_files::parts(alloc, &self.held, folder)
    }

    /// Whether some name begins so.
    pub fn has_front(&self, front: &[u8]) -> bool
        ensures { result ≡ false → (q : Items ℕ) → Begins front.now q → finmap.get self.now.objects q ≡ None }
    {
        shelf_files::has_front(&self.held, front)
    }

    /// Puts a file where no name like it stands, and makes the room for it first.
    pub fn add(&mut self, alloc: Global, key: &[u8], content: &[u8]) -> Result<(), AllocError>
        requires { finmap.get self.old.objects key.now ≡ None }
        ensures ok { OnOk result (self.new.objects ≡ finmap.insert self.old.objects key.now content.now) }
        ensures err { OnErr result (self.new.objects ≡ self.old.objects) }
    {
        let key = Bytes::from_slice(alloc, key)?;
        let content = Bytes::from_slice(alloc, content)?;
        self.reserve(1)?;
        self.put(Object { key, content });
        Ok(())
    }
}

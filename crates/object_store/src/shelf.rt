ghost use Rattle.std.specs.Prelude.{◌≡◌, ◌≤◌, ◌<◌, ◌+◌, None, Some, MatchOption, IfOk, OnOk, take, length, IsErrOf};
ghost use Rattle.std.specs.Option.{option_copied};
ghost use Rattle.std.specs.FinMap as finmap;
ghost use Rattle.object_store.specs.Store.{listed, Finds, IsPieceOf};

use crate::objects::Object;
use crate::{GetError, Key, Keys, ListError, Piece, objects};
use byte_fields::Bytes;
use std::alloc::{AllocError, Global};
use std::marker::Model;

/// Objects in the order of their keys, which contracts see as a finite map, and room for more.
#[derive(Drop)]
pub struct Shelf {
    held: Vec<Object>,
}

impl Model for Shelf {
    ghost use Rattle.std.specs.Prelude.{◌-◌, vec_len, vec_capacity};
    ghost use Rattle.std.specs.FinMap as finmap;
    ghost use Rattle.object_store.specs.Entries.{entries, IsInOrder};
    ghost use Rattle.object_store.specs.Shelved.{Shelved, shelved_code};

    ghost Value = { Shelved };

    ghost coded = { shelved_code };

    ghost view = { λ s. record { objects = finmap.from_sorted (entries s.held.items); spare = vec_capacity s.held - vec_len s.held } };

    ghost invariant = { λ s. IsInOrder s.held.items };
}

// The bytes from a place on, as many as there are up to a number.
fn piece_of(alloc: Global, content: &Bytes, from: u64, len: u64) -> Result<Piece, AllocError>
    ensures piece { IfOk result (IsPieceOf content.now from len) }
    ensures bound { IfOk result (λ piece. length piece.bytes ≤ len) }
{
    let size = content.len();
    let start = size.min(from as usize);
    let count = (size - start).min(len as usize);
    let bytes = Bytes::from_slice(alloc, &content.as_slice()[start..start + count])?;
    Ok(Piece {
        bytes,
        size: size as u64,
    })
}

impl Shelf {
    pub fn vacant(alloc: Global) -> Shelf
        ensures { result.objects ≡ finmap.empty }
    {
        Shelf {
            held: Vec::new(alloc),
        }
    }

    pub fn find(&self, key: &Key) -> Option<&Bytes>
        ensures { MatchOption result (finmap.get self.now.objects key.now ≡ None) (λ b. finmap.get self.now.objects key.now ≡ Some b.now) }
    {
        objects::find(&self.held, key)
    }

    /// Makes room for so many more.
    pub fn reserve(&mut self, count: usize) -> Result<(), AllocError>
        ensures objects { self.new.objects ≡ self.old.objects }
        ensures room { OnOk result (count ≤ self.new.spare) }
        ensures spare { self.old.spare ≤ self.new.spare }
    {
        self.held.reserve(count)
    }

    /// Puts an object where there is room for it.
    pub fn put(&mut self, object: Object)
        requires absent { finmap.get self.old.objects object.key ≡ None }
        requires room { 0 < self.old.spare }
        ensures objects { self.new.objects ≡ finmap.insert self.old.objects object.key object.content }
        ensures spare { self.old.spare ≤ self.new.spare + 1 }
    {
        objects::insert(&mut self.held, object);
    }

    pub fn take_out(&mut self, key: &Key)
        ensures objects { self.new.objects ≡ finmap.remove self.old.objects key.now }
        ensures spare { self.old.spare ≤ self.new.spare }
    {
        objects::remove(&mut self.held, key);
    }

    pub fn get(&self, alloc: Global, key: &Key, from: u64, len: u64) -> Result<Piece, GetError>
        ensures finds { Finds (finmap.get self.now.objects key.now) from len result }
        ensures bound { IfOk result (λ piece. length piece.bytes ≤ len) }
        ensures goes { IsErrOf result GetError.Failed → ⊥ }
    {
        match self.find(key) {
            None => Err(GetError::Absent),
            Some(content) => Ok(piece_of(alloc, content, from, len)?),
        }
    }

    pub fn list(
        &self,
        alloc: Global,
        prefix: &Key,
        after: Option<&Key>,
        max: u32,
    ) -> Result<Keys, ListError>
        ensures keys { IfOk result (λ keys. keys ≡ take max (listed prefix.now (option_copied after.entry) self.now.objects)) }
        ensures bound { IfOk result (λ keys. length keys ≤ max) }
        ensures goes { IsErrOf result ListError.Failed → ⊥ }
    {
        let start = objects::start_of(&self.held, prefix, after);
        match objects::listed(alloc, &self.held[start..], prefix, after, max) {
            Ok(keys) => Ok(keys),
            Err(refused) => Err(ListError::Memory(refused)),
        }
    }
}

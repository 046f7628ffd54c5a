//! Entries in a list.

ghost use Rattle.std.specs.Prelude.{◌≡◌, ◌<◌, ◌^◌, ◌++◌, ◌∷◌, [], ◌↔◌, length, slice_index_or, OnOk, OnErr, IsTrue};

use crate::Entry;
use std::alloc::{AllocError, Global};
use std::marker::Model;

/// Entries in their order, which contracts see as a list.
#[derive(Drop)]
pub struct Entries {
    held: Vec<Entry>,
}

impl Model for Entries {
    ghost use Rattle.std.specs.Prelude.{List};
    ghost use Rattle.meta_journal.specs.declared.entry.Entry.{Entry};

    ghost Value = { List Entry };

    ghost view = { λ e. e.held.items };
}

impl Entries {
    /// No entries yet.
    pub fn vacant(alloc: Global) -> Entries
        ensures { result ≡ [] }
    {
        Entries {
            held: Vec::new(alloc),
        }
    }

    pub fn as_slice(&self) -> &[Entry]
        ensures { result.now ≡ self.now }
    {
        &self.held
    }

    pub fn into_vec(self) -> Vec<Entry>
        ensures { result.items ≡ self }
    {
        let Entries { held } = self;
        held
    }

    pub fn len(&self) -> usize
        ensures value { result ≡ length self.now }
        ensures room { length self.now < 2 ^ 63 }
    {
        self.held.len()
    }

    pub fn is_empty(&self) -> bool
        ensures { IsTrue result ↔ (self.now ≡ []) }
    {
        self.held.as_slice().is_empty()
    }

    pub fn at(&self, index: usize) -> &Entry
        requires { index < length self.now }
        ensures { result.now ≡ slice_index_or self.now index result.now }
    {
        &self.held[index]
    }

    /// Appends an entry. An `Err` changes nothing.
    pub fn push(&mut self, entry: Entry) -> Result<(), AllocError>
        ensures ok { OnOk result (self.new ≡ self.old ++ entry ∷ []) }
        ensures err { OnErr result (self.new ≡ self.old) }
    {
        self.held.push(entry)?;
        Ok(())
    }
}

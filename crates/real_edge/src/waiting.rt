//! Names that wait, in the order of their bytes.

ghost use Rattle.std.specs.Prelude.{◌≡◌, ◌⊎◌, [], Contains, IfSome, IfNone, OnOk};
ghost use Rattle.real_edge.specs.declared.waiting.Wait.{Wait};
ghost use Rattle.real_edge.specs.Waiting.{IsFirst};

use object_store::Key;
use std::alloc::{AllocError, Global};
use std::marker::Model;

/// A name to be looked at, or a folder to be read, whose key ends in a slash.
#[derive(Clone, Copy)]
pub struct Wait {
    pub key: Key,
    pub is_folder: bool,
}

/// Names that wait, of which the first is taken. Contracts see them as a list.
#[derive(Drop)]
pub struct Waiting {
    held: Vec<Wait>,
}

impl Model for Waiting {
    ghost use Rattle.std.specs.Prelude.{List, IsSortedBy};
    ghost use Rattle.real_edge.specs.declared.waiting.Wait.{Wait};
    ghost use Rattle.real_edge.specs.Waiting.{is_behind_key};

    ghost Value = { List Wait };

    ghost view = { λ w. w.held.items };

    ghost invariant = { λ w. IsSortedBy is_behind_key w.held.items };
}

impl Waiting {
    pub fn none(alloc: Global) -> Waiting
        ensures { result ≡ [] }
    {
        Waiting {
            held: Vec::new(alloc),
        }
    }

    /// The first, which no more waits.
    pub fn pop(&mut self) -> Option<Wait>
        ensures first { IfSome result (λ w. IsFirst w.key self.new) }
        ensures rest { IfSome result (λ w. (x : Wait) → Contains self.old x → (x ≡ w) ⊎ Contains self.new x) }
        ensures none { IfNone result (self.old ≡ []) }
    {
        self.held.pop()
    }

    /// One more.
    pub fn put(&mut self, one: Wait) -> Result<(), AllocError>
        ensures one { OnOk result (Contains self.new one) }
        ensures rest { OnOk result ((x : Wait) → Contains self.old x → Contains self.new x) }
    {
        self.put_all(&[one])
    }

    /// All of these besides.
    pub fn put_all(&mut self, found: &[Wait]) -> Result<(), AllocError>
        ensures found { OnOk result ((x : Wait) → Contains found.now x → Contains self.new x) }
        ensures rest { OnOk result ((x : Wait) → Contains self.old x → Contains self.new x) }
    {
        self.held.extend_from_slice(found)?;
        self.held
            .sort_unstable_by(|one, other| other.key.compare(&one.key));
        Ok(())
    }
}

ghost use Rattle.std.specs.Prelude.{◌≡◌, ◌<◌, ◌^◌, ◌++◌, ◌∷◌, [], ◌↔◌, length, slice_index_or, OnOk, OnErr, IfOk, IsTrue};

use byte_fields::{Bytes, List};
use source_checkpoint::Partition;
use std::alloc::{AllocError, Global};
use std::marker::Model;

/// Records in their order, each the bytes that it has.
#[derive(Drop)]
pub struct RecordList {
    held: Vec<Bytes>,
}

impl Model for RecordList {
    ghost use Rattle.std.specs.Prelude.{List, ℕ};

    ghost Value = { List (List ℕ) };

    ghost view = { λ r. r.held.items };
}

impl RecordList {
    /// No records yet.
    pub fn vacant(alloc: Global) -> RecordList
        ensures { result ≡ [] }
    {
        RecordList {
            held: Vec::new(alloc),
        }
    }

    pub fn as_slice(&self) -> &[Bytes]
        ensures { result.now ≡ self.now }
    {
        &self.held
    }

    pub fn len(&self) -> usize
        ensures { result ≡ length self.now }
    {
        self.held.len()
    }

    pub fn is_empty(&self) -> bool
        ensures { IsTrue result ↔ (self.now ≡ []) }
    {
        self.held.as_slice().is_empty()
    }

    pub fn at(&self, index: usize) -> &Bytes
        requires { index < length self.now }
        ensures { result.now ≡ slice_index_or self.now index result.now }
    {
        &self.held[index]
    }

    /// Appends a record. An `Err` changes nothing.
    pub fn push(&mut self, bytes: Bytes) -> Result<(), AllocError>
        ensures room { length self.new < 2 ^ 63 }
        ensures ok { OnOk result (self.new ≡ self.old ++ bytes ∷ []) }
        ensures err { OnErr result (self.new ≡ self.old) }
    {
        self.held.push(bytes)?;
        Ok(())
    }
}

/// What a read gives: the records from its first place on, and whether they are the last ones.
#[derive(Drop)]
pub struct Records {
    pub list: RecordList,
    pub end: bool,
}

/// The names of partitions in their order.
pub type Partitions = List<Partition>;

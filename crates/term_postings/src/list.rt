ghost use Rattle.std.specs.Prelude.{◌≡◌, ◌<◌, ◌++◌, [], ◌∷◌, length, OnOk, OnErr, Some, slice_get, IsTrue, ◌↔◌};

use std::alloc::{AllocError, Global};
use std::marker::Model;

/// Positions of one document, which contracts see as a list.
#[derive(Drop)]
pub struct Positions {
    numbers: Vec<u64>,
}

impl Model for Positions {
    ghost use Rattle.std.specs.Prelude.{List, ℕ};

    ghost Value = { List ℕ };

    ghost view = { λ p. p.numbers.items };
}

impl Positions {
    /// No positions.
    pub fn vacant(alloc: Global) -> Positions
        ensures { result ≡ [] }
    {
        Positions {
            numbers: Vec::new(alloc),
        }
    }

    pub fn len(&self) -> usize
        ensures { result ≡ length self.now }
    {
        self.numbers.len()
    }

    pub fn is_empty(&self) -> bool
        ensures { IsTrue result ↔ (self.now ≡ []) }
    {
        self.numbers.is_empty()
    }

    pub fn at(&self, index: usize) -> u64
        requires { index < length self.now }
        ensures { slice_get self.now index ≡ Some result }
    {
        self.numbers[index]
    }

    /// Adds a position at the end. An `Err` changes nothing.
    pub fn push(&mut self, position: u64) -> Result<(), AllocError>
        ensures ok { OnOk result (self.new ≡ self.old ++ position ∷ []) }
        ensures err { OnErr result (self.new ≡ self.old) }
    {
        self.numbers.push(position)?;
        Ok(())
    }

    pub fn as_slice(&self) -> &[u64]
        ensures { result.now ≡ self.now }
    {
        &self.numbers
    }
}

/// A document and the positions of the term in it.
#[derive(Drop)]
pub struct Posting {
    pub document: u32,
    pub positions: Positions,
}

/// A document and the positions of the term in it, lent.
#[derive(Clone, Copy)]
pub struct Row<'a> {
    pub document: u32,
    pub positions: &'a [u64],
}

/// The documents of a term, which contracts see as a list.
#[derive(Drop)]
pub struct PostingList {
    postings: Vec<Posting>,
}

impl Model for PostingList {
    ghost use Rattle.std.specs.Prelude.{List};
    ghost use Rattle.term_postings.specs.declared.list.Posting.{Posting};

    ghost Value = { List Posting };

    ghost view = { λ l. l.postings.items };
}

impl PostingList {
    /// No documents.
    pub fn vacant(alloc: Global) -> PostingList
        ensures { result ≡ [] }
    {
        PostingList {
            postings: Vec::new(alloc),
        }
    }

    pub fn len(&self) -> usize
        ensures { result ≡ length self.now }
    {
        self.postings.len()
    }

    pub fn is_empty(&self) -> bool
        ensures { IsTrue result ↔ (self.now ≡ []) }
    {
        self.postings.is_empty()
    }

    pub fn at(&self, index: usize) -> &Posting
        requires { index < length self.now }
        ensures { slice_get self.now index ≡ Some result.now }
    {
        &self.postings[index]
    }

    /// Adds a document at the end. An `Err` changes nothing.
    pub fn push(&mut self, posting: Posting) -> Result<(), AllocError>
        ensures ok { OnOk result (self.new ≡ self.old ++ posting ∷ []) }
        ensures err { OnErr result (self.new ≡ self.old) }
    {
        self.postings.push(posting)?;
        Ok(())
    }

    pub fn as_slice(&self) -> &[Posting]
        ensures { result.now ≡ self.now }
    {
        &self.postings
    }
}

ghost use Rattle.std.specs.Prelude.{◌≡◌, ◌<◌, ◌++◌, [], ◌∷◌, length, OnOk, OnErr, Some, slice_get, IsTrue, ◌↔◌};
ghost use Rattle.term_dict.specs.Firsts.{before_first};

use crate::index::is_below;
use byte_fields::Bytes;
use std::alloc::{AllocError, Global};
use std::marker::Model;

/// Where the documents and the positions of a term stand.
#[derive(Clone, Copy, PartialEq, Eq)]
pub struct TermInfo {
    /// How many documents have the term.
    pub docs: u32,
    /// Where its list starts in the section of postings, and the list's length in bytes.
    pub postings: u64,
    pub postings_len: u64,
    /// Where its positions start in the section of positions, and their length in bytes.
    pub positions: u64,
    pub positions_len: u64,
}

/// A key and what it leads to.
#[derive(Drop)]
pub struct Term {
    pub key: Bytes,
    pub info: TermInfo,
}

/// Terms that contracts see as a list.
#[derive(Drop)]
pub struct TermList {
    terms: Vec<Term>,
}

impl Model for TermList {
    ghost use Rattle.std.specs.Prelude.{List};
    ghost use Rattle.term_dict.specs.declared.term.Term.{Term};

    ghost Value = { List Term };

    ghost view = { λ l. l.terms.items };
}

impl TermList {
    ghost use Rattle.term_dict.specs.Terms.{IsRising};

    /// No terms.
    pub fn vacant(alloc: Global) -> TermList
        ensures { result ≡ [] }
    {
        TermList {
            terms: Vec::new(alloc),
        }
    }

    pub fn len(&self) -> usize
        ensures { result ≡ length self.now }
    {
        self.terms.len()
    }

    pub fn is_empty(&self) -> bool
        ensures { IsTrue result ↔ (self.now ≡ []) }
    {
        self.terms.is_empty()
    }

    pub fn at(&self, index: usize) -> &Term
        requires { index < length self.now }
        ensures { slice_get self.now index ≡ Some result.now }
    {
        &self.terms[index]
    }

    /// Adds a term at the end. An `Err` changes nothing.
    pub fn push(&mut self, term: Term) -> Result<(), AllocError>
        ensures ok { OnOk result (self.new ≡ self.old ++ term ∷ []) }
        ensures err { OnErr result (self.new ≡ self.old) }
    {
        self.terms.push(term)?;
        Ok(())
    }

    /// Whether each key stands before the keys behind it.
    pub fn is_rising(&self) -> bool
        ensures { IsTrue result ↔ IsRising self.now }
    {
        let mut rest = self.as_slice();
        while let Some((first, behind)) = rest.split_first() {
            if !stands_before(&first.key, behind) {
                return false;
            }
            rest = behind;
        }
        true
    }

    pub fn as_slice(&self) -> &[Term]
        ensures { result.now ≡ self.now }
    {
        &self.terms
    }
}

// Whether a key stands before the first of these terms, if there is one.
fn stands_before(key: &Bytes, terms: &[Term]) -> bool
    ensures { result ≡ before_first key.now terms.now }
{
    match terms.first() {
        None => true,
        Some(term) => is_below(key.as_slice(), term.key.as_slice()),
    }
}

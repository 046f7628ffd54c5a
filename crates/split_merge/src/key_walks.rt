//! Walks over the terms of several dictionaries side by side.

ghost use Rattle.std.specs.Prelude.{◌≡◌, ◌∷◌, ◌++◌, [], ℕ, List, Some, length, true, IsTrue, IfSome, ◌↔◌, MatchOption, MatchResult, OnOk};
ghost use Rattle.std.specs.Option.{option_copied};
ghost use Rattle.term_dict.specs.Keys.{is_below};
ghost use Rattle.term_dict.specs.Readers.{IsOver, Lends};
ghost use Rattle.term_dict.specs.Terms.{IsRising};
ghost use Rattle.term_dict.specs.declared.term.Term.{Term};
ghost use Rattle.split_merge.specs.Faults.{IsWant};
ghost use Rattle.split_merge.specs.declared.key_walks.KeyWalk.{KeyWalk};
ghost use Rattle.split_merge.specs.Walking.{FrontIs, GivesTerms, IsAt, IsFront, WasFront, is_before, key_of, lesser};

use crate::lists::fault_in;
use split_bundle::{Section, SplitError};
use std::cmp::Ordering;
use term_dict::{Dict, TermInfo, TermRange};

/// A walk over the terms of a dictionary, with the term that it stands at, unless it is at its end.
#[derive(Clone, Copy)]
pub(crate) struct KeyWalk<'a> {
    pub(crate) terms: TermRange<'a>,
    pub(crate) next: Option<(&'a [u8], TermInfo)>,
}

// Whether a key stands before another one.
fn is_below(key: &[u8], other: &[u8]) -> bool
    ensures { result ≡ is_below key.now other.now }
{
    key.cmp(other) == Ordering::Less
}

// Whether two keys are the same.
fn is_same(key: &[u8], other: &[u8]) -> bool
    ensures { IsTrue result ↔ (key.now ≡ other.now) }
{
    key == other
}

// The lesser of two keys that there may be.
fn lesser<'a>(key: Option<&'a [u8]>, other: Option<&'a [u8]>) -> Option<&'a [u8]>
    ensures { option_copied result ≡ lesser (option_copied key.entry) (option_copied other.entry) }
{
    match (key, other) {
        (Some(key), Some(other)) if is_below(other, key) => Some(other),
        (Some(key), _) => Some(key),
        (None, other) => other,
    }
}

impl<'a> KeyWalk<'a> {
    /// At the first term of a dictionary.
    pub(crate) fn over(dict: &Dict<'a>) -> Result<KeyWalk<'a>, SplitError>
        ensures { (ts : List Term) → IsOver dict.now ts → MatchResult result (λ w. GivesTerms w ts) IsWant }
    {
        match dict.prefix_range(&[]) {
            Ok(terms) => KeyWalk::from_range(terms),
            Err(_fault) => Err(fault_in(Section::Dictionary)),
        }
    }

    // At the first term of a range.
    fn from_range(mut terms: TermRange<'a>) -> Result<KeyWalk<'a>, SplitError>
        ensures { (ts : List Term) → Lends terms.entry ts → MatchResult result (λ w. GivesTerms w ts) IsWant }
    {
        match terms.next() {
            Ok(next) => Ok(KeyWalk { terms, next }),
            Err(_fault) => Err(fault_in(Section::Dictionary)),
        }
    }

    /// The key of the term that the walk stands at.
    #[inline]
    fn key(&self) -> Option<&'a [u8]>
        ensures { option_copied result ≡ key_of self.now }
    {
        match self.next {
            Some((key, _info)) => Some(key),
            None => None,
        }
    }

    /// The numbers of the term that the walk stands at, if it has this key.
    pub(crate) fn at(&self, key: &[u8]) -> Option<TermInfo>
        ensures { MatchOption result (key_of self.now ≡ Some key.now → ⊥) (λ info. IsAt self.now key.now info) }
    {
        match self.next {
            Some((own, info)) => { if is_same(own, key) { Some(info) } else { None } }
            None => None,
        }
    }

    /// Goes on to the next term, whose key is to be above that of the one before. After an `Err` nothing is said of the walk.
    pub(crate) fn advance(&mut self) -> Result<(), SplitError>
        ensures above { (key other : List ℕ) → key_of self.old ≡ Some key → key_of self.new ≡ Some other → OnOk result (is_below key other ≡ true) }
        ensures only { (t : Term) (ts : List Term) → GivesTerms self.old (t ∷ ts) → IsRising (t ∷ ts) → MatchResult result (λ _. GivesTerms self.new ts) IsWant }
    {
        let Some((key, _info)) = self.next else {
            return Ok(());
        };
        match self.terms.next() {
            Ok(Some((other, info))) => {
                if !is_below(key, other) {
                    return Err(fault_in(Section::Dictionary));
                }
                self.next = Some((other, info));
                Ok(())
            }
            Ok(None) => {
                self.next = None;
                Ok(())
            }
            Err(_fault) => Err(fault_in(Section::Dictionary)),
        }
    }
}

/// The least key that walks stand at, the place of a walk that stands at it, and the least key of the others, if they are not all at
/// their ends.
#[derive(Clone, Copy)]
pub(crate) struct Front<'a> {
    pub(crate) key: &'a [u8],
    pub(crate) walk: usize,
    pub(crate) bound: Option<&'a [u8]>,
}

impl<'a> Front<'a> {
    /// Whether no other walk stands at the key.
    pub(crate) fn is_alone(&self) -> bool
        ensures { result ≡ is_before self.now.key.now (option_copied self.now.bound) }
    {
        match self.bound {
            Some(bound) => is_below(self.key, bound),
            None => true,
        }
    }

    // With the key of one walk more, whose place this is.
    fn with(self, walk: usize, key: &'a [u8]) -> Front<'a>
        ensures { (walks : List KeyWalk) (w : KeyWalk) → walk ≡ length walks → key_of w ≡ Some key.entry.now → IsFront self.entry walks → IsFront result (walks ++ w ∷ []) }
    {
        if is_below(key, self.key) {
            Front {
                key,
                walk,
                bound: Some(self.key),
            }
        } else {
            Front {
                key: self.key,
                walk: self.walk,
                bound: lesser(self.bound, Some(key)),
            }
        }
    }
}

// The front of walks and of one more, whose place this is.
fn front_with<'a>(front: Option<Front<'a>>, place: usize, walk: &KeyWalk<'a>) -> Option<Front<'a>>
    ensures { (walks : List KeyWalk) → place ≡ length walks → FrontIs front.entry walks → FrontIs result (walks ++ walk.now ∷ []) }
{
    match walk.key() {
        Some(key) => match front {
            Some(front) => Some(front.with(place, key)),
            None => Some(Front {
                key,
                walk: place,
                bound: None,
            }),
        },
        None => front,
    }
}

// The front of walks, if they are not all at their ends.
fn front_of<'a>(walks: &[KeyWalk<'a>]) -> Option<Front<'a>>
    ensures { FrontIs result walks.now }
{
    let mut front = None;
    for (place, walk) in walks.iter().enumerate() {
        front = front_with(front, place, walk);
    }
    front
}

// The front where it is still that of a walk that stood alone in front and went on.
fn still_front<'a>(walks: &[KeyWalk<'a>], before: Option<Front<'a>>) -> Option<Front<'a>>
    requires { WasFront before walks.now }
    ensures { IfSome result (λ front. IsFront front walks.now) }
{
    match before {
        Some(before) => match walks[before.walk].key() {
            Some(key) => {
                let front = Front {
                    key,
                    walk: before.walk,
                    bound: before.bound,
                };
                if front.is_alone() { Some(front) } else { None }
            }
            None => None,
        },
        None => None,
    }
}

/// The front of walks, if they are not all at their ends. The one before is known where its walk alone went on.
pub(crate) fn next_front<'a>(walks: &[KeyWalk<'a>], before: Option<Front<'a>>) -> Option<Front<'a>>
    requires { WasFront before walks.now }
    ensures { FrontIs result walks.now }
{
    match still_front(walks, before) {
        Some(front) => Some(front),
        None => front_of(walks),
    }
}

//! The distinct terms of tag fields.

ghost use Rattle.std.specs.Prelude.{◌≡◌, ◌≤◌, ◌∷◌, ◌++◌, [], ℕ, List, length, MatchOption, OnOk};
ghost use Rattle.std.specs.List.{flat_map, insert};
ghost use Rattle.split_build.specs.HeldDocuments.{with_name};
ghost use Rattle.split_build.specs.Tags.{AreTags};
ghost use Rattle.split_bundle.specs.Tagged.{value_term};

use doc_value::{Bytes, FieldTags, Tags, Terms, Value, term_bytes};
use std::alloc::{AllocError, Global};
use std::cmp::Ordering;
use text_tokens::MAX_TOKEN;

// So many distinct terms are listed of a field.
const MAX_TAGS: usize = 100;

// Where a term belongs among rising ones, or none where it stands there.
fn place_for(terms: &[Bytes], term: &[u8]) -> Option<usize>
    ensures { MatchOption result (with_name term.now terms.now ≡ terms.now)
        (λ place. (place ≤ length terms.now) × (with_name term.now terms.now ≡ insert terms.now place term.now)) }
{
    for (i, other) in terms.iter().enumerate() {
        match term.cmp(other.as_slice()) {
            Ordering::Less => return Some(i),
            Ordering::Equal => return None,
            Ordering::Greater => {}
        }
    }
    Some(terms.len())
}

/// Distinct terms of a tag field so far, rising: all of them, unless there are more than can be listed.
#[derive(Drop)]
pub struct TagLog {
    pub number: usize,
    pub terms: Vec<Bytes>,
}

impl TagLog {
    ghost use Rattle.split_build.specs.HeldTags.{HasTerms};

    pub(crate) fn vacant(alloc: Global, number: usize) -> TagLog
        ensures number { result.number ≡ number }
        ensures terms { HasTerms result.terms.items [] }
    {
        TagLog {
            number,
            terms: Vec::new(alloc),
        }
    }

    /// Adds a term. After an `Err` nothing is said of what is held.
    pub fn add_term(&mut self, alloc: Global, term: &[u8]) -> Result<(), AllocError>
        ensures number { self.new.number ≡ self.old.number }
        ensures terms { (terms : List (List ℕ)) → HasTerms self.old.terms.items terms → OnOk result (HasTerms self.new.terms.items (terms ++ term.now ∷ [])) }
    {
        if let Some(place) = place_for(self.terms.as_slice(), term) {
            self.terms.insert(place, Bytes::from_slice(alloc, term)?)?;
        }
        Ok(())
    }

    fn add_value(&mut self, alloc: Global, value: &Value) -> Result<(), AllocError>
        ensures number { self.new.number ≡ self.old.number }
        ensures terms { (terms : List (List ℕ)) → HasTerms self.old.terms.items terms → OnOk result (HasTerms self.new.terms.items (terms ++ value_term value.now)) }
    {
        if self.terms.len() > MAX_TAGS {
            return Ok(());
        }
        if let Value::Text(text) = value {
            if text.len() > MAX_TOKEN {
                return Ok(());
            }
            return self.add_term(alloc, text.as_slice());
        }
        let term = term_bytes(alloc, value)?;
        self.add_term(alloc, term.as_slice())
    }

    /// Adds the terms of some values. After an `Err` nothing is said of what is held.
    pub(crate) fn add_values(&mut self, alloc: Global, values: &[Value]) -> Result<(), AllocError>
        ensures number { self.new.number ≡ self.old.number }
        ensures terms { (terms : List (List ℕ)) → HasTerms self.old.terms.items terms → OnOk result (HasTerms self.new.terms.items (terms ++ flat_map value_term values.now)) }
    {
        let mut rest = values;
        while let Some((value, behind)) = rest.split_first() {
            self.add_value(alloc, value)?;
            rest = behind;
        }
        Ok(())
    }

    /// What is known of the field.
    pub(crate) fn finish(self) -> FieldTags
        ensures number { result.number ≡ self.number }
        ensures tags { (terms : List (List ℕ)) → HasTerms self.terms.items terms → AreTags terms result.tags }
    {
        let TagLog { number, terms } = self;
        if terms.len() > MAX_TAGS {
            return FieldTags {
                number,
                tags: Tags::Many,
            };
        }
        FieldTags {
            number,
            tags: Tags::Listed(Terms::from_vec(terms)),
        }
    }
}

//! Documents read in place: whether their bytes are of the form, and what a row keeps of them.

ghost use Rattle.std.specs.Prelude.{◌≡◌, ◌≤◌, ◌<◌, ◌+◌, ◌^◌, ◌++◌, ◌∷◌, [], ℕ, List, length, IfOk};
ghost use Rattle.std.specs.List.{AllByRecursion};
ghost use Rattle.byte_fields.specs.Spelling.{SpelledAt, varint};
ghost use Rattle.byte_fields.specs.Steps.{Gives};
ghost use Rattle.doc_value.specs.declared.doc.DocField.{DocField};
ghost use Rattle.doc_value.specs.declared.schema.Schema.{Schema};
ghost use Rattle.split_bundle.specs.declared.placed.Placed.{Placed};
ghost use Rattle.split_bundle.specs.declared.split_error.SplitError.TheVariants.{BadSection};
ghost use Rattle.split_bundle.specs.DocReading.{doc_field_at, doc_fields_at, kind_at, may_have, values_at};
ghost use Rattle.split_merge.specs.Scanning.{HasStored, HasTaken, HasTakenAll, HasValues, Scans, doc_head_at, document_at, field_head_at, holding};

use crate::facts::FieldFacts;
use crate::lent::take_value;
use byte_fields::{Corrupt, take_varint};
use doc_value::{Fields, Kind};
use split_bundle::{Section, SplitError};
use std::alloc::Global;

// That a document is not of its form.
fn bad_document() -> SplitError
    ensures { result ≡ BadSection 1 }
{
    SplitError::BadSection {
        number: Section::Documents.number(),
    }
}

// Whether a document may have so many values of a field of a kind.
fn may_have(kind: Kind, count: u64) -> bool
    ensures { result ≡ may_have kind count }
{
    match kind {
        Kind::TextList => count > 0,
        Kind::Text | Kind::I64 | Kind::U64 | Kind::Bool | Kind::Datetime => count == 1,
    }
}

// The kind of a field whose number stands at a place.
#[tactic(auto, unfolding(split_bundle::specs::DocReading::kind_at))]
fn kind_at(fields: &Fields, least: u64, number: u64, at: usize) -> Result<Kind, Corrupt>
    ensures least { IfOk result (λ _. least ≤ number) }
    ensures small { IfOk result (λ _. number + 1 < 2 ^ 64) }
    ensures exact { result ≡ kind_at fields.now least number at }
{
    if number < least || number >= fields.len() as u64 {
        return Err(Corrupt { at });
    }
    Ok(fields.at(number as usize).kind)
}

/// A field of a document without its values: its number and its kind, how many values it has, and where these stand.
#[derive(Clone, Copy)]
pub(crate) struct FieldHead {
    number: u64,
    kind: Kind,
    count: u64,
    from: usize,
}

#[tactic(auto, unfolding(crate::specs::Scanning::field_head_at))]
fn take_field_head(
    fields: &Fields,
    least: u64,
    bytes: &[u8],
    at: usize,
) -> Result<FieldHead, Corrupt>
    requires { at ≤ length bytes.now }
    ensures found { IfOk result (λ h. (middle : ℕ) × SpelledAt bytes.now at (varint h.number) middle × SpelledAt bytes.now middle (varint h.count) h.from) }
    ensures least { IfOk result (λ h. least ≤ h.number) }
    ensures small { IfOk result (λ h. h.number + 1 < 2 ^ 64) }
    ensures exact { result ≡ field_head_at fields.now least bytes.now at }
{
    let (number, behind_number) = take_varint(bytes, at)?;
    let kind = kind_at(fields, least, number, at)?;
    let (count, from) = take_varint(bytes, behind_number)?;
    if !may_have(kind, count) {
        return Err(Corrupt { at: behind_number });
    }
    Ok(FieldHead {
        number,
        kind,
        count,
        from,
    })
}

/// What stands in front of the fields of a document: the place of its partition, and its offset behind this; how many fields
/// there are, and where they stand.
#[derive(Clone, Copy)]
pub(crate) struct DocHead {
    place: u64,
    behind: usize,
    offset: u64,
    count: u64,
    from: usize,
}

#[tactic(auto, unfolding(crate::specs::Scanning::doc_head_at))]
fn take_doc_head(bytes: &[u8]) -> Result<DocHead, Corrupt>
    ensures found { IfOk result (λ h. (middle : ℕ) × SpelledAt bytes.now 0 (varint h.place) h.behind × SpelledAt bytes.now h.behind (varint h.offset) middle × SpelledAt bytes.now middle (varint h.count) h.from) }
    ensures small { IfOk result (λ h. h.offset < 2 ^ 64) }
    ensures exact { result ≡ doc_head_at bytes.now }
{
    let (place, behind) = take_varint(bytes, 0)?;
    let (offset, at) = take_varint(bytes, behind)?;
    let (count, from) = take_varint(bytes, at)?;
    Ok(DocHead {
        place,
        behind,
        offset,
        count,
        from,
    })
}

impl FieldFacts {
    ghost use Rattle.split_merge.specs.Facts.{HasFacts};

    // Reads the values of a field of the last document. After an `Err` nothing is said of what is held.
    fn take_values(
        &mut self,
        alloc: Global,
        head: &FieldHead,
        bytes: &[u8],
    ) -> Result<usize, SplitError>
        requires { head.now.from ≤ length bytes.now }
        ensures within { IfOk result (λ next. next ≤ length bytes.now) }
        ensures exact { (s : Schema) (documents : List Placed) (fs : List DocField) → AllByRecursion (λ f. f.number < head.now.number) fs
            → HasFacts self.old s (documents ++ holding (fs ++ record { number = head.now.number; values = [] } ∷ []) ∷ [])
            → Scans (HasValues self.new s documents fs head.now bytes.now) result (values_at head.now.kind head.now.count bytes.now head.now.from) }
    {
        let mut at = head.from;
        for _taken in 0..head.count {
            match take_value(head.kind, bytes, at) {
                Ok((value, next)) => {
                    self.add(alloc, head.number as usize, value)?;
                    at = next;
                }
                Err(_fault) => return Err(bad_document()),
            }
        }
        Ok(at)
    }

    // Reads a field of the last document, whose number is not to be below a least one. It gives the least number of the next
    // one, and the place behind it. After an `Err` nothing is said of what is held.
    fn take_field(
        &mut self,
        alloc: Global,
        fields: &Fields,
        least: u64,
        bytes: &[u8],
        at: usize,
    ) -> Result<(u64, usize), SplitError>
        requires { at ≤ length bytes.now }
        ensures within { IfOk result (λ x. x.1 ≤ length bytes.now) }
        ensures least { IfOk result (λ x. least ≤ x.0) }
        ensures exact { (s : Schema) (documents : List Placed) (fs : List DocField) → AllByRecursion (λ f. f.number < least) fs → HasFacts self.old s (documents ++ holding fs ∷ [])
            → Scans (HasTaken self.new s documents fs bytes.now at) result (doc_field_at fields.now least bytes.now at) }
    {
        match take_field_head(fields, least, bytes, at) {
            Ok(head) => match self.take_values(alloc, &head, bytes) {
                Ok(next) => Ok((head.number + 1, next)),
                Err(fault) => Err(fault),
            },
            Err(_fault) => Err(bad_document()),
        }
    }

    // Reads so many fields of the last document. After an `Err` nothing is said of what is held.
    fn take_fields(
        &mut self,
        alloc: Global,
        fields: &Fields,
        count: u64,
        bytes: &[u8],
        from: usize,
    ) -> Result<usize, SplitError>
        requires { from ≤ length bytes.now }
        ensures exact { (s : Schema) (documents : List Placed) → HasFacts self.old s (documents ++ holding [] ∷ [])
            → Scans (HasTakenAll self.new s documents count bytes.now from) result (doc_fields_at fields.now 0 count bytes.now from) }
    {
        let mut least = 0;
        let mut at = from;
        for _taken in 0..count {
            match self.take_field(alloc, fields, least, bytes, at) {
                Ok((above, next)) => {
                    least = above;
                    at = next;
                }
                Err(fault) => return Err(fault),
            }
        }
        Ok(at)
    }

    /// Reads a document that is all of the bytes. It gives the place of its partition among those of its split, and where the
    /// bytes behind that stand. After an `Err` nothing is said of what is held.
    pub(crate) fn take_document(
        &mut self,
        alloc: Global,
        fields: &Fields,
        bytes: &[u8],
    ) -> Result<(u64, usize), SplitError>
        ensures within { IfOk result (λ x. x.1 ≤ length bytes.now) }
        ensures exact { (s : Schema) (documents : List Placed) → HasFacts self.old s documents → Scans (HasStored self.new s documents bytes.now) result (document_at fields.now bytes.now) }
    {
        self.begin()?;
        match take_doc_head(bytes) {
            Ok(head) => match self.take_fields(alloc, fields, head.count, bytes, head.from) {
                Ok(end) => {
                    if end == bytes.len() {
                        Ok((head.place, head.behind))
                    } else {
                        Err(bad_document())
                    }
                }
                Err(fault) => Err(fault),
            },
            Err(_fault) => Err(bad_document()),
        }
    }
}

//! A document read back from its bytes.

ghost use Rattle.std.specs.Prelude.{◌≡◌, ◌≤◌, ◌<◌, ◌+◌, ◌*◌, ◌^◌, length, IfOk};
ghost use Rattle.byte_fields.specs.Steps.{Gives as Reads};
ghost use Rattle.split_bundle.specs.Reading.{Gives, MayGive, IsWithin, of_section, total};
ghost use Rattle.split_bundle.specs.DocReading.{MayRead, text_value_at, value_at, values_at, may_have, kind_at, doc_field_at, doc_fields_at, stored_in, bounds_in, name_at, partition_in, doc_part, doc_range, range_within, weight_in, weight_of, stand_in, address_in, placed_in};

use crate::footer::FOOTER;
use crate::layout::{Entry, Layout, Table, entries_behind};
use crate::pieces::{FilePiece, Section, section_part};
use crate::{Address, Placed, SplitError};
use byte_fields::{
    Corrupt, FieldError, take_eight, take_flag, take_signed, take_text, take_varint,
};
use doc_value::{Doc, DocField, Fields, Kind, Text, Value, Values};
use source_checkpoint::Partition;
use std::alloc::{AllocError, Global};

// What a document weighs beside its bytes behind the place of its partition: one byte for that place, and 256.
const WEIGHT_BESIDE: u64 = 257;

/// Why a document was not read.
#[derive(Drop)]
pub(crate) enum DocFault {
    NoMemory(AllocError),
    NotOfForm(Corrupt),
}

impl From<AllocError> for DocFault {
    ghost use Rattle.std.specs.Prelude.{◌≡◌};
    ghost use Rattle.split_bundle.specs.declared.documents.DocFault.TheVariants.{NoMemory};

    ghost from_gives = { λ a e. e ≡ NoMemory a };

    fn from(refused: AllocError) -> Self {
        DocFault::NoMemory(refused)
    }
}

impl From<Corrupt> for DocFault {
    ghost use Rattle.std.specs.Prelude.{◌≡◌};
    ghost use Rattle.split_bundle.specs.declared.documents.DocFault.TheVariants.{NotOfForm};

    ghost from_gives = { λ c e. e ≡ NotOfForm c };

    fn from(fault: Corrupt) -> Self {
        DocFault::NotOfForm(fault)
    }
}

impl From<FieldError> for DocFault {
    ghost use Rattle.std.specs.Prelude.{◌≡◌};
    ghost use Rattle.byte_fields.specs.Places.{place_of};
    ghost use Rattle.byte_fields.specs.Steps.{corrupt};
    ghost use Rattle.split_bundle.specs.declared.documents.DocFault.TheVariants.{NotOfForm};

    ghost from_gives = { λ f e. e ≡ NotOfForm (corrupt (place_of f)) };

    fn from(fault: FieldError) -> Self {
        DocFault::NotOfForm(Corrupt::from(fault))
    }
}

/// A document as it stands in a file: the place of its partition among the file's, its offset there, and its fields.
#[derive(Drop)]
pub(crate) struct Stored {
    pub place: u64,
    pub offset: u64,
    pub doc: Doc,
}

// A text at a place, and the place behind it.
#[tactic(auto, unfolding(crate::specs::DocReading::text_value_at))]
fn take_text_value(alloc: Global, bytes: &[u8], at: usize) -> Result<(Value, usize), DocFault>
    requires { at ≤ length bytes.now }
    ensures within { IfOk result (λ x. x.1 ≤ length bytes.now) }
    ensures exact { MayRead (λ x. x) result (text_value_at bytes.now at) }
{
    let (text, next) = take_text(bytes, at)?;
    Ok((Value::Text(Text::from_str(alloc, text)?), next))
}

// The value of a kind at a place, and the place behind it.
#[tactic(auto, unfolding(crate::specs::DocReading::value_at))]
fn take_value(
    alloc: Global,
    kind: Kind,
    bytes: &[u8],
    at: usize,
) -> Result<(Value, usize), DocFault>
    requires { at ≤ length bytes.now }
    ensures within { IfOk result (λ x. x.1 ≤ length bytes.now) }
    ensures exact { MayRead (λ x. x) result (value_at kind bytes.now at) }
{
    match kind {
        Kind::Text => take_text_value(alloc, bytes, at),
        Kind::TextList => take_text_value(alloc, bytes, at),
        Kind::I64 => {
            let (number, next) = take_signed(bytes, at)?;
            Ok((Value::I64(number), next))
        }
        Kind::U64 => {
            let (number, next) = take_varint(bytes, at)?;
            Ok((Value::U64(number), next))
        }
        Kind::Bool => {
            let (flag, next) = take_flag(bytes, at)?;
            Ok((Value::Bool(flag), next))
        }
        Kind::Datetime => {
            let (seconds, next) = take_signed(bytes, at)?;
            Ok((Value::Datetime(seconds), next))
        }
    }
}

// So many of them.
fn take_values(
    alloc: Global,
    kind: Kind,
    count: u64,
    bytes: &[u8],
    from: usize,
) -> Result<(Values, usize), DocFault>
    requires { from ≤ length bytes.now }
    ensures within { IfOk result (λ x. x.1 ≤ length bytes.now) }
    ensures exact { MayRead (λ x. x) result (values_at kind count bytes.now from) }
{
    let mut values = Values::vacant(alloc);
    let mut at = from;
    for taken in 0..count {
        match take_value(alloc, kind, bytes, at) {
            Ok((value, next)) => {
                values.push(value)?;
                at = next;
            }
            Err(fault) => return Err(fault),
        }
    }
    Ok((values, at))
}

// Whether a document may have so many values of a field of a kind.
fn may_have(kind: Kind, count: u64) -> bool
    ensures { result ≡ may_have kind count }
{
    match kind {
        Kind::TextList => count > 0,
        Kind::Text | Kind::I64 | Kind::U64 | Kind::Bool | Kind::Datetime => count == 1,
    }
}

// The kind of a field whose number stands at a place.
#[tactic(auto, unfolding(crate::specs::DocReading::kind_at))]
fn kind_at(fields: &Fields, least: u64, number: u64, at: usize) -> Result<Kind, Corrupt>
    ensures small { IfOk result (λ _. number + 1 < 2 ^ 64) }
    ensures exact { result ≡ kind_at fields.now least number at }
{
    if number < least || number >= fields.len() as u64 {
        return Err(Corrupt { at });
    }
    Ok(fields.at(number as usize).kind)
}

// A field and its values, and the place behind them.
#[tactic(auto, unfolding(crate::specs::DocReading::doc_field_at))]
fn take_doc_field(
    alloc: Global,
    fields: &Fields,
    least: u64,
    bytes: &[u8],
    at: usize,
) -> Result<(DocField, usize), DocFault>
    requires { at ≤ length bytes.now }
    ensures within { IfOk result (λ x. x.1 ≤ length bytes.now) }
    ensures small { IfOk result (λ x. x.0.number + 1 < 2 ^ 64) }
    ensures exact { MayRead (λ x. x) result (doc_field_at fields.now least bytes.now at) }
{
    let (number, behind_number) = take_varint(bytes, at)?;
    let kind = kind_at(fields, least, number, at)?;
    let (count, from) = take_varint(bytes, behind_number)?;
    if !may_have(kind, count) {
        return Err(DocFault::NotOfForm(Corrupt { at: behind_number }));
    }
    let (values, next) = take_values(alloc, kind, count, bytes, from)?;
    let field = DocField {
        number: number as usize,
        values,
    };
    Ok((field, next))
}

// So many fields, whose numbers rise.
fn take_doc(
    alloc: Global,
    fields: &Fields,
    count: u64,
    bytes: &[u8],
    from: usize,
) -> Result<(Doc, usize), DocFault>
    requires { from ≤ length bytes.now }
    ensures within { IfOk result (λ x. x.1 ≤ length bytes.now) }
    ensures exact { MayRead (λ x. x) result (doc_fields_at fields.now 0 count bytes.now from) }
{
    let mut doc = Doc::vacant(alloc);
    let mut least = 0;
    let mut at = from;
    for taken in 0..count {
        match take_doc_field(alloc, fields, least, bytes, at) {
            Ok((field, next)) => {
                least = field.number as u64 + 1;
                doc.push(field)?;
                at = next;
            }
            Err(fault) => return Err(fault),
        }
    }
    Ok((doc, at))
}

// A document that is all of the bytes.
#[tactic(auto, unfolding(crate::specs::DocReading::stored_in))]
fn take_stored(alloc: Global, fields: &Fields, bytes: &[u8]) -> Result<Stored, DocFault>
    ensures { MayRead (λ s. s) result (stored_in fields.now bytes.now) }
{
    let (place, at) = take_varint(bytes, 0)?;
    let (offset, at) = take_varint(bytes, at)?;
    let (count, at) = take_varint(bytes, at)?;
    let (doc, end) = take_doc(alloc, fields, count, bytes, at)?;
    if end != bytes.len() {
        return Err(DocFault::NotOfForm(Corrupt { at: end }));
    }
    Ok(Stored { place, offset, doc })
}

fn read_stored(alloc: Global, fields: &Fields, bytes: &[u8]) -> Result<Stored, SplitError>
    ensures { MayGive (λ s. s) result (of_section 1 (stored_in fields.now bytes.now)) }
{
    match take_stored(alloc, fields, bytes) {
        Ok(stored) => Ok(stored),
        Err(DocFault::NoMemory(refused)) => Err(SplitError::Memory(refused)),
        Err(DocFault::NotOfForm(_fault)) => Err(SplitError::BadSection {
            number: Section::Documents.number(),
        }),
    }
}

// The text at a place among the names of a footer.
#[tactic(auto, unfolding(crate::specs::DocReading::name_at))]
fn name_at(footer: &[u8], from: usize, place: u64) -> Result<&str, Corrupt>
    requires { from ≤ length footer.now }
    ensures { Reads (λ t. t.now) result (name_at footer.now from place) }
{
    let at = entries_behind(Entry::Name, footer, from, place)?;
    let (name, _next) = take_text(footer, at)?;
    Ok(name)
}

// The partition at a place among those of a footer.
#[tactic(auto, unfolding(crate::specs::DocReading::partition_in))]
fn partition_in(footer: &[u8], table: Table, place: u64) -> Result<Partition, SplitError>
    requires { table.at ≤ length footer.now }
    ensures { Gives (λ p. p) result (partition_in footer.now table place) }
{
    if place >= table.count {
        return Err(SplitError::BadSection {
            number: Section::Documents.number(),
        });
    }
    match name_at(footer, table.at, place) {
        Ok(name) => match Partition::from_text(name) {
            Ok(partition) => Ok(partition),
            Err(_bad) => Err(SplitError::BadSection { number: FOOTER }),
        },
        Err(_fault) => Err(SplitError::BadSection { number: FOOTER }),
    }
}

// From where to where a document's bytes stand behind the starts.
#[tactic(auto, unfolding(crate::specs::DocReading::bounds_in))]
fn bounds_in(starts: &[u8]) -> Result<(u64, u64), Corrupt>
    ensures rise { IfOk result (λ x. x.0 ≤ x.1) }
    ensures exact { result ≡ bounds_in starts.now }
{
    let (start, behind_start) = take_eight(starts, 0)?;
    let (end, _behind_end) = take_eight(starts, behind_start)?;
    if end < start {
        return Err(Corrupt { at: behind_start });
    }
    Ok((start, end))
}

// How many bytes the starts of so many documents have, with the end of the last one.
fn starts_size(docs: u32) -> u64
    ensures exact { result ≡ 8 * (docs + 1) }
    ensures small { result < 2 ^ 40 }
{
    8 * (u64::from(docs) + 1)
}

// The bytes of a document.
#[tactic(auto, unfolding(crate::specs::DocReading::doc_part))]
pub(crate) fn doc_part<'a>(
    pieces: &[FilePiece<'a>],
    layout: &Layout,
    number: u32,
) -> Result<&'a [u8], SplitError>
    requires { 4 + total layout.now.sections < 2 ^ 64 }
    ensures { Gives (λ b. b.now) result (doc_part layout.now pieces.now number) }
{
    let sections = &layout.sections;
    let entry = 8 * u64::from(number);
    let starts = section_part(pieces, sections, Section::Documents, entry, 16)?;
    match bounds_in(starts) {
        Ok((start, end)) => {
            let area = starts_size(layout.docs);
            let from = area.saturating_add(start);
            section_part(pieces, sections, Section::Documents, from, end - start)
        }
        Err(_fault) => Err(SplitError::BadSection {
            number: Section::Documents.number(),
        }),
    }
}

// Where a document's bytes stand in the file, and how many they are, by their bounds in the area behind the starts.
fn range_within(size: u64, area: u64, start: u64, end: u64) -> Result<(u64, u64), SplitError>
    requires rise { start ≤ end }
    requires size { 4 + size < 2 ^ 64 }
    requires area { area < 2 ^ 40 }
    ensures { result ≡ range_within size area (start, end) }
{
    if size.saturating_sub(area) < end {
        return Err(SplitError::BadSection {
            number: Section::Documents.number(),
        });
    }
    Ok((4 + area + start, end - start))
}

// Where the bytes of a document stand in the file, and how many they are.
#[tactic(auto, unfolding(crate::specs::DocReading::doc_range))]
pub(crate) fn doc_range(
    pieces: &[FilePiece<'_>],
    layout: &Layout,
    number: u32,
) -> Result<(u64, u64), SplitError>
    requires { 4 + total layout.now.sections < 2 ^ 64 }
    ensures { result ≡ doc_range layout.now pieces.now number }
{
    let sections = &layout.sections;
    let entry = 8 * u64::from(number);
    let starts = section_part(pieces, sections, Section::Documents, entry, 16)?;
    match bounds_in(starts) {
        Ok((start, end)) => {
            let area = starts_size(layout.docs);
            range_within(sections.documents, area, start, end)
        }
        Err(_fault) => Err(SplitError::BadSection {
            number: Section::Documents.number(),
        }),
    }
}

// What a document of these bytes weighs.
#[tactic(auto, unfolding(crate::specs::DocReading::weight_in))]
fn weight_in(bytes: &[u8]) -> Result<u64, Corrupt>
    ensures { result ≡ weight_in bytes.now }
{
    let (_place, behind) = take_varint(bytes, 0)?;
    let len = (bytes.len() - behind) as u64;
    Ok(len.saturating_add(WEIGHT_BESIDE))
}

// What the document with a number weighs.
#[tactic(auto, unfolding(crate::specs::DocReading::weight_of))]
pub(crate) fn weight_of(
    pieces: &[FilePiece<'_>],
    layout: &Layout,
    number: u32,
) -> Result<u64, SplitError>
    requires { 4 + total layout.now.sections < 2 ^ 64 }
    ensures { result ≡ weight_of layout.now pieces.now number }
{
    let bytes = doc_part(pieces, layout, number)?;
    match weight_in(bytes) {
        Ok(weight) => Ok(weight),
        Err(_fault) => Err(SplitError::BadSection {
            number: Section::Documents.number(),
        }),
    }
}

// The place of the partition of a document of these bytes, and its offset.
#[tactic(auto, unfolding(crate::specs::DocReading::stand_in))]
fn stand_in(bytes: &[u8]) -> Result<(u64, u64), Corrupt>
    ensures { result ≡ stand_in bytes.now }
{
    let (place, behind) = take_varint(bytes, 0)?;
    let (offset, _next) = take_varint(bytes, behind)?;
    Ok((place, offset))
}

/// Where the record of the document with a number stands. Nothing behind it is read.
#[tactic(auto, unfolding(crate::specs::DocReading::address_in))]
pub(crate) fn address_in(
    pieces: &[FilePiece<'_>],
    layout: &Layout,
    footer: &[u8],
    number: u32,
) -> Result<Address, SplitError>
    requires room { 4 + total layout.now.sections < 2 ^ 64 }
    requires within { IsWithin footer.now layout.now }
    ensures { Gives (λ a. a) result (address_in layout.now footer.now pieces.now number) }
{
    let bytes = doc_part(pieces, layout, number)?;
    match stand_in(bytes) {
        Ok((place, offset)) => {
            let partition = partition_in(footer, layout.partitions, place)?;
            Ok(Address { partition, offset })
        }
        Err(_fault) => Err(SplitError::BadSection {
            number: Section::Documents.number(),
        }),
    }
}

/// The document with a number.
#[tactic(auto, unfolding(crate::specs::DocReading::placed_in))]
pub(crate) fn placed_in(
    alloc: Global,
    pieces: &[FilePiece<'_>],
    layout: &Layout,
    footer: &[u8],
    fields: &Fields,
    number: u32,
) -> Result<Placed, SplitError>
    requires room { 4 + total layout.now.sections < 2 ^ 64 }
    requires within { IsWithin footer.now layout.now }
    ensures { MayGive (λ d. d) result (placed_in fields.now layout.now footer.now pieces.now number) }
{
    let bytes = doc_part(pieces, layout, number)?;
    let Stored { place, offset, doc } = read_stored(alloc, fields, bytes)?;
    let partition = partition_in(footer, layout.partitions, place)?;
    Ok(Placed {
        partition,
        offset,
        doc,
    })
}

ghost use Rattle.std.specs.Prelude.{◌≡◌, ◌≤◌, ◌<◌, ◌+◌, ◌*◌, ◌/◌, ◌%◌, ◌^◌, ◌++◌, List, ℕ, Bool, length, drop, slice_get, slice_index, Some, IfOk, IsOkAnd, IsSome, IsTrue, Ok, IsUtf8, ◌↔◌, ◌-◌, false, [], ◌∷◌};
ghost use Rattle.std.specs.List.{flat_map, AllByRecursion};
ghost use Rattle.byte_fields.specs.Spelling.{byte_string};
ghost use Rattle.fast_fields.specs.Columns.{has_texts, texts_bytes};
ghost use Rattle.byte_fields.specs.Steps.{Gives};
ghost use Rattle.fast_fields.specs.Reading.{Area, area_at, behind_texts, width_at};

use crate::packed::bits_from;
use byte_fields::{Corrupt, take_bytes, take_eight, take_piece, take_text, take_varint};
use doc_value::{Field, Kind};

/// The values of one field of many documents, over the bytes of the column.
#[derive(Clone, Copy)]
pub struct Column<'a> {
    pub(crate) texts: &'a [u8],
    pub(crate) text_count: u64,
    pub(crate) documents: &'a [u8],
    pub(crate) packed: &'a [u8],
    pub(crate) count: u32,
    pub(crate) least: u64,
    pub(crate) width: u8,
    ghost documents_size: { length documents.now ≡ 4 * count },
    ghost packed_size: { length packed.now ≡ (width * count + 7) / 8 },
    ghost width_within: { width ≤ 64 },
    ghost texts_size: { behind_texts text_count texts.now 0 ≡ Ok (length texts.now) },
}

impl<'a> Column<'a> {
    ghost use Rattle.fast_fields.specs.Columns.{IsColumn, numbers, least_of, greatest_of};
    ghost use Rattle.fast_fields.specs.declared.entries.Entry.{Entry};
    ghost use Rattle.fast_fields.specs.Reading.{Parts, column_at};
    ghost use Rattle.fast_fields.specs.Readers.{Holds, IsOf, LendsText, count_below, first_number, of_some, parts};
    ghost use Rattle.fast_fields.specs.Lookups.{IsBetween, IsBound, bits_at, document_of, greatest_before, if_any, text_of, value_of, value_there};
    ghost use Rattle.fast_fields.specs.declared.rows.ColumnRow.{ColumnRow};

    /// The column at the front of the bytes, and the place behind it.
    #[tactic(auto, unfolding(crate::specs::Reading::column_at, byte_fields::specs::Steps::count_at))]
    pub fn read(field: &Field, bytes: &'a [u8]) -> Result<(Column<'a>, usize), Corrupt>
        // What is spelled at the front of the bytes is read.
        ensures only { (column rest : List ℕ) (rows : List ColumnRow) → IsColumn field.now.kind column rows → bytes.now ≡ column ++ rest
            → IsOkAnd result (λ x. IsOf x.0 rows × (x.1 ≡ length column)) }
        // Which parts any bytes have, or where they are corrupt.
        ensures exact { Gives {Y = Parts × ℕ} (λ x. (parts x.0, x.1)) result (column_at field.now.kind bytes.now) }
    {
        let (count, behind_count) = take_varint(bytes, 0)?;
        if count > u64::from(u32::MAX) {
            return Err(Corrupt { at: 0 });
        }
        let count = count as u32;
        let (texts, behind_texts) = read_texts(bytes, behind_count, has_texts(field.kind))?;
        let (documents, behind_documents) = take_piece(bytes, behind_texts, 4 * count as usize)?;
        let (least, behind_least) = take_eight(bytes, behind_documents)?;
        let (width, behind_width) = take_width(bytes, behind_least)?;
        let size = (u64::from(width) * u64::from(count) + 7) / 8;
        let (packed, end) = take_piece(bytes, behind_width, size as usize)?;
        let column = Column {
            texts: texts.bytes,
            text_count: texts.count,
            documents,
            packed,
            count,
            least,
            width,
        };
        Ok((column, end))
    }

    /// The first value of a document, if it has one.
    pub fn value_at(&self, document: u32) -> Option<u64>
        ensures only { (texts : List (List ℕ)) (entries : List Entry) → Holds self.now texts entries → result ≡ first_number document entries }
        // The value at a place where the documents pass this one, if it is of this document.
        ensures exact { (place : ℕ) × IsBound self.now document place × (result ≡ value_there self.now document place) }
    {
        let place = self.places_below(u64::from(document));
        if place < self.count && self.document_of(place) == document {
            return Some(self.value(place));
        }
        None
    }

    /// The range of a document's places, which is empty where it has no values.
    pub fn values_of(&self, document: u32) -> (u32, u32)
        ensures only { (texts : List (List ℕ)) (entries : List Entry) → Holds self.now texts entries
            → (result.0 ≡ count_below document entries) × (result.1 ≡ count_below (document + 1) entries) }
        ensures exact { IsBound self.now document result.0 × IsBound self.now (document + 1) result.1 }
    {
        let from = self.places_below(u64::from(document));
        let to = self.places_below(u64::from(document) + 1);
        (from, to)
    }

    /// How many values there are.
    pub fn len(&self) -> u32
        ensures { result ≡ self.now.count }
    {
        self.count
    }

    /// Whether there are none.
    pub fn is_empty(&self) -> bool
        ensures { IsTrue result ↔ (self.now.count ≡ 0) }
    {
        self.count == 0
    }

    /// The value at a place.
    #[tactic(auto, unfolding(crate::specs::Lookups::value_of))]
    pub fn value(&self, place: u32) -> u64
        requires { place < self.now.count }
        ensures only { (texts : List (List ℕ)) (entries : List Entry) (entry : Entry) → Holds self.now texts entries → slice_get entries place ≡ Some entry
            → result ≡ entry.number }
        ensures exact { result ≡ value_of self.now place }
    {
        self.least.wrapping_add(self.packed_at(place))
    }

    /// The document of the value at a place.
    pub fn document_of(&self, place: u32) -> u32
        requires { place < self.now.count }
        ensures only { (texts : List (List ℕ)) (entries : List Entry) (entry : Entry) → Holds self.now texts entries → slice_get entries place ≡ Some entry
            → result ≡ entry.document }
        ensures exact { result ≡ document_of self.now place }
    {
        let at = 4 * place as usize;
        let piece = &self.documents[at..at + 4];
        u32::from_le_bytes([piece[0], piece[1], piece[2], piece[3]])
    }

    /// The text with an ordinal, if there is one.
    pub fn text(&self, ordinal: u64) -> Option<&'a str>
        ensures only { (texts : List (List ℕ)) (entries : List Entry) → Holds self.now texts entries → LendsText result (slice_get texts ordinal) }
        // No text of a column is lost.
        ensures there { IsSome result ↔ (ordinal < self.now.text_count) }
        ensures exact { LendsText result (text_of self.now ordinal) }
    {
        if ordinal >= self.text_count {
            return None;
        }
        let mut at = 0;
        for _number in 0..ordinal {
            match take_bytes(self.texts, at) {
                Ok((_text, next)) => at = next,
                Err(_) => return None,
            }
        }
        match take_text(self.texts, at) {
            Ok((text, _behind)) => Some(text),
            Err(_) => None,
        }
    }

    /// The least of the values, if there are any.
    pub fn least(&self) -> Option<u64>
        ensures only { (texts : List (List ℕ)) (entries : List Entry) → Holds self.now texts entries → result ≡ of_some entries (least_of (numbers entries)) }
        ensures exact { result ≡ if_any self.now self.now.least }
    {
        if self.count == 0 {
            return None;
        }
        Some(self.least)
    }

    /// The greatest of the values, if there are any. The bytes have the least one and a number of bits alone, so each value is read.
    pub fn greatest(&self) -> Option<u64>
        ensures only { (texts : List (List ℕ)) (entries : List Entry) → Holds self.now texts entries → result ≡ of_some entries (greatest_of (numbers entries)) }
        ensures exact { result ≡ if_any self.now (greatest_before self.now self.now.count) }
    {
        if self.count == 0 {
            return None;
        }
        let mut greatest = 0;
        for place in 0..self.count {
            greatest = self.value(place).max(greatest);
        }
        Some(greatest)
    }

    // The number at a place, less the least one.
    fn packed_at(&self, place: u32) -> u64
        requires { place < self.now.count }
        ensures only { (texts : List (List ℕ)) (entries : List Entry) (entry : Entry) → Holds self.now texts entries → slice_get entries place ≡ Some entry
            → result ≡ entry.number - least_of (numbers entries) }
        ensures exact { result ≡ bits_at self.now.width self.now.packed.now (self.now.width * place) }
    {
        let start = u64::from(self.width) * u64::from(place);
        bits_from(self.packed, start as usize, self.width)
    }

    // Places between which the documents pass this one. Where each document has one value, its place is its number.
    fn near(&self, document: u64) -> (u32, u32)
        ensures { IsBetween self.now document result.0 result.1 }
    {
        let guess = document.min(u64::from(self.count)) as u32;
        if guess < self.count && u64::from(self.document_of(guess)) < document {
            return (guess + 1, self.count);
        }
        if guess > 0 && u64::from(self.document_of(guess - 1)) < document {
            return (guess, guess);
        }
        (0, guess)
    }

    // How many places have a document below one.
    fn places_below(&self, document: u64) -> u32
        ensures only { (texts : List (List ℕ)) (entries : List Entry) → Holds self.now texts entries → result ≡ count_below document entries }
        ensures exact { IsBound self.now document result }
    {
        let (mut low, mut high) = self.near(document);
        while low < high {
            let middle = low + (high - low) / 2;
            if u64::from(self.document_of(middle)) < document {
                low = middle + 1;
            } else {
                high = middle;
            }
        }
        low
    }
}

// The texts of a column, as they stand in its bytes.
#[derive(Clone, Copy)]
struct TextArea<'a> {
    bytes: &'a [u8],
    count: u64,
}

pub(crate) fn has_texts(kind: Kind) -> bool
    ensures { result ≡ has_texts kind }
{
    match kind {
        Kind::Text | Kind::TextList => true,
        Kind::I64 | Kind::U64 | Kind::Bool | Kind::Datetime => false,
    }
}

// The texts at a place, if there are to be texts, and the place behind them.
#[tactic(auto, unfolding(crate::specs::Reading::area_at))]
fn read_texts(bytes: &[u8], at: usize, texted: bool) -> Result<(TextArea<'_>, usize), Corrupt>
    requires { at ≤ length bytes.now }
    ensures within { IfOk result (λ x. x.1 ≤ length bytes.now) }
    ensures only { (texts : List (List ℕ)) (rest : List ℕ) → AllByRecursion IsUtf8 texts → length texts < 2 ^ 64 → (texted ≡ false → texts ≡ [])
        → drop at bytes.now ≡ texts_bytes texted texts ++ rest
        → IsOkAnd result (λ x. (x.0.bytes.now ≡ flat_map byte_string texts) × (x.0.count ≡ length texts) × (drop x.1 bytes.now ≡ rest)) }
    ensures whole { IfOk result (λ x. behind_texts x.0.count x.0.bytes.now 0 ≡ Ok (length x.0.bytes.now)) }
    ensures exact { Gives {Y = Area × ℕ} (λ x. (record { count = x.0.count; bytes = x.0.bytes.now }, x.1)) result (area_at texted bytes.now at) }
{
    if !texted {
        return Ok((
            TextArea {
                bytes: &bytes[at..at],
                count: 0,
            },
            at,
        ));
    }
    let (count, from) = take_varint(bytes, at)?;
    let to = behind_texts(bytes, from, count)?;
    Ok((
        TextArea {
            bytes: &bytes[from..to],
            count,
        },
        to,
    ))
}

// The place behind so many texts.
fn behind_texts(bytes: &[u8], from: usize, count: u64) -> Result<usize, Corrupt>
    requires { from ≤ length bytes.now }
    ensures within { IfOk result (λ at. (from ≤ at) × (at ≤ length bytes.now)) }
    ensures only { (texts : List (List ℕ)) (rest : List ℕ) → AllByRecursion IsUtf8 texts → count ≡ length texts
        → drop from bytes.now ≡ flat_map byte_string texts ++ rest → IsOkAnd result (λ at. drop at bytes.now ≡ rest) }
    ensures exact { result ≡ behind_texts count bytes.now from }
{
    let mut at = from;
    for _number in 0..count {
        at = take_text(bytes, at)?.1;
    }
    Ok(at)
}

// A width of at most 64 bits at a place, and the place behind it.
#[tactic(auto, unfolding(crate::specs::Reading::width_at))]
fn take_width(bytes: &[u8], at: usize) -> Result<(u8, usize), Corrupt>
    requires { at ≤ length bytes.now }
    ensures within { IfOk result (λ x. (x.1 ≤ length bytes.now) × (x.0 ≤ 64)) }
    ensures only { (width : ℕ) (rest : List ℕ) → width ≤ 64 → drop at bytes.now ≡ width ∷ rest → IsOkAnd result (λ x. (x.0 ≡ width) × (drop x.1 bytes.now ≡ rest)) }
    ensures exact { result ≡ width_at bytes.now at }
{
    if at == bytes.len() {
        return Err(Corrupt { at });
    }
    let width = bytes[at];
    if width > 64 {
        return Err(Corrupt { at });
    }
    Ok((width, at + 1))
}

// The documents of a range by the column of its field.

ghost use Rattle.std.specs.Prelude.{[], ◌∷◌, ◌≡◌, ◌<◌, ◌≤◌, ◌||◌, ℕ, true, List, Result, Some, IfOk, IsOk, MatchResult, nat_eq, slice_get, if◌then◌else◌};
ghost use Rattle.std.specs.List.{AllByRecursion, starts_with};
ghost use Rattle.doc_value.specs.declared.schema.Schema.{Schema};
ghost use Rattle.fast_fields.specs.Readers.{Holds};
ghost use Rattle.fast_fields.specs.declared.entries.Entry.{Entry};
ghost use Rattle.query_ast.specs.Meaning.{between};
ghost use Rattle.doc_value.specs.Documents.{values_in};
ghost use Rattle.query_ast.specs.Queries.{has_order};
ghost use Rattle.split_bundle.specs.declared.placed.Placed.{Placed};
ghost use Rattle.split_bundle.specs.Files.{Parts};
ghost use Rattle.split_bundle.specs.Keys.{field_key};
ghost use Rattle.doc_sets.specs.Asking.{LacksLookups};
ghost use Rattle.doc_sets.specs.Bits.{has};
ghost use Rattle.doc_sets.specs.Faults.{LacksPart, IsMemory};
ghost use Rattle.doc_sets.specs.Needed.{IsColumnFor, IsSearched};
ghost use Rattle.doc_sets.specs.Ranged.{begun_blocks, by_column, document_if, documents_from, is_of, range_lookup, some_is_of};
ghost use Rattle.doc_sets.specs.Reads.{HasReadBy, PutsValues, ReadsAll, ReadsColumn, numbers_within};
ghost use Rattle.doc_sets.specs.Sets.{IsSetOf};
ghost use Rattle.doc_sets.specs.Walks.{range_of};
ghost use Rattle.doc_sets.specs.declared.dictionary_lookup.Lookup.TheVariants.{Values};

use crate::bits::DocBits;
use crate::key_walks::{edge_has_64, walked_range};
use crate::leaf_error::{COLUMNS, LeafError};
use crate::sets::no_documents;
use crate::wanted::{NumberRange, between};
use doc_value::{Field, Kind, Schema};
use fast_fields::Column;
use query_ast::Edge;
use split_bundle::{Footer, PartView};
use std::alloc::Global;
use term_dict::{BlockIndex, BlockStart};

// For so many documents one block of the dictionary begins with a key of a field that has many keys.
const MANY: u128 = 4096;

// One for a block whose first key begins so.
fn begun_by(block: &BlockStart, prefix: &[u8]) -> usize
    ensures few { result ≤ 1 }
    ensures exact { result ≡ (if starts_with nat_eq block.now.first prefix.now then 1 else 0) }
{
    if block.first.as_slice().starts_with(prefix) {
        1
    } else {
        0
    }
}

// How many blocks begin with a key that begins so.
fn begun_blocks(index: &BlockIndex, prefix: &[u8]) -> usize
    ensures { result ≡ begun_blocks prefix.now index.now }
{
    let mut begun = 0;
    for number in 0..index.len() {
        begun += begun_by(index.at(number), prefix);
    }
    begun
}

fn has_order(kind: Kind) -> bool
    ensures { result ≡ has_order kind }
{
    match kind {
        Kind::I64 | Kind::U64 | Kind::Datetime => true,
        Kind::Text | Kind::TextList | Kind::Bool => false,
    }
}

/// Whether a range is asked of the column of its field: where the field is fast and has many keys.
pub(crate) fn goes_by_column(footer: &Footer, number: usize, field: &Field) -> bool
    requires { number < 256 }
    ensures { result ≡ by_column footer.now number field.now }
{
    if !field.fast || !has_order(field.kind) {
        return false;
    }
    let prefix = [(number / 256) as u8, (number % 256) as u8];
    let begun = begun_blocks(footer.index(), &prefix);
    u128::from(footer.doc_count()) <= MANY * u128::from(begun as u64)
}

// Puts the document of the value at a place into a set if the value is in a range.
#[inline]
fn put_place(
    bits: &mut DocBits,
    column: &Column<'_>,
    range: NumberRange,
    place: u32,
) -> Result<(), LeafError>
    requires { place < column.now.count }
    ensures size { bits.new.size ≡ bits.old.size }
    ensures only { (texts : List (List ℕ)) (entries : List Entry) (e : Entry) → Holds column.now texts entries → slice_get entries place ≡ Some e → e.document < bits.old.size
        → IsOk result × ((k : ℕ) → has bits.new k ≡ has bits.old k || is_of range k e) }
    // Over any bytes.
    ensures exact { PutsValues bits.old bits.new (document_if range column.now place) result }
{
    if !range.contains(column.value(place)) {
        return Ok(());
    }
    let document = column.document_of(place);
    if document >= bits.size() {
        return Err(LeafError::Corrupt { section: COLUMNS });
    }
    bits.insert(document);
    Ok(())
}

// Puts the documents of the values that are in a range into a set.
fn put_values(bits: &mut DocBits, column: &Column<'_>, range: NumberRange) -> Result<(), LeafError>
    ensures size { bits.new.size ≡ bits.old.size }
    ensures only { (texts : List (List ℕ)) (entries : List Entry) → Holds column.now texts entries → AllByRecursion (λ e. e.document < bits.old.size) entries
        → IsOk result × ((k : ℕ) → has bits.new k ≡ has bits.old k || some_is_of range k entries) }
    ensures exact { PutsValues bits.old bits.new (documents_from range column.now column.now.count 0) result }
{
    for place in 0..column.len() {
        put_place(bits, column, range, place)?;
    }
    Ok(())
}

// The documents of the values of a column that are in a range.
fn within_column(
    alloc: Global,
    part: &PartView,
    column: &Column<'_>,
    range: NumberRange,
) -> Result<DocBits, LeafError>
    ensures size { IfOk result (λ b. b.size ≡ part.now.footer.layout.docs) }
    ensures only { (texts : List (List ℕ)) (entries : List Entry) → Holds column.now texts entries → AllByRecursion (λ e. e.document < part.now.footer.layout.docs) entries
        → MatchResult result (λ b. (k : ℕ) → has b k ≡ some_is_of range k entries) IsMemory }
    ensures exact { HasReadBy (λ read. read ≡ numbers_within part.now.footer.layout.docs range column.now) result }
{
    let mut bits = no_documents(alloc, part)?;
    put_values(&mut bits, column, range)?;
    Ok(bits)
}

// The documents that have a value between two edges, by the column of the field.
fn column_documents(
    alloc: Global,
    schema: &Schema,
    part: &PartView,
    number: usize,
    field: &Field,
    low: &Edge,
    high: &Edge,
) -> Result<DocBits, LeafError>
    requires number { number < 256 }
    requires field { slice_get schema.now.fields number ≡ Some field.now }
    requires fast { field.now.fast ≡ true }
    requires ordered { has_order field.now.kind ≡ true }
    ensures size { IfOk result (λ b. b.size ≡ part.now.footer.layout.docs) }
    ensures only { (documents : List Placed) (p : Parts) → IsSearched part.now schema.now documents p
        → MatchResult result (IsSetOf (λ d. between low.now high.now (values_in d number)) documents) (LacksPart (IsColumnFor part.now schema.now p number) part.now.pieces) }
    // Over any bytes: the documents of the column's values that are in the range, or the fault that is met.
    ensures exact { HasReadBy (ReadsColumn part.now number (range_of field.now.kind low.now high.now)) result }
    ensures reads { ReadsAll part.now (Values number (range_of field.now.kind low.now high.now) ∷ []) result }
{
    edge_has_64(low);
    edge_has_64(high);
    let range = between(field.kind, low, high);
    match part.column(schema, number as u32)? {
        Some(column) => within_column(alloc, part, &column, range),
        None => Ok(no_documents(alloc, part)?),
    }
}

/// The documents that have a value between two edges, by the field's column or by its keys.
pub fn range_documents(
    alloc: Global,
    schema: &Schema,
    index: &BlockIndex,
    part: &PartView,
    number: usize,
    field: &Field,
    low: &Edge,
    high: &Edge,
) -> Result<DocBits, LeafError>
    requires index { index.now ≡ part.now.footer.index }
    requires number { number < 256 }
    requires field { slice_get schema.now.fields number ≡ Some field.now }
    ensures size { IfOk result (λ b. b.size ≡ part.now.footer.layout.docs) }
    ensures only { (documents : List Placed) (p : Parts) → IsSearched part.now schema.now documents p → field.now.indexed ≡ true → has_order field.now.kind ≡ true
        → MatchResult result (IsSetOf (λ d. between low.now high.now (values_in d number)) documents)
        (LacksLookups part.now schema.now documents p (range_lookup part.now.footer number field.now low.now high.now ∷ [])) }
    ensures reads { ReadsAll part.now (range_lookup part.now.footer number field.now low.now high.now ∷ []) result }
{
    if goes_by_column(part.footer(), number, field) {
        column_documents(alloc, schema, part, number, field, low, high)
    } else {
        walked_range(alloc, index, part, number, field, low, high)
    }
}

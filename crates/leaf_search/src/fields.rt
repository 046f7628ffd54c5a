// The documents that match what a query asks of one field.

ghost use Rattle.std.specs.Prelude.{◌≡◌, ◌<◌, ◌≤◌, length, List, Some, None, slice_get, IfOk, IfSome, MatchOption, MatchResult};
ghost use Rattle.query_ast.specs.Meaning.{meaning};
ghost use Rattle.query_ast.specs.Sought as sought;
ghost use Rattle.query_ast.specs.Askable.{CanAsk};
ghost use Rattle.split_bundle.specs.declared.placed.Placed.{Placed};
ghost use Rattle.split_bundle.specs.Files.{Parts};
ghost use Rattle.doc_sets.specs.Asking.{LacksLookups};
ghost use Rattle.doc_sets.specs.Needed.{IsSearched};
ghost use Rattle.doc_sets.specs.Reads.{ReadsAll};
ghost use Rattle.doc_sets.specs.Sets.{IsSetOf};
ghost use Rattle.leaf_search.specs.Asks.{lookups_of};

use doc_sets::{
    DocBits, LeafError, no_documents, prefix_documents, present_documents, quoted_documents,
    range_documents, some_documents, word_documents,
};
use doc_value::{Field, Schema};
use query_ast::{Edge, Item};
use split_bundle::PartView;
use std::alloc::Global;
use term_dict::BlockIndex;

// The field with a number.
pub(crate) fn field_at(schema: &Schema, number: usize) -> Option<&Field>
    ensures found { MatchOption result (slice_get schema.now.fields number ≡ None) (λ f. slice_get schema.now.fields number ≡ Some f.now) }
    ensures within { IfSome result (λ f. number < length schema.now.fields) }
{
    if number < schema.fields.len() {
        Some(schema.fields.at(number))
    } else {
        None
    }
}

// The documents with a word.
pub(crate) fn with_word(
    alloc: Global,
    index: &BlockIndex,
    part: &PartView,
    schema: &Schema,
    number: usize,
    text: &str,
) -> Result<DocBits, LeafError>
    requires index { index.now ≡ part.now.footer.index }
    requires few { length schema.now.fields ≤ 256 }
    ensures size { IfOk result (λ b. b.size ≡ part.now.footer.layout.docs) }
    ensures only { (documents : List Placed) (p : Parts) → IsSearched part.now schema.now documents p → CanAsk schema.now (sought.Word number text.now)
        → MatchResult result (IsSetOf (λ d. meaning schema.now d (sought.Word number text.now)) documents) (LacksLookups part.now schema.now documents p (lookups_of part.now.footer schema.now (sought.Word number text.now))) }
    ensures reads { ReadsAll part.now (lookups_of part.now.footer schema.now (sought.Word number text.now)) result }
{
    match field_at(schema, number) {
        Some(field) => word_documents(alloc, index, part, number, field, text),
        None => Ok(no_documents(alloc, part)?),
    }
}

// The documents with a quoted text.
pub(crate) fn with_quoted(
    alloc: Global,
    index: &BlockIndex,
    part: &PartView,
    schema: &Schema,
    number: usize,
    text: &str,
) -> Result<DocBits, LeafError>
    requires index { index.now ≡ part.now.footer.index }
    requires few { length schema.now.fields ≤ 256 }
    ensures size { IfOk result (λ b. b.size ≡ part.now.footer.layout.docs) }
    ensures only { (documents : List Placed) (p : Parts) → IsSearched part.now schema.now documents p → CanAsk schema.now (sought.Quoted number text.now)
        → MatchResult result (IsSetOf (λ d. meaning schema.now d (sought.Quoted number text.now)) documents) (LacksLookups part.now schema.now documents p (lookups_of part.now.footer schema.now (sought.Quoted number text.now))) }
    ensures reads { ReadsAll part.now (lookups_of part.now.footer schema.now (sought.Quoted number text.now)) result }
{
    match field_at(schema, number) {
        Some(field) => quoted_documents(alloc, index, part, number, field, text),
        None => Ok(no_documents(alloc, part)?),
    }
}

// The documents with a token that begins so.
pub(crate) fn with_prefix(
    alloc: Global,
    index: &BlockIndex,
    part: &PartView,
    schema: &Schema,
    number: usize,
    text: &str,
) -> Result<DocBits, LeafError>
    requires index { index.now ≡ part.now.footer.index }
    requires few { length schema.now.fields ≤ 256 }
    ensures size { IfOk result (λ b. b.size ≡ part.now.footer.layout.docs) }
    ensures only { (documents : List Placed) (p : Parts) → IsSearched part.now schema.now documents p → CanAsk schema.now (sought.Prefix number text.now)
        → MatchResult result (IsSetOf (λ d. meaning schema.now d (sought.Prefix number text.now)) documents) (LacksLookups part.now schema.now documents p (lookups_of part.now.footer schema.now (sought.Prefix number text.now))) }
    ensures reads { ReadsAll part.now (lookups_of part.now.footer schema.now (sought.Prefix number text.now)) result }
{
    match field_at(schema, number) {
        Some(field) => prefix_documents(alloc, index, part, number, field, text),
        None => Ok(no_documents(alloc, part)?),
    }
}

// The documents with a value.
pub(crate) fn with_value(
    alloc: Global,
    index: &BlockIndex,
    part: &PartView,
    schema: &Schema,
    number: usize,
) -> Result<DocBits, LeafError>
    requires index { index.now ≡ part.now.footer.index }
    requires few { length schema.now.fields ≤ 256 }
    ensures size { IfOk result (λ b. b.size ≡ part.now.footer.layout.docs) }
    ensures only { (documents : List Placed) (p : Parts) → IsSearched part.now schema.now documents p → CanAsk schema.now (sought.Exists number)
        → MatchResult result (IsSetOf (λ d. meaning schema.now d (sought.Exists number)) documents) (LacksLookups part.now schema.now documents p (lookups_of part.now.footer schema.now (sought.Exists number))) }
    ensures reads { ReadsAll part.now (lookups_of part.now.footer schema.now (sought.Exists number)) result }
{
    match field_at(schema, number) {
        Some(_field) => present_documents(alloc, index, part, number),
        None => Ok(no_documents(alloc, part)?),
    }
}

// The documents with a value between two edges.
pub(crate) fn within_range(
    alloc: Global,
    index: &BlockIndex,
    part: &PartView,
    schema: &Schema,
    number: usize,
    low: &Edge,
    high: &Edge,
) -> Result<DocBits, LeafError>
    requires index { index.now ≡ part.now.footer.index }
    requires few { length schema.now.fields ≤ 256 }
    ensures size { IfOk result (λ b. b.size ≡ part.now.footer.layout.docs) }
    ensures only { (documents : List Placed) (p : Parts) → IsSearched part.now schema.now documents p → CanAsk schema.now (sought.Range number low.now high.now)
        → MatchResult result (IsSetOf (λ d. meaning schema.now d (sought.Range number low.now high.now)) documents) (LacksLookups part.now schema.now documents p (lookups_of part.now.footer schema.now (sought.Range number low.now high.now))) }
    ensures reads { ReadsAll part.now (lookups_of part.now.footer schema.now (sought.Range number low.now high.now)) result }
{
    match field_at(schema, number) {
        Some(field) => range_documents(alloc, schema, index, part, number, field, low, high),
        None => Ok(no_documents(alloc, part)?),
    }
}

// The documents with some member of a set.
pub(crate) fn with_some(
    alloc: Global,
    index: &BlockIndex,
    part: &PartView,
    schema: &Schema,
    number: usize,
    items: &[Item],
) -> Result<DocBits, LeafError>
    requires index { index.now ≡ part.now.footer.index }
    requires few { length schema.now.fields ≤ 256 }
    ensures size { IfOk result (λ b. b.size ≡ part.now.footer.layout.docs) }
    ensures only { (documents : List Placed) (p : Parts) → IsSearched part.now schema.now documents p → CanAsk schema.now (sought.AnyOf number items.now)
        → MatchResult result (IsSetOf (λ d. meaning schema.now d (sought.AnyOf number items.now)) documents) (LacksLookups part.now schema.now documents p (lookups_of part.now.footer schema.now (sought.AnyOf number items.now))) }
    ensures reads { ReadsAll part.now (lookups_of part.now.footer schema.now (sought.AnyOf number items.now)) result }
{
    match field_at(schema, number) {
        Some(field) => some_documents(alloc, index, part, number, field, items),
        None => Ok(no_documents(alloc, part)?),
    }
}

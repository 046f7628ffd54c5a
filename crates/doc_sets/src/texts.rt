// The documents in which a text stands, as its tokens or as the value that it spells.

ghost use Rattle.std.specs.Prelude.{◌≡◌, ◌<◌, true, false, Some, List, slice_get, IfOk, MatchResult};
ghost use Rattle.doc_value.specs.declared.schema.Schema.{Schema};
ghost use Rattle.query_ast.specs.FieldTokens.{field_tokens};
ghost use Rattle.query_ast.specs.Meaning.{is_text, equals_some, phrase_holds, each_holds, quoted_holds, word_holds, item_holds, some_item_holds};
ghost use Rattle.doc_value.specs.Documents.{values_in};
ghost use Rattle.query_ast.specs.Spelled.{spelled};
ghost use Rattle.split_bundle.specs.declared.placed.Placed.{Placed};
ghost use Rattle.split_bundle.specs.Files.{Parts};
ghost use Rattle.doc_sets.specs.Asking.{LacksLookups};
ghost use Rattle.doc_sets.specs.Needed.{IsSearched, token_keys};
ghost use Rattle.doc_sets.specs.Reads.{ReadsAll};
ghost use Rattle.doc_sets.specs.Sets.{IsSetOf};
ghost use Rattle.doc_sets.specs.Texts.{item_lookups, lookups_for, text_lookups, value_keys};
ghost use Rattle.query_ast.specs.Askable.{CanPlace, CanPlaceEach};

use crate::bits::DocBits;
use crate::leaf_error::LeafError;
use crate::phrases::phrase_documents;
use crate::sets::{add_other, no_documents};
use crate::values::value_documents;
use crate::words::each_documents;
use doc_value::{Field, Kind};
use query_ast::{Item, tokens_of, value_of};
use split_bundle::PartView;
use std::alloc::Global;
use term_dict::BlockIndex;

pub(crate) fn is_text(kind: Kind) -> bool
    ensures { result ≡ is_text kind }
{
    match kind {
        Kind::Text | Kind::TextList => true,
        Kind::I64 | Kind::U64 | Kind::Bool | Kind::Datetime => false,
    }
}

// The documents in which the tokens of a text stand as a phrase.
fn placed_documents(
    alloc: Global,
    index: &BlockIndex,
    part: &PartView,
    number: usize,
    field: &Field,
    text: &str,
) -> Result<DocBits, LeafError>
    requires index { index.now ≡ part.now.footer.index }
    requires number { number < 256 }
    ensures size { IfOk result (λ b. b.size ≡ part.now.footer.layout.docs) }
    ensures only { (s : Schema) (documents : List Placed) (p : Parts) → IsSearched part.now s documents p → slice_get s.fields number ≡ Some field.now
        → field.now.indexed ≡ true → is_text field.now.kind ≡ true → CanPlace field.now text.now
        → MatchResult result (IsSetOf (λ d. phrase_holds field.now (field_tokens field.now text.now) (values_in d number)) documents)
        (LacksLookups part.now s documents p (lookups_for (token_keys number (field_tokens field.now text.now)))) }
    ensures reads { ReadsAll part.now (lookups_for (token_keys number (field_tokens field.now text.now))) result }
{
    let tokens = tokens_of(alloc, field, text)?;
    phrase_documents(alloc, index, part, number, field, tokens.as_slice())
}

// The documents that have each token of a text, of which there is at least one.
fn gathered_documents(
    alloc: Global,
    index: &BlockIndex,
    part: &PartView,
    number: usize,
    field: &Field,
    text: &str,
) -> Result<DocBits, LeafError>
    requires index { index.now ≡ part.now.footer.index }
    requires number { number < 256 }
    ensures size { IfOk result (λ b. b.size ≡ part.now.footer.layout.docs) }
    ensures only { (s : Schema) (documents : List Placed) (p : Parts) → IsSearched part.now s documents p → slice_get s.fields number ≡ Some field.now
        → field.now.indexed ≡ true → is_text field.now.kind ≡ true
        → MatchResult result (IsSetOf (λ d. each_holds field.now (field_tokens field.now text.now) (values_in d number)) documents)
        (LacksLookups part.now s documents p (lookups_for (token_keys number (field_tokens field.now text.now)))) }
    ensures reads { ReadsAll part.now (lookups_for (token_keys number (field_tokens field.now text.now))) result }
{
    let tokens = tokens_of(alloc, field, text)?;
    if tokens.as_slice().is_empty() {
        return Ok(no_documents(alloc, part)?);
    }
    each_documents(alloc, index, part, number, field, tokens.as_slice())
}

// The documents that have the value which a text spells.
fn spelled_documents(
    alloc: Global,
    index: &BlockIndex,
    part: &PartView,
    number: usize,
    field: &Field,
    text: &str,
) -> Result<DocBits, LeafError>
    requires index { index.now ≡ part.now.footer.index }
    requires number { number < 256 }
    ensures size { IfOk result (λ b. b.size ≡ part.now.footer.layout.docs) }
    ensures only { (s : Schema) (documents : List Placed) (p : Parts) → IsSearched part.now s documents p → slice_get s.fields number ≡ Some field.now
        → field.now.indexed ≡ true → is_text field.now.kind ≡ false
        → MatchResult result (IsSetOf (λ d. equals_some (spelled field.now.kind text.now) (values_in d number)) documents)
        (LacksLookups part.now s documents p (lookups_for (value_keys number (spelled field.now.kind text.now)))) }
    ensures reads { ReadsAll part.now (lookups_for (value_keys number (spelled field.now.kind text.now))) result }
{
    match value_of(alloc, field.kind, text)? {
        Some(value) => value_documents(alloc, index, part, number, field, &value),
        None => Ok(no_documents(alloc, part)?),
    }
}

/// The documents with a quoted text.
pub fn quoted_documents(
    alloc: Global,
    index: &BlockIndex,
    part: &PartView,
    number: usize,
    field: &Field,
    text: &str,
) -> Result<DocBits, LeafError>
    requires index { index.now ≡ part.now.footer.index }
    requires number { number < 256 }
    ensures size { IfOk result (λ b. b.size ≡ part.now.footer.layout.docs) }
    ensures only { (s : Schema) (documents : List Placed) (p : Parts) → IsSearched part.now s documents p → slice_get s.fields number ≡ Some field.now
        → field.now.indexed ≡ true → CanPlace field.now text.now
        → MatchResult result (IsSetOf (λ d. quoted_holds field.now text.now (values_in d number)) documents) (LacksLookups part.now s documents p (text_lookups field.now number text.now)) }
    ensures reads { ReadsAll part.now (text_lookups field.now number text.now) result }
{
    if is_text(field.kind) {
        placed_documents(alloc, index, part, number, field, text)
    } else {
        spelled_documents(alloc, index, part, number, field, text)
    }
}

/// The documents with a word.
pub fn word_documents(
    alloc: Global,
    index: &BlockIndex,
    part: &PartView,
    number: usize,
    field: &Field,
    text: &str,
) -> Result<DocBits, LeafError>
    requires index { index.now ≡ part.now.footer.index }
    requires number { number < 256 }
    ensures size { IfOk result (λ b. b.size ≡ part.now.footer.layout.docs) }
    ensures only { (s : Schema) (documents : List Placed) (p : Parts) → IsSearched part.now s documents p → slice_get s.fields number ≡ Some field.now
        → field.now.indexed ≡ true
        → MatchResult result (IsSetOf (λ d. word_holds field.now text.now (values_in d number)) documents) (LacksLookups part.now s documents p (text_lookups field.now number text.now)) }
    ensures reads { ReadsAll part.now (text_lookups field.now number text.now) result }
{
    if is_text(field.kind) && !field.positions {
        gathered_documents(alloc, index, part, number, field, text)
    } else {
        quoted_documents(alloc, index, part, number, field, text)
    }
}

// The documents with a member of a set.
fn item_documents(
    alloc: Global,
    index: &BlockIndex,
    part: &PartView,
    number: usize,
    field: &Field,
    item: &Item,
) -> Result<DocBits, LeafError>
    requires index { index.now ≡ part.now.footer.index }
    requires number { number < 256 }
    ensures size { IfOk result (λ b. b.size ≡ part.now.footer.layout.docs) }
    ensures only { (s : Schema) (documents : List Placed) (p : Parts) → IsSearched part.now s documents p → slice_get s.fields number ≡ Some field.now
        → field.now.indexed ≡ true → (item.now.quoted ≡ true → CanPlace field.now item.now.text)
        → MatchResult result (IsSetOf (λ d. item_holds field.now (values_in d number) item.now) documents) (LacksLookups part.now s documents p (text_lookups field.now number item.now.text)) }
    ensures reads { ReadsAll part.now (text_lookups field.now number item.now.text) result }
{
    if item.quoted {
        quoted_documents(alloc, index, part, number, field, item.text.as_str())
    } else {
        word_documents(alloc, index, part, number, field, item.text.as_str())
    }
}

/// The documents with some member of a set.
pub fn some_documents(
    alloc: Global,
    index: &BlockIndex,
    part: &PartView,
    number: usize,
    field: &Field,
    items: &[Item],
) -> Result<DocBits, LeafError>
    requires index { index.now ≡ part.now.footer.index }
    requires number { number < 256 }
    ensures size { IfOk result (λ b. b.size ≡ part.now.footer.layout.docs) }
    ensures only { (s : Schema) (documents : List Placed) (p : Parts) → IsSearched part.now s documents p → slice_get s.fields number ≡ Some field.now
        → field.now.indexed ≡ true → CanPlaceEach field.now items.now
        → MatchResult result (IsSetOf (λ d. some_item_holds field.now (values_in d number) items.now) documents) (LacksLookups part.now s documents p (item_lookups field.now number items.now)) }
    ensures reads { ReadsAll part.now (item_lookups field.now number items.now) result }
{
    let mut bits = no_documents(alloc, part)?;
    for item in items {
        let other = item_documents(alloc, index, part, number, field, item)?;
        add_other(&mut bits, &other);
    }
    Ok(bits)
}

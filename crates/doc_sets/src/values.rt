// The documents that have a value of a field, and those that have one value.

ghost use Rattle.std.specs.Prelude.{◌≡◌, ◌<◌, ◌∷◌, [], true, false, List, Some, slice_get, IfOk, MatchResult};
ghost use Rattle.doc_value.specs.declared.schema.Schema.{Schema};
ghost use Rattle.doc_value.specs.Documents.{IsOfKind, values_in};
ghost use Rattle.doc_value.specs.Terms.{term_bytes};
ghost use Rattle.query_ast.specs.Meaning.{is_text, is_there, equals_some};
ghost use Rattle.split_bundle.specs.declared.placed.Placed.{Placed};
ghost use Rattle.split_bundle.specs.Files.{Parts};
ghost use Rattle.split_bundle.specs.Keys.{field_key, presence_key};
ghost use Rattle.doc_sets.specs.Values.{Has64};
ghost use Rattle.doc_sets.specs.Needed.{IsSearched, LacksKeys};
ghost use Rattle.doc_sets.specs.Reads.{ReadsAll};
ghost use Rattle.doc_sets.specs.Sets.{IsSetOf};
ghost use Rattle.doc_sets.specs.declared.dictionary_lookup.Lookup.TheVariants.{Documents};

use crate::bits::DocBits;
use crate::laws::{presence_by_keys, value_by_keys};
use crate::leaf_error::LeafError;
use crate::lookups::key_documents;
use crate::words::key_bytes;
use doc_value::{Field, Value, term_bytes};
use split_bundle::PartView;
use std::alloc::{AllocError, Global};
use term_dict::BlockIndex;

// The presence key of a field.
pub(crate) fn presence_bytes(alloc: Global, number: usize) -> Result<Vec<u8>, AllocError>
    requires { number < 65536 }
    ensures { IfOk result (λ key. key.items ≡ presence_key number) }
{
    let mut key = Vec::new(alloc);
    key.push(255)?;
    key.push(255)?;
    key.push((number / 256) as u8)?;
    key.push((number % 256) as u8)?;
    Ok(key)
}

/// The documents that have a value of a field.
pub fn present_documents(
    alloc: Global,
    index: &BlockIndex,
    part: &PartView,
    number: usize,
) -> Result<DocBits, LeafError>
    requires index { index.now ≡ part.now.footer.index }
    requires number { number < 256 }
    ensures size { IfOk result (λ b. b.size ≡ part.now.footer.layout.docs) }
    ensures only { (s : Schema) (documents : List Placed) (p : Parts) (f : Field) → IsSearched part.now s documents p → slice_get s.fields number ≡ Some f → f.indexed ≡ true
        → MatchResult result (IsSetOf (λ d. is_there (values_in d number)) documents) (LacksKeys part.now s documents p (presence_key number ∷ [])) }
    ensures reads { ReadsAll part.now (Documents (presence_key number) ∷ []) result }
{
    presence_by_keys();
    let key = presence_bytes(alloc, number)?;
    key_documents(alloc, index, part, &key, false)
}

// A value that is held has 64 bits.
pub(crate) fn has_64(value: &Value)
    ensures { Has64 value.now }
{
    match value {
        Value::I64(number) => {
            let _number = *number;
        }
        Value::U64(number) => {
            let _number = *number;
        }
        Value::Datetime(second) => {
            let _second = *second;
        }
        Value::Text(_) => {}
        Value::Bool(_) => {}
    }
}

// The key of a value of a field.
pub(crate) fn value_bytes(
    alloc: Global,
    number: usize,
    value: &Value,
) -> Result<Vec<u8>, AllocError>
    requires { number < 65536 }
    ensures { IfOk result (λ key. key.items ≡ field_key number (term_bytes value.now)) }
{
    let term = term_bytes(alloc, value)?;
    key_bytes(alloc, number, term.as_slice())
}

// The documents that have a value of a field that is not one of texts.
pub(crate) fn value_documents(
    alloc: Global,
    index: &BlockIndex,
    part: &PartView,
    number: usize,
    field: &Field,
    value: &Value,
) -> Result<DocBits, LeafError>
    requires index { index.now ≡ part.now.footer.index }
    requires number { number < 256 }
    ensures size { IfOk result (λ b. b.size ≡ part.now.footer.layout.docs) }
    ensures only { (s : Schema) (documents : List Placed) (p : Parts) → IsSearched part.now s documents p → slice_get s.fields number ≡ Some field.now
        → field.now.indexed ≡ true → is_text field.now.kind ≡ false → IsOfKind field.now.kind value.now
        → MatchResult result (IsSetOf (λ d. equals_some (Some value.now) (values_in d number)) documents) (LacksKeys part.now s documents p (field_key number (term_bytes value.now) ∷ [])) }
    ensures reads { ReadsAll part.now (Documents (field_key number (term_bytes value.now)) ∷ []) result }
{
    value_by_keys();
    has_64(value);
    let key = value_bytes(alloc, number, value)?;
    key_documents(alloc, index, part, &key, field.positions)
}

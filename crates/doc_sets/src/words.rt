// The documents with the tokens of a text.

ghost use Rattle.std.specs.Prelude.{◌≡◌, ◌<◌, ◌∷◌, [], true, List, Some, map, slice_get, IfOk, MatchResult};
ghost use Rattle.doc_value.specs.declared.schema.Schema.{Schema};
ghost use Rattle.query_ast.specs.Meaning.{is_text, some_has_token, each_stands};
ghost use Rattle.doc_value.specs.Documents.{values_in};
ghost use Rattle.split_bundle.specs.declared.placed.Placed.{Placed};
ghost use Rattle.split_bundle.specs.Files.{Parts};
ghost use Rattle.split_bundle.specs.Keys.{field_key};
ghost use Rattle.doc_sets.specs.Needed.{IsSearched, LacksKeys, token_keys};
ghost use Rattle.doc_sets.specs.Reads.{ReadsAll};
ghost use Rattle.doc_sets.specs.Sets.{IsSetOf};
ghost use Rattle.doc_sets.specs.declared.dictionary_lookup.Lookup.TheVariants.{Documents};

use crate::bits::DocBits;
use crate::laws::word_by_keys;
use crate::leaf_error::LeafError;
use crate::lookups::key_documents;
use crate::sets::{all_documents, keep_both};
use doc_value::Field;
use split_bundle::PartView;
use std::alloc::{AllocError, Global};
use term_dict::BlockIndex;
use text_tokens::Token;

// The key of a term of a field.
pub(crate) fn key_bytes(alloc: Global, number: usize, term: &[u8]) -> Result<Vec<u8>, AllocError>
    requires { number < 65536 }
    ensures { IfOk result (λ key. key.items ≡ field_key number term.now) }
{
    let mut key = Vec::new(alloc);
    key.push((number / 256) as u8)?;
    key.push((number % 256) as u8)?;
    key.extend_from_slice(term)?;
    Ok(key)
}

// The documents with a token.
pub(crate) fn token_documents(
    alloc: Global,
    index: &BlockIndex,
    part: &PartView,
    number: usize,
    field: &Field,
    term: &[u8],
) -> Result<DocBits, LeafError>
    requires index { index.now ≡ part.now.footer.index }
    requires number { number < 256 }
    ensures size { IfOk result (λ b. b.size ≡ part.now.footer.layout.docs) }
    ensures only { (s : Schema) (documents : List Placed) (p : Parts) → IsSearched part.now s documents p → slice_get s.fields number ≡ Some field.now
        → field.now.indexed ≡ true → is_text field.now.kind ≡ true
        → MatchResult result (IsSetOf (λ d. some_has_token field.now term.now (values_in d number)) documents) (LacksKeys part.now s documents p (field_key number term.now ∷ [])) }
    ensures reads { ReadsAll part.now (Documents (field_key number term.now) ∷ []) result }
{
    word_by_keys();
    let key = key_bytes(alloc, number, term)?;
    key_documents(alloc, index, part, &key, field.positions)
}

// The documents with each of some tokens.
pub(crate) fn each_documents(
    alloc: Global,
    index: &BlockIndex,
    part: &PartView,
    number: usize,
    field: &Field,
    tokens: &[Token],
) -> Result<DocBits, LeafError>
    requires index { index.now ≡ part.now.footer.index }
    requires number { number < 256 }
    ensures size { IfOk result (λ b. b.size ≡ part.now.footer.layout.docs) }
    ensures only { (s : Schema) (documents : List Placed) (p : Parts) → IsSearched part.now s documents p → slice_get s.fields number ≡ Some field.now
        → field.now.indexed ≡ true → is_text field.now.kind ≡ true
        → MatchResult result (IsSetOf (λ d. each_stands field.now tokens.now (values_in d number)) documents) (LacksKeys part.now s documents p (token_keys number tokens.now)) }
    ensures reads { ReadsAll part.now (map Documents (token_keys number tokens.now)) result }
{
    let mut bits = all_documents(alloc, part)?;
    for token in tokens {
        let other = token_documents(alloc, index, part, number, field, token.text.as_slice())?;
        keep_both(&mut bits, &other);
    }
    Ok(bits)
}

// What the dictionary has at a key, and the documents of its list.

ghost use Rattle.std.specs.Prelude.{◌≡◌, ◌<◌, ◌∷◌, [], List, ℕ, Some, Result, length, IfOk, MatchResult};
ghost use Rattle.doc_value.specs.declared.schema.Schema.{Schema};
ghost use Rattle.term_dict.specs.Bounds.{IsBlockOf, block_terms};
ghost use Rattle.term_dict.specs.Terms.{lookup};
ghost use Rattle.split_bundle.specs.declared.placed.Placed.{Placed};
ghost use Rattle.split_bundle.specs.Files.{Parts};
ghost use Rattle.split_bundle.specs.Lending.{block_in};
ghost use Rattle.split_bundle.specs.Keys.{keys_of};
ghost use Rattle.split_bundle.specs.Lists.{has_key, keeps_places, terms_of};
ghost use Rattle.doc_sets.specs.Faults.{LacksPart};
ghost use Rattle.doc_sets.specs.Needed.{IsBlockFor, IsSearched, LacksKeys};
ghost use Rattle.doc_sets.specs.Reads.{Finds, FindsIn, HasRead, ReadsKey, numbers_at};
ghost use Rattle.doc_sets.specs.Sets.{IsSetOf};
ghost use Rattle.doc_sets.specs.declared.leaf_error.LeafError.{LeafError as Fault};

use crate::bits::DocBits;
use crate::leaf_error::{DICTIONARY, LeafError};
use crate::lists::fill;
use crate::sets::no_documents;
use split_bundle::PartView;
use std::alloc::Global;
use term_dict::{BlockIndex, TermInfo};

/// What the dictionary has at a key.
pub fn term_at(
    index: &BlockIndex,
    part: &PartView,
    key: &[u8],
) -> Result<Option<TermInfo>, LeafError>
    requires { index.now ≡ part.now.footer.index }
    ensures only { (s : Schema) (documents : List Placed) (p : Parts) → IsSearched part.now s documents p
        → MatchResult result (λ found. found ≡ lookup key.now (terms_of s documents p.keys)) (LacksPart (IsBlockFor part.now s documents p key.now) part.now.pieces) }
    // Over any bytes: what the block of the key has at it, or the fault that is met.
    ensures exact { Finds part.now key.now result }
{
    match index.block_of(key) {
        None => Ok(None),
        Some(number) => match u32::try_from(number) {
            Ok(number) => term_in(part, number, key),
            Err(_) => Err(LeafError::Corrupt {
                section: DICTIONARY,
            }),
        },
    }
}

// What the block with a number has at a key.
fn term_in(part: &PartView, number: u32, key: &[u8]) -> Result<Option<TermInfo>, LeafError>
    requires { number < length part.now.footer.index }
    ensures only { (s : Schema) (documents : List Placed) (p : Parts) → IsSearched part.now s documents p → IsBlockOf part.now.footer.index key.now (Some number)
        → MatchResult result (λ found. found ≡ lookup key.now (block_terms (terms_of s documents p.keys) number)) (LacksPart (IsBlockFor part.now s documents p key.now) part.now.pieces) }
    ensures exact { FindsIn key.now (block_in part.now.footer.layout.sections part.now.pieces part.now.footer.index number) result }
{
    let block = part.block(number)?;
    match block.find(key) {
        Ok(found) => Ok(found),
        Err(_) => Err(LeafError::Corrupt {
            section: DICTIONARY,
        }),
    }
}

// The documents of a term. `positions` says whether its list has them.
fn term_documents(
    alloc: Global,
    part: &PartView,
    info: &TermInfo,
    positions: bool,
) -> Result<DocBits, LeafError>
    ensures size { IfOk result (λ b. b.size ≡ part.now.footer.layout.docs) }
    ensures only { (s : Schema) (documents : List Placed) (p : Parts) (key : List ℕ) → IsSearched part.now s documents p
        → lookup key (terms_of s documents p.keys) ≡ Some info.now → positions ≡ keeps_places s key
        → MatchResult result (IsSetOf (λ d. has_key key (keys_of s d)) documents) (LacksKeys part.now s documents p (key ∷ [])) }
    ensures exact { HasRead result (numbers_at part.now positions info.now) }
{
    let mut bits = DocBits::vacant(alloc, part.doc_count())?;
    let cursor = part.documents_at(info, positions)?;
    fill(&mut bits, cursor, info.docs)?;
    Ok(bits)
}

// The documents that have a key. `positions` says whether the lists of its field have them.
pub(crate) fn key_documents(
    alloc: Global,
    index: &BlockIndex,
    part: &PartView,
    key: &[u8],
    positions: bool,
) -> Result<DocBits, LeafError>
    requires { index.now ≡ part.now.footer.index }
    ensures size { IfOk result (λ b. b.size ≡ part.now.footer.layout.docs) }
    ensures only { (s : Schema) (documents : List Placed) (p : Parts) → IsSearched part.now s documents p → positions ≡ keeps_places s key.now
        → MatchResult result (IsSetOf (λ d. has_key key.now (keys_of s d)) documents) (LacksKeys part.now s documents p (key.now ∷ [])) }
    // Over any bytes: the numbers that the key's list gives, or the fault that is met.
    ensures exact { (read : Result (List ℕ) Fault) × ReadsKey part.now key.now positions read × HasRead result read }
{
    match term_at(index, part, key)? {
        Some(info) => term_documents(alloc, part, &info, positions),
        None => Ok(no_documents(alloc, part)?),
    }
}

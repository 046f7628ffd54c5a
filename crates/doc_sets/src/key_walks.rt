// The documents of the wanted keys that begin with a prefix.

ghost use Rattle.std.specs.Prelude.{[], ◌∷◌, ◌≡◌, ◌<◌, ◌≤◌, ◌&&◌, ◌||◌, ℕ, Bool, true, List, Result, length, nat_eq, Some, IfOk, MatchResult, slice_get};
ghost use Rattle.std.specs.List.{AllByRecursion, starts_with};
ghost use Rattle.doc_value.specs.declared.doc.DocField.{DocField};
ghost use Rattle.doc_value.specs.declared.schema.Schema.{Schema};
ghost use Rattle.query_ast.specs.Meaning.{is_text, some_has_prefix, between};
ghost use Rattle.doc_value.specs.Documents.{values_in};
ghost use Rattle.query_ast.specs.FieldTokens.{prefix_text};
ghost use Rattle.query_ast.specs.Queries.{has_order};
ghost use Rattle.term_dict.specs.Readers.{Lends, is_before_end};
ghost use Rattle.term_dict.specs.Terms.{lookup};
ghost use Rattle.term_dict.specs.declared.term.Term.{Term};
ghost use Rattle.split_bundle.specs.declared.placed.Placed.{Placed};
ghost use Rattle.split_bundle.specs.Files.{Parts};
ghost use Rattle.split_bundle.specs.Keys.{field_key, keys_of};
ghost use Rattle.split_bundle.specs.Lists.{has_key, keeps_places, terms_of};
ghost use Rattle.doc_sets.specs.Asked.{such};
ghost use Rattle.doc_sets.specs.Faults.{LacksPart};
ghost use Rattle.doc_sets.specs.Needed.{IsListFor, IsSearched};
ghost use Rattle.doc_sets.specs.Reads.{HasReadBy, PutsRead, ReadsAll, ReadsBlock, ReadsWalk, numbers_at, numbers_if, terms_read};
ghost use Rattle.doc_sets.specs.Sets.{IsSetOf};
ghost use Rattle.doc_sets.specs.Values.{EdgeHas64};
ghost use Rattle.doc_sets.specs.Walks.{takes, is_walked, has_some_of, begun_in, IsListed, AsksIf, AsksTerms, AsksBlock, AsksWalk, range_of};
ghost use Rattle.doc_sets.specs.declared.dictionary_lookup.Lookup.TheVariants.{Walk};
ghost use Rattle.doc_sets.specs.declared.leaf_error.LeafError.{LeafError as Fault};
ghost use Rattle.doc_sets.specs.declared.wanted.Wanted.TheVariants.{Each, Within};

use crate::bits::DocBits;
use crate::leaf_error::{DICTIONARY, LeafError};
use crate::lists::fill;
use crate::sets::no_documents;
use crate::values::has_64;
use crate::wanted::{Wanted, between};
use crate::words::key_bytes;
use doc_value::Field;
use query_ast::{Edge, folded_prefix};
use split_bundle::PartView;
use std::alloc::Global;
use term_dict::{BlockIndex, TermInfo, TermRange};

// Puts the documents of a term into a set. `positions` says whether its list has them.
fn add_term(
    part: &PartView,
    bits: &mut DocBits,
    info: &TermInfo,
    positions: bool,
) -> Result<(), LeafError>
    ensures size { bits.new.size ≡ bits.old.size }
    ensures only { (s : Schema) (documents : List Placed) (p : Parts) (key : List ℕ) (test : List DocField → Bool) → IsSearched part.now s documents p
        → lookup key (terms_of s documents p.keys) ≡ Some info.now → positions ≡ keeps_places s key → IsSetOf test documents bits.old
        → MatchResult result (λ u. IsSetOf (λ d. test d || has_key key (keys_of s d)) documents bits.new) (LacksPart (IsListFor part.now s documents p key) part.now.pieces) }
    // Over any bytes.
    ensures exact { bits.old.size ≡ part.now.footer.layout.docs → PutsRead bits.old bits.new result (numbers_at part.now positions info.now) }
{
    let cursor = part.documents_at(info, positions)?;
    fill(bits, cursor, info.docs)
}

// The same if its key is wanted.
fn add_if_wanted(
    part: &PartView,
    bits: &mut DocBits,
    key: &[u8],
    info: &TermInfo,
    wanted: Wanted,
    positions: bool,
) -> Result<(), LeafError>
    ensures size { bits.new.size ≡ bits.old.size }
    ensures only { (s : Schema) (documents : List Placed) (p : Parts) (test : List DocField → Bool) → IsSearched part.now s documents p
        → lookup key.now (terms_of s documents p.keys) ≡ Some info.now → positions ≡ keeps_places s key.now → IsSetOf test documents bits.old
        → MatchResult result (λ u. IsSetOf (λ d. test d || (takes wanted key.now && has_key key.now (keys_of s d))) documents bits.new) (LacksPart (AsksIf part.now s documents p wanted key.now) part.now.pieces) }
    ensures exact { bits.old.size ≡ part.now.footer.layout.docs → PutsRead bits.old bits.new result (numbers_if part.now positions wanted (record { key = key.now; info = info.now })) }
{
    if wanted.takes(key) {
        add_term(part, bits, info, positions)
    } else {
        Ok(())
    }
}

// Puts the documents of the wanted ones of some terms into a set. A block has at most 64 terms.
fn add_terms(
    part: &PartView,
    bits: &mut DocBits,
    mut terms: TermRange,
    wanted: Wanted,
    positions: bool,
) -> Result<(), LeafError>
    ensures size { bits.new.size ≡ bits.old.size }
    ensures only { (s : Schema) (documents : List Placed) (p : Parts) (lent : List Term) (test : List DocField → Bool) → IsSearched part.now s documents p
        → Lends terms.entry lent → length lent ≤ 64 → AllByRecursion (IsListed s documents p positions) lent → IsSetOf test documents bits.old
        → MatchResult result (λ u. IsSetOf (λ d. test d || has_some_of wanted lent (keys_of s d)) documents bits.new) (LacksPart (AsksTerms part.now s documents p wanted lent) part.now.pieces) }
    ensures exact { bits.old.size ≡ part.now.footer.layout.docs → PutsRead bits.old bits.new result
        (terms_read (numbers_if part.now positions wanted) 65 (is_before_end terms.entry.end) terms.entry.area.now terms.entry.at) }
{
    for taken in 0..65u32 {
        match terms.next() {
            Ok(Some((key, info))) => {
                add_if_wanted(part, bits, key, &info, wanted, positions)?;
            }
            Ok(None) => return Ok(()),
            Err(_) => {
                return Err(LeafError::Corrupt {
                    section: DICTIONARY,
                });
            }
        }
    }
    Err(LeafError::Corrupt {
        section: DICTIONARY,
    })
}

// Puts the documents of the wanted keys of a block that begin with a prefix into a set.
fn add_block(
    part: &PartView,
    bits: &mut DocBits,
    number: usize,
    prefix: &[u8],
    wanted: Wanted,
    positions: bool,
) -> Result<(), LeafError>
    requires { number < length part.now.footer.index }
    ensures size { bits.new.size ≡ bits.old.size }
    ensures only { (s : Schema) (documents : List Placed) (p : Parts) (test : List DocField → Bool) → IsSearched part.now s documents p
        → ((key : List ℕ) → starts_with nat_eq key prefix.now ≡ true → positions ≡ keeps_places s key) → IsSetOf test documents bits.old
        → MatchResult result (λ u. IsSetOf (λ d. test d || has_some_of wanted (begun_in prefix.now (terms_of s documents p.keys) number) (keys_of s d)) documents bits.new)
        (LacksPart (AsksBlock part.now s documents p prefix.now wanted number) part.now.pieces) }
    ensures exact { bits.old.size ≡ part.now.footer.layout.docs
        → (read : Result (List ℕ) Fault) × ReadsBlock part.now (numbers_if part.now positions wanted) prefix.now number read × PutsRead bits.old bits.new result read }
{
    if number > u32::MAX as usize {
        return Err(LeafError::Corrupt {
            section: DICTIONARY,
        });
    }
    let block = part.block(number as u32)?;
    match block.prefix_range(prefix) {
        Ok(terms) => add_terms(part, bits, terms, wanted, positions),
        Err(_) => Err(LeafError::Corrupt {
            section: DICTIONARY,
        }),
    }
}

// The documents of the wanted keys that begin with a prefix. `positions` says whether the lists of these have them.
fn walk_documents(
    alloc: Global,
    index: &BlockIndex,
    part: &PartView,
    prefix: &[u8],
    wanted: Wanted,
    positions: bool,
) -> Result<DocBits, LeafError>
    requires { index.now ≡ part.now.footer.index }
    ensures size { IfOk result (λ b. b.size ≡ part.now.footer.layout.docs) }
    ensures only { (s : Schema) (documents : List Placed) (p : Parts) → IsSearched part.now s documents p
        → ((key : List ℕ) → starts_with nat_eq key prefix.now ≡ true → positions ≡ keeps_places s key)
        → MatchResult result (IsSetOf (λ d. such (is_walked prefix.now wanted) (keys_of s d)) documents) (LacksPart (AsksWalk part.now s documents p prefix.now wanted) part.now.pieces) }
    // Over any bytes: the numbers that the lists of the wanted keys give, or the fault that is met.
    ensures exact { HasReadBy (ReadsWalk part.now (numbers_if part.now positions wanted) prefix.now) result }
{
    let blocks = index.blocks_with(prefix);
    let mut bits = no_documents(alloc, part)?;
    for number in blocks.start..blocks.end {
        add_block(part, &mut bits, number, prefix, wanted, positions)?;
    }
    Ok(bits)
}

/// The documents that have a token which begins with a text.
pub fn prefix_documents(
    alloc: Global,
    index: &BlockIndex,
    part: &PartView,
    number: usize,
    field: &Field,
    text: &str,
) -> Result<DocBits, LeafError>
    requires index { index.now ≡ part.now.footer.index }
    requires number { number < 256 }
    ensures size { IfOk result (λ b. b.size ≡ part.now.footer.layout.docs) }
    ensures only { (s : Schema) (documents : List Placed) (p : Parts) → IsSearched part.now s documents p → slice_get s.fields number ≡ Some field.now
        → field.now.indexed ≡ true → is_text field.now.kind ≡ true
        → MatchResult result (IsSetOf (λ d. some_has_prefix field.now (prefix_text field.now text.now) (values_in d number)) documents)
        (LacksPart (AsksWalk part.now s documents p (field_key number (prefix_text field.now text.now)) Each) part.now.pieces) }
    ensures reads { ReadsAll part.now (Walk (field_key number (prefix_text field.now text.now)) Each ∷ []) result }
{
    let folded = folded_prefix(alloc, field, text)?;
    let prefix = key_bytes(alloc, number, folded.as_slice())?;
    walk_documents(alloc, index, part, &prefix, Wanted::Each, field.positions)
}

// The value of an edge that is held has 64 bits.
pub(crate) fn edge_has_64(edge: &Edge)
    ensures { EdgeHas64 edge.now }
{
    match edge {
        Edge::Unbounded => {}
        Edge::Included(value) => has_64(value),
        Edge::Excluded(value) => has_64(value),
    }
}

/// The documents that have a value between two edges, by the keys of the field.
pub(crate) fn walked_range(
    alloc: Global,
    index: &BlockIndex,
    part: &PartView,
    number: usize,
    field: &Field,
    low: &Edge,
    high: &Edge,
) -> Result<DocBits, LeafError>
    requires index { index.now ≡ part.now.footer.index }
    requires number { number < 256 }
    ensures size { IfOk result (λ b. b.size ≡ part.now.footer.layout.docs) }
    ensures only { (s : Schema) (documents : List Placed) (p : Parts) → IsSearched part.now s documents p → slice_get s.fields number ≡ Some field.now
        → field.now.indexed ≡ true → has_order field.now.kind ≡ true
        → MatchResult result (IsSetOf (λ d. between low.now high.now (values_in d number)) documents)
        (LacksPart (AsksWalk part.now s documents p (field_key number []) (Within (range_of field.now.kind low.now high.now))) part.now.pieces) }
    ensures reads { ReadsAll part.now (Walk (field_key number []) (Within (range_of field.now.kind low.now high.now)) ∷ []) result }
{
    edge_has_64(low);
    edge_has_64(high);
    let range = between(field.kind, low, high);
    let prefix = key_bytes(alloc, number, &[])?;
    let wanted = Wanted::Within(range);
    walk_documents(alloc, index, part, &prefix, wanted, field.positions)
}

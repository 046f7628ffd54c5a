// The documents in which a phrase stands, by the places of its tokens.

ghost use Rattle.std.specs.Prelude.{◌≡◌, ℕ, ◌+◌, ◌<◌, ◌≤◌, ◌⊎◌, ◌&&◌, ◌||◌, nat_eq, true, List, Some, drop, length, vec_len, slice_get, IfOk, MatchResult};
ghost use Rattle.doc_value.specs.declared.schema.Schema.{Schema};
ghost use Rattle.query_ast.specs.Meaning.{is_text, first_position, phrase_holds};
ghost use Rattle.doc_value.specs.Documents.{values_in};
ghost use Rattle.term_postings.specs.Postings.{AreRising};
ghost use Rattle.split_bundle.specs.declared.placed.Placed.{Placed};
ghost use Rattle.split_bundle.specs.Files.{Parts};
ghost use Rattle.split_bundle.specs.Keys.{field_key, keys_of};
ghost use Rattle.split_bundle.specs.Lists.{keeps_places};
ghost use Rattle.doc_sets.specs.Asked as asked;
ghost use Rattle.doc_sets.specs.Asking.{LacksLookups};
ghost use Rattle.doc_sets.specs.Bits.{has};
ghost use Rattle.doc_sets.specs.Faults.{IsMemory};
ghost use Rattle.doc_sets.specs.Needed.{IsSearched, LacksPlaces, token_keys};
ghost use Rattle.doc_sets.specs.Reads.{ReadsAll};
ghost use Rattle.doc_sets.specs.Seeking.{ArePassing};
ghost use Rattle.doc_sets.specs.Sets.{IsSetOf};
ghost use Rattle.doc_sets.specs.Texts.{lookups_for};

use crate::bits::DocBits;
use crate::distances::keep_behind;
use crate::laws::{each_by_keys, phrase_by_keys};
use crate::leaf_error::LeafError;
use crate::places::{key_cursor, seek_places};
use crate::sets::no_documents;
use crate::words::{each_documents, key_bytes, token_documents};
use doc_value::Field;
use split_bundle::PartView;
use std::alloc::Global;
use term_dict::BlockIndex;
use term_postings::Cursor;
use text_tokens::Token;

// The cursors of the tokens of a phrase, whose field keeps positions.
fn open_cursors<'a>(
    alloc: Global,
    index: &BlockIndex,
    part: &PartView<'a>,
    number: usize,
    phrase: &[Token],
) -> Result<Vec<Cursor<'a>>, LeafError>
    requires index { index.now ≡ part.now.footer.index }
    requires number { number < 256 }
    ensures many { IfOk result (λ cs. vec_len cs ≡ length phrase.now) }
    ensures only { (s : Schema) (documents : List Placed) (p : Parts) → IsSearched part.now s documents p → ((term : List ℕ) → keeps_places s (field_key number term) ≡ true)
        → MatchResult result (λ cs. ArePassing s documents number phrase.now cs.items 0 0) (LacksPlaces part.now s documents p (token_keys number phrase.now)) }
{
    let mut cursors = Vec::new(alloc);
    for token in phrase {
        let key = key_bytes(alloc, number, token.text.as_slice())?;
        let cursor = key_cursor(index, part, &key)?;
        cursors.push(cursor)?;
    }
    Ok(cursors)
}

// Whether the tokens behind the first one stand at their distances behind one of some places, of a document that has all of them.
fn others_stand(
    phrase: &[Token],
    cursors: &mut [Cursor],
    from: usize,
    starts: &mut Vec<u64>,
    places: &mut Vec<u64>,
    document: u32,
) -> Result<bool, LeafError>
    requires { length cursors.old ≡ length phrase.now }
    ensures { (s : Schema) (documents : List Placed) (number : ℕ) (d : Placed) → ArePassing s documents number phrase.now cursors.old document 1
        → ((term : List ℕ) → keeps_places s (field_key number term) ≡ true) → slice_get documents document ≡ Some d → asked.has_each number phrase.now (keys_of s d.doc) ≡ true
        → AreRising starts.old.items
        → MatchResult result (λ b. (b ≡ asked.stands_from_one number (drop 1 phrase.now) from starts.old.items (keys_of s d.doc)) × ArePassing s documents number phrase.now cursors.new (document + 1) 0) IsMemory }
{
    for other in 1..phrase.len() {
        if starts.is_empty() {
            return Ok(false);
        }
        let token = &phrase[other];
        seek_places(&mut cursors[other], places, document)?;
        let distance = token.position.saturating_sub(from);
        keep_behind(starts, places, distance as u64);
    }
    Ok(!starts.is_empty())
}

// Whether a phrase stands in a document that has its tokens.
fn runs_in(
    phrase: &[Token],
    cursors: &mut [Cursor],
    starts: &mut Vec<u64>,
    places: &mut Vec<u64>,
    document: u32,
) -> Result<bool, LeafError>
    requires { length cursors.old ≡ length phrase.now }
    ensures { (s : Schema) (documents : List Placed) (number : ℕ) (d : Placed) → ArePassing s documents number phrase.now cursors.old document 0
        → ((term : List ℕ) → keeps_places s (field_key number term) ≡ true) → slice_get documents document ≡ Some d → asked.has_each number phrase.now (keys_of s d.doc) ≡ true
        → MatchResult result (λ b. (b ≡ asked.has_run number phrase.now (keys_of s d.doc)) × ArePassing s documents number phrase.now cursors.new (document + 1) 0) IsMemory }
{
    match phrase {
        [] => Ok(false),
        [first, ..] => {
            seek_places(&mut cursors[0], starts, document)?;
            others_stand(phrase, cursors, first.position, starts, places, document)
        }
    }
}

fn put_if(bits: &mut DocBits, document: u32, holds: bool)
    requires { document < bits.old.size }
    ensures size { bits.new.size ≡ bits.old.size }
    ensures has { (k : ℕ) → has bits.new k ≡ (nat_eq k document && holds) || has bits.old k }
{
    if holds {
        bits.insert(document);
    }
}

// Whether no token of a phrase stands far behind a position.
fn are_close(phrase: &[Token], from: usize) -> bool
    ensures { result ≡ asked.are_close from phrase.now }
{
    for token in phrase {
        if token.position.saturating_sub(from) >= 2_147_483_648 {
            return false;
        }
    }
    true
}

// The documents in which a phrase stands, of those that have its tokens.
fn run_documents(
    alloc: Global,
    phrase: &[Token],
    cursors: &mut [Cursor],
    candidates: &DocBits,
) -> Result<DocBits, LeafError>
    requires { length cursors.old ≡ length phrase.now }
    ensures size { IfOk result (λ b. b.size ≡ candidates.now.size) }
    ensures only { (s : Schema) (documents : List Placed) (number : ℕ) → ArePassing s documents number phrase.now cursors.old 0 0 → ((term : List ℕ) → keeps_places s (field_key number term) ≡ true)
        → IsSetOf (λ d. asked.has_each number phrase.now (keys_of s d)) documents candidates.now
        → MatchResult result (IsSetOf (λ d. asked.has_run number phrase.now (keys_of s d)) documents) IsMemory }
{
    let mut bits = DocBits::vacant(alloc, candidates.size())?;
    let mut starts = Vec::new(alloc);
    let mut places = Vec::new(alloc);
    let mut from = 0;
    while let Some(document) = candidates.next_from(from) {
        let runs = runs_in(phrase, cursors, &mut starts, &mut places, document)?;
        put_if(&mut bits, document, runs);
        from = document + 1;
    }
    Ok(bits)
}

// The documents in which several tokens stand as a phrase.
fn several_documents(
    alloc: Global,
    index: &BlockIndex,
    part: &PartView,
    number: usize,
    field: &Field,
    phrase: &[Token],
) -> Result<DocBits, LeafError>
    requires index { index.now ≡ part.now.footer.index }
    requires number { number < 256 }
    ensures size { IfOk result (λ b. b.size ≡ part.now.footer.layout.docs) }
    ensures only { (s : Schema) (documents : List Placed) (p : Parts) → IsSearched part.now s documents p → slice_get s.fields number ≡ Some field.now
        → field.now.indexed ≡ true → is_text field.now.kind ≡ true → field.now.positions ≡ true → asked.AreBehindFirst phrase.now → asked.are_close (first_position phrase.now) phrase.now ≡ true → 2 ≤ length phrase.now
        → MatchResult result (IsSetOf (λ d. phrase_holds field.now phrase.now (values_in d number)) documents) (LacksPlaces part.now s documents p (token_keys number phrase.now)) }
{
    phrase_by_keys();
    each_by_keys();
    let candidates = each_documents(alloc, index, part, number, field, phrase)?;
    let mut cursors = open_cursors(alloc, index, part, number, phrase)?;
    run_documents(alloc, phrase, &mut cursors, &candidates)
}

// The documents in which some tokens stand as a phrase.
pub(crate) fn phrase_documents(
    alloc: Global,
    index: &BlockIndex,
    part: &PartView,
    number: usize,
    field: &Field,
    phrase: &[Token],
) -> Result<DocBits, LeafError>
    requires index { index.now ≡ part.now.footer.index }
    requires number { number < 256 }
    ensures size { IfOk result (λ b. b.size ≡ part.now.footer.layout.docs) }
    ensures only { (s : Schema) (documents : List Placed) (p : Parts) → IsSearched part.now s documents p → slice_get s.fields number ≡ Some field.now
        → field.now.indexed ≡ true → is_text field.now.kind ≡ true → (field.now.positions ≡ true) ⊎ (length phrase.now ≤ 1) → asked.AreBehindFirst phrase.now
        → MatchResult result (IsSetOf (λ d. phrase_holds field.now phrase.now (values_in d number)) documents) (LacksLookups part.now s documents p (lookups_for (token_keys number phrase.now))) }
    ensures reads { ReadsAll part.now (lookups_for (token_keys number phrase.now)) result }
{
    match phrase {
        [] => Ok(no_documents(alloc, part)?),
        [only] => token_documents(alloc, index, part, number, field, only.text.as_slice()),
        [first, _second, ..] => {
            if are_close(phrase, first.position) {
                several_documents(alloc, index, part, number, field, phrase)
            } else {
                Ok(no_documents(alloc, part)?)
            }
        }
    }
}

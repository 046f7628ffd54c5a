// The places of a key in the documents that have it, by a cursor that goes on from document to document.

ghost use Rattle.std.specs.Prelude.{◌≡◌, ◌+◌, ◌∷◌, [], true, List, Some, slice_get, ℕ, MatchResult};
ghost use Rattle.doc_value.specs.declared.schema.Schema.{Schema};
ghost use Rattle.term_dict.specs.Terms.{lookup};
ghost use Rattle.term_postings.specs.Cursors.{StandsBefore};
ghost use Rattle.term_postings.specs.Postings.{AreRising};
ghost use Rattle.term_postings.specs.declared.list.Posting.{Posting};
ghost use Rattle.split_bundle.specs.declared.placed.Placed.{Placed};
ghost use Rattle.split_bundle.specs.Files.{Parts};
ghost use Rattle.split_bundle.specs.Keys.{keys_of};
ghost use Rattle.split_bundle.specs.Lists.{has_key, keeps_places, places_of, posting_list, terms_of};
ghost use Rattle.doc_sets.specs.Faults.{IsMemory};
ghost use Rattle.doc_sets.specs.Needed.{IsSearched, LacksPlaces};
ghost use Rattle.doc_sets.specs.Seeking.{CanSeek};

use crate::leaf_error::{LeafError, POSITIONS, POSTINGS};
use crate::lookups::term_at;
use split_bundle::PartView;
use term_dict::{BlockIndex, TermInfo};
use term_postings::Cursor;

// A cursor over the list of a term, with positions.
fn term_cursor<'a>(part: &PartView<'a>, info: &TermInfo) -> Result<Cursor<'a>, LeafError>
    ensures { (s : Schema) (documents : List Placed) (p : Parts) (key : List ℕ) → IsSearched part.now s documents p → lookup key (terms_of s documents p.keys) ≡ Some info.now
        → keeps_places s key ≡ true → MatchResult result (λ c. CanSeek (posting_list s documents key) c 0) (LacksPlaces part.now s documents p (key ∷ [])) }
{
    let cursor = part.postings_at(info, true)?;
    Ok(cursor)
}

// A cursor over the list of no document.
fn vacant_cursor<'a>() -> Cursor<'a>
    ensures { CanSeek [] result 0 }
{
    Cursor::over(&[], &[], 0, true)
}

// A cursor over the list of a key, where its field keeps positions. A key that is not listed has the list of no document.
pub(crate) fn key_cursor<'a>(
    index: &BlockIndex,
    part: &PartView<'a>,
    key: &[u8],
) -> Result<Cursor<'a>, LeafError>
    requires { index.now ≡ part.now.footer.index }
    ensures { (s : Schema) (documents : List Placed) (p : Parts) → IsSearched part.now s documents p → keeps_places s key.now ≡ true
        → MatchResult result (λ c. CanSeek (posting_list s documents key.now) c 0) (LacksPlaces part.now s documents p (key.now ∷ [])) }
{
    match term_at(index, part, key)? {
        Some(info) => term_cursor(part, &info),
        None => Ok(vacant_cursor()),
    }
}

// Puts the positions that a cursor still has to give of the document given last in place of others.
fn take_places(cursor: &mut Cursor, places: &mut Vec<u64>) -> Result<(), LeafError>
    ensures only { (after : List Posting) (left : List ℕ) → StandsBefore true cursor.old after left
        → MatchResult result (λ u. (places.new.items ≡ left) × StandsBefore true cursor.new after []) IsMemory }
    ensures given { cursor.new.given ≡ cursor.old.given }
{
    places.clear();
    for taken in 0..u64::MAX {
        match cursor.next_position() {
            Ok(Some(place)) => places.push(place)?,
            Ok(None) => return Ok(()),
            Err(_) => return Err(LeafError::Corrupt { section: POSITIONS }),
        }
    }
    Ok(())
}

// Puts the places of a key in a document that has it in place of others.
pub(crate) fn seek_places(
    cursor: &mut Cursor,
    places: &mut Vec<u64>,
    document: u32,
) -> Result<(), LeafError>
    ensures { (s : Schema) (documents : List Placed) (key : List ℕ) (d : Placed) → CanSeek (posting_list s documents key) cursor.old document → keeps_places s key ≡ true
        → slice_get documents document ≡ Some d → has_key key (keys_of s d.doc) ≡ true
        → MatchResult result (λ u. (places.new.items ≡ places_of key (keys_of s d.doc)) × AreRising places.new.items × CanSeek (posting_list s documents key) cursor.new (document + 1)) IsMemory }
{
    match cursor.seek(document) {
        Ok(_found) => take_places(cursor, places),
        Err(_) => Err(LeafError::Corrupt { section: POSTINGS }),
    }
}

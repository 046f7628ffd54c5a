//! The list of a key over several splits, gathered as their dictionaries are walked.

ghost use Rattle.std.specs.Prelude.{◌≡◌, ◌<◌, [], ℕ, List, Option, Some, true, length, IfErr, IfOk, IsOkAnd, MatchResult, OnOk};
ghost use Rattle.std.specs.List.{AllByRecursion};
ghost use Rattle.doc_value.specs.declared.schema.Schema.{Schema};
ghost use Rattle.term_dict.specs.Terms.{lookup};
ghost use Rattle.term_postings.specs.Cursors.{StandsBefore};
ghost use Rattle.split_bundle.specs.declared.placed.Placed.{Placed};
ghost use Rattle.split_bundle.specs.Files.{Parts};
ghost use Rattle.split_bundle.specs.Lists.{keeps_places, posting_list, terms_of};
ghost use Rattle.split_bundle.specs.SplitViews.{IsViewOf};
ghost use Rattle.split_merge.specs.Faults.{IsWant};
ghost use Rattle.split_merge.specs.Joining.{Adds, Holds, joined_list, renumbered};
ghost use Rattle.split_merge.specs.Keeping.{AreViewsOf};
ghost use Rattle.split_merge.specs.Merging.{Blames};
ghost use Rattle.split_merge.specs.Numbering.{number_in};
ghost use Rattle.split_merge.specs.Walking.{AllBut, AreWalks, IsBeyond, IsElsewhere, IsFront, IsNotBelow, IsWalkOf, WasFront, is_past};

use crate::MergeError;
use crate::keeping::fault_of;
use crate::key_walks::{Front, KeyWalk};
use crate::lists::KeyList;
use crate::numbers::Numbers;
use split_bundle::{SplitError, SplitView};
use term_dict::TermInfo;
use term_postings::Cursor;

// A cursor before the documents of a term of a split. `kept` says whether its list has positions.
fn cursor_over<'a>(
    view: &SplitView<'a>,
    info: &TermInfo,
    kept: bool,
) -> Result<Cursor<'a>, SplitError>
    ensures { (s : Schema) (documents : List Placed) (p : Parts) (key : List ℕ) → IsViewOf view.now s documents p → lookup key (terms_of s documents p.keys) ≡ Some info.now → kept ≡ keeps_places s key
        → IsOkAnd result (λ c. StandsBefore kept c (posting_list s documents key) []) }
{
    if kept {
        view.postings_at(info, true)
    } else {
        view.documents_at(info, false)
    }
}

// Adds the documents of a term of a split that have a number. After an `Err` nothing is said of the list.
fn put_term(
    view: &SplitView<'_>,
    numbers: &Numbers,
    info: &TermInfo,
    kept: bool,
    list: &mut KeyList,
) -> Result<(), SplitError>
    ensures { (s : Schema) (documents : List Placed) (p : Parts) (key : List ℕ) → IsViewOf view.now s documents p → lookup key (terms_of s documents p.keys) ≡ Some info.now → kept ≡ keeps_places s key
        → MatchResult result (λ _. Adds kept list.old list.new (renumbered (number_in numbers.now) (posting_list s documents key))) IsWant }
{
    match cursor_over(view, info, kept) {
        Ok(cursor) => {
            if kept {
                list.put_kept(cursor, info, numbers)
            } else {
                list.put_bare(cursor, info.docs, numbers)
            }
        }
        Err(fault) => Err(fault),
    }
}

// Adds the documents that a split has at a key, and goes on behind it. After an `Err` nothing is said of the list and the
// walk.
fn take_key(
    view: &SplitView<'_>,
    numbers: &Numbers,
    walk: &mut KeyWalk<'_>,
    key: &[u8],
    kept: bool,
    list: &mut KeyList,
) -> Result<(), SplitError>
    ensures walk { (s : Schema) (last : Option (List ℕ)) → kept ≡ keeps_places s key.now → is_past last key.now ≡ true → IsWalkOf s last view.now walk.old → IsNotBelow key.now walk.old
        → OnOk result (IsWalkOf s (Some key.now) view.now walk.new) }
    ensures only { (s : Schema) (last : Option (List ℕ)) (documents : List Placed) (p : Parts) → kept ≡ keeps_places s key.now → is_past last key.now ≡ true → IsWalkOf s last view.now walk.old → IsNotBelow key.now walk.old
        → IsViewOf view.now s documents p → MatchResult result (λ _. Adds kept list.old list.new (renumbered (number_in numbers.now) (posting_list s documents key.now))) IsWant }
{
    let Some(info) = walk.at(key) else {
        return Ok(());
    };
    match put_term(view, numbers, &info, kept, list) {
        Ok(()) => walk.advance(),
        Err(fault) => Err(fault),
    }
}

// Gathers the documents that splits have at a key, the least one that their walks stand at, and goes on behind it. After an
// `Err` nothing is said of the list and the walks.
fn gather_key(
    views: &[SplitView<'_>],
    numbers: &[Numbers],
    walks: &mut [KeyWalk<'_>],
    key: &[u8],
    kept: bool,
    list: &mut KeyList,
) -> Result<(), MergeError>
    requires numbers { length numbers.now ≡ length views.now }
    requires walks { length walks.old ≡ length views.now }
    ensures walks { (s : Schema) (last : Option (List ℕ)) → kept ≡ keeps_places s key.now → is_past last key.now ≡ true → AreWalks s last views.now walks.old → AllByRecursion (IsNotBelow key.now) walks.old
        → OnOk result (AreWalks s (Some key.now) views.now walks.new) }
    ensures only { (s : Schema) (last : Option (List ℕ)) (lists : List (List Placed)) → kept ≡ keeps_places s key.now → is_past last key.now ≡ true → AreWalks s last views.now walks.old → AllByRecursion (IsNotBelow key.now) walks.old
        → AreViewsOf s views.now lists → Holds kept list.old [] → OnOk result (Holds kept list.new (joined_list s key.now lists numbers.now)) }
    ensures cause { (s : Schema) (last : Option (List ℕ)) → kept ≡ keeps_places s key.now → is_past last key.now ≡ true → AreWalks s last views.now walks.old → AllByRecursion (IsNotBelow key.now) walks.old
        → IfErr result (Blames s views.now) }
{
    for i in 0..walks.len() {
        match take_key(&views[i], &numbers[i], &mut walks[i], key, kept, list) {
            Ok(()) => {}
            Err(fault) => return Err(fault_of(i, fault)),
        }
    }
    Ok(())
}

// The same, where the walk at a place alone stands at the key.
fn gather_alone(
    views: &[SplitView<'_>],
    numbers: &[Numbers],
    walks: &mut [KeyWalk<'_>],
    place: usize,
    key: &[u8],
    kept: bool,
    list: &mut KeyList,
) -> Result<(), MergeError>
    requires numbers { length numbers.now ≡ length views.now }
    requires walks { length walks.old ≡ length views.now }
    requires place { place < length walks.old }
    ensures walks { (s : Schema) (last : Option (List ℕ)) → kept ≡ keeps_places s key.now → is_past last key.now ≡ true → AreWalks s last views.now walks.old → AllByRecursion (IsNotBelow key.now) walks.old
        → AllBut place (IsElsewhere key.now) walks.old → OnOk result (AreWalks s (Some key.now) views.now walks.new) }
    ensures only { (s : Schema) (last : Option (List ℕ)) (lists : List (List Placed)) → kept ≡ keeps_places s key.now → is_past last key.now ≡ true → AreWalks s last views.now walks.old → AllByRecursion (IsNotBelow key.now) walks.old
        → AllBut place (IsElsewhere key.now) walks.old → AreViewsOf s views.now lists → Holds kept list.old [] → OnOk result (Holds kept list.new (joined_list s key.now lists numbers.now)) }
    ensures cause { (s : Schema) (last : Option (List ℕ)) → kept ≡ keeps_places s key.now → is_past last key.now ≡ true → AreWalks s last views.now walks.old → AllByRecursion (IsNotBelow key.now) walks.old
        → IfErr result (Blames s views.now) }
    ensures others { (bound : Option (List ℕ)) → AllBut place (IsBeyond bound) walks.old → AllBut place (IsBeyond bound) walks.new }
    ensures size { length walks.new ≡ length walks.old }
{
    match take_key(
        &views[place],
        &numbers[place],
        &mut walks[place],
        key,
        kept,
        list,
    ) {
        Ok(()) => Ok(()),
        Err(fault) => Err(fault_of(place, fault)),
    }
}

/// Gathers the documents that splits have at the key in front, and goes on behind it. It gives the front, where its walk alone
/// went on. After an `Err` nothing is said of the list and the walks.
pub(crate) fn gather_front<'a>(
    views: &[SplitView<'_>],
    numbers: &[Numbers],
    walks: &mut [KeyWalk<'_>],
    front: Front<'a>,
    kept: bool,
    list: &mut KeyList,
) -> Result<Option<Front<'a>>, MergeError>
    requires numbers { length numbers.now ≡ length views.now }
    requires walks { length walks.old ≡ length views.now }
    requires front { IsFront front walks.old }
    ensures front { IfOk result (λ before. WasFront before walks.new) }
    ensures walks { (s : Schema) (last : Option (List ℕ)) → kept ≡ keeps_places s front.entry.key.now → is_past last front.entry.key.now ≡ true → AreWalks s last views.now walks.old
        → OnOk result (AreWalks s (Some front.entry.key.now) views.now walks.new) }
    ensures only { (s : Schema) (last : Option (List ℕ)) (lists : List (List Placed)) → kept ≡ keeps_places s front.entry.key.now → is_past last front.entry.key.now ≡ true → AreWalks s last views.now walks.old
        → AreViewsOf s views.now lists → Holds kept list.old [] → OnOk result (Holds kept list.new (joined_list s front.entry.key.now lists numbers.now)) }
    ensures cause { (s : Schema) (last : Option (List ℕ)) → kept ≡ keeps_places s front.entry.key.now → is_past last front.entry.key.now ≡ true → AreWalks s last views.now walks.old → IfErr result (Blames s views.now) }
{
    if front.is_alone() {
        match gather_alone(views, numbers, walks, front.walk, front.key, kept, list) {
            Ok(()) => Ok(Some(front)),
            Err(fault) => Err(fault),
        }
    } else {
        match gather_key(views, numbers, walks, front.key, kept, list) {
            Ok(()) => Ok(None),
            Err(fault) => Err(fault),
        }
    }
}

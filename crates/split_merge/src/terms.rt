//! The terms of several splits as those of one.

ghost use Rattle.std.specs.Prelude.{◌≡◌, ◌<◌, ◌≤◌, ◌+◌, ◌-◌, ◌^◌, ◌∷◌, ◌++◌, [], ℕ, List, Option, Some, None, length, true, IfOk, IfErr, OnOk, MatchResult};
ghost use Rattle.std.specs.List.{AllZip};
ghost use Rattle.doc_value.specs.declared.schema.Schema.{Schema};
ghost use Rattle.term_postings.specs.declared.list.Posting.{Posting};
ghost use Rattle.split_bundle.specs.declared.placed.Placed.{Placed};
ghost use Rattle.split_bundle.specs.Lists.{keeps_places, posting_list};
ghost use Rattle.split_bundle.specs.Splits.{AreKeys, AreRising};
ghost use Rattle.split_build.specs.WrittenTerms.{AreTermParts};
ghost use Rattle.split_merge.specs.Joining.{Holds};
ghost use Rattle.split_merge.specs.Faults.{IsWant};
ghost use Rattle.split_merge.specs.Keeping.{AreViewsOf, ViewsSplit, joined, kept};
ghost use Rattle.split_merge.specs.Merging.{Blames};
ghost use Rattle.split_merge.specs.Numbering.{kept_in, no_number, tables_of};
ghost use Rattle.split_merge.specs.Walking.{AreWalks, IsIndexOf, IsWalkOf, is_past};

use crate::MergeError;
use crate::keeping::fault_of;
use crate::key_lists::gather_front;
use crate::key_walks::{KeyWalk, next_front};
use crate::lists::KeyList;
use crate::numbers::Numbers;
use doc_value::Schema;
use split_build::TermParts;
use split_bundle::{SplitError, SplitView};
use std::alloc::{AllocError, Global};
use term_dict::{BlockIndex, DictBuilder, TermInfo};

// Whether the lists of a key have positions: those of a field that keeps them.
fn keeps_places(schema: &Schema, key: &[u8]) -> bool
    ensures { result ≡ keeps_places schema.now key.now }
{
    match key {
        [high, low, ..] => {
            let number = usize::from(*high) * 256 + usize::from(*low);
            schema
                .fields
                .as_slice()
                .get(number)
                .is_some_and(|field| field.positions)
        }
        _ => false,
    }
}

// The indexes of the dictionaries of splits.
fn indexes_of(alloc: Global, views: &[SplitView<'_>]) -> Result<Vec<BlockIndex>, MergeError>
    ensures only { (s : Schema) → IfOk result (λ indexes. AllZip (IsIndexOf s) views.now indexes.items) }
    ensures cause { (s : Schema) → IfErr result (Blames s views.now) }
{
    let mut indexes = Vec::new(alloc);
    for (number, view) in views.iter().enumerate() {
        match view.block_index(alloc) {
            Ok(index) => match indexes.push(index) {
                Ok(()) => {}
                Err(refused) => return Err(AllocError::from(refused).into()),
            },
            Err(fault) => return Err(fault_of(number, fault)),
        }
    }
    Ok(indexes)
}

// At the first term of a split's dictionary, by its index.
fn walk_over<'a>(view: &'a SplitView<'_>, index: &'a BlockIndex) -> Result<KeyWalk<'a>, SplitError>
    ensures { (s : Schema) → IsIndexOf s view.now index.now → MatchResult result (IsWalkOf s None view.now) (λ fault. (documents : List Placed) → ViewsSplit s view.now documents → IsWant fault) }
{
    match view.dict(index) {
        Ok(dict) => KeyWalk::over(&dict),
        Err(fault) => Err(fault),
    }
}

// At the first terms of the dictionaries of splits, by their indexes.
fn walks_over<'a>(
    alloc: Global,
    views: &'a [SplitView<'_>],
    indexes: &'a [BlockIndex],
) -> Result<Vec<KeyWalk<'a>>, MergeError>
    requires { length indexes.now ≡ length views.now }
    ensures only { (s : Schema) → AllZip (IsIndexOf s) views.now indexes.now → IfOk result (λ walks. AreWalks s None views.now walks.items) }
    ensures cause { (s : Schema) → AllZip (IsIndexOf s) views.now indexes.now → IfErr result (Blames s views.now) }
{
    let mut walks = Vec::new(alloc);
    for i in 0..views.len() {
        match walk_over(&views[i], &indexes[i]) {
            Ok(walk) => match walks.push(walk) {
                Ok(()) => {}
                Err(refused) => return Err(AllocError::from(refused).into()),
            },
            Err(fault) => return Err(fault_of(i, fault)),
        }
    }
    Ok(walks)
}

/// The dictionary, the postings and the positions of joined keys, as far as they are written, and how many keys these are.
#[derive(Drop)]
pub(crate) struct JoinedTerms {
    count: u64,
    dictionary: DictBuilder,
    postings: Vec<u8>,
    positions: Vec<u8>,
    // The bytes of the blocks of one list.
    blocks: Vec<u8>,
}

// A number in 32 bits. There is no room for more documents.
fn narrow(number: usize) -> Result<u32, AllocError>
    ensures { IfOk result (λ n. n ≡ number) }
{
    match u32::try_from(number) {
        Ok(narrow) => Ok(narrow),
        Err(_) => Err(AllocError),
    }
}

// How many bytes stand behind a place.
fn len_behind(bytes: &[u8], from: usize) -> u64
    ensures { result ≡ length bytes.now - from }
{
    bytes.len().saturating_sub(from) as u64
}

impl JoinedTerms {
    ghost use Rattle.split_merge.specs.Terms.{HasJoined, IsJoinedUpTo, IsNext};

    fn vacant(alloc: Global) -> JoinedTerms
        ensures { (s : Schema) (documents : List Placed) → HasJoined result s documents [] }
    {
        JoinedTerms {
            count: 0,
            dictionary: DictBuilder::vacant(alloc),
            postings: Vec::new(alloc),
            positions: Vec::new(alloc),
            blocks: Vec::new(alloc),
        }
    }

    // Writes a key, which is above those that are written, with its list. `kept` says whether the list has positions.
    fn write(
        &mut self,
        alloc: Global,
        key: &[u8],
        kept: bool,
        list: &KeyList,
    ) -> Result<(), AllocError>
        requires { self.old.count + 1 < 2 ^ 64 }
        ensures count { OnOk result (self.new.count ≡ self.old.count + 1) }
        ensures written { (s : Schema) (documents : List Placed) (keys : List (List ℕ)) → kept ≡ keeps_places s key.now → Holds kept list.now (posting_list s documents key.now) → HasJoined self.old s documents keys
            → AreRising (keys ++ key.now ∷ []) → OnOk result (HasJoined self.new s documents (keys ++ key.now ∷ [])) }
    {
        let postings = self.postings.len();
        let positions = self.positions.len();
        list.append(
            kept,
            &mut self.blocks,
            &mut self.postings,
            &mut self.positions,
        )?;
        let info = TermInfo {
            docs: narrow(list.len())?,
            postings: postings as u64,
            postings_len: len_behind(&self.postings, postings),
            positions: positions as u64,
            positions_len: len_behind(&self.positions, positions),
        };
        self.dictionary.append(alloc, key, &info)?;
        self.count += 1;
        Ok(())
    }

    // Writes the key that comes next with its list, if that has a document.
    fn take(
        &mut self,
        alloc: Global,
        key: &[u8],
        kept: bool,
        list: &KeyList,
    ) -> Result<(), AllocError>
        requires { self.old.count + 1 < 2 ^ 64 }
        ensures count { OnOk result (self.new.count ≤ self.old.count + 1) }
        ensures taken { (s : Schema) (documents : List Placed) (last : Option (List ℕ)) → kept ≡ keeps_places s key.now → Holds kept list.now (posting_list s documents key.now) → is_past last key.now ≡ true
            → IsNext s documents last key.now → IsJoinedUpTo self.old s documents last → OnOk result (IsJoinedUpTo self.new s documents (Some key.now)) }
    {
        if list.is_empty() {
            return Ok(());
        }
        self.write(alloc, key, kept, list)
    }

    // The parts of a split that the keys make.
    fn finish(self) -> TermParts
        ensures { (s : Schema) (documents : List Placed) (keys : List (List ℕ)) → HasJoined self s documents keys → AreKeys s documents keys → AreTermParts s documents result }
    {
        let JoinedTerms {
            count,
            dictionary,
            postings,
            positions,
            ..
        } = self;
        let (dictionary, index) = dictionary.finish();
        TermParts {
            count,
            dictionary,
            index,
            postings,
            positions,
        }
    }
}

// The parts of a split that the keys of kept documents make, by walks that stand at the first terms.
fn join_walks(
    alloc: Global,
    schema: &Schema,
    views: &[SplitView<'_>],
    numbers: &[Numbers],
    walks: &mut [KeyWalk<'_>],
) -> Result<TermParts, MergeError>
    requires numbers { (dropped : List ℕ) × (numbers.now ≡ tables_of dropped 0 0 views.now) }
    requires walks { AreWalks schema.now None views.now walks.old }
    ensures only { (dropped : List ℕ) (lists : List (List Placed)) → numbers.now ≡ tables_of dropped 0 0 views.now → kept_in dropped 0 views.now ≤ no_number → AreViewsOf schema.now views.now lists
        → IfOk result (AreTermParts schema.now (kept dropped (joined lists))) }
    ensures cause { IfErr result (Blames schema.now views.now) }
{
    let mut list = KeyList::vacant(alloc);
    let mut terms = JoinedTerms::vacant(alloc);
    let mut before = None;
    for _turn in 0..u64::MAX {
        let Some(front) = next_front(walks, before) else {
            return Ok(terms.finish());
        };
        let kept = keeps_places(schema, front.key);
        list.clear();
        match gather_front(views, numbers, walks, front, kept, &mut list) {
            Ok(alone) => {
                before = alone;
                terms.take(alloc, front.key, kept, &list)?;
            }
            Err(fault) => return Err(fault),
        }
    }
    Err(MergeError::Memory(AllocError))
}

/// The parts of a split that the keys of kept documents make, of the dictionaries and the lists of their splits.
pub(crate) fn join_terms(
    alloc: Global,
    schema: &Schema,
    views: &[SplitView<'_>],
    numbers: &[Numbers],
) -> Result<TermParts, MergeError>
    requires { (dropped : List ℕ) × (numbers.now ≡ tables_of dropped 0 0 views.now) }
    ensures only { (dropped : List ℕ) (lists : List (List Placed)) → numbers.now ≡ tables_of dropped 0 0 views.now → kept_in dropped 0 views.now ≤ no_number → AreViewsOf schema.now views.now lists
        → IfOk result (AreTermParts schema.now (kept dropped (joined lists))) }
    ensures cause { IfErr result (Blames schema.now views.now) }
{
    match indexes_of(alloc, views) {
        Ok(indexes) => match walks_over(alloc, views, &indexes) {
            Ok(mut walks) => join_walks(alloc, schema, views, numbers, &mut walks),
            Err(fault) => Err(fault),
        },
        Err(fault) => Err(fault),
    }
}

//! The answer over what was fetched of splits.

ghost use Rattle.std.specs.Prelude.{◌≡◌, ◌<◌, ◌≤◌, ◌^◌, List, length, IfErr, IfOk, MatchResult};
ghost use Rattle.std.specs.List.{AllZip};
ghost use Rattle.agg_nested.specs.Checking.{HaveSteps};
ghost use Rattle.split_bundle.specs.declared.placed.Placed.{Placed};
ghost use Rattle.leaf_search.specs.Answers.{IsAnswerOf, IsAsked};
ghost use Rattle.search_api.specs.Resolved.{Search};
ghost use Rattle.root_search.specs.Answer.{answer};
ghost use Rattle.root_search.specs.LeafAsks.{Asks};
ghost use Rattle.root_search.specs.Leaves.{IsCounted, WantsMemory, all_of};
ghost use Rattle.root_search.specs.PartAnswers.{AreAnswered, AreFound, IsCorruptAt, IsFaultAt, IsRefusedPart, IsSaidOf, IsSaidOver, WantsRoom};
ghost use Rattle.root_search.specs.FetchedSplits.{HasNeeded};
ghost use Rattle.root_search.specs.declared.leaves.Threading.TheVariants.{InTurn};

use crate::answers::shown;
use crate::fetched_splits::{FetchedPieces, FetchedSplits, split_footers, views_of};
use crate::join_fault::JoinFault;
use crate::leaf_asks::LeafAsk;
use crate::leaves::{Threading, search_all};
use doc_value::Schema;
use leaf_search::LeafAnswer;
use meta_journal::split_key;
use search_api::{Refusal, Said};
use std::alloc::{AllocError, Global};
use std::thread::Threads;

// Threads take some tenths of a millisecond to start, in which about so many bytes of splits are read.
const WORTH_THREADS: usize = 256 * 1024;

// Why there is no answer over fetched splits.
#[derive(Drop)]
enum AnswerError {
    Memory(AllocError),
    // The bytes of the split with this number are not of its form.
    Corrupt { number: u64 },
}

impl From<AllocError> for AnswerError {
    ghost use Rattle.std.specs.Prelude.{◌≡◌};
    ghost use Rattle.root_search.specs.declared.part_answers.AnswerError.TheVariants.{Memory};

    ghost from_gives = { λ a e. e ≡ Memory a };

    fn from(refused: AllocError) -> Self {
        AnswerError::Memory(refused)
    }
}

// The fault of the split at a place. So many documents that they are not counted are more than a memory has.
fn fault_of(splits: &[FetchedPieces], error: JoinFault) -> AnswerError
    ensures room { WantsMemory error → WantsRoom result }
    ensures place { IsFaultAt splits.now error result }
{
    match error {
        JoinFault::Memory(refused) => AnswerError::Memory(refused),
        JoinFault::Missing { place, .. } => corrupt_at(splits, place),
        JoinFault::Corrupt { place, .. } => corrupt_at(splits, place),
        JoinFault::TooMany => AnswerError::Memory(AllocError),
    }
}

fn corrupt_at(splits: &[FetchedPieces], place: usize) -> AnswerError
    ensures { IsCorruptAt splits.now place result }
{
    match splits.get(place) {
        Some(split) => AnswerError::Corrupt {
            number: split.number,
        },
        None => AnswerError::Memory(AllocError),
    }
}

// How many bytes of a split are kept.
fn bytes_of(split: &FetchedPieces) -> usize {
    split.pieces.as_slice().iter().fold(
        0,
        |bytes: usize, piece| bytes.saturating_add(piece.bytes.len()),
    )
}

// In threads where several splits are asked and enough of them is read that it pays.
fn manner_for(splits: &[FetchedPieces]) -> Threading
    ensures alone { length splits.now ≤ 1 → result ≡ InTurn }
{
    let bytes = splits.iter().fold(
        0,
        |bytes: usize, split| bytes.saturating_add(bytes_of(split)),
    );
    if splits.len() > 1 && bytes > WORTH_THREADS {
        Threading::InThreads
    } else {
        Threading::InTurn
    }
}

// What the splits answer together. No footer is copied.
fn leaf_answer<Rt: Threads + Sync>(
    rt: &Rt,
    alloc: Global,
    schema: &Schema,
    ask: &LeafAsk,
    parts: FetchedSplits,
) -> Result<LeafAnswer, AnswerError>
    requires fields { length schema.now.fields ≤ 256 }
    requires intervals { HaveSteps ask.now.request.aggs }
    ensures only { (lists : List (List Placed)) → AllZip (HasNeeded schema.now ask.now.request) parts lists → length (all_of lists) < 2 ^ 62 → IsAsked schema.now ask.now.request
        → MatchResult result (IsAnswerOf schema.now ask.now.request (all_of lists)) WantsRoom }
    ensures counted { IfOk result (IsCounted ask.now.request) }
    ensures answered { IfOk result (AreAnswered schema.now ask.now.request parts) }
    ensures refused { IfErr result (IsRefusedPart schema.now ask.now.request parts) }
{
    let parted = split_footers(alloc, parts)?;
    let footers = parted.footers;
    let splits = parted.splits.as_slice();
    let views = views_of(alloc, footers, splits)?;
    let manner = manner_for(splits);
    match search_all(
        rt,
        alloc,
        manner,
        schema,
        &ask.request,
        views.as_slice(),
        splits,
    ) {
        Ok(answer) => Ok(answer),
        Err(error) => Err(fault_of(splits, error)),
    }
}

// What is answered where parts give no answer.
fn said_of(fault: AnswerError) -> Result<Said, AllocError>
    ensures { IfOk result (IsSaidOf fault) }
{
    match fault {
        AnswerError::Memory(refused) => Err(refused),
        AnswerError::Corrupt { number } => Ok(Said::Refused(Refusal::Corrupt {
            key: split_key(number),
        })),
    }
}

/// What a search is answered over what was fetched of splits: that of the documents of which they have what is found. A split
/// whose bytes are not of its form is replied as Corrupt.
#[tactic(auto, using(crate::proofs::Unread::only_room, crate::proofs::Unread::said_of_broken))]
pub(crate) fn answer_over<Rt: Threads + Sync>(
    rt: &Rt,
    alloc: Global,
    schema: &Schema,
    ask: &LeafAsk,
    parts: FetchedSplits,
) -> Result<Said, AllocError>
    requires fields { length schema.now.fields ≤ 256 }
    requires intervals { HaveSteps ask.now.request.aggs }
    ensures only { (search : Search) (lists : List (List Placed)) (documents : List Placed) → Asks search ask.now → IsAsked schema.now ask.now.request
        → AllZip (HasNeeded schema.now ask.now.request) parts lists → length (all_of lists) < 2 ^ 62 → AreFound schema.now ask.now.request lists documents
        → IfOk result (λ said. said ≡ answer schema.now search documents) }
    // Over any bytes: what is said is what the leaves over all parts answer together, or Corrupt with the key of the first part over which the leaf met
    // a fault.
    ensures said { IfOk result (IsSaidOver schema.now ask.now parts) }
{
    match leaf_answer(rt, alloc, schema, ask, parts) {
        Ok(answer) => shown(alloc, schema, ask, &answer),
        Err(fault) => said_of(fault),
    }
}

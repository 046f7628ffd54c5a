//! The answer over many splits.

ghost use Rattle.std.specs.Prelude.{◌≡◌, ◌+◌, ◌^◌, ◌<◌, ◌≤◌, ◌++◌, ◌∷◌, [], List, length, Some, Err, IfErr, IfNone, IfOk, IfSome, MatchResult};
ghost use Rattle.std.specs.Bool.{OnTrue};
ghost use Rattle.std.specs.List.{All, AllZip};
ghost use Rattle.doc_value.specs.declared.schema.Schema.{Schema};
ghost use Rattle.agg_nested.specs.Checking.{HaveSteps};
ghost use Rattle.split_bundle.specs.declared.placed.Placed.{Placed};
ghost use Rattle.leaf_search.specs.Answers.{IsAnswerOf, IsAsked};
ghost use Rattle.root_search.specs.FetchedSplits.{IsLentBy};
ghost use Rattle.root_search.specs.Shares.{AreEnough};
ghost use Rattle.root_search.specs.Leaves.{AllJoined, AreJoined, AreSure, AsksAlike, GivesShare, HasAsked, HasCauseIn, IsCounted, IsFaultIn, IsFull, IsJoinOf, IsLeafAnswer, IsRefusedIn, IsShareOf, IsSure, IsSureAt, IsViewOf, IsWholeViewOf, WantsMemory, all_of, all_ok, answers_in, placed_fault};

use crate::fetched_splits::{FetchedPieces, has_documents};
use crate::join_fault::JoinFault;
use crate::joins::merged;
use crate::shares::{SplitShare, SplitShares, is_whole, open_share, share_of};
use agg_nested::vacant_nested;
use doc_value::{Replica, Schema};
use leaf_search::{LeafAnswer, LeafError, LeafRequest, leaf};
use query_ast::copy_query;
use rayon::prelude::*;
use split_bundle::{PartView, PlacedList};
use std::alloc::{AllocError, Global};
use std::collections::VecDeque;
use std::mem;
use std::thread::Threads;

/// How splits are asked: one after the other in this thread, or in as many threads as there are processors.
#[derive(Clone, Copy)]
pub(crate) enum Threading {
    InTurn,
    InThreads,
}

// What each of some splits answers.
type LeafAnswers = Vec<Result<LeafAnswer, LeafError>>;

// So many documents are too many to be counted.
const TOO_MANY: u64 = 1 << 62;

// The answer over no documents.
fn vacant_answer(alloc: Global, request: &LeafRequest) -> Result<LeafAnswer, AllocError>
    ensures only { (s : Schema) → IfOk result (IsAnswerOf s request.now []) }
    ensures counted { IfOk result (IsCounted request.now) }
    ensures none { IfOk result (λ vacant. vacant.hits ≡ []) }
{
    Ok(LeafAnswer {
        count: 0,
        hits: PlacedList::vacant(alloc),
        partial: vacant_nested(alloc, &request.aggs)?,
    })
}

// The answers over two lists of documents, joined, if they are not too many together.
fn added(
    alloc: Global,
    request: &LeafRequest,
    all: LeafAnswer,
    next: LeafAnswer,
) -> Result<LeafAnswer, JoinFault>
    requires all { IsCounted request.now all }
    requires next { IsCounted request.now next }
    ensures only { (s : Schema) (xs ys : List Placed) → IsAnswerOf s request.now xs all → IsAnswerOf s request.now ys next
        → IfOk result (IsAnswerOf s request.now (xs ++ ys)) }
    ensures counted { IfOk result (IsCounted request.now) }
    ensures joined { IfOk result (AreJoined request.now (all ∷ next ∷ [])) }
    ensures full { IfErr result (IsFull (all.count + next.count)) }
{
    if all.count + next.count >= TOO_MANY {
        return Err(JoinFault::TooMany);
    }
    Ok(merged(alloc, request, all, next)?)
}

// The fault of the split at a place.
fn fault_at(place: usize, fault: LeafError) -> JoinFault
    ensures { result ≡ placed_fault place fault }
{
    match fault {
        LeafError::Memory(refused) => JoinFault::Memory(refused),
        LeafError::Missing { at } => JoinFault::Missing { place, at },
        LeafError::Corrupt { section } => JoinFault::Corrupt { place, section },
    }
}

// The answers of splits, joined in their order.
fn joined(
    alloc: Global,
    request: &LeafRequest,
    answers: LeafAnswers,
) -> Result<LeafAnswer, JoinFault>
    requires { All (λ answer. IfOk answer (IsCounted request.now)) answers.items }
    ensures only { (s : Schema) (lists : List (List Placed)) → AllZip (λ answer documents. IfOk answer (IsAnswerOf s request.now documents)) answers.items lists
        → IfOk result (IsAnswerOf s request.now (all_of lists)) }
    ensures counted { IfOk result (IsCounted request.now) }
    ensures fault { IfErr result (IsFaultIn answers.items) }
    // A fault of one is never passed over.
    ensures each { IfOk result (AllJoined request.now answers.items) }
{
    let mut all = vacant_answer(alloc, request)?;
    let mut left = VecDeque::from_vec(answers);
    let mut place = 0;
    while let Some(answer) = left.pop_front() {
        match answer {
            Ok(next) => all = added(alloc, request, all, next)?,
            Err(fault) => return Err(fault_at(place, fault)),
        }
        place += 1;
    }
    Ok(all)
}

// What a split answers.
fn leaf_of(
    alloc: Global,
    schema: &Schema,
    request: &LeafRequest,
    view: &PartView<'_>,
) -> Result<LeafAnswer, LeafError>
    requires fields { length schema.now.fields ≤ 256 }
    requires intervals { HaveSteps request.now.aggs }
    ensures { IsLeafAnswer schema.now request.now view.now result }
{
    leaf(alloc, schema, request, view)
}

// What each split answers, where one is asked after the other.
fn answers_in_turn(
    alloc: Global,
    schema: &Schema,
    request: &LeafRequest,
    views: &[PartView<'_>],
) -> Result<LeafAnswers, AllocError>
    requires fields { length schema.now.fields ≤ 256 }
    requires intervals { HaveSteps request.now.aggs }
    ensures { IfOk result (λ answers. AllZip (IsLeafAnswer schema.now request.now) views.now answers.items) }
{
    let mut answers = Vec::new(alloc);
    for view in views {
        answers.push(leaf_of(alloc, schema, request, view))?;
    }
    Ok(answers)
}

// The same, where they are asked in threads.
fn answers_in_threads<Rt: Threads + Sync>(
    rt: &Rt,
    alloc: Global,
    schema: &Schema,
    request: &LeafRequest,
    views: &[PartView<'_>],
) -> Result<LeafAnswers, AllocError>
    requires fields { length schema.now.fields ≤ 256 }
    requires intervals { HaveSteps request.now.aggs }
    ensures { IfOk result (λ answers. AllZip (IsLeafAnswer schema.now request.now) views.now answers.items) }
{
    let asked = views.par_iter().with_min_len(1);
    asked
        .map(
            |view: &PartView<'_>| -> Result<LeafAnswer, LeafError>
                requires fields { length schema.now.fields ≤ 256 }
                requires intervals { HaveSteps request.now.aggs }
                ensures { IsLeafAnswer schema.entry.now request.entry.now view.now result }
            { leaf_of(alloc, schema, request, view) },
        )
        .collect(rt, alloc)
}

// What each split answers, in their order.
fn answers_of<Rt: Threads + Sync>(
    rt: &Rt,
    alloc: Global,
    manner: Threading,
    schema: &Schema,
    request: &LeafRequest,
    views: &[PartView<'_>],
) -> Result<LeafAnswers, AllocError>
    requires fields { length schema.now.fields ≤ 256 }
    requires intervals { HaveSteps request.now.aggs }
    ensures { IfOk result (λ answers. AllZip (IsLeafAnswer schema.now request.now) views.now answers.items) }
{
    match manner {
        Threading::InTurn => answers_in_turn(alloc, schema, request, views),
        Threading::InThreads => answers_in_threads(rt, alloc, schema, request, views),
    }
}

// What splits answer to a request together, where each is asked for as many hits as are wanted of all.
fn search_whole<Rt: Threads + Sync>(
    rt: &Rt,
    alloc: Global,
    manner: Threading,
    schema: &Schema,
    request: &LeafRequest,
    views: &[PartView<'_>],
) -> Result<LeafAnswer, JoinFault>
    requires fields { length schema.now.fields ≤ 256 }
    requires intervals { HaveSteps request.now.aggs }
    // Of splits of documents, of which there are fewer than 2^62 together.
    ensures only { (lists : List (List Placed)) → AllZip (IsViewOf schema.now) views.now lists → length (all_of lists) < 2 ^ 62 → IsAsked schema.now request.now
        → MatchResult result (IsAnswerOf schema.now request.now (all_of lists)) (HasCauseIn schema.now request.now views.now lists) }
    // Where each view has what the request asks for.
    ensures asked { (lists : List (List Placed)) → AllZip (HasAsked schema.now request.now) views.now lists → length (all_of lists) < 2 ^ 62 → IsAsked schema.now request.now
        → MatchResult result (IsAnswerOf schema.now request.now (all_of lists)) WantsMemory }
    // Where each view has its whole file.
    ensures there { (lists : List (List Placed)) → AllZip (IsWholeViewOf schema.now) views.now lists → length (all_of lists) < 2 ^ 62 → IsAsked schema.now request.now
        → MatchResult result (IsAnswerOf schema.now request.now (all_of lists)) WantsMemory }
    // Over any bytes.
    ensures counted { IfOk result (IsCounted request.now) }
    // Over any bytes: there is an answer only where each split has one, and it is these, joined; and a split is refused only where its view is none of
    // a split, the first.
    ensures each { IfOk result (IsJoinOf schema.now request.now views.now) }
    ensures refused { IfErr result (IsRefusedIn schema.now request.now views.now) }
{
    let answers = answers_of(rt, alloc, manner, schema, request, views)?;
    joined(alloc, request, answers)
}

// The request, where so many hits are wanted.
fn asking(alloc: Global, request: &LeafRequest, wanted: usize) -> Result<LeafRequest, AllocError>
    ensures alike { IfOk result (AsksAlike request.now) }
    ensures wanted { IfOk result (λ asked. asked.wanted ≡ wanted) }
{
    Ok(LeafRequest {
        query: copy_query(alloc, &request.query)?,
        times: request.times,
        order: request.order,
        wanted,
        aggs: request.aggs.copy(alloc)?,
    })
}

// Answers, of each of which so many hits are wanted, if there is a fault in none.
fn shares_of(
    alloc: Global,
    wanted: usize,
    answers: LeafAnswers,
) -> Result<Option<SplitShares>, AllocError>
    ensures { IfOk result (λ o. IfSome o (AllZip (IsShareOf wanted) answers.items)) }
{
    let mut left = VecDeque::from_vec(answers);
    let mut shares = SplitShares::vacant(alloc);
    while let Some(answer) = left.pop_front() {
        match answer {
            Ok(answer) => shares.push(SplitShare { wanted, answer })?,
            Err(_) => return Ok(None),
        }
    }
    Ok(Some(shares))
}

// Asks the split at a place for as many hits as are wanted of all, and says whether it answered.
fn ask_again(
    alloc: Global,
    schema: &Schema,
    request: &LeafRequest,
    views: &[PartView<'_>],
    place: usize,
    shares: &mut SplitShares,
) -> bool
    requires fields { length schema.now.fields ≤ 256 }
    requires intervals { HaveSteps request.now.aggs }
    requires some { 0 < request.now.wanted }
    ensures { AllZip (GivesShare schema.now request.now) views.now shares.old → AllZip (GivesShare schema.now request.now) views.now shares.new }
{
    let wanted = request.wanted;
    match views.get(place) {
        Some(view) if place < shares.len() => match leaf_of(alloc, schema, request, view) {
            Ok(answer) => {
                shares.set(place, SplitShare { wanted, answer });
                true
            }
            Err(_) => false,
        },
        _ => false,
    }
}

// Whether a share tells what its split answers to the whole request.
fn is_sure(
    request: &LeafRequest,
    view: &PartView<'_>,
    split: &FetchedPieces,
    share: &SplitShare,
) -> bool
    requires { IsLentBy split.now view.now }
    ensures { OnTrue result (IsSure request.now view.now share.now) }
{
    is_whole(request.wanted, share) || has_documents(view, split)
}

// Whether the share at a place does.
fn is_sure_at(
    request: &LeafRequest,
    views: &[PartView<'_>],
    splits: &[FetchedPieces],
    shares: &[SplitShare],
    place: usize,
) -> bool
    requires lent { AllZip IsLentBy splits.now views.now }
    ensures { OnTrue result (IsSureAt request.now views.now shares.now place) }
{
    let Some(view) = views.get(place) else {
        return false;
    };
    let Some(split) = splits.get(place) else {
        return false;
    };
    let Some(share) = shares.get(place) else {
        return false;
    };
    is_sure(request, view, split, share)
}

// The place of the first share that does not.
fn first_unsure(
    request: &LeafRequest,
    views: &[PartView<'_>],
    splits: &[FetchedPieces],
    shares: &[SplitShare],
) -> Option<usize>
    requires lent { AllZip IsLentBy splits.now views.now }
    ensures { IfNone result (AreSure request.now views.now shares.now) }
{
    for place in 0..shares.len() {
        if !is_sure_at(request, views, splits, shares, place) {
            return Some(place);
        }
    }
    None
}

// The place of a share that does not tell what its split answers to the whole request, or behind which others of its split may be among the first hits.
fn open_place(
    alloc: Global,
    request: &LeafRequest,
    views: &[PartView<'_>],
    splits: &[FetchedPieces],
    shares: &[SplitShare],
) -> Result<Option<usize>, AllocError>
    requires lent { AllZip IsLentBy splits.now views.now }
    ensures sure { IfOk result (λ place. IfNone place (AreSure request.now views.now shares.now)) }
    ensures enough { IfOk result (λ place. IfNone place (AreEnough request.now.order request.now.wanted shares.now)) }
{
    match first_unsure(request, views, splits, shares) {
        Some(place) => Ok(Some(place)),
        None => open_share(alloc, request.order, request.wanted, shares),
    }
}

// So many splits are asked again at most.
const AGAIN: usize = 4;

// The shares, and of the splits of which more may be among the first hits, or whose shares do not tell what they answer to the whole request, as many as
// are wanted of all, if there are few such splits and none is at fault. Those whose hits end first are asked again first, since what they have may show
// that the others are used up.
fn enough_shares(
    alloc: Global,
    schema: &Schema,
    request: &LeafRequest,
    views: &[PartView<'_>],
    splits: &[FetchedPieces],
    shares: SplitShares,
) -> Result<Option<SplitShares>, AllocError>
    requires fields { length schema.now.fields ≤ 256 }
    requires intervals { HaveSteps request.now.aggs }
    requires lent { AllZip IsLentBy splits.now views.now }
    requires some { 0 < request.now.wanted }
    requires shares { AllZip (GivesShare schema.now request.now) views.now shares }
    ensures give { IfOk result (λ o. IfSome o (AllZip (GivesShare schema.now request.now) views.now)) }
    ensures sure { IfOk result (λ o. IfSome o (AreSure request.now views.now)) }
    ensures enough { IfOk result (λ o. IfSome o (AreEnough request.now.order request.now.wanted)) }
{
    let mut shares = shares;
    for _ in 0..AGAIN {
        match open_place(alloc, request, views, splits, shares.as_slice())? {
            None => return Ok(Some(shares)),
            Some(place) => {
                if !ask_again(alloc, schema, request, views, place, &mut shares) {
                    return Ok(None);
                }
            }
        }
    }
    match open_place(alloc, request, views, splits, shares.as_slice())? {
        None => Ok(Some(shares)),
        Some(_) => Ok(None),
    }
}

// The answers of some shares.
fn answers_of_shares(alloc: Global, shares: SplitShares) -> Result<LeafAnswers, AllocError>
    ensures { IfOk result (λ answers. answers.items ≡ all_ok (answers_in shares)) }
{
    let mut left = VecDeque::from_vec(shares.into_vec());
    let mut answers = Vec::new(alloc);
    while let Some(share) = left.pop_front() {
        answers.push(Ok(share.answer))?;
    }
    Ok(answers)
}

// What each split answers, where so many hits are wanted of it, if none is at fault.
fn first_shares<Rt: Threads + Sync>(
    rt: &Rt,
    alloc: Global,
    manner: Threading,
    schema: &Schema,
    request: &LeafRequest,
    views: &[PartView<'_>],
    wanted: usize,
) -> Result<Option<SplitShares>, AllocError>
    requires fields { length schema.now.fields ≤ 256 }
    requires intervals { HaveSteps request.now.aggs }
    requires some { 0 < wanted }
    requires part { wanted ≤ request.now.wanted }
    ensures { IfOk result (λ o. IfSome o (AllZip (GivesShare schema.now request.now) views.now)) }
{
    let asked = asking(alloc, request, wanted)?;
    let answers = answers_of(rt, alloc, manner, schema, &asked, views);
    mem::drop(asked);
    shares_of(alloc, wanted, answers?)
}

// What splits answer to a request together, where many hits are wanted and each is asked for a share of them first, and for all that are wanted only
// where more of its may be among the first, or its share does not tell what it answers to the request itself. There is none where that is not enough, or
// one is at fault.
fn search_shares<Rt: Threads + Sync>(
    rt: &Rt,
    alloc: Global,
    manner: Threading,
    schema: &Schema,
    request: &LeafRequest,
    views: &[PartView<'_>],
    splits: &[FetchedPieces],
) -> Result<Option<LeafAnswer>, AllocError>
    requires fields { length schema.now.fields ≤ 256 }
    requires intervals { HaveSteps request.now.aggs }
    requires lent { AllZip IsLentBy splits.now views.now }
    ensures counted { IfOk result (λ o. IfSome o (IsCounted request.now)) }
    ensures each { IfOk result (λ o. IfSome o (IsJoinOf schema.now request.now views.now)) }
{
    let Some(share) = share_of(request.wanted, views.len()) else {
        return Ok(None);
    };
    let Some(shares) = first_shares(rt, alloc, manner, schema, request, views, share)? else {
        return Ok(None);
    };
    let Some(shares) = enough_shares(alloc, schema, request, views, splits, shares)? else {
        return Ok(None);
    };
    match joined(alloc, request, answers_of_shares(alloc, shares)?) {
        Ok(all) => Ok(Some(all)),
        Err(_) => Ok(None),
    }
}

/// What splits answer to a request together: the answer over the documents of the first one, then those of the second, and so on.
/// In whatever manner they are asked, it is the same.
pub(crate) fn search_all<Rt: Threads + Sync>(
    rt: &Rt,
    alloc: Global,
    manner: Threading,
    schema: &Schema,
    request: &LeafRequest,
    views: &[PartView<'_>],
    splits: &[FetchedPieces],
) -> Result<LeafAnswer, JoinFault>
    requires fields { length schema.now.fields ≤ 256 }
    requires intervals { HaveSteps request.now.aggs }
    // The views lend what is kept of the splits.
    requires lent { AllZip IsLentBy splits.now views.now }
    // Of splits of documents, of which there are fewer than 2^62 together.
    ensures only { (lists : List (List Placed)) → AllZip (IsViewOf schema.now) views.now lists → length (all_of lists) < 2 ^ 62 → IsAsked schema.now request.now
        → MatchResult result (IsAnswerOf schema.now request.now (all_of lists)) (HasCauseIn schema.now request.now views.now lists) }
    // Where each view has what the request asks for.
    ensures asked { (lists : List (List Placed)) → AllZip (HasAsked schema.now request.now) views.now lists → length (all_of lists) < 2 ^ 62 → IsAsked schema.now request.now
        → MatchResult result (IsAnswerOf schema.now request.now (all_of lists)) WantsMemory }
    // Where each view has its whole file.
    ensures there { (lists : List (List Placed)) → AllZip (IsWholeViewOf schema.now) views.now lists → length (all_of lists) < 2 ^ 62 → IsAsked schema.now request.now
        → MatchResult result (IsAnswerOf schema.now request.now (all_of lists)) WantsMemory }
    // Over any bytes.
    ensures counted { IfOk result (IsCounted request.now) }
    // Over any bytes: there is an answer only where each split has one to the request itself, and it is these, joined, also where each was asked for a
    // share of the hits; and a split is refused only where its view is none of a split, the first.
    ensures each { IfOk result (IsJoinOf schema.now request.now views.now) }
    ensures refused { IfErr result (IsRefusedIn schema.now request.now views.now) }
{
    let all = search_shares(rt, alloc, manner, schema, request, views, splits)?;
    if let Some(all) = all {
        return Ok(all);
    }
    search_whole(rt, alloc, manner, schema, request, views)
}

//! The answer of one split.

ghost use Rattle.std.specs.Prelude.{◌≡◌, ◌≤◌, true, length, List, IfOk, MatchResult};
ghost use Rattle.agg_nested.specs.Buckets.{IsNestedPartial, documents_counted};
ghost use Rattle.agg_nested.specs.Checking.{HaveSteps};
ghost use Rattle.split_bundle.specs.declared.placed.Placed.{Placed};
ghost use Rattle.split_bundle.specs.Files.{Parts, file_bytes};
ghost use Rattle.split_bundle.specs.Lending.{IsPartOf};
ghost use Rattle.split_bundle.specs.Wholes.{HaveAll};
ghost use Rattle.doc_sets.specs.Faults.{LacksPart, IsMemory};
ghost use Rattle.doc_sets.specs.Reads.{AreRead, ReadsAll};
ghost use Rattle.doc_sets.specs.Sets.{IsSetOf};
ghost use Rattle.query_ast.specs.Meaning.{meaning};
ghost use Rattle.query_ast.specs.Sought.{view as query_view};
ghost use Rattle.leaf_search.specs.Answers.{AsksLeaf, AsksWith, IsAnswerOf, IsAsked};
ghost use Rattle.leaf_search.specs.Asks.{lookups_of};
ghost use Rattle.leaf_search.specs.Counts as counts;
ghost use Rattle.leaf_search.specs.FileRanges.{AreRangesOf};
ghost use Rattle.leaf_search.specs.Needs.{AreHeld, NeedsBlocks, NeedsLists};
ghost use Rattle.leaf_search.specs.Shown.{NeedsListed, NeedsShown, NeedsStarts};
ghost use Rattle.leaf_search.specs.declared.file_ranges.FileRange.{FileRange};

use crate::evaluate::matching;
use crate::numbers::numbers_in;
use crate::query_counts::matching_count;
use crate::request::{LeafAnswer, LeafRequest};
use crate::timed::timed_numbers;
use crate::token_counts::{answer_of_many, counted, counted_key, only_counts};
use doc_sets::{DocBits, LeafError};
use doc_tallies::{first_hits, partial_of};
use doc_value::Schema;
use split_bundle::PartView;
use std::alloc::Global;

/// What a split answers to a request, by its dictionary, its lists and its columns, and by its documents where hits are wanted.
pub fn leaf(
    alloc: Global,
    schema: &Schema,
    request: &LeafRequest,
    view: &PartView,
) -> Result<LeafAnswer, LeafError>
    requires fields { length schema.now.fields ≤ 256 }
    requires intervals { HaveSteps request.now.aggs }
    // Of a split of documents: their answer, or want of memory, or that no piece has a part which the request asks for.
    ensures only { (documents : List Placed) (p : Parts) → IsPartOf view.now schema.now documents p → IsAsked schema.now request.now
        → MatchResult result (IsAnswerOf schema.now request.now documents) (LacksPart (AsksLeaf view.now schema.now documents p request.now) view.now.pieces) }
    // Where the pieces have every part of the file: their answer, or want of memory.
    ensures there { (documents : List Placed) (p : Parts) → IsPartOf view.now schema.now documents p → HaveAll (file_bytes p) view.now.pieces → IsAsked schema.now request.now
        → MatchResult result (IsAnswerOf schema.now request.now documents) IsMemory }
    // Where a piece holds each range that the request needs: their answer, or want of memory.
    ensures needed { (documents : List Placed) (p : Parts) (blocks lists : List FileRange) → IsPartOf view.now schema.now documents p → IsAsked schema.now request.now
        → AreRangesOf (NeedsBlocks view.now schema.now documents p request.now) blocks → AreRangesOf (NeedsLists view.now schema.now documents p request.now) lists
        → AreHeld view.now.pieces blocks → AreHeld view.now.pieces lists → MatchResult result (IsAnswerOf schema.now request.now documents) IsMemory }
    // The same where the documents that may be shown are there without their section.
    ensures pages { (documents : List Placed) (p : Parts) (blocks listed starts shown : List FileRange) → IsPartOf view.now schema.now documents p → IsAsked schema.now request.now
        → AreRangesOf (NeedsBlocks view.now schema.now documents p request.now) blocks → AreRangesOf (NeedsListed view.now schema.now documents p request.now) listed
        → AreRangesOf (NeedsStarts view.now schema.now documents request.now) starts → AreRangesOf (NeedsShown schema.now documents p request.now) shown
        → AreHeld view.now.pieces blocks → AreHeld view.now.pieces listed → AreHeld view.now.pieces starts → AreHeld view.now.pieces shown
        → MatchResult result (IsAnswerOf schema.now request.now documents) IsMemory }
    // Over any bytes.
    ensures partial { IfOk result (λ a. IsNestedPartial request.now.aggs a.partial) }
    ensures many { IfOk result (λ a. documents_counted a.partial ≡ a.count) }
    // What is looked up is read where there is an answer. Where documents are only counted, a fault is that of something which is looked up.
    ensures read { IfOk result (λ a. AreRead view.now (counts.read_lookups view.now.footer schema.now request.now)) }
    ensures faults { counts.only_counts request.now ≡ true → ReadsAll view.now (counts.read_lookups view.now.footer schema.now request.now) result }
{
    match counted_key(alloc, schema, request)? {
        Some(key) => counted(alloc, request, view, key.as_slice()),
        None => evaluated(alloc, schema, request, view),
    }
}

// The answer by the set of the documents that match the query.
fn evaluated(
    alloc: Global,
    schema: &Schema,
    request: &LeafRequest,
    view: &PartView,
) -> Result<LeafAnswer, LeafError>
    requires fields { length schema.now.fields ≤ 256 }
    requires intervals { HaveSteps request.now.aggs }
    ensures only { (documents : List Placed) (p : Parts) → IsPartOf view.now schema.now documents p → IsAsked schema.now request.now
        → MatchResult result (IsAnswerOf schema.now request.now documents)
        (LacksPart (AsksWith view.now schema.now documents p request.now (lookups_of view.now.footer schema.now (query_view request.now.query))) view.now.pieces) }
    ensures there { (documents : List Placed) (p : Parts) → IsPartOf view.now schema.now documents p → HaveAll (file_bytes p) view.now.pieces → IsAsked schema.now request.now
        → MatchResult result (IsAnswerOf schema.now request.now documents) IsMemory }
    ensures partial { IfOk result (λ a. IsNestedPartial request.now.aggs a.partial) }
    ensures many { IfOk result (λ a. documents_counted a.partial ≡ a.count) }
    ensures read { IfOk result (λ a. AreRead view.now (counts.evaluated_lookups view.now.footer schema.now request.now)) }
    ensures faults { counts.only_counts request.now ≡ true → ReadsAll view.now (counts.evaluated_lookups view.now.footer schema.now request.now) result }
{
    if only_counts(request) {
        return query_counted(alloc, schema, request, view);
    }
    let index = view.footer().index();
    let bits = matching(alloc, index, view, schema, &request.query)?;
    listed(alloc, schema, request, view, &bits)
}

// The answer by the number of the documents that match the query, where nothing else is asked.
fn query_counted(
    alloc: Global,
    schema: &Schema,
    request: &LeafRequest,
    view: &PartView,
) -> Result<LeafAnswer, LeafError>
    requires fields { length schema.now.fields ≤ 256 }
    requires intervals { HaveSteps request.now.aggs }
    requires counts { counts.only_counts request.now ≡ true }
    ensures only { (documents : List Placed) (p : Parts) → IsPartOf view.now schema.now documents p → IsAsked schema.now request.now
        → MatchResult result (IsAnswerOf schema.now request.now documents)
        (LacksPart (AsksWith view.now schema.now documents p request.now (lookups_of view.now.footer schema.now (query_view request.now.query))) view.now.pieces) }
    ensures there { (documents : List Placed) (p : Parts) → IsPartOf view.now schema.now documents p → HaveAll (file_bytes p) view.now.pieces → IsAsked schema.now request.now
        → MatchResult result (IsAnswerOf schema.now request.now documents) IsMemory }
    ensures partial { IfOk result (λ a. IsNestedPartial request.now.aggs a.partial) }
    ensures many { IfOk result (λ a. documents_counted a.partial ≡ a.count) }
    ensures reads { ReadsAll view.now (counts.count_lookups view.now.footer schema.now (query_view request.now.query)) result }
{
    let count = matching_count(alloc, view, schema, &request.query)?;
    Ok(answer_of_many(alloc, request, count)?)
}

// The answer by the numbers of the documents that match the query.
fn listed(
    alloc: Global,
    schema: &Schema,
    request: &LeafRequest,
    view: &PartView,
    bits: &DocBits,
) -> Result<LeafAnswer, LeafError>
    requires intervals { HaveSteps request.now.aggs }
    requires size { bits.now.size ≡ view.now.footer.layout.docs }
    ensures only { (documents : List Placed) (p : Parts) → IsPartOf view.now schema.now documents p → IsAsked schema.now request.now
        → IsSetOf (λ d. meaning schema.now d (query_view request.now.query)) documents bits.now → MatchResult result (IsAnswerOf schema.now request.now documents)
        (LacksPart (AsksWith view.now schema.now documents p request.now (lookups_of view.now.footer schema.now (query_view request.now.query))) view.now.pieces) }
    ensures there { (documents : List Placed) (p : Parts) → IsPartOf view.now schema.now documents p → HaveAll (file_bytes p) view.now.pieces → IsAsked schema.now request.now
        → IsSetOf (λ d. meaning schema.now d (query_view request.now.query)) documents bits.now → MatchResult result (IsAnswerOf schema.now request.now documents) IsMemory }
    ensures partial { IfOk result (λ a. IsNestedPartial request.now.aggs a.partial) }
    ensures many { IfOk result (λ a. documents_counted a.partial ≡ a.count) }
{
    let matched = numbers_in(alloc, bits)?;
    let numbers = timed_numbers(alloc, schema, view, request.times, matched)?;
    let partial = partial_of(alloc, schema, view, &request.aggs, numbers.as_slice())?;
    let hits = first_hits(
        alloc,
        schema,
        view,
        request.order,
        request.wanted,
        numbers.as_slice(),
    )?;
    Ok(LeafAnswer {
        count: numbers.len() as u64,
        hits,
        partial,
    })
}

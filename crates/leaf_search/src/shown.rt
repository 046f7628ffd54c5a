//! Which documents of a split may be shown, and the ranges of its file that only these need.

ghost use Rattle.std.specs.Prelude.{◌≡◌, ◌<◌, ◌≤◌, ◌⊎◌, false, length, List, Some, slice_get, IfOk, OnOk, MatchOption, MatchResult};
ghost use Rattle.std.specs.Bool.{OnTrue};
ghost use Rattle.std.specs.List.{All};
ghost use Rattle.doc_value.specs.declared.schema.Schema.{Schema};
ghost use Rattle.query_ast.specs.Sought.{view as query_view};
ghost use Rattle.split_bundle.specs.declared.placed.Placed.{Placed};
ghost use Rattle.split_bundle.specs.DocLending.{starts_place};
ghost use Rattle.split_bundle.specs.Files.{Parts};
ghost use Rattle.split_bundle.specs.Lending.{IsPartOf};
ghost use Rattle.doc_sets.specs.Asking.{AsksLookups};
ghost use Rattle.doc_sets.specs.Faults.{LacksPart};
ghost use Rattle.leaf_search.specs.Answers.{AsksTimes, IsAsked, passes};
ghost use Rattle.leaf_search.specs.Asks.{lookups_of};
ghost use Rattle.leaf_search.specs.FileRanges.{AddsParts, AreApart, AreRangesOf};
ghost use Rattle.leaf_search.specs.Numbers.{numbers_of};
ghost use Rattle.leaf_search.specs.Shown.{AreFew, BytesOf, NeedsShown, NeedsStarts, OfEach, StartOf, TellsShown, are_few};
ghost use Rattle.leaf_search.specs.declared.request.LeafRequest.{LeafRequest};

use crate::evaluate::matching;
use crate::file_ranges::Ranges;
use crate::joining::{joined, name_part};
use crate::needed::name_documents;
use crate::numbers::numbers_in;
use crate::request::LeafRequest;
use crate::timed::timed_numbers;
use doc_sets::LeafError;
use doc_tallies::near_of;
use doc_value::Schema;
use split_bundle::PartView;
use std::alloc::{AllocError, Global};

// At most so many documents are named one by one. Each takes two fetches of its own where none touches another, and a page has some
// ten of them: beyond it one fetch of the whole section costs less than hundreds of small ones.
const MOST_APART: usize = 256;

// Whether so many are wanted of these numbers that more may be shown than are named one by one.
fn are_many(wanted: usize, numbers: &[u32]) -> bool
    ensures { OnTrue result ((256 < wanted) × (256 < length numbers.now)) }
{
    wanted > MOST_APART && numbers.len() > MOST_APART
}

// The numbers of the documents that match and lie in the times.
pub(crate) fn found_numbers(
    alloc: Global,
    schema: &Schema,
    request: &LeafRequest,
    view: &PartView,
) -> Result<Vec<u32>, LeafError>
    requires { length schema.now.fields ≤ 256 }
    ensures below { IfOk result (λ ns. All (λ n. n < view.now.footer.layout.docs) ns.items) }
    ensures only { (documents : List Placed) (p : Parts) → IsPartOf view.now schema.now documents p → IsAsked schema.now request.now
        → MatchResult result (λ ns. ns.items ≡ numbers_of (passes schema.now request.now) documents)
        (LacksPart (λ at len. AsksLookups view.now schema.now documents p (lookups_of view.now.footer schema.now (query_view request.now.query)) at len ⊎ AsksTimes view.now p schema.now request.now.times at len) view.now.pieces) }
{
    let index = view.footer().index();
    let bits = matching(alloc, index, view, schema, &request.query)?;
    let matched = numbers_in(alloc, &bits)?;
    timed_numbers(alloc, schema, view, request.times, matched)
}

/// The numbers of the documents that a request may show, in rising order, or none of them where they are too many to be named one by
/// one. The view needs the ranges of `blocks_needed` and of `lists_and_columns`.
pub fn shown_documents(
    alloc: Global,
    schema: &Schema,
    request: &LeafRequest,
    view: &PartView,
) -> Result<Option<Vec<u32>>, LeafError>
    requires { length schema.now.fields ≤ 256 }
    // Of a split of documents: exactly these numbers, or want of memory, or that no piece has a part which tells them.
    ensures only { (documents : List Placed) (p : Parts) → IsPartOf view.now schema.now documents p → IsAsked schema.now request.now
        → MatchResult result (λ o. MatchOption o (are_few schema.now request.now documents ≡ false) (λ ns. AreFew schema.now request.now documents ns.items))
        (LacksPart (TellsShown view.now schema.now documents p request.now) view.now.pieces) }
{
    if request.wanted == 0 {
        return Ok(Some(Vec::new(alloc)));
    }
    let numbers = found_numbers(alloc, schema, request, view)?;
    if are_many(request.wanted, numbers.as_slice()) {
        return Ok(None);
    }
    let shown = near_of(
        alloc,
        schema,
        view,
        request.order,
        request.wanted,
        numbers.as_slice(),
    )?;
    if shown.len() > MOST_APART {
        return Ok(None);
    }
    Ok(Some(shown))
}

// Names the entries of documents in the table of starts.
fn name_starts(ranges: &mut Ranges, numbers: &[u32]) -> Result<(), AllocError>
    ensures { OnOk result (AddsParts (OfEach StartOf numbers.now) ranges.old ranges.new) }
{
    for number in numbers {
        name_part(ranges, 4 + 8 * u64::from(*number), 16)?;
    }
    Ok(())
}

/// Where the documents that a request may show are few, the ranges of their entries in the table of starts, else the whole section of
/// documents, if hits are wanted. `few` is what `shown_documents` says.
pub fn starts_needed(
    alloc: Global,
    request: &LeafRequest,
    view: &PartView,
    few: &Option<Vec<u32>>,
) -> Result<Ranges, AllocError>
    // Of a split of documents: the ranges of exactly these parts.
    ensures only { (s : Schema) (documents : List Placed) (p : Parts) → IsPartOf view.now s documents p
        → MatchOption few.now (are_few s request.now documents ≡ false) (λ ns. AreFew s request.now documents ns.items)
        → IfOk result (AreRangesOf (NeedsStarts view.now s documents request.now)) }
    // Over any bytes.
    ensures apart { IfOk result AreApart }
{
    let mut ranges = Ranges::vacant(alloc);
    match few {
        Some(numbers) => name_starts(&mut ranges, numbers.as_slice())?,
        None => name_documents(view, request, &mut ranges)?,
    }
    joined(alloc, ranges)
}

// Names the bytes of a document.
fn name_bytes(view: &PartView, ranges: &mut Ranges, number: u32) -> Result<(), LeafError>
    ensures { (s : Schema) (documents : List Placed) (p : Parts) (d : Placed) → IsPartOf view.now s documents p → slice_get documents number ≡ Some d
        → MatchResult result (λ u. AddsParts (BytesOf p documents number) ranges.old ranges.new) (LacksPart (StartOf number) view.now.pieces) }
{
    let (start, len) = view.doc_range(number)?;
    Ok(name_part(ranges, start, len)?)
}

// Names the bytes of documents.
fn name_shown(view: &PartView, ranges: &mut Ranges, numbers: &[u32]) -> Result<(), LeafError>
    ensures { (s : Schema) (documents : List Placed) (p : Parts) → IsPartOf view.now s documents p → All (λ n. n < length documents) numbers.now
        → MatchResult result (λ u. AddsParts (OfEach (BytesOf p documents) numbers.now) ranges.old ranges.new) (LacksPart (OfEach StartOf numbers.now) view.now.pieces) }
{
    for number in numbers {
        name_bytes(view, ranges, *number)?;
    }
    Ok(())
}

/// Where the documents that a request may show are few, the ranges of their bytes. `few` is what `shown_documents` says. The view needs
/// the ranges of `starts_needed`.
pub fn documents_needed(
    alloc: Global,
    view: &PartView,
    few: &Option<Vec<u32>>,
) -> Result<Ranges, LeafError>
    // Of a split of documents: the ranges of exactly these parts, or want of memory, or that no piece has the start of such a document.
    ensures only { (s : Schema) (documents : List Placed) (p : Parts) (r : LeafRequest) → IsPartOf view.now s documents p
        → MatchOption few.now (are_few s r documents ≡ false) (λ ns. AreFew s r documents ns.items)
        → MatchResult result (AreRangesOf (NeedsShown s documents p r)) (LacksPart (NeedsStarts view.now s documents r) view.now.pieces) }
    // Over any bytes.
    ensures apart { IfOk result AreApart }
{
    let mut ranges = Ranges::vacant(alloc);
    match few {
        Some(numbers) => name_shown(view, &mut ranges, numbers.as_slice())?,
        None => {}
    }
    Ok(joined(alloc, ranges)?)
}

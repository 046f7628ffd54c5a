// The documents of a range of times.

ghost use Rattle.std.specs.Prelude.{◌≡◌, ◌<◌, ◌&&◌, Bool, List, IfOk, IsTrue, ◌↔◌, MatchResult};
ghost use Rattle.std.specs.List.{All};
ghost use Rattle.doc_value.specs.declared.doc.DocField.{DocField};
ghost use Rattle.query_ast.specs.Meaning.{is_unlimited, within_times};
ghost use Rattle.split_bundle.specs.declared.placed.Placed.{Placed};
ghost use Rattle.split_bundle.specs.Files.{Parts, file_bytes};
ghost use Rattle.split_bundle.specs.Lending.{IsPartOf};
ghost use Rattle.split_bundle.specs.Wholes.{HaveAll};
ghost use Rattle.doc_sets.specs.Faults.{LacksPart, IsMemory};
ghost use Rattle.leaf_search.specs.Answers.{AsksTimes};
ghost use Rattle.leaf_search.specs.Numbers.{numbers_of};

use doc_sets::LeafError;
use doc_tallies::within_times;
use doc_value::{Schema, TimeRange};
use split_bundle::PartView;
use std::alloc::Global;

const COLUMNS: u8 = 5;

// Whether each number is below a count.
pub(crate) fn are_below(numbers: &[u32], count: u32) -> bool
    ensures { IsTrue result ↔ All (λ n. n < count) numbers.now }
{
    numbers.iter().all(|number| *number < count)
}

pub(crate) fn is_unlimited(times: TimeRange) -> bool
    ensures { result ≡ is_unlimited times.start times.end }
{
    match (times.start, times.end) {
        (None, None) => true,
        _ => false,
    }
}

// Those of some numbers whose documents lie in a range of times.
pub(crate) fn timed_numbers(
    alloc: Global,
    schema: &Schema,
    view: &PartView,
    times: TimeRange,
    matched: Vec<u32>,
) -> Result<Vec<u32>, LeafError>
    requires { All (λ n. n < view.now.footer.layout.docs) matched.items }
    ensures below { IfOk result (λ ns. All (λ n. n < view.now.footer.layout.docs) ns.items) }
    ensures only { (documents : List Placed) (p : Parts) (test : List DocField → Bool) → IsPartOf view.now schema.now documents p → matched.items ≡ numbers_of test documents
        → MatchResult result (λ ns. ns.items ≡ numbers_of (λ d. test d && within_times schema.now times d) documents) (LacksPart (AsksTimes view.now p schema.now times) view.now.pieces) }
    // Where the pieces have every part of the file.
    ensures there { (documents : List Placed) (p : Parts) (test : List DocField → Bool) → IsPartOf view.now schema.now documents p → HaveAll (file_bytes p) view.now.pieces → matched.items ≡ numbers_of test documents
        → MatchResult result (λ ns. ns.items ≡ numbers_of (λ d. test d && within_times schema.now times d) documents) IsMemory }
{
    if is_unlimited(times) {
        return Ok(matched);
    }
    let numbers = within_times(alloc, schema, view, times, matched.as_slice())?;
    if !are_below(numbers.as_slice(), view.doc_count()) {
        return Err(LeafError::Corrupt { section: COLUMNS });
    }
    Ok(numbers)
}

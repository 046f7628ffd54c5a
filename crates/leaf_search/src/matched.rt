// The numbers of the documents that match a query.

ghost use Rattle.std.specs.Prelude.{◌≡◌, ◌<◌, ◌≤◌, ◌&&◌, List, IfOk, MatchResult, length};
ghost use Rattle.std.specs.List.{All};
ghost use Rattle.doc_sets.specs.Faults.{IsMemory};
ghost use Rattle.query_ast.specs.Meaning.{meaning, within_times};
ghost use Rattle.query_ast.specs.Sought.{view as query_view};
ghost use Rattle.split_bundle.specs.declared.placed.Placed.{Placed};
ghost use Rattle.split_bundle.specs.Files.{Parts, file_bytes};
ghost use Rattle.split_bundle.specs.Lending.{IsPartOf};
ghost use Rattle.split_bundle.specs.Wholes.{HaveAll};
ghost use Rattle.query_ast.specs.Askable.{CanAsk};
ghost use Rattle.leaf_search.specs.Numbers.{numbers_of};

use crate::evaluate::matching;
use crate::numbers::numbers_in;
use crate::timed::timed_numbers;
use doc_sets::LeafError;
use doc_value::{Schema, TimeRange};
use query_ast::Query;
use split_bundle::PartView;
use std::alloc::Global;

/// The numbers of a split's documents that match a query and lie in a range of times. No document is read.
pub fn matching_numbers(
    alloc: Global,
    schema: &Schema,
    query: &Query,
    times: TimeRange,
    view: &PartView,
) -> Result<Vec<u32>, LeafError>
    requires fields { length schema.now.fields ≤ 256 }
    // Over any bytes.
    ensures below { IfOk result (λ ns. All (λ n. n < view.now.footer.layout.docs) ns.items) }
    // Of a split of documents, where the pieces have every part of the file: these, or want of memory.
    ensures there { (documents : List Placed) (p : Parts) → IsPartOf view.now schema.now documents p → HaveAll (file_bytes p) view.now.pieces → CanAsk schema.now (query_view query.now)
        → MatchResult result (λ ns. ns.items ≡ numbers_of (λ d. meaning schema.now d (query_view query.now) && within_times schema.now times d) documents) IsMemory }
{
    let bits = matching(alloc, view.footer().index(), view, schema, query)?;
    let matched = numbers_in(alloc, &bits)?;
    timed_numbers(alloc, schema, view, times, matched)
}

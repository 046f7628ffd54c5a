//! What a search is answered.

ghost use Rattle.std.specs.Prelude.{◌≡◌, List, take, drop, IfOk};
ghost use Rattle.agg_nested.specs.Buckets.{IsNestedPartial};
ghost use Rattle.agg_nested.specs.Checking.{HaveSteps};
ghost use Rattle.split_bundle.specs.declared.placed.Placed.{Placed};
ghost use Rattle.leaf_search.specs.Answers.{IsAnswerOf};
ghost use Rattle.search_api.specs.Resolved.{Search};
ghost use Rattle.root_search.specs.Answer.{IsAnswer, printed};
ghost use Rattle.root_search.specs.LeafAsks.{Asks};
ghost use Rattle.root_search.specs.PartAnswers.{IsShownOf};

use crate::leaf_asks::{LeafAsk, Page};
use agg_nested::finish_nested;
use doc_value::{Schema, print_doc};
use leaf_search::LeafAnswer;
use search_api::{Hits, Said, Unanswered};
use split_bundle::Placed;
use std::alloc::{AllocError, Global};

// Those of the hits that stand on a page, as they are printed.
fn printed_page(
    alloc: Global,
    schema: &Schema,
    page: Page,
    hits: &[Placed],
) -> Result<Hits, AllocError>
    ensures { IfOk result (λ lines. lines ≡ printed schema.now (take page.shown (drop page.passed hits.now))) }
{
    let mut lines = Hits::vacant(alloc);
    let behind = &hits[page.passed.min(hits.len())..];
    let first = &behind[..page.shown.min(behind.len())];
    for hit in first {
        lines.push(print_doc(alloc, schema, &hit.doc)?)?;
    }
    Ok(lines)
}

/// What a search is answered, of which this is the answer over some documents: how many match, those that are shown, and what they
/// count, or TooManyBuckets with their number.
pub(crate) fn shown(
    alloc: Global,
    schema: &Schema,
    ask: &LeafAsk,
    answer: &LeafAnswer,
) -> Result<Said, AllocError>
    requires intervals { HaveSteps ask.now.request.aggs }
    requires partial { IsNestedPartial ask.now.request.aggs answer.now.partial }
    ensures only { (search : Search) (documents : List Placed) → Asks search ask.now → IsAnswerOf schema.now ask.now.request documents answer.now
        → IfOk result (IsAnswer schema.now search documents) }
    // Of any answer.
    ensures said { IfOk result (IsShownOf schema.now ask.now answer.now) }
{
    match finish_nested(alloc, &ask.request.aggs, &answer.partial) {
        Ok(aggregations) => Ok(Said::Found {
            count: answer.count,
            hits: printed_page(alloc, schema, ask.page, answer.hits.as_slice())?,
            aggregations,
        }),
        Err(error) => match Unanswered::from(error) {
            Unanswered::Refused(refusal) => Ok(Said::Refused(refusal)),
            Unanswered::Memory(refused) => Err(refused),
        },
    }
}

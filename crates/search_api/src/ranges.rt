//! The ranges of an aggregation.

ghost use Rattle.std.specs.Prelude.{◌≡◌};
ghost use Rattle.serde_json.specs.Find.{as_array};
ghost use Rattle.serde_json.specs.View.{view, items_view};
ghost use Rattle.search_api.specs.Answers.{Gives};
ghost use Rattle.search_api.specs.Aggregations as spec;

use crate::kinds::{missing_key, whole_at, wrong_kind};
use crate::request::{AggShape, Ranges};
use crate::request_error::RequestError;
use agg_model::Distance;
use agg_nested::WholeRange;
use serde_json::Value;
use std::alloc::Global;

/// How many ranges an aggregation may have.
const MAX_RANGES: usize = 1000;

fn whole(edge: Option<Distance>) -> Option<i128>
    ensures { result ≡ edge }
{
    match edge {
        Some(edge) => Some(edge.whole()),
        None => None,
    }
}

/// A range has an edge at least; a member that is no object has none.
#[tactic(auto, unfolding(crate::specs::Aggregations::range_of))]
fn range_of(alloc: Global, value: &Value) -> Result<WholeRange, RequestError>
    ensures { Gives (spec.range_of (view value.now)) result }
{
    let from = whole_at(alloc, value, "from")?;
    let to = whole_at(alloc, value, "to")?;
    if from.is_none() && to.is_none() {
        return Err(wrong_kind(alloc, "ranges"));
    }
    Ok(WholeRange {
        from: whole(from),
        to: whole(to),
    })
}

#[tactic(auto, using(crate::proofs::Aggs::ranges_none, crate::proofs::Aggs::ranges_step, crate::proofs::Aggs::ranges_fail))]
fn ranges_of(alloc: Global, items: &[Value]) -> Result<Ranges, RequestError>
    ensures { Gives (spec.ranges_of (items_view items.now)) result }
{
    let mut ranges = Ranges::vacant(alloc);
    for item in items {
        ranges.push(range_of(alloc, item)?)?;
    }
    Ok(ranges)
}

/// A list of at least one range and at most 1,000.
#[tactic(auto, using(crate::proofs::Members::items_are_length))]
fn ranges_in(alloc: Global, value: &Value) -> Result<Ranges, RequestError>
    ensures { Gives (spec.few_ranges (as_array (view value.now))) result }
{
    let Some(items) = value.as_array() else {
        return Err(wrong_kind(alloc, "ranges"));
    };
    if items.is_empty() || items.len() > MAX_RANGES {
        return Err(wrong_kind(alloc, "ranges"));
    }
    ranges_of(alloc, items.as_slice())
}

#[tactic(auto, unfolding(crate::specs::Aggregations::range_shape))]
pub fn range_shape(alloc: Global, object: &Value) -> Result<AggShape, RequestError>
    ensures { Gives (spec.range_shape (view object.now)) result }
{
    let Some(value) = object.get("ranges") else {
        return Err(missing_key(alloc, "ranges"));
    };
    Ok(AggShape::Range {
        ranges: ranges_in(alloc, value)?,
    })
}

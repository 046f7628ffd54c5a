//! The aggregations of a search.

ghost use Rattle.std.specs.Prelude.{◌≡◌, Some, None, filter, codes, pos};
ghost use Rattle.serde_json.specs.Find.{get};
ghost use Rattle.serde_json.specs.View.{view, members_view};
ghost use Rattle.search_api.specs.Answers.{Gives};
ghost use Rattle.search_api.specs.Aggregations as spec;
ghost use Rattle.search_api.specs.Keys as keys;

use crate::intervals::{seconds_of, signed_seconds};
use crate::keys::{ALL_KINDS, AggKind, key_of};
use crate::kinds::{count_at, needed_text, needed_whole, text_at, whole_at, wrong_kind};
use crate::ranges::range_shape;
use crate::request::{AggShape, AskedAgg, AskedAggs, AskedFlat, AskedFlats};
use crate::request_error::RequestError;
use agg_model::Distance;
use doc_value::Text;
use serde_json::{Map, Value};
use std::alloc::Global;

/// How many aggregations a search may have.
const MAX_AGGS: usize = 16;

/// How many buckets `terms` gives at most, and where no size is given.
const MAX_SIZE: u32 = 65_000;

const DEFAULT_SIZE: u32 = 10;

#[tactic(auto, unfolding(crate::specs::Aggregations::terms_shape))]
fn terms_shape(alloc: Global, object: &Value) -> Result<AggShape, RequestError>
    ensures { Gives (spec.terms_shape (view object.now)) result }
{
    let size = count_at(alloc, object, "size", 1, MAX_SIZE)?;
    Ok(AggShape::Terms {
        size: size.unwrap_or(DEFAULT_SIZE),
    })
}

#[tactic(auto, unfolding(crate::specs::Aggregations::histogram_shape))]
fn histogram_shape(alloc: Global, object: &Value) -> Result<AggShape, RequestError>
    ensures { Gives (spec.histogram_shape (view object.now)) result }
{
    let interval = needed_whole(alloc, object, "interval")?;
    let offset = whole_at(alloc, object, "offset")?;
    let least = count_at(alloc, object, "min_doc_count", 0, u32::MAX)?;
    Ok(AggShape::Histogram {
        interval,
        offset: offset.unwrap_or(Distance::new(0)),
        min_doc_count: least.unwrap_or(0),
        dated: false,
    })
}

/// The offset of a dated histogram, 0 where none is given.
fn offset_of(text: Option<Text>) -> Option<Distance>
    ensures { result ≡ spec.offset_of text }
{
    match text {
        Some(text) => signed_seconds(text.as_slice()),
        None => Some(Distance::new(0)),
    }
}

/// The interval 0 stands for a text of another form.
fn dated_shape(interval: &Text, offset: Option<Text>, min_doc_count: u32) -> AggShape
    ensures { result ≡ spec.dated_shape interval.now offset min_doc_count }
{
    if let Some(seconds) = seconds_of(interval.as_slice())
        && let Some(offset) = offset_of(offset)
    {
        return AggShape::Histogram {
            interval: Distance::new(seconds as i128),
            offset,
            min_doc_count,
            dated: true,
        };
    }
    AggShape::Histogram {
        interval: Distance::new(0),
        offset: Distance::new(0),
        min_doc_count,
        dated: true,
    }
}

#[tactic(auto, unfolding(crate::specs::Aggregations::date_histogram_shape))]
fn date_histogram_shape(alloc: Global, object: &Value) -> Result<AggShape, RequestError>
    ensures { Gives (spec.date_histogram_shape (view object.now)) result }
{
    let interval = needed_text(alloc, object, "fixed_interval")?;
    let offset = text_at(alloc, object, "offset")?;
    let least = count_at(alloc, object, "min_doc_count", 0, u32::MAX)?;
    Ok(dated_shape(&interval, offset, least.unwrap_or(0)))
}

fn shape_of(alloc: Global, kind: AggKind, object: &Value) -> Result<AggShape, RequestError>
    ensures { Gives (spec.shape_of kind (view object.now)) result }
{
    match kind {
        AggKind::DateHistogram => date_histogram_shape(alloc, object),
        AggKind::Histogram => histogram_shape(alloc, object),
        AggKind::Max => Ok(AggShape::Max),
        AggKind::Min => Ok(AggShape::Min),
        AggKind::Range => range_shape(alloc, object),
        AggKind::Sum => Ok(AggShape::Sum),
        AggKind::Terms => terms_shape(alloc, object),
        AggKind::ValueCount => Ok(AggShape::ValueCount),
    }
}

/// A kind's value: its field, and then its other keys.
fn kind_of(
    alloc: Global,
    name: &str,
    kind: AggKind,
    value: &Value,
) -> Result<AskedFlat, RequestError>
    ensures { Gives (spec.kind_of name.now kind (view value.now)) result }
{
    if !value.is_object() {
        return Err(wrong_kind(alloc, name));
    }
    let path = needed_text(alloc, value, "field")?;
    let shape = shape_of(alloc, kind, value)?;
    Ok(AskedFlat {
        name: Text::from_str(alloc, name)?,
        path,
        shape,
    })
}

fn has(kind: AggKind, value: &Value) -> bool
    ensures { result ≡ keys.has (keys.key_of kind) (view value.now) }
{
    value.get(key_of(kind)).is_some()
}

/// The only one of these kinds that stands there; none where several do.
#[tactic(auto, using(crate::proofs::Alone::alone_none, crate::proofs::Alone::alone_more))]
fn only_kind(kinds: &[AggKind], value: &Value) -> Option<AggKind>
    ensures { result ≡ spec.alone (filter (λ kind. keys.has (keys.key_of kind) (view value.now)) kinds.now) }
{
    let mut only = None;
    for kind in kinds {
        if has(*kind, value) {
            if only.is_some() {
                return None;
            }
            only = Some(*kind);
        }
    }
    only
}

/// An aggregation without its nested ones has one kind.
#[tactic(auto, unfolding(crate::specs::Aggregations::flat_of))]
fn flat_of(alloc: Global, name: &str, value: &Value) -> Result<AskedFlat, RequestError>
    ensures { Gives (spec.flat_of name.now (view value.now)) result }
{
    let Some(kind) = only_kind(&ALL_KINDS, value) else {
        return Err(wrong_kind(alloc, name));
    };
    match value.get(key_of(kind)) {
        Some(inner) => kind_of(alloc, name, kind, inner),
        None => Err(wrong_kind(alloc, name)),
    }
}

fn is_own_key(name: &str) -> bool
    ensures { result ≡ spec.is_own_key name.now }
{
    name == "doc_count" || name == "from" || name == "key" || name == "to"
}

/// A nested aggregation under a name that no key of a bucket has.
#[tactic(auto, unfolding(crate::specs::Aggregations::nested_of))]
fn nested_of(alloc: Global, name: &str, value: &Value) -> Result<AskedFlat, RequestError>
    ensures { Gives (spec.nested_of name.now (view value.now)) result }
{
    if is_own_key(name) {
        return Err(wrong_kind(alloc, name));
    }
    flat_of(alloc, name, value)
}

#[tactic(auto, using(crate::proofs::Aggs::each_none, crate::proofs::Aggs::each_step, crate::proofs::Aggs::each_fail))]
fn each_nested(alloc: Global, members: &Map<String, Value>) -> Result<AskedFlats, RequestError>
    ensures { Gives (spec.each_of spec.nested_of (members_view members.now.entries)) result }
{
    let mut flats = AskedFlats::vacant(alloc);
    for (name, value) in members {
        flats.push(nested_of(alloc, name.as_str(), value)?)?;
    }
    Ok(flats)
}

/// The nested aggregations by their names; none where it has no such key.
#[tactic(auto, using(crate::proofs::Members::count_is_length))]
fn nested_at(alloc: Global, object: &Value) -> Result<AskedFlats, RequestError>
    ensures { Gives (spec.aggs_in spec.nested_of (get (codes "aggs") (view object.now))) result }
{
    let Some(value) = object.get("aggs") else {
        return Ok(AskedFlats::vacant(alloc));
    };
    let Some(members) = value.as_object() else {
        return Err(wrong_kind(alloc, "aggs"));
    };
    if members.len() > MAX_AGGS {
        return Err(wrong_kind(alloc, "aggs"));
    }
    each_nested(alloc, members)
}

/// An aggregation, then those that are nested in it.
#[tactic(auto, unfolding(crate::specs::Aggregations::agg_of))]
fn agg_of(alloc: Global, name: &str, value: &Value) -> Result<AskedAgg, RequestError>
    ensures { Gives (spec.agg_of name.now (view value.now)) result }
{
    let flat = flat_of(alloc, name, value)?;
    let nested = nested_at(alloc, value)?;
    Ok(AskedAgg {
        name: flat.name,
        path: flat.path,
        shape: flat.shape,
        nested,
    })
}

#[tactic(auto, using(crate::proofs::Aggs::each_none, crate::proofs::Aggs::each_step, crate::proofs::Aggs::each_fail))]
fn aggs_of(alloc: Global, members: &Map<String, Value>) -> Result<AskedAggs, RequestError>
    ensures { Gives (spec.each_of spec.agg_of (members_view members.now.entries)) result }
{
    let mut aggs = AskedAggs::vacant(alloc);
    for (name, value) in members {
        aggs.push(agg_of(alloc, name.as_str(), value)?)?;
    }
    Ok(aggs)
}

/// The aggregations of a search by their names; none where it has no such key.
#[tactic(auto, unfolding(crate::specs::Aggregations::aggs_at), using(crate::proofs::Members::count_is_length))]
pub fn aggs_at(alloc: Global, object: &Value) -> Result<AskedAggs, RequestError>
    ensures { Gives (spec.aggs_at (view object.now)) result }
{
    let Some(value) = object.get("aggs") else {
        return Ok(AskedAggs::vacant(alloc));
    };
    let Some(members) = value.as_object() else {
        return Err(wrong_kind(alloc, "aggs"));
    };
    if members.len() > MAX_AGGS {
        return Err(wrong_kind(alloc, "aggs"));
    }
    aggs_of(alloc, members)
}

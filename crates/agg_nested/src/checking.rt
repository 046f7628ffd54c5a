//! Which aggregations are refused.

ghost use Rattle.std.specs.Prelude.{◌≡◌, ◌<◌, ◌&&◌, length, None, false, IfErr, OnOk};
ghost use Rattle.std.specs.List.{All, list_all};
ghost use Rattle.agg_model.specs.Checking.{IsGiven, has_steps, has_interval, takes as takes_counted};
ghost use Rattle.agg_nested.specs.Checking.{field_of, takes, is_sound, rises, refusal_of, refusal_within, first_nested, first_refusal, HasStep, HaveFields, HaveSteps};

use crate::request::{FlatAgg, MetricKind, NamedFlat, NestedAgg, NestedRequest, WholeRange};
use agg_model::{Agg, AggError};
use doc_value::{Field, Kind, Replica, Schema, Text};
use std::alloc::Global;

// Whether a field is fast and its values are whole numbers or datetimes, with `dated` datetimes alone.
fn has_steps(dated: bool, field: &Field) -> bool
    ensures { result ≡ (field.now.fast && has_steps dated field.now.kind) }
{
    let stepped = match field.kind {
        Kind::Datetime => true,
        Kind::I64 | Kind::U64 => !dated,
        Kind::Text | Kind::Bool | Kind::TextList => false,
    };
    field.fast && stepped
}

// Whether the aggregation takes the field.
fn takes(agg: &FlatAgg, field: &Field) -> bool
    ensures { result ≡ takes agg.now field.now }
{
    match agg {
        FlatAgg::Counted(Agg::Terms { .. })
        | FlatAgg::Metric {
            kind: MetricKind::ValueCount,
            ..
        } => field.fast,
        FlatAgg::Counted(Agg::Histogram { dated, .. }) => has_steps(*dated, field),
        FlatAgg::Metric { .. } | FlatAgg::Ranges { .. } => has_steps(false, field),
    }
}

// Whether the start of a range lies below its end, where it has both.
fn rises(range: &WholeRange) -> bool
    ensures { result ≡ rises range.now }
{
    match (range.from, range.to) {
        (Some(from), Some(to)) => from < to,
        _ => true,
    }
}

fn all_rise(ranges: &[WholeRange]) -> bool
    ensures { result ≡ list_all rises ranges.now }
{
    for range in ranges {
        if !rises(range) {
            return false;
        }
    }
    true
}

// Whether the interval, if any, is at least 1, and each range rises.
fn is_sound(agg: &FlatAgg) -> bool
    ensures { result ≡ is_sound agg.now }
{
    match agg {
        FlatAgg::Counted(Agg::Histogram { interval, .. }) => interval.whole() >= 1,
        FlatAgg::Counted(Agg::Terms { .. }) | FlatAgg::Metric { .. } => true,
        FlatAgg::Ranges { ranges, .. } => all_rise(ranges.as_slice()),
    }
}

fn field_of(agg: &FlatAgg) -> u32
    ensures { result ≡ field_of agg.now }
{
    match agg {
        FlatAgg::Counted(Agg::Terms { field, .. })
        | FlatAgg::Counted(Agg::Histogram { field, .. })
        | FlatAgg::Metric { field, .. }
        | FlatAgg::Ranges { field, .. } => *field,
    }
}

fn check_flat(alloc: Global, schema: &Schema, name: &Text, agg: &FlatAgg) -> Result<(), AggError>
    requires { field_of agg.now < length schema.now.fields }
    ensures ok { OnOk result (refusal_of schema.now.fields name.now agg.now ≡ None) }
    ensures err { IfErr result (IsGiven (refusal_of schema.now.fields name.now agg.now)) }
{
    let field = schema.fields.at(field_of(agg) as usize);
    if !takes(agg, field) {
        return Err(AggError::NotFast {
            field: field.path.copy(alloc).map_err(AggError::Memory)?,
        });
    }
    if !is_sound(agg) {
        return Err(AggError::BadInterval {
            name: name.copy(alloc).map_err(AggError::Memory)?,
        });
    }
    Ok(())
}

fn check_each(alloc: Global, schema: &Schema, nested: &[NamedFlat]) -> Result<(), AggError>
    requires { All (λ named. field_of named.agg < length schema.now.fields) nested.now }
    ensures ok { OnOk result (first_nested schema.now.fields nested.now ≡ None) }
    ensures err { IfErr result (IsGiven (first_nested schema.now.fields nested.now)) }
{
    for named in nested {
        check_flat(alloc, schema, &named.name, &named.agg)?;
    }
    Ok(())
}

fn check_one(alloc: Global, schema: &Schema, asked: &NestedAgg) -> Result<(), AggError>
    requires own { field_of asked.now.agg < length schema.now.fields }
    requires nested { All (λ named. field_of named.agg < length schema.now.fields) asked.now.nested }
    ensures ok { OnOk result (refusal_within schema.now.fields asked.now ≡ None) }
    ensures err { IfErr result (IsGiven (refusal_within schema.now.fields asked.now)) }
{
    check_flat(alloc, schema, &asked.name, &asked.agg)?;
    check_each(alloc, schema, asked.nested.as_slice())
}

/// Tests the aggregations in the order of the request, the nested ones of an aggregation right behind it. The first that is refused
/// answers: NotFast for a field that is not fast or not of a kind that the aggregation takes, then BadInterval for an interval below 1
/// and for a range whose start is not below its end.
pub fn check_nested(alloc: Global, schema: &Schema, request: &NestedRequest) -> Result<(), AggError>
    requires { HaveFields (length schema.now.fields) request.now }
    ensures ok { OnOk result (first_refusal schema.now.fields request.now ≡ None) }
    ensures err { IfErr result (IsGiven (first_refusal schema.now.fields request.now)) }
    ensures steps { OnOk result (HaveSteps request.now) }
{
    for asked in request.as_slice() {
        check_one(alloc, schema, asked)?;
    }
    Ok(())
}

//! What some documents count for one aggregation without its nested ones.

ghost use Rattle.std.specs.Prelude.{◌≡◌, ℕ, ◌+◌, ◌*◌, ◌^◌, ◌<◌, ◌≤◌, ◌∷◌, [], ◌++◌, List, length, map, IfOk, OnOk, IfSome, ℤ, if◌then◌else◌};
ghost use Rattle.std.specs.List.{All};
ghost use Rattle.std.specs.Option.{option_to_list};
ghost use Rattle.doc_value.specs.declared.doc.DocField.{DocField};
ghost use Rattle.agg_metrics.specs.Metrics.{IsWhole, IsMetricOf, HasRoom};
ghost use Rattle.agg_model.specs.Counting.{whole, first_whole};
ghost use Rattle.doc_value.specs.Documents.{values_in};
ghost use Rattle.agg_nested.specs.Checking.{HasStep};
ghost use Rattle.agg_nested.specs.Partials.{FlatStands, CountsStand, MetricStands, alone, ranges_counted};
ghost use Rattle.agg_nested.specs.Spots.{holds};
ghost use Rattle.agg_nested.specs.Zipped.{IsZipped};
ghost use Rattle.agg_nested.specs.declared.request.FlatAgg.TheVariants.{Counted};

use crate::request::{FlatAgg, WholeRange};
use agg_metrics::MetricPart;
use agg_model::{
    Agg, AggRequest, DocValues, NamedAgg, Partial, collect_one, merge_partials, vacant_partial,
};
use doc_value::{List, Text, Value};
use std::alloc::{AllocError, Global};

/// What some documents count for one aggregation.
#[derive(Drop)]
pub enum FlatPart {
    /// The request of the aggregation alone, and what agg_model counts for it.
    Counted { asked: AggRequest, partial: Partial },
    Metric(MetricPart),
    /// How many documents lie in each range.
    Ranges(List<u64>),
}

/// The document's values of a field.
pub fn values_of(doc: &DocValues, field: u32) -> &[Value]
    ensures { result.now ≡ values_in doc.now field }
{
    for part in doc.as_slice() {
        if part.number == field as usize {
            return part.values.as_slice();
        }
    }
    &[]
}

// A number, or a datetime's whole seconds.
fn whole(value: &Value) -> Option<i128>
    ensures value { result ≡ whole value.now }
    ensures small { IfSome result IsWhole }
{
    match value {
        Value::I64(whole) => Some(i128::from(*whole)),
        Value::U64(whole) => Some(i128::from(*whole)),
        Value::Datetime(seconds) => Some(i128::from(*seconds)),
        Value::Text(_) | Value::Bool(_) => None,
    }
}

/// The whole number of the document's first value of a field.
pub fn first_whole(doc: &DocValues, field: u32) -> Option<i128>
    ensures value { result ≡ first_whole field doc.now }
    ensures small { IfSome result IsWhole }
{
    let first = values_of(doc, field).first()?;
    whole(first)
}

/// Whether a whole number lies in the range.
pub fn holds(range: &WholeRange, whole: i128) -> bool
    ensures { result ≡ holds range.now whole }
{
    if let Some(from) = range.from {
        if whole < from {
            return false;
        }
    }
    match range.to {
        Some(to) => whole < to,
        None => true,
    }
}

fn vacant_counts(alloc: Global, agg: Agg) -> Result<FlatPart, AllocError>
    ensures { IfOk result (λ part. FlatStands (Counted agg) part []) }
{
    let asked = AggRequest::one(
        alloc,
        NamedAgg {
            name: Text::vacant(alloc),
            agg,
        },
    )?;
    let partial = vacant_partial(alloc, &asked)?;
    Ok(FlatPart::Counted { asked, partial })
}

fn vacant_ranges(alloc: Global, ranges: &[WholeRange]) -> Result<List<u64>, AllocError>
    ensures long { IfOk result (λ counts. length counts ≡ length ranges.now) }
    ensures zero { IfOk result (All (λ count. count ≡ 0)) }
{
    let mut counts = List::vacant(alloc);
    for _range in ranges {
        counts.push(0)?;
    }
    Ok(counts)
}

/// The part of no documents.
pub fn vacant_flat(alloc: Global, agg: &FlatAgg) -> Result<FlatPart, AllocError>
    ensures { IfOk result (λ part. FlatStands agg.now part []) }
{
    match agg {
        FlatAgg::Counted(agg) => vacant_counts(alloc, *agg),
        FlatAgg::Metric { .. } => Ok(FlatPart::Metric(MetricPart::vacant())),
        FlatAgg::Ranges { ranges, .. } => {
            let counts = vacant_ranges(alloc, ranges.as_slice())?;
            Ok(FlatPart::Ranges(counts))
        }
    }
}

// Adds the number, if there is one.
fn add_first(part: &mut MetricPart, first: Option<i128>)
    requires whole { IfSome first IsWhole }
    requires room { HasRoom part.old }
    ensures { (counted : ℕ) (values : List ℤ) → IsMetricOf counted values part.old → IsMetricOf counted (values ++ option_to_list first) part.new }
{
    if let Some(whole) = first {
        part.add(whole);
    }
}

// Counts the document's values of a field, and adds the first.
fn collect_metric(part: &mut MetricPart, field: u32, doc: &DocValues)
    requires { (documents : List (List DocField)) × MetricStands field part.old documents × (length documents + 1 < 2 ^ 62) }
    ensures { (documents : List (List DocField)) → MetricStands field part.old documents → MetricStands field part.new (documents ++ doc.now ∷ []) }
{
    part.count(values_of(doc, field).len() as u64);
    add_first(part, first_whole(doc, field));
}

// Counts a whole number in each range in which it lies.
fn collect_ranges(counts: &mut List<u64>, ranges: &[WholeRange], whole: i128)
    requires long { length counts.old ≡ length ranges.now }
    requires room { All (λ count. count < 2 ^ 62) counts.old }
    ensures { IsZipped (λ r _ old new. new ≡ old + (if holds r whole then 1 else 0)) ranges.now ranges.now counts.old counts.new }
{
    for (i, range) in ranges.iter().enumerate() {
        let more = u64::from(holds(range, whole));
        counts.set(i, counts.number_at(i) + more);
    }
}

fn merge_ranges(counts: &mut List<u64>, others: &[u64])
    requires long { length counts.old ≡ length others.now }
    requires mine { All (λ count. count < 2 ^ 62) counts.old }
    requires yours { All (λ count. count < 2 ^ 62) others.now }
    ensures { IsZipped (λ other _ old new. new ≡ old + other) others.now others.now counts.old counts.new }
{
    for (i, other) in others.iter().enumerate() {
        counts.set(i, counts.number_at(i) + *other);
    }
}

// Counts the document in each range in which its first value lies.
fn collect_first(counts: &mut List<u64>, field: u32, ranges: &[WholeRange], doc: &DocValues)
    requires { (documents : List (List DocField)) × (counts.old ≡ ranges_counted field ranges.now documents) × (length documents + 1 < 2 ^ 62) }
    ensures { (documents : List (List DocField)) → counts.old ≡ ranges_counted field ranges.now documents
        → counts.new ≡ ranges_counted field ranges.now (documents ++ doc.now ∷ []) }
{
    if let Some(whole) = first_whole(doc, field) {
        collect_ranges(counts, ranges, whole);
    }
}

/// Counts one more document. After want of memory the part is spent.
pub fn collect_flat(
    alloc: Global,
    agg: &FlatAgg,
    part: &mut FlatPart,
    doc: &DocValues,
) -> Result<(), AllocError>
    requires step { HasStep agg.now }
    requires known { (documents : List (List DocField)) × FlatStands agg.now part.old documents × (length documents + 1 < 2 ^ 62) }
    ensures { OnOk result ((documents : List (List DocField)) → FlatStands agg.now part.old documents → FlatStands agg.now part.new (documents ++ doc.now ∷ [])) }
{
    match (agg, part) {
        (FlatAgg::Counted(_), FlatPart::Counted { asked, partial }) => {
            collect_one(alloc, asked, partial, doc)
        }
        (FlatAgg::Metric { field, .. }, FlatPart::Metric(metric)) => {
            collect_metric(metric, *field, doc);
            Ok(())
        }
        (FlatAgg::Ranges { field, ranges }, FlatPart::Ranges(counts)) => {
            collect_first(counts, *field, ranges.as_slice(), doc);
            Ok(())
        }
        _ => Ok(()),
    }
}

/// Adds what another part of the same aggregation counts. After want of memory the part is spent.
pub fn merge_flat(
    alloc: Global,
    agg: &FlatAgg,
    into: &mut FlatPart,
    other: &FlatPart,
) -> Result<(), AllocError>
    requires known { (mine : List (List DocField)) × (yours : List (List DocField)) × FlatStands agg.now into.old mine × FlatStands agg.now other.now yours
        × (length mine + length yours < 2 ^ 62) }
    ensures { OnOk result ((mine : List (List DocField)) (yours : List (List DocField)) → FlatStands agg.now into.old mine → FlatStands agg.now other.now yours
        → FlatStands agg.now into.new (mine ++ yours)) }
{
    match (into, other) {
        (FlatPart::Counted { asked, partial }, FlatPart::Counted { partial: other, .. }) => {
            merge_partials(alloc, asked, partial, other)
        }
        (FlatPart::Metric(metric), FlatPart::Metric(other)) => {
            metric.merge(other);
            Ok(())
        }
        (FlatPart::Ranges(counts), FlatPart::Ranges(others)) => {
            merge_ranges(counts, others.as_slice());
            Ok(())
        }
        _ => Ok(()),
    }
}

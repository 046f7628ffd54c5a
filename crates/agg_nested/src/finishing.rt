//! What a part of one aggregation answers.

ghost use Rattle.std.specs.Prelude.{◌≡◌, ◌+◌, ◌^◌, ◌<◌, ◌∷◌, [], ℕ, List, length, map, IfOk};
ghost use Rattle.doc_value.specs.declared.doc.DocField.{DocField};
ghost use Rattle.agg_model.specs.Checking.{HaveIntervals};
ghost use Rattle.agg_model.specs.Partials.{IsPartialOf, StandsFor};
ghost use Rattle.agg_model.specs.declared.answer.AggAnswer.{AggAnswer};
ghost use Rattle.agg_model.specs.declared.request.Agg.{Agg as TheAgg};
ghost use Rattle.agg_nested.specs.declared.answer.FlatAnswer.TheVariants as answers;
ghost use Rattle.agg_nested.specs.Answers.{metric_of, range_bucket};
ghost use Rattle.agg_nested.specs.Checking.{HasStep};
ghost use Rattle.agg_nested.specs.Finished.{IsFlatFinished};
ghost use Rattle.agg_nested.specs.Partials.{FlatStands, CountsStand, MetricStands, alone, ranges_counted};
ghost use Rattle.agg_nested.specs.declared.request.FlatAgg.TheVariants.{Counted};

use crate::answer::{FlatAnswer, RangeBucket};
use crate::flat_part::FlatPart;
use crate::request::{FlatAgg, MetricKind, WholeRange};
use agg_metrics::MetricPart;
use agg_model::{AggError, AggRequest, AggResult, Partial, finish};
use doc_value::List;
use std::alloc::{AllocError, Global};

// The only one of some answers.
fn only_answer(results: AggResult) -> FlatAnswer
    ensures { (name : List ℕ) (answer : AggAnswer) → results ≡ record { name = name; result = answer } ∷ [] → result ≡ answers.Counted answer }
{
    let mut results = results.into_vec();
    match results.pop() {
        Some(named) => FlatAnswer::Counted(named.result),
        None => FlatAnswer::Metric(None),
    }
}

// The answer of agg_model's aggregation.
fn finish_counts(
    alloc: Global,
    asked: &AggRequest,
    partial: &Partial,
) -> Result<FlatAnswer, AggError>
    requires intervals { HaveIntervals asked.now }
    requires partial { IsPartialOf asked.now partial.now }
    ensures { (agg : TheAgg) (documents : List (List DocField)) → CountsStand agg asked.now partial.now documents → IsFlatFinished (Counted agg) documents result }
{
    match finish(alloc, asked, partial) {
        Ok(results) => Ok(only_answer(results)),
        Err(error) => Err(error),
    }
}

// The number that is asked for.
fn metric_answer(kind: MetricKind, part: &MetricPart) -> Option<i128>
    requires { (field : ℕ) × (documents : List (List DocField)) × MetricStands field part.now documents × (length documents < 2 ^ 62) }
    ensures { (field : ℕ) (documents : List (List DocField)) → MetricStands field part.now documents → result ≡ metric_of kind field documents }
{
    match kind {
        MetricKind::Min => part.least(),
        MetricKind::Max => part.greatest(),
        MetricKind::Sum => Some(part.sum()),
        MetricKind::ValueCount => Some(part.counted() as i128),
    }
}

/// A bucket of each range.
pub fn range_buckets(
    alloc: Global,
    ranges: &[WholeRange],
    counts: &[u64],
) -> Result<List<RangeBucket>, AllocError>
    requires { length counts.now ≡ length ranges.now }
    ensures { IfOk result (λ buckets. (field : ℕ) (documents : List (List DocField)) → counts.now ≡ ranges_counted field ranges.now documents
        → buckets ≡ map (range_bucket field documents) ranges.now) }
{
    let mut buckets = List::vacant(alloc);
    for (i, range) in ranges.iter().enumerate() {
        buckets.push(RangeBucket {
            range: *range,
            count: counts[i],
        })?;
    }
    Ok(buckets)
}

/// The answer of one aggregation over the documents for which the part stands. More than 65,000 buckets are TooManyBuckets with their
/// number.
pub fn finish_flat(alloc: Global, agg: &FlatAgg, part: &FlatPart) -> Result<FlatAnswer, AggError>
    requires step { HasStep agg.now }
    requires known { (documents : List (List DocField)) × FlatStands agg.now part.now documents × (length documents < 2 ^ 62) }
    ensures { (documents : List (List DocField)) → FlatStands agg.now part.now documents → IsFlatFinished agg.now documents result }
{
    match (agg, part) {
        (FlatAgg::Counted(_), FlatPart::Counted { asked, partial }) => {
            finish_counts(alloc, asked, partial)
        }
        (FlatAgg::Metric { kind, .. }, FlatPart::Metric(metric)) => {
            Ok(FlatAnswer::Metric(metric_answer(*kind, metric)))
        }
        (FlatAgg::Ranges { ranges, .. }, FlatPart::Ranges(counts)) => {
            let buckets = range_buckets(alloc, ranges.as_slice(), counts.as_slice()).map_err(
                AggError::Memory,
            )?;
            Ok(FlatAnswer::Ranges(buckets))
        }
        _ => Ok(FlatAnswer::Metric(None)),
    }
}

//! What a partial answers.

ghost use Rattle.std.specs.Prelude.{◌≡◌, ℕ, ◌+◌, ◌<◌, ◌≤◌, ◌^◌, ◌*◌, ℤ, pos, ◌≤ℤ◌, List, [], ◌∷◌, map, length, unwrap_or, IfOk, IfSome, IfErr};
ghost use Rattle.std.specs.List.{AllZip};
ghost use Rattle.std.specs.BTreeMap.{get, IsOrdered};
ghost use Rattle.std.specs.Ordering.{int_cmp};
ghost use Rattle.doc_value.specs.declared.doc.DocField.{DocField};
ghost use Rattle.agg_model.specs.Answers.{IsAnswerOf, IsHistogramAnswer, HasBuckets, HaveBuckets, AreAnswersOf, IsFinished, ShowsEmpty, step_bucket, most_buckets};
ghost use Rattle.agg_model.specs.Checking.{HasInterval, HaveIntervals};
ghost use Rattle.agg_model.specs.Listed.{AreUnique, all_listed};
ghost use Rattle.agg_model.specs.Partials.{IsNear, IsPart, IsStep, IsPartialOf, StandsFor, CountsFor};
ghost use Rattle.agg_model.specs.Spans.{spread, steps_with, steps_shown, shown_in, total_shown};

use crate::agg_error::AggError;
use crate::answer::{AggAnswer, AggResult, Buckets, NamedResult};
use crate::counts::Counts;
use crate::histogram::{Scale, every_step, frequent_steps};
use crate::partial::Partial;
use crate::ranking::{cut, ranked};
use crate::request::{Agg, AggRequest, NamedAgg};
use crate::tallies::StepCounts;
use doc_value::Replica;
use std::alloc::{AllocError, Global};

/// The most buckets that an answer has.
pub const MOST_BUCKETS: u128 = 65_000;

// How many values a part counts.
fn values_of(counts: &Counts) -> u128
    ensures many { result ≡ length (all_listed counts.now) }
    ensures few { result ≤ 2 ^ 66 }
    ensures unique { AreUnique counts.now }
{
    let signed = counts.signed.len() as u128;
    let unsigned = counts.unsigned.len() as u128;
    let truths = counts.truths.len() as u128;
    let datetimes = counts.datetimes.len() as u128;
    counts.texts.len() as u128 + signed + unsigned + truths + datetimes
}

// How many steps lie from the least to the greatest.
fn spread_of(steps: &StepCounts) -> u128
    requires { (interval : ℤ) × (offset : ℤ) × (pos 1 ≤ℤ interval) × ((z : ℤ) → IfSome (get int_cmp steps.now z) (λ _. IsNear interval offset z)) }
    ensures many { result ≡ length (spread steps.now.entries) }
    ensures few { result ≤ 2 ^ 66 }
    ensures ordered { IsOrdered int_cmp steps.now }
{
    if steps.len() == 0 {
        return 0;
    }
    match (steps.first_key_value(), steps.last_key_value()) {
        (Some((first, _)), Some((last, _))) => last.abs_diff(*first) + 1,
        _ => 0,
    }
}

// How many steps have at least this count.
fn frequent_of(steps: &StepCounts, least: u32) -> u128
    ensures many { result ≡ length (steps_with least steps.now.entries) }
    ensures few { result ≤ 2 ^ 66 }
    ensures ordered { IsOrdered int_cmp steps.now }
{
    let mut many = 0u128;
    for (step, count) in steps.iter() {
        if *count >= u64::from(least) {
            many += 1;
        }
    }
    many
}

// Every step from the least to the greatest, of which there are at most so many that 64 bits count them.
fn all_steps(alloc: Global, scale: &Scale, steps: &StepCounts) -> Result<Buckets, AllocError>
    requires some { pos 1 ≤ℤ scale.now.interval }
    requires near { (number : ℕ) × ((z : ℤ) → IfSome (get int_cmp steps.now z) (IsStep number scale.now.interval scale.now.offset z)) }
    requires few { length (spread steps.now.entries) ≤ most_buckets }
    requires ordered { IsOrdered int_cmp steps.now }
    ensures { IfOk result (λ buckets. buckets ≡ map (step_bucket scale.now.interval scale.now.offset (λ s. unwrap_or (get int_cmp steps.now s) 0)) (spread steps.now.entries)) }
{
    match steps.first_key_value() {
        Some((first, _)) => every_step(alloc, scale, steps, first, spread_of(steps) as u64),
        None => Ok(Buckets::vacant(alloc)),
    }
}

// The answer of a histogram.
fn histogram_answer(
    alloc: Global,
    scale: &Scale,
    least: u32,
    steps: &StepCounts,
) -> Result<AggAnswer, AllocError>
    requires some { pos 1 ≤ℤ scale.now.interval }
    requires near { (number : ℕ) × ((z : ℤ) → IfSome (get int_cmp steps.now z) (IsStep number scale.now.interval scale.now.offset z)) }
    requires few { least ≡ 0 → length (steps_shown least steps.now.entries) ≤ most_buckets }
    ensures { IfOk result (λ r. (count : ℤ → ℕ) → ((z : ℤ) → unwrap_or (get int_cmp steps.now z) 0 ≡ count z)
        → IsHistogramAnswer scale.now.interval scale.now.offset least count r) }
{
    if steps.len() == 0 {
        return Ok(AggAnswer::Histogram {
            buckets: Buckets::vacant(alloc),
        });
    }
    if least == 0 {
        let buckets = all_steps(alloc, scale, steps)?;
        return Ok(AggAnswer::Histogram { buckets });
    }
    let buckets = frequent_steps(alloc, scale, steps, least)?;
    Ok(AggAnswer::Histogram { buckets })
}

// The answer of one aggregation.
fn answer(alloc: Global, agg: &Agg, counts: &Counts) -> Result<AggAnswer, AllocError>
    requires interval { HasInterval agg.now }
    requires part { (number : ℕ) × IsPart number agg.now counts.now }
    requires few { ShowsEmpty agg.now → shown_in agg.now counts.now ≤ most_buckets }
    ensures { IfOk result (λ r. (ds : List (List DocField)) → CountsFor agg.now counts.now ds → IsAnswerOf agg.now ds r) }
{
    match agg {
        Agg::Terms { size, .. } => cut(alloc, *size, ranked(alloc, counts)?),
        Agg::Histogram {
            interval,
            offset,
            min_doc_count,
            ..
        } => {
            let scale = Scale {
                interval: *interval,
                offset: *offset,
            };
            histogram_answer(alloc, &scale, *min_doc_count, &counts.steps)
        }
    }
}

/// The answer of an aggregation that shows no empty steps over the documents for which its partial stands, however many buckets it has.
pub fn full_answer(alloc: Global, agg: &Agg, partial: &Partial) -> Result<AggAnswer, AllocError>
    requires interval { HasInterval agg.now }
    requires listed { ShowsEmpty agg.now → ⊥ }
    requires partial { (name : List ℕ) × IsPartialOf (record { name = name; agg = agg.now } ∷ []) partial.now }
    ensures { IfOk result (λ r. (name : List ℕ) (documents : List (List DocField)) → StandsFor (record { name = name; agg = agg.now } ∷ []) partial.now documents
        → IsAnswerOf agg.now documents r) }
{
    answer(alloc, agg, &partial.parts[0])
}

// How many buckets an aggregation shows.
fn shown(agg: &Agg, counts: &Counts) -> u128
    requires interval { HasInterval agg.now }
    requires part { (number : ℕ) × IsPart number agg.now counts.now }
    ensures many { result ≡ shown_in agg.now counts.now }
    ensures few { result ≤ 2 ^ 66 }
    ensures has { (ds : List (List DocField)) → CountsFor agg.now counts.now ds → HasBuckets agg.now ds (shown_in agg.now counts.now) }
{
    match agg {
        Agg::Terms { size, .. } => u128::from(*size).min(values_of(counts)),
        Agg::Histogram {
            min_doc_count: 0,
            ..
        } => spread_of(&counts.steps),
        Agg::Histogram { min_doc_count, .. } => frequent_of(&counts.steps, *min_doc_count),
    }
}

// How many buckets all aggregations show.
fn shown_in_all(request: &[NamedAgg], parts: &Vec<Counts>) -> u128
    requires intervals { HaveIntervals request.now }
    requires parts { (number : ℕ) × AllZip (λ named counts. IsPart number named.agg counts) request.now parts.now.items }
    ensures many { result ≡ total_shown request.now parts.now.items }
    ensures have { (ds : List (List DocField)) → AllZip (λ named counts. CountsFor named.agg counts ds) request.now parts.now.items
        → HaveBuckets request.now ds (total_shown request.now parts.now.items) }
{
    let mut many = 0;
    for (i, named) in request.iter().enumerate() {
        many += shown(&named.agg, &parts[i]);
    }
    many
}

fn answers(
    alloc: Global,
    request: &[NamedAgg],
    parts: &Vec<Counts>,
) -> Result<AggResult, AllocError>
    requires intervals { HaveIntervals request.now }
    requires parts { (number : ℕ) × AllZip (λ named counts. IsPart number named.agg counts) request.now parts.now.items }
    requires few { total_shown request.now parts.now.items ≤ most_buckets }
    ensures { IfOk result (λ r. (ds : List (List DocField)) → AllZip (λ named counts. CountsFor named.agg counts ds) request.now parts.now.items
        → AreAnswersOf request.now ds r) }
{
    let mut results = AggResult::vacant(alloc);
    for (i, named) in request.iter().enumerate() {
        let result = answer(alloc, &named.agg, &parts[i])?;
        results.push(NamedResult {
            name: named.name.copy(alloc)?,
            result,
        })?;
    }
    Ok(results)
}

/// The answers to a request over the documents for which the partial stands. More than 65,000 buckets in all aggregations are
/// TooManyBuckets with their number, which is counted and not walked.
pub fn finish(alloc: Global, request: &AggRequest, partial: &Partial) -> Result<AggResult, AggError>
    requires intervals { HaveIntervals request.now }
    requires partial { IsPartialOf request.now partial.now }
    ensures { (documents : List (List DocField)) → StandsFor request.now partial.now documents → IsFinished request.now documents result }
{
    let count = shown_in_all(request.as_slice(), &partial.parts);
    if count > MOST_BUCKETS {
        return Err(AggError::TooManyBuckets { count });
    }
    answers(alloc, request.as_slice(), &partial.parts).map_err(AggError::Memory)
}

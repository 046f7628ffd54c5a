//! How many buckets the answers of a partial have, with those of their nested answers.

ghost use Rattle.std.specs.Prelude.{◌≡◌, ℕ, ◌+◌, ◌^◌, ◌<◌, [], List, length, IfOk};
ghost use Rattle.std.specs.List.{All, AllZip, sum_by};
ghost use Rattle.doc_value.specs.declared.doc.DocField.{DocField};
ghost use Rattle.agg_nested.specs.Answers.{flat_answer, flat_buckets, nested_buckets, inner_buckets, all_buckets, told};
ghost use Rattle.agg_nested.specs.Buckets.{GroupsStand, PartStands, ArePartsFor};
ghost use Rattle.agg_nested.specs.Checking.{HasStep, HaveSteps};
ghost use Rattle.agg_nested.specs.Finished.{without_empty, filled};
ghost use Rattle.agg_nested.specs.Partials.{FlatStands, AreStanding};
ghost use Rattle.agg_nested.specs.Spots.{documents_at, spots_in};

use crate::answer::FlatAnswer;
use crate::finishing::{finish_flat, range_buckets};
use crate::flat_part::FlatPart;
use crate::flat_parts::vacant_flats;
use crate::nested_partial::NestedPart;
use crate::request::{FlatAgg, NamedFlat, NestedAgg};
use crate::spots::{buckets_in, parts_at};
use agg_model::{Agg, AggError, full_answer};
use std::alloc::{AllocError, Global};

// How many buckets the answer of an aggregation has.
fn count_flat(alloc: Global, agg: &FlatAgg, part: &FlatPart) -> Result<u128, AllocError>
    requires step { HasStep agg.now }
    requires known { (documents : List (List DocField)) × FlatStands agg.now part.now documents × (length documents < 2 ^ 62) }
    ensures { IfOk result (λ many. (documents : List (List DocField)) → FlatStands agg.now part.now documents → many ≡ flat_buckets documents agg.now) }
{
    match finish_flat(alloc, agg, part) {
        Ok(answer) => Ok(buckets_in(&answer) as u128),
        Err(AggError::TooManyBuckets { count }) => Ok(count),
        Err(AggError::Memory(error)) => Err(error),
        Err(AggError::NotFast { .. } | AggError::BadInterval { .. }) => Ok(0),
    }
}

// How many buckets those of some aggregations have.
fn count_flats(alloc: Global, nested: &[NamedFlat], parts: &[FlatPart]) -> Result<u128, AllocError>
    requires steps { All (λ named. HasStep named.agg) nested.now }
    requires known { (documents : List (List DocField)) × AreStanding nested.now parts.now documents × (length documents < 2 ^ 62) }
    ensures { IfOk result (λ many. (documents : List (List DocField)) → AreStanding nested.now parts.now documents → many ≡ told (inner_buckets nested.now documents)) }
{
    let mut many = 0u128;
    for (i, named) in nested.iter().enumerate() {
        many = many.saturating_add(count_flat(alloc, &named.agg, &parts[i])?);
    }
    Ok(many)
}

// The same aggregation, whose answer shows no empty steps.
fn without_empty(agg: &Agg) -> Agg
    ensures { result ≡ without_empty agg.now }
{
    match agg {
        Agg::Histogram {
            field,
            interval,
            offset,
            min_doc_count,
            dated,
        } => Agg::Histogram {
            field: *field,
            interval: *interval,
            offset: *offset,
            min_doc_count: (*min_doc_count).max(1),
            dated: *dated,
        },
        Agg::Terms { .. } => *agg,
    }
}

// An answer with all buckets of an aggregation but the empty steps, however many they are.
fn filled_buckets(alloc: Global, agg: &FlatAgg, part: &FlatPart) -> Result<FlatAnswer, AllocError>
    requires step { HasStep agg.now }
    requires known { (documents : List (List DocField)) × FlatStands agg.now part.now documents × (length documents < 2 ^ 62) }
    ensures { IfOk result (λ answer. (documents : List (List DocField)) → FlatStands agg.now part.now documents
        → spots_in answer ≡ spots_in (flat_answer documents (filled agg.now))) }
{
    match (agg, part) {
        (FlatAgg::Counted(agg), FlatPart::Counted { partial, .. }) => {
            let answer = full_answer(alloc, &without_empty(agg), partial)?;
            Ok(FlatAnswer::Counted(answer))
        }
        (FlatAgg::Ranges { ranges, .. }, FlatPart::Ranges(counts)) => {
            let buckets = range_buckets(alloc, ranges.as_slice(), counts.as_slice())?;
            Ok(FlatAnswer::Ranges(buckets))
        }
        _ => Ok(FlatAnswer::Metric(None)),
    }
}

// How many buckets the nested answers of the buckets of an answer have.
fn count_inner(
    alloc: Global,
    asked: &NestedAgg,
    vacant: &[FlatPart],
    part: &NestedPart,
    answer: &FlatAnswer,
) -> Result<u128, AllocError>
    requires steps { All (λ named. HasStep named.agg) asked.now.nested }
    requires vacant { AreStanding asked.now.nested vacant.now [] }
    requires known { (documents : List (List DocField)) × GroupsStand asked.now.agg asked.now.nested part.now.groups documents × (length documents < 2 ^ 62) }
    ensures { IfOk result (λ many. (documents : List (List DocField)) → GroupsStand asked.now.agg asked.now.nested part.now.groups documents
        → many ≡ told (sum_by (λ spot. inner_buckets asked.now.nested (documents_at asked.now.agg documents spot)) (spots_in answer.now))) }
{
    let mut many = 0u128;
    for i in 0..buckets_in(answer) {
        let parts = parts_at(vacant, &part.groups, answer, i);
        many = many.saturating_add(count_flats(alloc, asked.nested.as_slice(), parts)?);
    }
    Ok(many)
}

// How many buckets the answer of an aggregation has, with those of its nested ones. An empty step has those of no documents, and is
// not walked.
fn count_part(alloc: Global, asked: &NestedAgg, part: &NestedPart) -> Result<u128, AllocError>
    requires step { HasStep asked.now.agg }
    requires steps { All (λ named. HasStep named.agg) asked.now.nested }
    requires known { (documents : List (List DocField)) × PartStands asked.now part.now documents × (length documents < 2 ^ 62) }
    ensures { IfOk result (λ many. (documents : List (List DocField)) → PartStands asked.now part.now documents → many ≡ told (nested_buckets documents asked.now)) }
{
    let own = count_flat(alloc, &asked.agg, &part.flat)?;
    if asked.nested.is_empty() {
        return Ok(own);
    }
    let vacant = vacant_flats(alloc, asked.nested.as_slice())?;
    let filled = filled_buckets(alloc, &asked.agg, &part.flat)?;
    let inner = count_inner(alloc, asked, vacant.as_slice(), part, &filled)?;
    let each = count_flats(alloc, asked.nested.as_slice(), vacant.as_slice())?;
    let empty = own.saturating_sub(buckets_in(&filled) as u128);
    Ok(
        own.saturating_add(inner)
            .saturating_add(empty.saturating_mul(each)),
    )
}

/// How many buckets the answers to a request have, with those of their nested answers, told in 128 bits.
pub fn count_parts(
    alloc: Global,
    request: &[NestedAgg],
    parts: &Vec<NestedPart>,
) -> Result<u128, AllocError>
    requires steps { HaveSteps request.now }
    requires known { (number : ℕ) × ArePartsFor request.now number parts.now.items × (number < 2 ^ 62) }
    ensures { IfOk result (λ many. (documents : List (List DocField)) → AllZip (λ asked part. PartStands asked part documents) request.now parts.now.items
        → many ≡ told (all_buckets request.now documents)) }
{
    let mut many = 0u128;
    for (i, asked) in request.iter().enumerate() {
        many = many.saturating_add(count_part(alloc, asked, &parts[i])?);
    }
    Ok(many)
}

//! Many documents with the same values.

ghost use Rattle.std.specs.Prelude.{◌≡◌, ◌+◌, ◌^◌, ◌<◌, ◌++◌, [], List, IfOk, length, replicate};
ghost use Rattle.doc_value.specs.declared.doc.DocField.{DocField};
ghost use Rattle.agg_model.specs.Checking.{HaveIntervals};
ghost use Rattle.agg_model.specs.Partials.{IsPartialOf, StandsFor, documents_in};
ghost use Rattle.agg_nested.specs.Buckets.{NestedStands, IsNestedPartial, documents_counted};
ghost use Rattle.agg_nested.specs.Checking.{HaveSteps};

use agg_model::{AggRequest, DocValues, Partial, collect_one, merge_partials, vacant_partial};
use agg_nested::{NestedPartial, NestedRequest, collect_nested, merge_nested, vacant_nested};
use std::alloc::{AllocError, Global};

// What some documents and as many others like them count.
fn doubled(alloc: Global, aggs: &AggRequest, half: &Partial) -> Result<Partial, AllocError>
    requires partial { IsPartialOf aggs.now half.now }
    requires few { documents_in half.now + documents_in half.now < 2 ^ 62 }
    ensures partial { IfOk result (IsPartialOf aggs.now) }
    ensures many { IfOk result (λ partial. documents_in partial ≡ documents_in half.now + documents_in half.now) }
    ensures stands { (docs : List (List DocField)) → StandsFor aggs.now half.now docs → IfOk result (λ partial. StandsFor aggs.now partial (docs ++ docs)) }
{
    let mut partial = vacant_partial(alloc, aggs)?;
    merge_partials(alloc, aggs, &mut partial, half)?;
    merge_partials(alloc, aggs, &mut partial, half)?;
    Ok(partial)
}

// What so many documents with the same values count.
pub(crate) fn copies(
    alloc: Global,
    aggs: &AggRequest,
    doc: &DocValues,
    times: u64,
) -> Result<Partial, AllocError>
    requires intervals { HaveIntervals aggs.now }
    requires few { times < 2 ^ 62 }
    ensures partial { IfOk result (IsPartialOf aggs.now) }
    ensures many { IfOk result (λ partial. documents_in partial ≡ times) }
    ensures stands { IfOk result (λ partial. StandsFor aggs.now partial (replicate times doc.now)) }
{
    if times == 0 {
        return vacant_partial(alloc, aggs);
    }
    let half = copies(alloc, aggs, doc, times / 2)?;
    let mut partial = doubled(alloc, aggs, &half)?;
    if times % 2 == 0 {
        return Ok(partial);
    }
    collect_one(alloc, aggs, &mut partial, doc)?;
    Ok(partial)
}

// What some documents and as many others like them count.
fn twice(
    alloc: Global,
    request: &NestedRequest,
    half: &NestedPartial,
) -> Result<NestedPartial, AllocError>
    requires partial { IsNestedPartial request.now half.now }
    requires few { documents_counted half.now + documents_counted half.now < 2 ^ 62 }
    ensures partial { IfOk result (IsNestedPartial request.now) }
    ensures many { IfOk result (λ partial. documents_counted partial ≡ documents_counted half.now + documents_counted half.now) }
    ensures stands { (docs : List (List DocField)) → NestedStands request.now half.now docs → IfOk result (λ partial. NestedStands request.now partial (docs ++ docs)) }
{
    let mut partial = vacant_nested(alloc, request)?;
    merge_nested(alloc, request, &mut partial, half)?;
    merge_nested(alloc, request, &mut partial, half)?;
    Ok(partial)
}

/// What so many documents without values count. Where nothing is asked of documents, these stand for any others.
pub fn valueless_partial(
    alloc: Global,
    request: &NestedRequest,
    count: u64,
) -> Result<NestedPartial, AllocError>
    requires intervals { HaveSteps request.now }
    requires few { count < 2 ^ 62 }
    ensures partial { IfOk result (IsNestedPartial request.now) }
    ensures many { IfOk result (λ partial. documents_counted partial ≡ count) }
    ensures stands { IfOk result (λ partial. NestedStands request.now partial (replicate count [])) }
    ensures unasked { IfOk result (λ partial. (documents : List (List DocField)) → request.now ≡ [] → length documents ≡ count → NestedStands request.now partial documents) }
{
    if count == 0 {
        return vacant_nested(alloc, request);
    }
    let half = valueless_partial(alloc, request, count / 2)?;
    let mut partial = twice(alloc, request, &half)?;
    if count % 2 == 0 {
        return Ok(partial);
    }
    let nothing = DocValues::vacant(alloc);
    collect_nested(alloc, request, &mut partial, &nothing)?;
    Ok(partial)
}

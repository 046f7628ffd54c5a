//! What aggregations count, as it is printed.

ghost use Rattle.std.specs.Prelude.{◌≡◌, ◌++◌, IfOk, OnOk, true, map, codes};
ghost use Rattle.doc_value.specs.Printed.{comma};
ghost use Rattle.search_api.specs.Replies as spec;

use crate::bucket_pairs::{
    Pair, Pairs, behind, behind_edge, push_edge, push_own_count, push_pairs, push_range_key,
    push_signed, push_value_key,
};
use crate::pairs::{push_comma, push_key, push_number};
use agg_model::{AggAnswer, Bucket};
use agg_nested::{FlatAnswer, NamedAnswer, NestedAnswer, RangeBucket};
use doc_value::values::push_quoted;
use doc_value::{Bytes, List, Replica};
use std::alloc::{AllocError, Global};

/// A bucket with the pairs of its nested answers.
#[tactic(auto, using(crate::proofs::Among::value_written))]
fn push_bucket(
    alloc: Global,
    out: &mut Bytes,
    bucket: &Bucket,
    pairs: &[Pair],
) -> Result<(), AllocError>
    ensures { OnOk result (out.new ≡ out.old ++ spec.bucket_text (spec.value_pairs bucket.now) pairs.now) }
{
    out.push(b'{')?;
    push_own_count(alloc, out, pairs, bucket.count)?;
    let rest = behind(pairs, b"doc_count");
    push_value_key(alloc, out, rest, &bucket.key)?;
    push_pairs(out, behind(rest, b"key"))?;
    out.push(b'}')
}

#[tactic(auto, using(crate::proofs::Among::range_written))]
fn push_range_bucket(
    alloc: Global,
    out: &mut Bytes,
    bucket: &RangeBucket,
    pairs: &[Pair],
) -> Result<(), AllocError>
    ensures { OnOk result (out.new ≡ out.old ++ spec.bucket_text (spec.range_pairs bucket.now) pairs.now) }
{
    out.push(b'{')?;
    push_own_count(alloc, out, pairs, bucket.count)?;
    let rest = behind(pairs, b"doc_count");
    push_edge(alloc, out, rest, b"from", bucket.range.from)?;
    let rest = behind_edge(rest, b"from", bucket.range.from);
    push_range_key(alloc, out, rest, &bucket.range)?;
    let rest = behind(rest, b"key");
    push_edge(alloc, out, rest, b"to", bucket.range.to)?;
    push_pairs(out, behind_edge(rest, b"to", bucket.range.to))?;
    out.push(b'}')
}

fn first_pairs(nested: &[Pairs]) -> &[Pair]
    ensures { result.now ≡ spec.first_pairs nested.now }
{
    match nested {
        [] => &[],
        [pairs, ..] => pairs.as_slice(),
    }
}

fn other_pairs(nested: &[Pairs]) -> &[Pairs]
    ensures { result.now ≡ spec.other_pairs nested.now }
{
    match nested {
        [] => nested,
        [_, rest @ ..] => rest,
    }
}

fn push_buckets(
    alloc: Global,
    out: &mut Bytes,
    buckets: &[Bucket],
    nested: &[Pairs],
) -> Result<(), AllocError>
    ensures { OnOk result (out.new ≡ out.old ++ spec.with_commas true (spec.bucket_texts (map spec.value_pairs buckets.now) nested.now)) }
{
    let mut first = true;
    let mut rest = nested;
    for bucket in buckets {
        push_comma(out, first)?;
        push_bucket(alloc, out, bucket, first_pairs(rest))?;
        rest = other_pairs(rest);
        first = false;
    }
    Ok(())
}

fn push_range_buckets(
    alloc: Global,
    out: &mut Bytes,
    buckets: &[RangeBucket],
    nested: &[Pairs],
) -> Result<(), AllocError>
    ensures { OnOk result (out.new ≡ out.old ++ spec.with_commas true (spec.bucket_texts (map spec.range_pairs buckets.now) nested.now)) }
{
    let mut first = true;
    let mut rest = nested;
    for bucket in buckets {
        push_comma(out, first)?;
        push_range_bucket(alloc, out, bucket, first_pairs(rest))?;
        rest = other_pairs(rest);
        first = false;
    }
    Ok(())
}

/// The buckets of an answer in a list, under their key.
#[tactic(auto, using(crate::proofs::Objects::keyed, crate::proofs::Objects::bracketed), unfolding(crate::specs::Replies::list_text))]
fn push_bucket_list(
    alloc: Global,
    out: &mut Bytes,
    buckets: &[Bucket],
    nested: &[Pairs],
) -> Result<(), AllocError>
    ensures { OnOk result (out.new ≡ out.old ++ (comma true ++ spec.buckets_pair (map spec.value_pairs buckets.now) nested.now)) }
{
    push_key(out, true, b"buckets")?;
    out.push(b'[')?;
    push_buckets(alloc, out, buckets, nested)?;
    out.push(b']')
}

#[tactic(auto, using(crate::proofs::Objects::keyed, crate::proofs::Objects::bracketed), unfolding(crate::specs::Replies::list_text))]
fn push_range_list(
    alloc: Global,
    out: &mut Bytes,
    buckets: &[RangeBucket],
    nested: &[Pairs],
) -> Result<(), AllocError>
    ensures { OnOk result (out.new ≡ out.old ++ (comma true ++ spec.buckets_pair (map spec.range_pairs buckets.now) nested.now)) }
{
    push_key(out, true, b"buckets")?;
    out.push(b'[')?;
    push_range_buckets(alloc, out, buckets, nested)?;
    out.push(b']')
}

#[tactic(auto, using(crate::proofs::Objects::three_pairs), unfolding(crate::specs::Replies::terms_text))]
fn push_terms(
    alloc: Global,
    out: &mut Bytes,
    buckets: &[Bucket],
    others: u128,
    nested: &[Pairs],
) -> Result<(), AllocError>
    ensures { OnOk result (out.new ≡ out.old ++ spec.terms_text nested.now buckets.now others) }
{
    out.push(b'{')?;
    push_bucket_list(alloc, out, buckets, nested)?;
    push_number(alloc, out, false, b"doc_count_error_upper_bound", 0)?;
    push_number(alloc, out, false, b"sum_other_doc_count", others)?;
    out.push(b'}')
}

#[tactic(auto, using(crate::proofs::Objects::one_pair), unfolding(crate::specs::Replies::histogram_text))]
fn push_histogram(
    alloc: Global,
    out: &mut Bytes,
    buckets: &[Bucket],
    nested: &[Pairs],
) -> Result<(), AllocError>
    ensures { OnOk result (out.new ≡ out.old ++ spec.histogram_text nested.now buckets.now) }
{
    out.push(b'{')?;
    push_bucket_list(alloc, out, buckets, nested)?;
    out.push(b'}')
}

#[tactic(auto, using(crate::proofs::Objects::one_pair), unfolding(crate::specs::Replies::ranges_text))]
fn push_ranges(
    alloc: Global,
    out: &mut Bytes,
    buckets: &[RangeBucket],
    nested: &[Pairs],
) -> Result<(), AllocError>
    ensures { OnOk result (out.new ≡ out.old ++ spec.ranges_text nested.now buckets.now) }
{
    out.push(b'{')?;
    push_range_list(alloc, out, buckets, nested)?;
    out.push(b'}')
}

fn push_number_or_null(
    alloc: Global,
    out: &mut Bytes,
    number: Option<i128>,
) -> Result<(), AllocError>
    ensures { OnOk result (out.new ≡ out.old ++ spec.number_text number) }
{
    match number {
        Some(number) => push_signed(alloc, out, number),
        None => out.extend(b"null"),
    }
}

/// The number of a metric under its key.
#[tactic(auto, using(crate::proofs::Objects::keyed))]
fn push_value(alloc: Global, out: &mut Bytes, number: Option<i128>) -> Result<(), AllocError>
    ensures { OnOk result (out.new ≡ out.old ++ (comma true ++ spec.pair_text (codes "value") (spec.number_text number))) }
{
    push_key(out, true, b"value")?;
    push_number_or_null(alloc, out, number)
}

#[tactic(auto, using(crate::proofs::Objects::one_pair), unfolding(crate::specs::Replies::metric_text))]
fn push_metric(alloc: Global, out: &mut Bytes, number: Option<i128>) -> Result<(), AllocError>
    ensures { OnOk result (out.new ≡ out.old ++ spec.metric_text number) }
{
    out.push(b'{')?;
    push_value(alloc, out, number)?;
    out.push(b'}')
}

fn push_counted(
    alloc: Global,
    out: &mut Bytes,
    answer: &AggAnswer,
    nested: &[Pairs],
) -> Result<(), AllocError>
    ensures { OnOk result (out.new ≡ out.old ++ spec.counted_text nested.now answer.now) }
{
    match answer {
        AggAnswer::Terms { buckets, others } => {
            push_terms(alloc, out, buckets.as_slice(), *others, nested)
        }
        AggAnswer::Histogram { buckets } => push_histogram(alloc, out, buckets.as_slice(), nested),
    }
}

/// An answer, with the pairs of the nested answers of each of its buckets.
fn push_answer(
    alloc: Global,
    out: &mut Bytes,
    answer: &FlatAnswer,
    nested: &[Pairs],
) -> Result<(), AllocError>
    ensures { OnOk result (out.new ≡ out.old ++ spec.answer_text nested.now answer.now) }
{
    match answer {
        FlatAnswer::Counted(answer) => push_counted(alloc, out, answer, nested),
        FlatAnswer::Metric(number) => push_metric(alloc, out, *number),
        FlatAnswer::Ranges(buckets) => push_ranges(alloc, out, buckets.as_slice(), nested),
    }
}

/// A nested answer under its name.
fn pair_of(alloc: Global, named: &NamedAnswer) -> Result<Pair, AllocError>
    ensures { IfOk result (λ pair. pair ≡ spec.pair_of named.now) }
{
    let mut text = Bytes::vacant(alloc);
    push_answer(alloc, &mut text, &named.answer, &[])?;
    Ok(Pair {
        key: named.name.copy(alloc)?,
        text,
    })
}

fn pairs_of(alloc: Global, answers: &[NamedAnswer]) -> Result<Pairs, AllocError>
    ensures { IfOk result (λ pairs. pairs ≡ map spec.pair_of answers.now) }
{
    let mut pairs = Pairs::vacant(alloc);
    for named in answers {
        pairs.push(pair_of(alloc, named)?)?;
    }
    Ok(pairs)
}

/// The nested answers of each bucket.
fn nested_pairs(alloc: Global, nested: &[List<NamedAnswer>]) -> Result<List<Pairs>, AllocError>
    ensures { IfOk result (λ all. all ≡ map (map spec.pair_of) nested.now) }
{
    let mut all = List::vacant(alloc);
    for answers in nested {
        all.push(pairs_of(alloc, answers.as_slice())?)?;
    }
    Ok(all)
}

#[tactic(auto, unfolding(crate::specs::Replies::named_text, crate::specs::Replies::pair_text))]
fn push_named(alloc: Global, out: &mut Bytes, named: &NestedAnswer) -> Result<(), AllocError>
    ensures { OnOk result (out.new ≡ out.old ++ spec.named_text named.now) }
{
    let nested = nested_pairs(alloc, named.nested.as_slice())?;
    push_quoted(out, named.name.as_slice())?;
    out.push(b':')?;
    push_answer(alloc, out, &named.answer, nested.as_slice())
}

fn push_each_named(
    alloc: Global,
    out: &mut Bytes,
    results: &[NestedAnswer],
) -> Result<(), AllocError>
    ensures { OnOk result (out.new ≡ out.old ++ spec.with_commas true (map spec.named_text results.now)) }
{
    let mut first = true;
    for named in results {
        push_comma(out, first)?;
        push_named(alloc, out, named)?;
        first = false;
    }
    Ok(())
}

/// The answers under their names.
#[tactic(auto, using(crate::proofs::Objects::bracketed), unfolding(crate::specs::Replies::aggs_text, crate::specs::Replies::object_text))]
pub fn push_aggs(alloc: Global, out: &mut Bytes, results: &[NestedAnswer]) -> Result<(), AllocError>
    ensures { OnOk result (out.new ≡ out.old ++ spec.aggs_text results.now) }
{
    out.push(b'{')?;
    push_each_named(alloc, out, results)?;
    out.push(b'}')
}

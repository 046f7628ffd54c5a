//! Values with their counts, in the order in which they are answered.

ghost use Rattle.std.specs.Prelude.{◌≡◌, ◌++◌, ◌+◌, ◌<◌, ◌^◌, ℤ, List, Some, map, IfOk, IfSome, OnOk, IsSome, take, drop, sum_by, length, min};
ghost use Rattle.std.specs.HashMap.{get, get_by_text, IsUnique};
ghost use Rattle.std.specs.Ordering.{int_eq};
ghost use Rattle.std.specs.String.{string_eq};
ghost use Rattle.std.specs.List.Sorted.{IsSorted, IsPermutation};
ghost use Rattle.agg_model.specs.Answers.{rank, IsCut};
ghost use Rattle.agg_model.specs.Counting.{Slot};
ghost use Rattle.agg_model.specs.Listed.{AreUnique, all_listed, listed, slot_at, text_slot};
ghost use Rattle.agg_model.specs.Partials.{IsSlotOfValue, tally_at};

use crate::answer::{AggAnswer, Bucket, Buckets, Key};
use crate::counts::Counts;
use crate::tallies::{TextTallies, WholeTallies};
use doc_value::{Text, Value};
use std::alloc::{AllocError, Global};
use std::cmp::Ordering;

/// A value, and how many documents have it.
#[derive(Drop)]
pub struct ValueCount {
    pub value: Value,
    pub count: u64,
}

// What whole numbers are tallied.
#[derive(Clone, Copy)]
enum WholeKind {
    Signed,
    Unsigned,
    Truth,
    Datetime,
}

impl WholeKind {
    ghost use Rattle.agg_model.specs.Partials.{IsSlotOfValue};
    ghost use Rattle.agg_model.specs.Listed.{slot_at, value_at};

    // The value that is tallied as this whole number.
    fn value(self, whole: i128) -> Value
        requires { IsSlotOfValue (slot_at self whole) }
        ensures { result ≡ value_at (slot_at self whole) }
    {
        match self {
            WholeKind::Signed => Value::I64(whole as i64),
            WholeKind::Unsigned => Value::U64(whole as u64),
            WholeKind::Truth => Value::Bool(whole == 1),
            WholeKind::Datetime => Value::Datetime(whole as i64),
        }
    }
}

fn push_texts(
    alloc: Global,
    all: &mut Vec<ValueCount>,
    tallies: &TextTallies,
) -> Result<(), AllocError>
    ensures listed { OnOk result (all.new.items ≡ all.old.items ++ listed text_slot tallies.now.entries) }
    ensures unique { IsUnique string_eq tallies.now }
{
    for (text, tally) in tallies.iter() {
        let text = Text::from_str(alloc, text.as_str())?;
        all.push(ValueCount {
            value: Value::Text(text),
            count: tally.count,
        })?;
    }
    Ok(())
}

fn push_wholes(
    all: &mut Vec<ValueCount>,
    kind: WholeKind,
    tallies: &WholeTallies,
) -> Result<(), AllocError>
    requires { (z : ℤ) → IfSome (get int_eq tallies.now z) (λ _. IsSlotOfValue (slot_at kind z)) }
    ensures listed { OnOk result (all.new.items ≡ all.old.items ++ listed (slot_at kind) tallies.now.entries) }
    ensures unique { IsUnique int_eq tallies.now }
{
    for (whole, tally) in tallies.iter() {
        all.push(ValueCount {
            value: kind.value(*whole),
            count: tally.count,
        })?;
    }
    Ok(())
}

fn all_values(alloc: Global, counts: &Counts) -> Result<Vec<ValueCount>, AllocError>
    requires { (slot : Slot) → IfSome (tally_at counts.now slot) (λ _. IsSlotOfValue slot) }
    ensures listed { IfOk result (λ all. all.items ≡ all_listed counts.now) }
    ensures unique { OnOk result (AreUnique counts.now) }
{
    let mut all = Vec::new(alloc);
    push_texts(alloc, &mut all, &counts.texts)?;
    push_wholes(&mut all, WholeKind::Signed, &counts.signed)?;
    push_wholes(&mut all, WholeKind::Unsigned, &counts.unsigned)?;
    push_wholes(&mut all, WholeKind::Truth, &counts.truths)?;
    push_wholes(&mut all, WholeKind::Datetime, &counts.datetimes)?;
    Ok(all)
}

fn rank(a: &ValueCount, b: &ValueCount) -> Ordering
    ensures { result ≡ rank a.now b.now }
{
    b.count
        .cmp(&a.count)
        .then_with(|| a.value.compare(&b.value))
}

/// All values that a part counts, the greatest counts first, of equal counts the lower value.
pub fn ranked(alloc: Global, counts: &Counts) -> Result<Vec<ValueCount>, AllocError>
    requires { (slot : Slot) → IfSome (tally_at counts.now slot) (λ _. IsSlotOfValue slot) }
    ensures listed { IfOk result (λ all. IsPermutation (all_listed counts.now) all.items) }
    ensures order { IfOk result (λ all. IsSorted rank all.items) }
    ensures unique { OnOk result (AreUnique counts.now) }
{
    let mut all = all_values(alloc, counts)?;
    all.sort_unstable_by(|a, b| rank(a, b));
    Ok(all)
}

/// The first `size` values as buckets, and the sum of the counts of the others.
pub fn cut(alloc: Global, size: u32, all: Vec<ValueCount>) -> Result<AggAnswer, AllocError>
    ensures { IfOk result (IsCut size all.items) }
{
    let mut buckets = Buckets::vacant(alloc);
    let mut others = 0u128;
    for ranked in all {
        if buckets.len() < size as usize {
            buckets.push(Bucket {
                key: Key::Value(ranked.value),
                count: ranked.count,
            })?;
        } else {
            others += u128::from(ranked.count);
        }
    }
    Ok(AggAnswer::Terms { buckets, others })
}

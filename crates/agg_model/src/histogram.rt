//! The steps of a histogram that are answered.

ghost use Rattle.std.specs.Prelude.{◌≡◌, ℕ, ◌++◌, ◌+◌, ◌<◌, ◌≤◌, ◌^◌, ℤ, pos, ◌+ℤ◌, ◌*ℤ◌, List, map, filter, nat_le, IfOk, OnOk, IfSome, length, unwrap_or};
ghost use Rattle.std.specs.BTreeMap.{get};
ghost use Rattle.std.specs.Ordering.{int_cmp};
ghost use Rattle.std.specs.Int.RustNames.{unsigned_abs};
ghost use Rattle.agg_model.specs.Answers.{step_bucket};
ghost use Rattle.agg_model.specs.Spans.{span, steps_with};

use crate::answer::{Bucket, Buckets, Key};
use crate::distance::Distance;
use crate::tallies::StepCounts;
use std::alloc::{AllocError, Global};

/// Where the steps of a histogram begin: at `offset` and then at each `interval`.
#[derive(Clone, Copy)]
pub struct Scale {
    pub interval: Distance,
    pub offset: Distance,
}

// The bucket of a step.
fn step_bucket(scale: &Scale, step: &i128, count: u64) -> Bucket
    requires { unsigned_abs (step.now *ℤ scale.now.interval) < 2 ^ 98 }
    ensures { result ≡ step_bucket scale.now.interval scale.now.offset (λ _. count) step.now }
{
    Bucket {
        key: Key::Step(*step * scale.interval.whole() + scale.offset.whole()),
        count,
    }
}

// The step behind so many others.
fn later_step(first: &i128, number: u64) -> i128
    requires { unsigned_abs first.now < 2 ^ 98 }
    ensures { result ≡ first.now +ℤ pos number }
{
    *first + i128::from(number)
}

/// So many steps from the first on, also those in which no document lies.
pub fn every_step(
    alloc: Global,
    scale: &Scale,
    steps: &StepCounts,
    first: &i128,
    many: u64,
) -> Result<Buckets, AllocError>
    requires close { unsigned_abs first.now < 2 ^ 98 }
    requires near { (k : ℕ) → k < many → unsigned_abs ((first.now +ℤ pos k) *ℤ scale.now.interval) < 2 ^ 98 }
    ensures { IfOk result (λ buckets. buckets ≡ map (step_bucket scale.now.interval scale.now.offset (λ s. unwrap_or (get int_cmp steps.now s) 0)) (span first.now many)) }
{
    let mut buckets = Buckets::vacant(alloc);
    for i in 0..many {
        let step = later_step(first, i);
        let count = steps.get(&step).copied().unwrap_or(0);
        buckets.push(step_bucket(scale, &step, count))?;
    }
    Ok(buckets)
}

/// The steps with at least this count, which is not 0.
pub fn frequent_steps(
    alloc: Global,
    scale: &Scale,
    steps: &StepCounts,
    least: u32,
) -> Result<Buckets, AllocError>
    requires { (z : ℤ) → IfSome (get int_cmp steps.now z) (λ _. unsigned_abs (z *ℤ scale.now.interval) < 2 ^ 98) }
    ensures { IfOk result (λ buckets. buckets ≡ map (λ e. step_bucket scale.now.interval scale.now.offset (λ _. e.1) e.0) (filter (λ e. nat_le least e.1) steps.now.entries)) }
{
    let mut buckets = Buckets::vacant(alloc);
    for (step, count) in steps.iter() {
        if *count >= u64::from(least) {
            buckets.push(step_bucket(scale, step, *count))?;
        }
    }
    Ok(buckets)
}

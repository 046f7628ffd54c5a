//! The rows that a merge may take, each with its level.

ghost use Rattle.std.specs.Prelude.{◌≡◌, ◌≤◌, filter, IfOk, IsPermutation, All};
ghost use Rattle.std.specs.List.Sorted.{IsSorted};
ghost use Rattle.std.specs.List.{AllByRecursion};
ghost use Rattle.index_config.specs.Accepted.{HasPolicyRanges};
ghost use Rattle.merge_policy.specs.Choice.{is_candidate, times_order, row_order};
ghost use Rattle.merge_policy.specs.Walk.{rows_of, IsRanked, candidate_order};

use crate::level::{is_immature, level};
use index_config::Policy;
use split_states::{Row, Times};
use std::alloc::{AllocError, Global};
use std::cmp::Ordering;

/// A row that a merge may take, and its level.
#[derive(Clone, Copy, Drop)]
pub(crate) struct Candidate<'a> {
    pub(crate) level: u64,
    pub(crate) row: &'a Row,
}

/// The greatest time first, and no times last.
fn compare_times(one: Option<Times>, other: Option<Times>) -> Ordering
    ensures { result ≡ times_order one other }
{
    match (one, other) {
        (Some(one), Some(other)) => other.greatest.cmp(&one.greatest),
        (Some(_), None) => Ordering::Less,
        (None, Some(_)) => Ordering::Greater,
        (None, None) => Ordering::Equal,
    }
}

fn compare_rows(one: &Row, other: &Row) -> Ordering
    ensures { result ≡ row_order one.now other.now }
{
    match compare_times(one.facts.times, other.facts.times) {
        Ordering::Equal => one.number.cmp(&other.number),
        order => order,
    }
}

/// By level, then the greatest time first and no times last, then by number.
fn compare(one: &Candidate<'_>, other: &Candidate<'_>) -> Ordering
    ensures { result ≡ candidate_order one.now other.now }
{
    match one.level.cmp(&other.level) {
        Ordering::Equal => compare_rows(one.row, other.row),
        order => order,
    }
}

/// The rows that the policy looks at, in the order of the rows.
fn collect<'a>(
    alloc: Global,
    policy: &Policy,
    docs_target: u64,
    now: u64,
    rows: &'a [Row],
) -> Result<Vec<Candidate<'a>>, AllocError>
    requires policy { HasPolicyRanges policy.now }
    requires target { docs_target ≤ 16777216 }
    ensures rows { IfOk result (λ list. rows_of list.items ≡ filter (is_candidate policy.now docs_target now) rows.now) }
    ensures levels { IfOk result (λ list. AllByRecursion (IsRanked policy.now) list.items) }
{
    let mut list = Vec::new(alloc);
    let mut rest = rows;
    while let Some((row, behind)) = rest.split_first() {
        if is_immature(policy, docs_target, now, row)
            && let Some(level) = level(policy, row)
        {
            list.push(Candidate { level, row })?;
        }
        rest = behind;
    }
    Ok(list)
}

/// The rows that the policy looks at, by level, then the greatest time first and no times last, then by number.
pub(crate) fn candidates<'a>(
    alloc: Global,
    policy: &Policy,
    docs_target: u64,
    now: u64,
    rows: &'a [Row],
) -> Result<Vec<Candidate<'a>>, AllocError>
    requires policy { HasPolicyRanges policy.now }
    requires target { docs_target ≤ 16777216 }
    ensures rows { IfOk result (λ list. IsPermutation (filter (is_candidate policy.now docs_target now) rows.now) (rows_of list.items)) }
    ensures levels { IfOk result (λ list. All (IsRanked policy.now) list.items) }
    ensures order { IfOk result (λ list. IsSorted candidate_order list.items) }
{
    let mut list = collect(alloc, policy, docs_target, now, rows)?;
    list.sort_by(|one, other| compare(one, other))?;
    Ok(list)
}

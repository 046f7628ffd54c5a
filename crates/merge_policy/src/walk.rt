//! The walk over the candidates in order, level by level.

ghost use Rattle.std.specs.Prelude.{◌≡◌, ℕ, ◌==◌, ◌≤◌, List, length, take, option_map, IfNone, IfSome};
ghost use Rattle.std.specs.List.{prefix_len};
ghost use Rattle.split_states.specs.declared.rows.Row as rows;
ghost use Rattle.merge_policy.specs.Choice.{FitsSplit, IsMerge, merge_factor as factor_of, max_merge_factor as greatest_of};
ghost use Rattle.merge_policy.specs.Walk.{rows_of, LevelsRise, IsWalked};

use crate::candidate::Candidate;
use index_config::Policy;
use split_states::MAX_WEIGHT;

const MAX_DOCS: u64 = 16_777_216;

fn merge_factor(policy: &Policy) -> u64
    ensures { result ≡ factor_of policy.now }
{
    match policy {
        Policy::StableLog { merge_factor, .. } => *merge_factor,
        Policy::LimitMerge { merge_factor, .. } => *merge_factor,
        Policy::NoMerge => 0,
    }
}

fn max_merge_factor(policy: &Policy) -> u64
    ensures { result ≡ greatest_of policy.now }
{
    match policy {
        Policy::StableLog {
            max_merge_factor,
            ..
        } => *max_merge_factor,
        Policy::LimitMerge {
            max_merge_factor,
            ..
        } => *max_merge_factor,
        Policy::NoMerge => 0,
    }
}

/// How many of the first candidates stand on one level.
fn level_len(list: &[Candidate<'_>], level: u64) -> usize
    ensures { result ≡ prefix_len (λ c. c.level == level) list.now }
{
    list.iter().take_while(|c| c.level == level).count()
}

/// How many of the first rows one split file can hold.
fn fitting_len(list: &[Candidate<'_>]) -> usize
    ensures within { result ≤ length list.now }
    ensures fits { FitsSplit (take result (rows_of list.now)) }
    ensures longest { (n : ℕ) → n ≤ length list.now → FitsSplit (take n (rows_of list.now)) → n ≤ result }
{
    let mut docs: u64 = 0;
    let mut weight: u64 = 0;
    for (i, candidate) in list.iter().enumerate() {
        let facts = &candidate.row.facts;
        docs = docs.saturating_add(facts.docs);
        weight = weight.saturating_add(facts.weight);
        if docs > MAX_DOCS || weight > MAX_WEIGHT {
            return i;
        }
    }
    list.len()
}

/// How many of the first candidates of a level are merged, where the level gives any.
fn merged_len(policy: &Policy, level: &[Candidate<'_>]) -> Option<usize>
    ensures none { IfNone result ((other : List rows.Row) → IsMerge (factor_of policy.now) (greatest_of policy.now) (rows_of level.now) other → ⊥) }
    ensures within { IfSome result (λ len. len ≤ length level.now) }
    ensures some { IfSome result (λ len. IsMerge (factor_of policy.now) (greatest_of policy.now) (rows_of level.now) (take len (rows_of level.now))) }
{
    if (level.len() as u64) < merge_factor(policy) {
        return None;
    }
    let most = u64::min(level.len() as u64, max_merge_factor(policy)) as usize;
    let len = fitting_len(&level[..most]);
    if len < 2 {
        return None;
    }
    Some(len)
}

/// The candidates that are merged: those of the least level that gives any.
pub(crate) fn first_merged<'a>(
    policy: &Policy,
    list: &'a [Candidate<'a>],
) -> Option<&'a [Candidate<'a>]>
    requires { LevelsRise list.now }
    ensures { IsWalked (factor_of policy.now) (greatest_of policy.now) list.now (option_map (λ some. rows_of some.now) result) }
{
    let mut start = 0;
    while start < list.len() {
        let rest = &list[start..];
        let level = &rest[..level_len(rest, rest[0].level)];
        if let Some(len) = merged_len(policy, level) {
            return Some(&level[..len]);
        }
        start += level.len();
    }
    None
}

//! Which rows a policy looks at, and on which level each stands.

ghost use Rattle.std.specs.Prelude.{◌≡◌, ℕ, ◌==◌, ◌<◌, ◌≤◌, true, false, IfNone, IfSome};
ghost use Rattle.index_config.specs.Accepted.{HasPolicyRanges, IsBetween};
ghost use Rattle.merge_policy.specs.Choice.{maturation_period as period_of, is_immature, is_counted, is_log_level};
ghost use Rattle.merge_policy.specs.Walk.{HasLevel};

use index_config::Policy;
use split_states::{Row, RowState};

/// How many seconds after its Stage a row is mature.
fn maturation_period(policy: &Policy) -> u64
    ensures { result ≡ period_of policy.now }
{
    match policy {
        Policy::StableLog {
            maturation_period,
            ..
        } => *maturation_period,
        Policy::LimitMerge {
            maturation_period,
            ..
        } => *maturation_period,
        Policy::NoMerge => 0,
    }
}

/// Whether a row may be merged still. A sum of a moment and a period may pass 64 bits.
pub(crate) fn is_immature(policy: &Policy, docs_target: u64, now: u64, row: &Row) -> bool
    ensures { result ≡ is_immature policy.now docs_target now row.now }
{
    let until = u128::from(row.staged_at) + u128::from(maturation_period(policy));
    matches!(row.state, RowState::Published)
        && row.facts.docs < docs_target
        && u128::from(now) < until
}

/// The level of a number of documents: 0 below `least`, and else the k with
/// least * factor^(k-1) <= docs < least * factor^k.
fn log_level(least: u64, factor: u64, docs: u64) -> u64
    requires least { IsBetween 1 16777216 least }
    requires factor { IsBetween 2 100 factor }
    requires docs { docs < 16777216 }
    ensures { (k : ℕ) → is_log_level least factor docs k ≡ (result == k) }
{
    let mut level = 0;
    let mut bound = least;
    while bound <= docs {
        bound *= factor;
        level += 1;
    }
    level
}

/// The level of a row, where the policy counts the row.
pub(crate) fn level(policy: &Policy, row: &Row) -> Option<u64>
    requires policy { HasPolicyRanges policy.now }
    requires docs { row.now.facts.docs < 16777216 }
    ensures none { IfNone result (is_counted policy.now row.now ≡ false) }
    ensures counted { IfSome result (λ level. is_counted policy.now row.now ≡ true) }
    ensures level { IfSome result (HasLevel policy.now row.now) }
{
    match policy {
        Policy::StableLog {
            min_level_num_docs,
            merge_factor,
            ..
        } => Some(log_level(*min_level_num_docs, *merge_factor, row.facts.docs)),
        Policy::LimitMerge { max_merge_ops, .. } => {
            if row.merge_ops < *max_merge_ops {
                Some(row.merge_ops)
            } else {
                None
            }
        }
        Policy::NoMerge => None,
    }
}

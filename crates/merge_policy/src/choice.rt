//! The choice of a merge policy.

ghost use Rattle.std.specs.Prelude.{◌≡◌, map, IfOk};
ghost use Rattle.index_config.specs.Accepted.{HasPolicyRanges, IsBetween};
ghost use Rattle.merge_policy.specs.Choice.{IsChosen};
ghost use Rattle.merge_policy.specs.Chosen.{chosen};
ghost use Rattle.merge_policy.specs.Walk.{rows_of};

use crate::candidate::{Candidate, candidates};
use crate::walk::first_merged;
use doc_value::Replica;
use index_config::Policy;
use split_states::{Numbers, Rows};
use std::alloc::{AllocError, Global};

fn numbers(alloc: Global, merged: &[Candidate<'_>]) -> Result<Numbers, AllocError>
    ensures { IfOk result (λ numbers. numbers ≡ map (λ row. row.number) (rows_of merged.now)) }
{
    let mut numbers = Numbers::vacant(alloc);
    for candidate in merged {
        numbers.push(candidate.row.number)?;
    }
    Ok(numbers)
}

/// The rows that are merged next at the moment `now` (seconds), in the order in which their documents are
/// joined; none where no level of the policy gives any. `docs_target` is the number of documents from which on
/// a row is merged no more.
pub fn choose(
    alloc: Global,
    policy: &Policy,
    docs_target: u64,
    rows: &Rows,
    now: u64,
) -> Result<Option<Numbers>, AllocError>
    requires policy { HasPolicyRanges policy.now }
    requires target { IsBetween 1 16777216 docs_target }
    ensures choice { IfOk result (IsChosen policy.now docs_target now rows.now.list) }
    ensures exact { IfOk result (λ numbers. numbers ≡ chosen policy.now docs_target now rows.now.list) }
{
    let list = candidates(alloc, policy, docs_target, now, rows.as_slice())?;
    match first_merged(policy, &list) {
        Some(merged) => Ok(Some(numbers(alloc, merged)?)),
        None => Ok(None),
    }
}

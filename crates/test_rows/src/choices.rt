//! What no clause says: a choice with ample memory, and worked choices of each policy.

ghost use Rattle.std.specs.Prelude.{◌≡◌};
ghost use Rattle.index_config.specs.Accepted.{HasPolicyRanges};

use doc_value::{Replica, TagFacts};
use index_config::Policy;
use merge_policy::choose;
use source_checkpoint::Spans;
use split_states::{Row, RowFacts, RowState, Rows, Times};
use std::alloc::{AllocError, Global};
use std::test::Fail;

/// What a row differs in: its documents, its merges and its greatest second.
#[derive(Clone, Copy)]
struct Kept(u64, u64, Option<i64>);

fn row(alloc: Global, number: u64, kept: Kept) -> Row
    ensures { result.number ≡ number }
{
    Row {
        number,
        state: RowState::Published,
        spans: Spans::vacant(alloc),
        facts: RowFacts {
            docs: kept.0,
            rejected: 0,
            weight: kept.0,
            size: 9,
            digest: [0; 32],
            times: kept.2.map(|greatest| Times {
                least: -1,
                greatest,
            }),
            tags: TagFacts::vacant(alloc),
        },
        staged_at: 1000,
        marked_at: 0,
        merge_ops: kept.1,
    }
}

/// The rows 1, 2 and 3.
fn three(alloc: Global, kept: [Kept; 3]) -> Result<Rows, AllocError> {
    let mut rows = Rows::vacant(alloc);
    rows.reserve()?;
    rows.stage(row(alloc, 1, kept[0]));
    rows.reserve()?;
    rows.stage(row(alloc, 2, kept[1]));
    rows.reserve()?;
    rows.stage(row(alloc, 3, kept[2]));
    Ok(rows)
}

/// Whether these numbers are chosen at this moment; no numbers stand for no choice.
fn is_choice(
    alloc: Global,
    policy: &Policy,
    kept: [Kept; 3],
    now: u64,
    expected: &[u64],
) -> Result<bool, AllocError>
    requires { HasPolicyRanges policy.now }
{
    let rows = three(alloc, kept)?;
    Ok(match choose(alloc, policy, 10_000_000, &rows, now)? {
        Some(numbers) => numbers.as_slice() == expected,
        None => expected.is_empty(),
    })
}

fn log_policy() -> Policy
    ensures { HasPolicyRanges result }
{
    Policy::StableLog {
        min_level_num_docs: 100,
        merge_factor: 2,
        max_merge_factor: 4,
        maturation_period: 172_800,
    }
}

fn limit_policy() -> Policy
    ensures { HasPolicyRanges result }
{
    Policy::LimitMerge {
        merge_factor: 2,
        max_merge_factor: 2,
        max_merge_ops: 4,
        maturation_period: 172_800,
    }
}

#[test]
fn by_documents(rt: HostRuntime) -> Result<(), Fail> {
    let alloc = rt.alloc();
    let policy = log_policy();
    let small = Kept(1, 0, None);
    for (kept, now, expected) in [
        ([small, small, small], 1000, &[1, 2, 3][..]),
        (
            [Kept(99, 0, None), Kept(100, 0, None), Kept(200, 0, None)],
            1000,
            &[],
        ),
        (
            [Kept(1, 0, Some(5)), small, Kept(1, 0, Some(9))],
            1000,
            &[3, 1, 2],
        ),
        ([small, small, small], 173_800, &[]),
    ] {
        assert!(rt; is_choice(alloc, &policy, kept, now, expected)?);
    }
    Ok(())
}

#[test]
fn by_merges(rt: HostRuntime) -> Result<(), Fail> {
    let alloc = rt.alloc();
    let policy = limit_policy();
    for (merges, expected) in [
        ([0, 0, 0], &[1, 2][..]),
        ([1, 0, 1], &[1, 3]),
        ([4, 4, 4], &[]),
        ([0, 1, 2], &[]),
    ] {
        let kept = merges.map(|count| Kept(1, count, None));
        assert!(rt; is_choice(alloc, &policy, kept, 1000, expected)?);
        assert!(rt; is_choice(alloc, &Policy::NoMerge, kept, 1000, &[])?);
    }
    Ok(())
}

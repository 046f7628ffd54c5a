//! Lists that are shared out in turn.

ghost use Rattle.std.specs.Prelude.{◌≡◌, ◌<◌, [], IfOk, length};
ghost use Rattle.std.specs.List.{AllByRecursion};
ghost use Rattle.thread_run.specs.Sharing.{AreShares};

use std::alloc::{AllocError, Global};

// So many lists with nothing in them.
fn vacant<A: Drop>(alloc: Global, count: usize) -> Result<Vec<Vec<A>>, AllocError>
    ensures { IfOk result (λ lists. (length lists.items ≡ count) × AllByRecursion (λ list. list.items ≡ []) lists.items) }
{
    let mut lists = Vec::new(alloc);
    for _ in 0..count {
        lists.push(Vec::new(alloc))?;
    }
    Ok(lists)
}

/// Shares a list out among so many: the first to the first of them, the next to the next, and behind the last to the first again.
pub fn shared_out<A: Drop>(
    alloc: Global,
    all: Vec<A>,
    count: usize,
) -> Result<Vec<Vec<A>>, AllocError>
    requires { 0 < count }
    ensures count { IfOk result (λ lists. length lists.items ≡ count) }
    ensures shares { IfOk result (λ lists. AreShares count 0 all.items lists.items) }
{
    let mut lists = vacant(alloc, count)?;
    let mut next = 0;
    for one in all {
        lists[next].push(one)?;
        next += 1;
        if next == count {
            next = 0;
        }
    }
    Ok(lists)
}

//! Whose turn it is.

ghost use Rattle.std.specs.Prelude.{◌≡◌, ◌<◌, IfOk};
ghost use Rattle.thread_run.specs.Sharing.{turns_of};

use std::alloc::{AllocError, Global};

/// Whose turn it is, so many times: each time the next one of `count`, and behind the last the first.
pub fn turns_of(alloc: Global, count: usize, long: usize) -> Result<Vec<usize>, AllocError>
    requires { 0 < count }
    ensures { IfOk result (λ turns. turns.items ≡ turns_of count 0 long) }
{
    let mut turns = Vec::new(alloc);
    let mut next = 0;
    for _ in 0..long {
        turns.push(next)?;
        next += 1;
        if next == count {
            next = 0;
        }
    }
    Ok(turns)
}

//! The least so many of some numbers.

ghost use Rattle.std.specs.Prelude.{◌≡◌, ◌++◌, ◌∷◌, ◌≤◌, [], List, ℕ, OnOk, IfOk};
ghost use Rattle.std.specs.BinaryHeap.{heap_items};
ghost use Rattle.doc_tallies.specs.Least.{AreLeast, IsBar};

use std::alloc::AllocError;
use std::collections::BinaryHeap;

/// Keeps a number where it is one of the least so many.
pub(crate) fn keep_least(
    best: &mut BinaryHeap<u64>,
    wanted: usize,
    key: u64,
) -> Result<(), AllocError>
    ensures { (seen : List ℕ) → AreLeast wanted seen (heap_items best.old) → OnOk result (AreLeast wanted (seen ++ key ∷ []) (heap_items best.new)) }
{
    if best.len() < wanted {
        best.push(key)?;
        return Ok(());
    }
    let greatest = match best.peek() {
        Some(greatest) => *greatest,
        None => return Ok(()),
    };
    if key >= greatest {
        return Ok(());
    }
    best.push(key)?;
    if let Some(_greatest) = best.pop() {}
    Ok(())
}

/// The last of the least so many, if there are so many.
pub(crate) fn last_of(best: &BinaryHeap<u64>, wanted: usize) -> Option<u64>
    requires { 1 ≤ wanted }
    ensures { (seen : List ℕ) → AreLeast wanted seen (heap_items best.now) → IsBar wanted seen result }
{
    if best.len() < wanted {
        return None;
    }
    match best.peek() {
        Some(greatest) => Some(*greatest),
        None => None,
    }
}

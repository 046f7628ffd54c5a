//! Lists that are dealt out one element after another.

ghost use Rattle.std.specs.Prelude.{◌≡◌, List, IfOk, map};
ghost use Rattle.run_plan.specs.Dealing.{HoldBack, TakesOne, dealt};

use std::alloc::{AllocError, Global};

// Each list with its last element first.
fn turn_all<A: Drop>(lists: &mut [Vec<A>])
    ensures { (rests : List (List A)) → rests ≡ map (λ list. list.items) lists.old → HoldBack lists.new rests }
{
    for i in 0..lists.len() {
        lists[i].reverse();
    }
}

// The next element of a list, where there is one.
fn take_one<A: Drop>(lists: &mut [Vec<A>], owner: usize) -> Option<A>
    ensures { (rests : List (List A)) → HoldBack lists.old rests → TakesOne rests owner result lists.new }
{
    if owner < lists.len() {
        lists[owner].pop()
    } else {
        None
    }
}

/// The elements of lists, each time the next one of the list that is named: none of a list that has no more.
pub fn dealt<A: Drop>(alloc: Global, by: &[usize], lists: Vec<Vec<A>>) -> Result<Vec<A>, AllocError>
    ensures { IfOk result (λ all. all.items ≡ dealt by.now (map (λ list. list.items) lists.items)) }
{
    let mut lists = lists;
    turn_all(lists.as_mut_slice());
    let mut all = Vec::new(alloc);
    for owner in by {
        if let Some(one) = take_one(lists.as_mut_slice(), *owner) {
            all.push(one)?;
        }
    }
    Ok(all)
}

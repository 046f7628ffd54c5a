//! Passes of one lock that are joined to one of them.

ghost use Rattle.std.specs.Prelude.{◌≡◌, ◌+◌, ℕ, List};
ghost use Rattle.std.specs.List.{AllByRecursion};
ghost use mathlib.Core.List.{IsPrefix};
ghost use Rattle.turn_lock.specs.Counts.{total, times};
ghost use Rattle.turn_lock.specs.Passes.{IsOf, IsIdle, seen, places, parts, left};

use turn_lock::{HasHistory, Pass, TurnLock};

/// Joins all of the others to the first one.
pub fn join_all<V: HasHistory>(lock: &TurnLock<V>, pass: &mut Pass<V>, others: Vec<Pass<V>>)
    requires lock { IsOf lock.now pass.old × IsIdle pass.old }
    requires others { AllByRecursion (λ other. IsOf lock.now other × IsIdle other) others.items }
    ensures lock { IsOf lock.now pass.new × IsIdle pass.new }
    // What each of them had seen begins what it has seen then.
    ensures begins { IsPrefix (seen pass.old) (seen pass.new) }
    ensures others { AllByRecursion (λ other. IsPrefix (seen other) (seen pass.new)) others.items }
    ensures places { (place : ℕ) → times place (places pass.new) ≡ times place (places pass.old) + total (λ other. times place (places other)) others.items }
    ensures parts { parts pass.new ≡ parts pass.old + total (λ other. parts other) others.items }
{
    for other in others {
        lock.join(pass, other);
    }
}

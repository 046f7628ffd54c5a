//! Laws of steps, over the definitions alone.

ghost use Rattle.std.specs.Prelude.{◌≡◌, ◌↔◌, ◌+◌, ◌*◌, ◌^◌, ◌<◌, ◌≤◌, ℕ, List, [], length, Option, Some};
ghost use Rattle.meta_store.specs.History.{history, last_number};
ghost use Rattle.index_world.specs.Core.{Core};
ghost use Rattle.index_world.specs.Gate.{NoneBetween};
ghost use Rattle.split_collector.specs.Idle.{HadNothing};
ghost use Rattle.split_collector.specs.Outcomes.{Outcome, Nothing};
ghost use Rattle.split_collector.specs.Steps.{ArePassed, IsCalm, CollectorLuck, Passage, alone, calm_luck, luck_of, ran, stand, step_collector};
ghost use Rattle.split_collector.specs.Turns.{ended, to_mark};

use index_world::Gate;

/// Where no other actor acts between the calls of a step, it is the step of a collector that is alone.
pub fn steps_alone()
    ensures { (passages : List Passage) (core after : Core) (outcome : Option Outcome) → ArePassed NoneBetween to_mark core passages →
        ran to_mark core passages ≡ stand (ended outcome) after → step_collector (luck_of passages) core ≡ record { outcome = outcome; core = after } }
{}

/// A step is Nothing exactly where each of its calls, at its own turn, had nothing to do: no row was to be marked, doomed or removed, and no
/// page had a number whose file was to be swept, from the first file to the last.
pub fn nothing_is_exact<G: Gate>(_gate: &G)
    ensures { (passages : List Passage) (core : Core) → ArePassed G.Between to_mark core passages → ((ran to_mark core passages).turn ≡ ended (Some Nothing)) ↔ HadNothing passages }
{}

/// Where all its calls are calm, a step comes to the same wherever the pages of its sweep end: what it sweeps is the least number that is left.
pub fn pages_make_no_difference()
    ensures { (ends : List (List ℕ)) (core : Core) (calls : ℕ) → 7 + 2 * length ends ≤ calls → last_number (history (alone calls to_mark [] ends core).core.history) < 2 ^ 64 →
        alone calls to_mark [] ends core ≡ alone 7 to_mark [] [] core }
{}

/// So each step whose calls are calm is the one.
pub fn calm_steps_agree()
    ensures { (luck : CollectorLuck) (core : Core) → IsCalm luck → last_number (history (step_collector luck core).core.history) < 2 ^ 64 →
        step_collector luck core ≡ step_collector calm_luck core }
{}

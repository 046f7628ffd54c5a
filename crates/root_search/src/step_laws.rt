//! A law of steps, over the definitions alone.

ghost use Rattle.std.specs.Prelude.{◌≡◌, Bool, List, ◌∷◌};
ghost use Rattle.source_log.specs.Log.{Log};
ghost use Rattle.index_world.specs.Core.{Core};
ghost use Rattle.index_world.specs.Gate.{NoneBetween};
ghost use Rattle.root_search.specs.Steps.{ArePassed, Client, Passage, grace_in, luck_of, step_at, step_client};

/// Where no other actor acts between the calls of a step, it is the step of a machine that is alone.
pub fn steps_alone()
    ensures { (passage : Passage) (more : List Passage) (short : Bool) (log : Log) (client : Client) (core : Core) → ArePassed (grace_in client.request) NoneBetween core (passage ∷ more) →
        step_client (luck_of passage more short) log client core ≡ step_at passage more short log client }
{}

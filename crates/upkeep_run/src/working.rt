//! A merger and a delete worker that take their steps up to an end.

ghost use Rattle.std.specs.Prelude.{◌≡◌, ℕ, List};
ghost use Rattle.source_log.specs.Log.{IsLog, Log};
ghost use Rattle.index_world.specs.Core.{Core};
ghost use Rattle.index_world.specs.Ran.{Ran, WorksTo};
ghost use Rattle.upkeep_run.specs.Places.{WorkerPlace as Stand};
ghost use Rattle.upkeep_run.specs.Standing.{HoldsOwn, PlaceStands};
ghost use Rattle.upkeep_run.specs.declared.work.Aim.TheVariants.{Deleting, Merging};
ghost use Rattle.upkeep_run.specs.WorkAll.{DeletesOnce, MergesOnce, WorkerDid, end_of, held_at};

use crate::{DeleteWorker, Merger, UpkeepOutcome};
use index_world::{Gate, WorldError};
use meta_store::Refusal;
use std::alloc::{AllocError, Global};

/// How a merger or a delete worker ends.
#[derive(Drop)]
pub enum WorkerEnd {
    /// There was nothing to do.
    Nothing,
    /// A limit stands against its Stage.
    Refused(Refusal),
    /// A call of the world failed, or a planned row's file isn't what the row says.
    Fault(WorldError),
    /// Its turns were used up.
    Turns,
    /// There was no memory.
    Memory,
}

// Whether a step that answered so is the last one, and with which end. What is lost is planned anew.
fn end_of(answer: Result<UpkeepOutcome, AllocError>) -> Option<WorkerEnd>
    ensures { result ≡ end_of answer }
{
    match answer {
        Ok(UpkeepOutcome::Nothing) => Some(WorkerEnd::Nothing),
        Ok(UpkeepOutcome::Planned { .. }) => None,
        Ok(UpkeepOutcome::Fetched { .. }) => None,
        Ok(UpkeepOutcome::Staged { .. }) => None,
        Ok(UpkeepOutcome::Uploaded { .. }) => None,
        Ok(UpkeepOutcome::Replaced { .. }) => None,
        Ok(UpkeepOutcome::Raised { .. }) => None,
        Ok(UpkeepOutcome::Lost { .. }) => None,
        Ok(UpkeepOutcome::Refused { refusal }) => Some(WorkerEnd::Refused(refusal)),
        Ok(UpkeepOutcome::Fault { error }) => Some(WorkerEnd::Fault(error)),
        Err(_) => Some(WorkerEnd::Memory),
    }
}

/// Takes so many steps of a merger at most, up to the first that finds nothing to do, is refused, fails, or finds no memory.
pub fn merge_all<G: Gate>(alloc: Global, gate: &mut G, merger: &mut Merger, turns: u64) -> WorkerEnd
    requires owns { HoldsOwn G.Owns gate.old merger.old.place }
    requires begun { (log : Log) → G.Begins gate.old log → IsLog log × ((place : Stand) × (core : Core) × PlaceStands Merging log core merger.old.place place × G.Stands gate.old core log) }
    ensures later { G.since gate.old gate.new }
    ensures owns { HoldsOwn G.Owns gate.new merger.new.place }
    // Whatever the gate tells: each step tells what a call answered as itself.
    ensures ends { WorksTo (MergesOnce G.told G.configured G.Answers) end_of WorkerEnd.Turns turns result (held_at merger.old.place gate.old) (held_at merger.new.place gate.new) }
    ensures ran { (place : Stand) (core : Core) (log : Log) → IsLog log → PlaceStands Merging log core merger.old.place place → G.Stands gate.old core log →
        Ran G.Stands G.Adds (λ made after. WorkerDid G.Between Merging log turns result merger.new.place place core made after) core log gate.old gate.new }
{
    for _ in 0..turns {
        if let Some(end) = end_of(merger.step(alloc, gate)) {
            return end;
        }
    }
    WorkerEnd::Turns
}

/// Takes so many steps of a delete worker at most, up to the first that finds nothing to do, is refused, fails, or finds no memory.
pub fn delete_all<G: Gate>(
    alloc: Global,
    gate: &mut G,
    worker: &mut DeleteWorker,
    turns: u64,
) -> WorkerEnd
    requires owns { HoldsOwn G.Owns gate.old worker.old.place }
    requires begun { (log : Log) → G.Begins gate.old log → IsLog log × ((place : Stand) × (core : Core) × PlaceStands Deleting log core worker.old.place place × G.Stands gate.old core log) }
    ensures later { G.since gate.old gate.new }
    ensures owns { HoldsOwn G.Owns gate.new worker.new.place }
    // Whatever the gate tells: each step tells what a call answered as itself.
    ensures ends { WorksTo (DeletesOnce G.told G.configured G.Answers) end_of WorkerEnd.Turns turns result (held_at worker.old.place gate.old) (held_at worker.new.place gate.new) }
    ensures ran { (place : Stand) (core : Core) (log : Log) → IsLog log → PlaceStands Deleting log core worker.old.place place → G.Stands gate.old core log →
        Ran G.Stands G.Adds (λ made after. WorkerDid G.Between Deleting log turns result worker.new.place place core made after) core log gate.old gate.new }
{
    for _ in 0..turns {
        if let Some(end) = end_of(worker.step(alloc, gate)) {
            return end;
        }
    }
    WorkerEnd::Turns
}

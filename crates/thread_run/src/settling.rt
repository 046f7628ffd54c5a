//! An index whose actors are done is settled: no task is left to apply, and no rows are left to merge.

ghost use Rattle.std.specs.Prelude.{◌≡◌, ◌<◌, ◌≤◌, ℕ, IsOk, List, Ok, Result, length, true};
ghost use Rattle.std.specs.declared.alloc.AllocError.{AllocError as Want};
ghost use Rattle.meta_store.specs.History.{history};
ghost use Rattle.meta_store.specs.Rows.{rows};
ghost use Rattle.source_log.specs.Log.{IsLog, Log};
ghost use Rattle.index_world.specs.Core.{Core, last_count};
ghost use Rattle.index_world.specs.Index.{max_entries};
ghost use Rattle.index_world.specs.World.{WorldStands};
ghost use Rattle.thread_run.specs.Alone.{WorksAlone};
ghost use Rattle.upkeep_run.specs.Places.{WorkerPlace as Stand};
ghost use Rattle.upkeep_run.specs.Standing.{PlaceStands};
ghost use Rattle.thread_run.specs.Resting.{IsIdle, Rests, RestsAll, aim_of, place_of, went_on};
ghost use Rattle.thread_run.specs.Settling.{Settles, SettlesBy, settled_of};
ghost use Rattle.thread_run.specs.declared.settling.Settled.{Settled as End};

use index_world::{Direct, SteadyClock, World, WorldError};
use meta_store::Refusal;
use object_store::ObjectStore;
use std::alloc::{AllocError, Global};
use upkeep_run::{Aim, DeleteWorker, Merger, UpkeepOutcome};

/// What settling came to.
#[derive(Drop)]
pub enum Settled {
    /// Neither a delete worker nor a merger finds anything to do.
    Whole,
    /// A limit stands against a Stage.
    Refused(Refusal),
    /// A call of the world failed.
    Fault(WorldError),
}

// Why a worker goes on no more, though there may be something to do.
#[derive(Drop)]
pub(crate) enum Stop {
    Refused(Refusal),
    Fault(WorldError),
    Memory(AllocError),
}

// A worker, by what it works for.
#[derive(Drop)]
pub(crate) enum Worker {
    Deleting(DeleteWorker),
    Merging(Merger),
}

// A round in which there was something to do made an entry, so behind so many a journal is full.
const MOST_ROUNDS: u64 = 10_000_000;

// A worker makes an entry with every 104 steps at least: it plans at most 100 rows, fetches their files, and stages, uploads and replaces. So behind
// so many a journal is full.
const MOST_STEPS: u64 = 1_040_000_000;

impl Worker {
    fn start(aim: Aim) -> Worker
        ensures aim { aim_of result ≡ aim }
        ensures idle { IsIdle (place_of result) }
    {
        match aim {
            Aim::Merging => Worker::Merging(Merger::start()),
            Aim::Deleting => Worker::Deleting(DeleteWorker::start()),
        }
    }

    fn step<S: ObjectStore, C: SteadyClock>(
        &mut self,
        alloc: Global,
        gate: &mut Direct<S, C>,
    ) -> Result<UpkeepOutcome, AllocError>
        ensures aim { aim_of self.new ≡ aim_of self.old }
        ensures counted { gate.old.world.store_faults ≤ last_count }
        ensures step { (worker : Stand) (core : Core) (log : Log) → IsLog log → PlaceStands (aim_of self.old) log core (place_of self.old) worker → WorldStands gate.old.world core log →
            WorksAlone (aim_of self.old) result worker core log (place_of self.new) gate.new.world }
    {
        // The count of a store has its range.
        let _count = gate.world.faults();
        match self {
            Worker::Deleting(worker) => worker.step(alloc, gate),
            Worker::Merging(merger) => merger.step(alloc, gate),
        }
    }
}

// Whether a step that answered so found something to do. What is lost is planned anew.
fn went_on(answer: Result<UpkeepOutcome, AllocError>) -> Result<bool, Stop>
    ensures { result ≡ went_on answer }
{
    match answer {
        Ok(UpkeepOutcome::Nothing) => Ok(false),
        Ok(UpkeepOutcome::Planned { .. }) => Ok(true),
        Ok(UpkeepOutcome::Fetched { .. }) => Ok(true),
        Ok(UpkeepOutcome::Staged { .. }) => Ok(true),
        Ok(UpkeepOutcome::Uploaded { .. }) => Ok(true),
        Ok(UpkeepOutcome::Replaced { .. }) => Ok(true),
        Ok(UpkeepOutcome::Raised { .. }) => Ok(true),
        Ok(UpkeepOutcome::Lost { .. }) => Ok(true),
        Ok(UpkeepOutcome::Refused { refusal }) => Err(Stop::Refused(refusal)),
        Ok(UpkeepOutcome::Fault { error }) => Err(Stop::Fault(error)),
        Err(refused) => Err(Stop::Memory(refused)),
    }
}

// Takes the steps of a worker up to the first that finds nothing to do, and says whether one before it found something.
fn rest<S: ObjectStore, C: SteadyClock>(
    alloc: Global,
    gate: &mut Direct<S, C>,
    aim: Aim,
) -> Result<bool, Stop>
    ensures { (core : Core) (log : Log) → IsLog log → core.frozen ≡ true → WorldStands gate.old.world core log → Rests aim result core log gate.new.world }
{
    let mut worker = Worker::start(aim);
    for turn in 0..MOST_STEPS {
        if !went_on(worker.step(alloc, gate))? {
            return Ok(turn > 0);
        }
    }
    Err(Stop::Fault(WorldError::Full))
}

// Lets a delete worker and then a merger work, again and again, until neither finds anything to do.
fn rest_all<S: ObjectStore, C: SteadyClock>(
    alloc: Global,
    gate: &mut Direct<S, C>,
) -> Result<(), Stop>
    ensures { (core : Core) (log : Log) → IsLog log → core.frozen ≡ true → WorldStands gate.old.world core log → RestsAll result core log gate.new.world }
{
    for _ in 0..MOST_ROUNDS {
        let deleted = rest(alloc, gate, Aim::Deleting)?;
        let merged = rest(alloc, gate, Aim::Merging)?;
        if !deleted && !merged {
            return Ok(());
        }
    }
    Err(Stop::Fault(WorldError::Full))
}

fn settled_of(end: Result<(), Stop>) -> Result<Settled, AllocError>
    ensures { result ≡ settled_of end }
{
    match end {
        Ok(()) => Ok(Settled::Whole),
        Err(Stop::Refused(refusal)) => Ok(Settled::Refused(refusal)),
        Err(Stop::Fault(error)) => Ok(Settled::Fault(error)),
        Err(Stop::Memory(refused)) => Err(refused),
    }
}

/// Settles the index of a world that nobody else acts on: a delete worker takes its steps up to the first that finds nothing to do, then a
/// merger does, and both again, until neither finds anything. The first fault, the first refusal and want of memory end it; what is lost
/// is planned anew. The clock is not asked, now or later.
pub fn settle<S: ObjectStore, C: SteadyClock>(
    alloc: Global,
    world: World<S, C>,
) -> (World<S, C>, Result<Settled, AllocError>)
    ensures { (core : Core) (log : Log) → IsLog log → WorldStands world core log → Settles result.1 core log result.0 }
{
    let mut world = world;
    world.freeze();
    let mut gate = Direct::over(world);
    let end = rest_all(alloc, &mut gate);
    (gate.into_world(), settled_of(end))
}

/// Settling is whole where there was memory, the store's count of faults didn't rise, and where it led neither so many rows stand that no
/// more may be staged nor the journal is full.
pub fn settles_wholly()
    ensures { (result : Result End Want) (core after : Core) → SettlesBy result core after → IsOk result → after.store_faults ≡ core.store_faults → core.store_faults < last_count →
        length (rows (history after.history)) < 100000 → length after.history < max_entries → result ≡ Ok Settled.Whole }
{}

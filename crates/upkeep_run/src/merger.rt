//! A merger and its steps.

ghost use Rattle.std.specs.Prelude.{◌≡◌, ◌↔◌, [], IsTrue, slice_get};
ghost use Rattle.source_log.specs.Log.{IsLog, Log};
ghost use Rattle.index_world.specs.Core.{Core};
ghost use Rattle.upkeep_run.specs.Corrupting.{CorruptAt, CorruptStep, MergedCorrupt};
ghost use Rattle.upkeep_run.specs.Ending.{Ends, EndsMerge, EndsAt, EndsStep};
ghost use Rattle.upkeep_run.specs.Places.{IsPlannedFor, IsWork, WorkerPlace as Stand, Work as Planned, fetching, idle, is_idle};
ghost use Rattle.upkeep_run.specs.Standing.{HoldsOwn, PlaceStands, StepsAs, WorkStands};
ghost use Rattle.upkeep_run.specs.declared.work.Aim.TheVariants.{Merging};

use crate::judging::merged;
use crate::outcome::UpkeepOutcome;
use crate::work::{
    Aim, Work, WorkerPlace, facts_fit, fetch, plan, put, replace_rows, stage, unmerged, upload,
};
use index_world::Gate;
use split_laws::built_is_one;
use std::alloc::{AllocError, Global};
use std::mem;

/// Replaces the rows that the policy chooses by one of all their documents, step by step.
#[derive(Drop)]
pub struct Merger {
    place: WorkerPlace,
}

impl Merger {
    pub fn start() -> Merger
        ensures idle { result.place ≡ WorkerPlace.Idle }
        ensures stands { (core : Core) (log : Log) → PlaceStands Merging log core result.place idle }
    {
        Merger {
            place: WorkerPlace::Idle,
        }
    }

    /// Drops what it works on.
    pub fn restart(&mut self)
        ensures idle { self.new.place ≡ WorkerPlace.Idle }
        ensures stands { (core : Core) (log : Log) → PlaceStands Merging log core self.new.place idle }
    {
        put(&mut self.place, WorkerPlace::Idle);
    }

    pub fn is_idle(&self) -> bool
        ensures stands { (place : Stand) (core : Core) (log : Log) → PlaceStands Merging log core self.now.place place → result ≡ is_idle place }
        ensures exact { IsTrue result ↔ (self.now.place ≡ WorkerPlace.Idle) }
    {
        match &self.place {
            WorkerPlace::Idle => true,
            _ => false,
        }
    }

    // All files are fetched: one split is made of them, and staged.
    fn merge<G: Gate>(
        &mut self,
        alloc: Global,
        gate: &mut G,
        work: Work,
    ) -> Result<UpkeepOutcome, AllocError>
        requires { self.old.place ≡ WorkerPlace.Idle }
        ensures later { G.since gate.old gate.new }
        ensures owns { HoldsOwn G.Owns gate.new self.new.place }
        ensures same { G.bytes_fetched gate.new ≡ G.bytes_fetched gate.old }
        // Whatever the gate tells.
        ensures ends { Ends (EndsMerge (λ call. G.Answers gate.old call gate.new) (G.configured gate.old) work) result self.new.place }
        ensures corrupt { MergedCorrupt (G.configured gate.old) work (λ call. G.Answers gate.old call gate.new) result }
        ensures step { (core : Core) (log : Log) (planned : Planned) → IsLog log → G.Stands gate.old core log → WorkStands work planned → IsWork log core planned → IsPlannedFor Merging planned → planned.unfetched ≡ [] →
            StepsAs G.Stands G.Between G.Owns G.Adds Merging result (fetching planned) core log self.new.place gate.old gate.new }
    {
        let Work { plan, files, .. } = work;
        let built = merged(alloc, &gate.config().schema, files.as_slice(), &[]);
        mem::drop(files);
        match built {
            Ok(split) => {
                built_is_one(&split);
                facts_fit(&split.facts);
                stage(alloc, gate, &mut self.place, plan, split)
            }
            Err(error) => unmerged(plan.rows.as_slice(), error),
        }
    }

    fn work_on<G: Gate>(
        &mut self,
        alloc: Global,
        gate: &mut G,
        work: Work,
    ) -> Result<UpkeepOutcome, AllocError>
        requires { self.old.place ≡ WorkerPlace.Idle }
        ensures later { G.since gate.old gate.new }
        ensures owns { HoldsOwn G.Owns gate.new self.new.place }
        // Whatever the gate tells.
        ensures ends { Ends (EndsAt (slice_get work.plan.rows work.next) (λ call. G.Answers gate.old call gate.new) (G.configured gate.old) work (G.told gate.old) (G.told gate.new)) result self.new.place }
        ensures corrupt { CorruptAt (slice_get work.plan.rows work.next) (λ call. G.Answers gate.old call gate.new) (G.configured gate.old) work result }
        ensures step { (core : Core) (log : Log) (planned : Planned) → IsLog log → G.Stands gate.old core log → WorkStands work planned → IsWork log core planned → IsPlannedFor Merging planned →
            StepsAs G.Stands G.Between G.Owns G.Adds Merging result (fetching planned) core log self.new.place gate.old gate.new }
    {
        if (work.next as usize) < work.plan.rows.len() {
            return fetch(alloc, gate, &mut self.place, work);
        }
        self.merge(alloc, gate, work)
    }

    /// One step. After a fault, a refusal and want of memory, and where it is Lost, it is idle. A staged number that it holds is its own at
    /// the gate.
    pub fn step<G: Gate>(
        &mut self,
        alloc: Global,
        gate: &mut G,
    ) -> Result<UpkeepOutcome, AllocError>
        requires owns { HoldsOwn G.Owns gate.old self.old.place }
        requires begun { (log : Log) → G.Begins gate.old log → (place : Stand) × (core : Core) × PlaceStands Merging log core self.old.place place × G.Stands gate.old core log }
        ensures later { G.since gate.old gate.new }
        ensures owns { HoldsOwn G.Owns gate.new self.new.place }
        // Whatever the gate tells: what a call answered is told as itself.
        ensures ends { EndsStep G.told G.configured G.Answers self.old.place result self.new.place gate.old gate.new }
        ensures step { (place : Stand) (core : Core) (log : Log) → IsLog log → PlaceStands Merging log core self.old.place place → G.Stands gate.old core log →
            StepsAs G.Stands G.Between G.Owns G.Adds Merging result place core log self.new.place gate.old gate.new }
        // Whatever the gate tells: a planned row's file is corrupt exactly where its bytes stand for no documents or for others than the
        // row's facts say, or where all files together pass the limits of a split.
        ensures corrupt { CorruptStep G.configured G.Answers self.old.place result gate.old gate.new }
    {
        match mem::replace(&mut self.place, WorkerPlace::Idle) {
            WorkerPlace::Idle => plan(alloc, gate, Aim::Merging, &mut self.place),
            WorkerPlace::Fetching(work) => self.work_on(alloc, gate, work),
            WorkerPlace::Staged(plan, staged, bytes) => {
                upload(alloc, gate, &mut self.place, plan, staged, &bytes)
            }
            WorkerPlace::Uploaded(plan, uploaded) => replace_rows(alloc, gate, &plan, uploaded, 0),
        }
    }
}

//! A delete worker and its steps.

ghost use Rattle.std.specs.Prelude.{◌≡◌, ◌≢◌, ◌↔◌, ◌⊎◌, [], ℕ, List, None, Some, IsTrue, MatchResult, slice_get};
ghost use Rattle.doc_sets.specs.Faults.{IsMemory};
ghost use Rattle.source_log.specs.Log.{IsLog, Log};
ghost use Rattle.split_merge.specs.Keeping.{RiseFrom};
ghost use Rattle.index_world.specs.Core.{Core, IsConfigured};
ghost use Rattle.index_world.specs.PlanTasks.{spans_of};
ghost use Rattle.meta_store.specs.declared.planning.PlanRow.{PlanRow as Row};
ghost use Rattle.upkeep_run.specs.Corrupting.{CorruptClose, CorruptDelete, CorruptDeleteAt, IsCorrupt, LeftFault};
ghost use Rattle.upkeep_run.specs.Dropping.{DropsOf, IsUnasked};
ghost use Rattle.upkeep_run.specs.Ending.{Ends, EndsClose, EndsDelete, EndsDeleteAt, EndsDropped, EndsLeft};
ghost use Rattle.upkeep_run.specs.Places.{IsPlannedFor, IsWork, WorkerPlace as Stand, Work as Planned, fetching, idle, is_idle};
ghost use Rattle.upkeep_run.specs.Standing.{HoldsOwn, LeavesOf, PlaceStands, StepsAs, WorkStands};
ghost use Rattle.upkeep_run.specs.declared.work.Aim.TheVariants.{Deleting};

use crate::dropping::dropped;
use crate::judging::merged;
use crate::outcome::UpkeepOutcome;
use crate::work::{
    Aim, Work, WorkerPlace, facts_fit, fetch, plan, put, raise_row, replace_rows, stage, unasked,
    unmerged, upload,
};
use doc_sets::LeafError;
use index_world::{Gate, Plan};
use meta_store::PlanRow;
use source_checkpoint::Span;
use split_laws::built_is_one;
use std::alloc::{AllocError, Global};
use std::mem;

/// Removes what tasks cover from the published row of least number that is not applied up to the last task, step by step.
#[derive(Drop)]
pub struct DeleteWorker {
    place: WorkerPlace,
}

// The spans of a planned row.
fn spans_of(row: &PlanRow) -> &[Span]
    ensures { result.now ≡ spans_of row.now.work }
{
    match &row.work {
        Some(work) => work.spans.as_slice(),
        None => &[],
    }
}

// The places of the documents of a row's file that the plan's tasks drop.
fn dropped_of<G: Gate>(
    alloc: Global,
    gate: &G,
    plan: &Plan,
    row: &PlanRow,
    file: &[u8],
) -> Result<Vec<u64>, LeafError>
    ensures drops { MatchResult result
        (λ places. DropsOf (G.configured gate.now).schema (spans_of row.now.work) plan.now.tasks plan.now.upto file.now places.items)
        (λ error. IsMemory error ⊎ IsUnasked (G.configured gate.now).schema plan.now.tasks file.now) }
    ensures config { (core : Core) (log : Log) → G.Stands gate.now core log → IsConfigured (G.configured gate.now) core }
{
    let spans = spans_of(row);
    let tasks = plan.tasks.as_slice();
    dropped(alloc, &gate.config().schema, spans, tasks, plan.upto, file)
}

impl DeleteWorker {
    pub fn start() -> DeleteWorker
        ensures idle { result.place ≡ WorkerPlace.Idle }
        ensures stands { (core : Core) (log : Log) → PlaceStands Deleting log core result.place idle }
    {
        DeleteWorker {
            place: WorkerPlace::Idle,
        }
    }

    /// Drops what it works on.
    pub fn restart(&mut self)
        ensures idle { self.new.place ≡ WorkerPlace.Idle }
        ensures stands { (core : Core) (log : Log) → PlaceStands Deleting log core self.new.place idle }
    {
        put(&mut self.place, WorkerPlace::Idle);
    }

    pub fn is_idle(&self) -> bool
        ensures stands { (place : Stand) (core : Core) (log : Log) → PlaceStands Deleting log core self.now.place place → result ≡ is_idle place }
        ensures exact { IsTrue result ↔ (self.now.place ≡ WorkerPlace.Idle) }
    {
        match &self.place {
            WorkerPlace::Idle => true,
            _ => false,
        }
    }

    // Some documents are dropped: one split is made of the others, and staged.
    fn rebuild<G: Gate>(
        &mut self,
        alloc: Global,
        gate: &mut G,
        work: Work,
        dropped: &[u64],
    ) -> Result<UpkeepOutcome, AllocError>
        requires idle { self.old.place ≡ WorkerPlace.Idle }
        requires rise { RiseFrom 0 dropped.now }
        ensures later { G.since gate.old gate.new }
        ensures owns { HoldsOwn G.Owns gate.new self.new.place }
        // Whatever the gate tells.
        ensures ends { Ends (EndsLeft dropped.now (λ call. G.Answers gate.old call gate.new) (G.configured gate.old) work) result self.new.place }
        ensures corrupt { (key : List ℕ) → IsCorrupt result key → LeftFault (λ call. G.Answers gate.old call gate.new) (G.configured gate.old) work key }
        ensures step { (core : Core) (log : Log) (planned : Planned) → IsLog log → G.Stands gate.old core log → WorkStands work planned → IsWork log core planned → IsPlannedFor Deleting planned →
            planned.unfetched ≡ [] → LeavesOf core planned dropped.now → (dropped.now ≢ []) →
            StepsAs G.Stands G.Between G.Owns G.Adds Deleting result (fetching planned) core log self.new.place gate.old gate.new }
    {
        let Work { plan, files, .. } = work;
        let built = merged(alloc, &gate.config().schema, files.as_slice(), dropped);
        mem::drop(files);
        match built {
            Ok(split) => {
                built_is_one(&split);
                facts_fit(&split.facts);
                stage(alloc, gate, &mut self.place, plan, split)
            }
            Err(error) => unmerged(plan.rows.as_slice(), error),
        }
    }

    // What tasks drop of a row's file is known: nothing, and the row is raised; or its other documents take its place.
    fn apply<G: Gate>(
        &mut self,
        alloc: Global,
        gate: &mut G,
        work: Work,
        number: u64,
        dropped: &[u64],
    ) -> Result<UpkeepOutcome, AllocError>
        requires idle { self.old.place ≡ WorkerPlace.Idle }
        requires rise { RiseFrom 0 dropped.now }
        requires first { (row : Row) × (slice_get work.plan.rows 0 ≡ Some row) × (row.number ≡ number) }
        requires begun { (log : Log) → G.Begins gate.old log → (core : Core) × (planned : Planned) × WorkStands work planned × IsWork log core planned × IsPlannedFor Deleting planned ×
            (planned.unfetched ≡ []) × LeavesOf core planned dropped.now × G.Stands gate.old core log }
        ensures later { G.since gate.old gate.new }
        ensures owns { HoldsOwn G.Owns gate.new self.new.place }
        // Whatever the gate tells.
        ensures ends { (row : Row) → slice_get work.plan.rows 0 ≡ Some row → Ends (EndsDropped dropped.now row (λ call. G.Answers gate.old call gate.new) (G.configured gate.old) work) result self.new.place }
        ensures corrupt { (key : List ℕ) → IsCorrupt result key → LeftFault (λ call. G.Answers gate.old call gate.new) (G.configured gate.old) work key }
        ensures step { (core : Core) (log : Log) (planned : Planned) → IsLog log → G.Stands gate.old core log → WorkStands work planned → IsWork log core planned → IsPlannedFor Deleting planned →
            planned.unfetched ≡ [] → LeavesOf core planned dropped.now →
            StepsAs G.Stands G.Between G.Owns G.Adds Deleting result (fetching planned) core log self.new.place gate.old gate.new }
    {
        if dropped.is_empty() {
            return raise_row(alloc, gate, &work.plan, number);
        }
        self.rebuild(alloc, gate, work, dropped)
    }

    // The row's file is fetched: the tasks are asked of it.
    fn close<G: Gate>(
        &mut self,
        alloc: Global,
        gate: &mut G,
        work: Work,
    ) -> Result<UpkeepOutcome, AllocError>
        requires idle { self.old.place ≡ WorkerPlace.Idle }
        requires begun { (log : Log) → G.Begins gate.old log → (core : Core) × (planned : Planned) × WorkStands work planned × IsWork log core planned × IsPlannedFor Deleting planned ×
            (planned.unfetched ≡ []) × G.Stands gate.old core log }
        ensures later { G.since gate.old gate.new }
        ensures owns { HoldsOwn G.Owns gate.new self.new.place }
        // Whatever the gate tells.
        ensures ends { Ends (EndsClose (slice_get work.plan.rows 0) (slice_get work.files 0) (λ call. G.Answers gate.old call gate.new) (G.configured gate.old) work) result self.new.place }
        ensures corrupt { CorruptClose (slice_get work.plan.rows 0) (slice_get work.files 0) (λ call. G.Answers gate.old call gate.new) (G.configured gate.old) work result }
        ensures step { (core : Core) (log : Log) (planned : Planned) → IsLog log → G.Stands gate.old core log → WorkStands work planned → IsWork log core planned → IsPlannedFor Deleting planned →
            planned.unfetched ≡ [] →
            StepsAs G.Stands G.Between G.Owns G.Adds Deleting result (fetching planned) core log self.new.place gate.old gate.new }
    {
        if work.plan.rows.is_empty() || work.files.is_empty() {
            mem::drop(work);
            return Ok(UpkeepOutcome::Nothing);
        }
        let row = work.plan.rows.at(0);
        let number = row.number;
        match dropped_of(alloc, gate, &work.plan, row, work.files.at(0).as_slice()) {
            Ok(dropped) => self.apply(alloc, gate, work, number, dropped.as_slice()),
            Err(error) => {
                mem::drop(work);
                unasked(number, error)
            }
        }
    }

    fn work_on<G: Gate>(
        &mut self,
        alloc: Global,
        gate: &mut G,
        work: Work,
    ) -> Result<UpkeepOutcome, AllocError>
        requires idle { self.old.place ≡ WorkerPlace.Idle }
        requires begun { (log : Log) → G.Begins gate.old log → (core : Core) × (planned : Planned) × WorkStands work planned × IsWork log core planned × IsPlannedFor Deleting planned × G.Stands gate.old core log }
        ensures later { G.since gate.old gate.new }
        ensures owns { HoldsOwn G.Owns gate.new self.new.place }
        // Whatever the gate tells.
        ensures ends { Ends (EndsDeleteAt (slice_get work.plan.rows work.next) (λ call. G.Answers gate.old call gate.new) (G.configured gate.old) work (G.told gate.old) (G.told gate.new)) result self.new.place }
        ensures corrupt { CorruptDeleteAt (slice_get work.plan.rows work.next) (λ call. G.Answers gate.old call gate.new) (G.configured gate.old) work result }
        ensures step { (core : Core) (log : Log) (planned : Planned) → IsLog log → G.Stands gate.old core log → WorkStands work planned → IsWork log core planned → IsPlannedFor Deleting planned →
            StepsAs G.Stands G.Between G.Owns G.Adds Deleting result (fetching planned) core log self.new.place gate.old gate.new }
    {
        if (work.next as usize) < work.plan.rows.len() {
            return fetch(alloc, gate, &mut self.place, work);
        }
        self.close(alloc, gate, work)
    }

    /// One step. After a fault, a refusal and want of memory, where it is Lost and where it raised it is idle. A staged number that it
    /// holds is its own at the gate.
    pub fn step<G: Gate>(
        &mut self,
        alloc: Global,
        gate: &mut G,
    ) -> Result<UpkeepOutcome, AllocError>
        requires owns { HoldsOwn G.Owns gate.old self.old.place }
        requires begun { (log : Log) → G.Begins gate.old log → (place : Stand) × (core : Core) × PlaceStands Deleting log core self.old.place place × G.Stands gate.old core log }
        ensures later { G.since gate.old gate.new }
        ensures owns { HoldsOwn G.Owns gate.new self.new.place }
        // Whatever the gate tells: what a call answered is told as itself, and what the plan's tasks drop is dropped.
        ensures ends { EndsDelete G.told G.configured G.Answers self.old.place result self.new.place gate.old gate.new }
        ensures step { (place : Stand) (core : Core) (log : Log) → IsLog log → PlaceStands Deleting log core self.old.place place → G.Stands gate.old core log →
            StepsAs G.Stands G.Between G.Owns G.Adds Deleting result place core log self.new.place gate.old gate.new }
        // Whatever the gate tells: the row's file is corrupt only where its bytes stand for no documents, for others than the row's facts
        // say, or for none of which all tasks can be asked, and always at its fetch where they stand for others than the row's facts say.
        ensures corrupt { CorruptDelete G.configured G.Answers self.old.place result gate.old gate.new }
    {
        match mem::replace(&mut self.place, WorkerPlace::Idle) {
            WorkerPlace::Idle => plan(alloc, gate, Aim::Deleting, &mut self.place),
            WorkerPlace::Fetching(work) => self.work_on(alloc, gate, work),
            WorkerPlace::Staged(plan, staged, bytes) => {
                upload(alloc, gate, &mut self.place, plan, staged, &bytes)
            }
            WorkerPlace::Uploaded(plan, uploaded) => {
                replace_rows(alloc, gate, &plan, uploaded, plan.upto)
            }
        }
    }
}

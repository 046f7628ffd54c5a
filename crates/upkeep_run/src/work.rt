//! What a merger and a delete worker do alike: they plan rows, fetch their files, and make and enter a replacement.

ghost use Rattle.std.specs.Prelude.{◌≡◌, ◌<◌, ◌^◌, ℕ, List, Some, true, length, slice_get, IfOk};
ghost use Rattle.doc_value.specs.declared.schema.Schema.{Schema};
ghost use Rattle.meta_journal.specs.Spelling.{CanSpellFacts, CanSpellTimes, IsIfGiven};
ghost use Rattle.meta_store.specs.declared.planning.PlanRow.{PlanRow as Row};
ghost use Rattle.meta_store.specs.declared.planning.RowWork.{RowWork as Known};
ghost use Rattle.source_log.specs.Log.{Log};
ghost use Rattle.split_bundle.specs.Documents.{total_weight};
ghost use Rattle.split_bundle.specs.Splits.{IsSplit};
ghost use Rattle.split_bundle.specs.declared.placed.Placed.{Placed};
ghost use Rattle.index_world.specs.Calls.{Trouble, Unmade};
ghost use Rattle.index_world.specs.Core.{Core, IsUnusedIn};
ghost use Rattle.index_world.specs.Gate.{IsTrouble, IsUnmade};
ghost use Rattle.index_world.specs.Replacing.{IsRaisable, IsReplaceable, numbers_of};
ghost use Rattle.upkeep_run.specs.Corrupting.{CorruptFetch, FetchedCorrupt};
ghost use Rattle.upkeep_run.specs.Ending.{Ends, EndsFetch, EndsPlan, EndsRaise, EndsReplace, EndsStage, EndsUpload, JudgesFile, TellsJudged, fault_said, lost_said, number_at, rejected_by, rejected_said, unasked_said, unmerged_said, unstaged_said, with_file};
ghost use Rattle.upkeep_run.specs.Places.{WorkerHeld, IsPlannedFor, IsStagedHeld, IsUploadedHeld, IsWork, Work as Planned, fetching, held_file, idle, staged as staged_at, uploaded as uploaded_at};
ghost use Rattle.upkeep_run.specs.Standing.{Answers, HoldsNone, HoldsOwn, PlanHolds, Raises, Stages, StepsAs, WorkStands};
ghost use Rattle.upkeep_run.specs.declared.work.Aim.{Aim};
ghost use Rattle.upkeep_run.specs.Steps.{choice_of, lost_outcome, stage_outcome, trouble_outcome};

use crate::judging::is_file_of;
use crate::outcome::UpkeepOutcome;
use byte_fields::{Bytes, List};
use doc_sets::LeafError;
use doc_value::Bytes as SplitBytes;
use index_world::{Gate, Plan, Staged, Uploaded, WorldError};
use meta_journal::split_key;
use meta_store::{Choice, PlanRow};
use object_store::Key;
use source_checkpoint::Delta;
use split_build::BuiltSplit;
use split_merge::MergeError;
use split_states::RowFacts;
use std::alloc::{AllocError, Global};
use std::mem;

/// What rows are planned for.
#[derive(Clone, Copy, Drop)]
pub enum Aim {
    Merging,
    Deleting,
}

/// The rows of a plan, and the files that were fetched of the first of them.
#[derive(Drop)]
pub(crate) struct Work {
    pub plan: Plan,
    /// The place of the row whose file is fetched next.
    pub next: u32,
    pub files: List<Bytes>,
}

/// Where a worker is.
#[derive(Drop)]
pub(crate) enum WorkerPlace {
    Idle,
    Fetching(Work),
    /// The row that is to replace those of the plan, and its file.
    Staged(Plan, Staged, SplitBytes),
    Uploaded(Plan, Uploaded),
}

/// Puts a worker there, and lets go of what it held.
pub(crate) fn put(place: &mut WorkerPlace, next: WorkerPlace)
    ensures { place.new ≡ next }
{
    let before = mem::replace(place, next);
    mem::drop(before);
}

// ---- what is told where a call gave nothing

/// A fault of the world; want of memory is the step's own answer.
#[tactic(auto, using(crate::proofs::Told::told_as_fault))]
pub(crate) fn faulted(error: WorldError) -> Result<UpkeepOutcome, AllocError>
    ensures trouble { (trouble : Trouble) → IsTrouble error trouble → Answers result (trouble_outcome trouble) }
    // Whatever the world is.
    ensures exact { result ≡ fault_said error }
{
    match error {
        WorldError::Memory(refused) => Err(refused),
        error => Ok(UpkeepOutcome::Fault { error }),
    }
}

/// Why a Stage was not made.
#[tactic(auto, using(crate::proofs::Told::unstaged_as_fault))]
pub(crate) fn unstaged(error: WorldError) -> Result<UpkeepOutcome, AllocError>
    ensures unmade { (unmade : Unmade) → IsUnmade error unmade → Answers result (stage_outcome unmade) }
    // Whatever the world is.
    ensures exact { result ≡ unstaged_said error }
{
    match error {
        WorldError::Refused(refusal) => Ok(UpkeepOutcome::Refused { refusal }),
        error => faulted(error),
    }
}

/// Why planned rows were not replaced or raised.
#[tactic(auto, using(crate::proofs::Told::lost_as_fault))]
pub(crate) fn lost(number: u64, error: WorldError) -> Result<UpkeepOutcome, AllocError>
    ensures unmade { (unmade : Unmade) → IsUnmade error unmade → Answers result (lost_outcome number unmade) }
    // Whatever the world is.
    ensures exact { result ≡ lost_said number error }
{
    match error {
        WorldError::Refused(refusal) => Ok(UpkeepOutcome::Lost { number, refusal }),
        error => faulted(error),
    }
}

// The file of a planned row isn't what the row says.
fn corrupt(key: Key) -> UpkeepOutcome
    ensures { result ≡ UpkeepOutcome.Fault (WorldError.Corrupt key) }
{
    UpkeepOutcome::Fault {
        error: WorldError::Corrupt { key },
    }
}

// The number of the row at a place, 0 where there is none.
fn number_at(rows: &[PlanRow], place: usize) -> u64
    ensures { result ≡ number_at rows.now place }
{
    match rows.get(place) {
        Some(row) => row.number,
        None => 0,
    }
}

/// Why the files of planned rows gave no split.
pub(crate) fn unmerged(rows: &[PlanRow], error: MergeError) -> Result<UpkeepOutcome, AllocError>
    ensures { result ≡ unmerged_said rows.now error }
{
    match error {
        MergeError::Memory(refused) => Err(refused),
        MergeError::Split { view, .. } => Ok(corrupt(split_key(number_at(rows, view)))),
        MergeError::Build(_) => Ok(corrupt(split_key(number_at(rows, 0)))),
    }
}

/// Why tasks were not asked of the file of the row with this number.
pub(crate) fn unasked(number: u64, error: LeafError) -> Result<UpkeepOutcome, AllocError>
    ensures { result ≡ unasked_said number error }
{
    match error {
        LeafError::Memory(refused) => Err(refused),
        LeafError::Missing { .. } => Ok(corrupt(split_key(number))),
        LeafError::Corrupt { .. } => Ok(corrupt(split_key(number))),
    }
}

// ---- the facts of a replacement

// How many records of a row's ranges are no documents.
fn rejected_by(row: &PlanRow) -> u64
    ensures { result ≡ rejected_by row.now.work }
{
    match &row.work {
        Some(work) => work.rejected,
        None => 0,
    }
}

/// How many records of the ranges of all rows are no documents, at most 2^64 - 1.
pub(crate) fn rejected_in(rows: &[PlanRow]) -> u64
    ensures { result ≡ rejected_said rows.now }
{
    let mut rejected: u64 = 0;
    for row in rows {
        rejected = rejected.saturating_add(rejected_by(row));
    }
    rejected
}

/// The size and the times of facts are numbers of 64 bits.
pub(crate) fn facts_fit(facts: &RowFacts)
    ensures size { facts.now.size < 2 ^ 64 }
    ensures times { IsIfGiven CanSpellTimes facts.now.times }
{
    let _size = facts.size;
    if let Some(times) = facts.times {
        let _least = times.least;
        let _greatest = times.greatest;
    }
}

/// The facts of a split whose ranges have so many records that are no documents.
pub(crate) fn with_rejected(facts: RowFacts, rejected: u64) -> RowFacts
    requires { CanSpellFacts facts }
    ensures can { CanSpellFacts result }
    ensures facts { result ≡ record facts { rejected = rejected } }
{
    let mut facts = facts;
    facts.rejected = rejected;
    facts
}

// ---- the steps

fn choice_of(aim: Aim) -> Choice
    ensures { result ≡ choice_of aim }
{
    match aim {
        Aim::Merging => Choice::Merge,
        Aim::Deleting => Choice::Deletes,
    }
}

/// Idle: rows are planned.
pub(crate) fn plan<G: Gate>(
    alloc: Global,
    gate: &mut G,
    aim: Aim,
    place: &mut WorkerPlace,
) -> Result<UpkeepOutcome, AllocError>
    requires { place.old ≡ WorkerPlace.Idle }
    ensures later { G.since gate.old gate.new }
    ensures owns { HoldsOwn G.Owns gate.new place.new }
    ensures same { G.bytes_fetched gate.new ≡ G.bytes_fetched gate.old }
    // Whatever the gate tells.
    ensures ends { Ends (EndsPlan aim (λ call. G.Answers gate.old call gate.new)) result place.new }
    ensures step { (core : Core) (log : Log) → G.Stands gate.old core log →
        StepsAs G.Stands G.Between G.Owns G.Adds aim result idle core log place.new gate.old gate.new }
{
    let choice = choice_of(aim);
    let planned = gate.plan(alloc, &choice);
    mem::drop(choice);
    match planned {
        Ok(plan) => {
            let count = plan.rows.len() as u64;
            if count == 0 {
                mem::drop(plan);
                return Ok(UpkeepOutcome::Nothing);
            }
            let files = List::vacant(alloc);
            put(
                place,
                WorkerPlace::Fetching(Work {
                    plan,
                    next: 0,
                    files,
                }),
            );
            Ok(UpkeepOutcome::Planned { count })
        }
        Err(error) => faulted(error),
    }
}

// The work with one file more.
fn with_file(mut work: Work, bytes: Bytes) -> Result<Work, AllocError>
    ensures { IfOk result (λ later. later ≡ with_file bytes work) }
{
    match work.files.push(bytes) {
        Ok(()) => {
            work.next = work.next.saturating_add(1);
            Ok(work)
        }
        Err(refused) => {
            mem::drop(work);
            Err(refused)
        }
    }
}

// The file of the next row was fetched: it is taken, or isn't what the row says.
fn taken(place: &mut WorkerPlace, work: Work, bytes: Bytes) -> Result<UpkeepOutcome, AllocError>
    requires place { place.old ≡ WorkerPlace.Idle }
    requires next { work.next < length work.plan.rows }
    ensures none { HoldsNone place.new }
    ensures ends { (row : Row) → slice_get work.plan.rows work.next ≡ Some row → Ends (JudgesFile row work bytes) result place.new }
    ensures corrupt { (row : Row) → slice_get work.plan.rows work.next ≡ Some row → FetchedCorrupt row bytes result }
    // The file of a split is taken where the row says as many documents of the same weight.
    ensures takes { (row : Row) (known : Known) (s : Schema) (documents : List Placed) → slice_get work.plan.rows work.next ≡ Some row → row.work ≡ Some known → IsSplit s bytes documents →
        length documents ≡ known.docs → total_weight documents ≡ known.weight → Ends (TellsJudged row work bytes true) result place.new }
{
    let row = work.plan.rows.at(work.next as usize);
    let number = row.number;
    if !is_file_of(bytes.as_slice(), row) {
        mem::drop(work);
        return Ok(corrupt(split_key(number)));
    }
    let work = with_file(work, bytes)?;
    put(place, WorkerPlace::Fetching(work));
    Ok(UpkeepOutcome::Fetched { number })
}

/// The whole file of the next row is fetched, and judged.
pub(crate) fn fetch<G: Gate>(
    alloc: Global,
    gate: &mut G,
    place: &mut WorkerPlace,
    work: Work,
) -> Result<UpkeepOutcome, AllocError>
    requires place { place.old ≡ WorkerPlace.Idle }
    requires next { work.next < length work.plan.rows }
    ensures later { G.since gate.old gate.new }
    ensures owns { HoldsOwn G.Owns gate.new place.new }
    // Whatever the gate tells.
    ensures ends { (row : Row) → slice_get work.plan.rows work.next ≡ Some row →
        Ends (EndsFetch row (λ call. G.Answers gate.old call gate.new) work (G.told gate.old) (G.told gate.new)) result place.new }
    ensures corrupt { (row : Row) → slice_get work.plan.rows work.next ≡ Some row → CorruptFetch row (λ call. G.Answers gate.old call gate.new) work result }
    ensures step { (aim : Aim) (core : Core) (log : Log) (planned : Planned) → G.Stands gate.old core log → WorkStands work planned → IsWork log core planned → IsPlannedFor aim planned →
        StepsAs G.Stands G.Between G.Owns G.Adds aim result (fetching planned) core log place.new gate.old gate.new }
{
    match gate.fetch(alloc, &work.plan, work.next, 0, u64::MAX) {
        Ok(piece) => taken(place, work, piece.bytes),
        Err(error) => {
            mem::drop(work);
            faulted(error)
        }
    }
}

/// A split is staged that was made of the plan's rows, with these facts.
pub(crate) fn stage<G: Gate>(
    alloc: Global,
    gate: &mut G,
    place: &mut WorkerPlace,
    plan: Plan,
    split: BuiltSplit,
) -> Result<UpkeepOutcome, AllocError>
    requires place { place.old ≡ WorkerPlace.Idle }
    requires can { CanSpellFacts split.facts }
    ensures later { G.since gate.old gate.new }
    ensures owns { HoldsOwn G.Owns gate.new place.new }
    ensures same { G.bytes_fetched gate.new ≡ G.bytes_fetched gate.old }
    // Whatever the gate tells.
    ensures ends { Ends (EndsStage (λ call. G.Answers gate.old call gate.new) plan split) result place.new }
    ensures step { (core : Core) (log : Log) → G.Stands gate.old core log → Stages G.Stands G.Between G.Owns G.Adds plan split result core log place.new gate.old gate.new }
{
    let BuiltSplit { bytes, facts } = split;
    let facts = with_rejected(facts, rejected_in(plan.rows.as_slice()));
    let delta = Delta::vacant(alloc);
    let staged = gate.stage(alloc, &delta, &facts);
    mem::drop(facts);
    mem::drop(delta);
    match staged {
        Ok(staged) => {
            let number = staged.number;
            put(place, WorkerPlace::Staged(plan, staged, bytes));
            Ok(UpkeepOutcome::Staged { number })
        }
        Err(error) => {
            mem::drop(plan);
            mem::drop(bytes);
            unstaged(error)
        }
    }
}

/// Staged: the file of the row is made.
pub(crate) fn upload<G: Gate>(
    alloc: Global,
    gate: &mut G,
    place: &mut WorkerPlace,
    plan: Plan,
    staged: Staged,
    bytes: &SplitBytes,
) -> Result<UpkeepOutcome, AllocError>
    requires place { place.old ≡ WorkerPlace.Idle }
    requires owned { G.Owns gate.old staged.number }
    requires begun { (log : Log) → G.Begins gate.old log → (core : Core) × G.Stands gate.old core log × IsUnusedIn core staged.number }
    ensures later { G.since gate.old gate.new }
    ensures owns { HoldsOwn G.Owns gate.new place.new }
    ensures same { G.bytes_fetched gate.new ≡ G.bytes_fetched gate.old }
    // Whatever the gate tells.
    ensures ends { Ends (EndsUpload (λ call. G.Answers gate.old call gate.new) plan staged.number bytes.now (G.told gate.old) (G.told gate.new)) result place.new }
    ensures step { (aim : Aim) (core : Core) (log : Log) (held : WorkerHeld) → G.Stands gate.old core log → PlanHolds aim plan held → staged.number ≡ held.number → bytes.now ≡ held_file held → IsStagedHeld log core held →
        StepsAs G.Stands G.Between G.Owns G.Adds aim result (staged_at held) core log place.new gate.old gate.new }
{
    let number = staged.number;
    match gate.upload(alloc, staged, bytes.as_slice()) {
        Ok(uploaded) => {
            put(place, WorkerPlace::Uploaded(plan, uploaded));
            Ok(UpkeepOutcome::Uploaded { number })
        }
        Err(error) => {
            mem::drop(plan);
            faulted(error)
        }
    }
}

/// Uploaded: the rows of the plan are replaced.
pub(crate) fn replace_rows<G: Gate>(
    alloc: Global,
    gate: &mut G,
    plan: &Plan,
    uploaded: Uploaded,
    upto: u64,
) -> Result<UpkeepOutcome, AllocError>
    requires { (log : Log) → G.Begins gate.old log → (core : Core) × G.Stands gate.old core log × IsReplaceable log core uploaded.number (numbers_of plan.now.rows) upto }
    ensures later { G.since gate.old gate.new }
    ensures same { G.bytes_fetched gate.new ≡ G.bytes_fetched gate.old }
    // Whatever the gate tells.
    ensures ends { Ends (EndsReplace upto (λ call. G.Answers gate.old call gate.new) plan.now uploaded.number) result WorkerPlace.Idle }
    ensures step { (aim : Aim) (core : Core) (log : Log) (held : WorkerHeld) → G.Stands gate.old core log → PlanHolds aim plan.now held → upto ≡ held.upto → uploaded.number ≡ held.number → IsUploadedHeld log core held →
        StepsAs G.Stands G.Between G.Owns G.Adds aim result (uploaded_at held) core log WorkerPlace.Idle gate.old gate.new }
{
    let number = uploaded.number;
    match gate.replace(alloc, plan, uploaded, upto) {
        Ok(_) => Ok(UpkeepOutcome::Replaced { number }),
        Err(error) => lost(number, error),
    }
}

/// Nothing of the file of the plan's first row, which has this number, is dropped: the row is applied up to the plan's last task.
pub(crate) fn raise_row<G: Gate>(
    alloc: Global,
    gate: &mut G,
    plan: &Plan,
    number: u64,
) -> Result<UpkeepOutcome, AllocError>
    requires first { (row : Row) × (slice_get plan.now.rows 0 ≡ Some row) × (row.number ≡ number) }
    requires begun { (log : Log) → G.Begins gate.old log → (core : Core) × G.Stands gate.old core log × IsRaisable core number plan.now.upto }
    ensures later { G.since gate.old gate.new }
    ensures same { G.bytes_fetched gate.new ≡ G.bytes_fetched gate.old }
    // Whatever the gate tells.
    ensures ends { Ends (EndsRaise (λ call. G.Answers gate.old call gate.new) plan.now number) result WorkerPlace.Idle }
    ensures step { (core : Core) (log : Log) → G.Stands gate.old core log → IsRaisable core number plan.now.upto → Raises G.Stands G.Between G.Owns G.Adds number plan.now.upto result core log gate.old gate.new }
{
    match gate.raise(alloc, plan, 0, plan.upto) {
        Ok(_) => Ok(UpkeepOutcome::Raised { number }),
        Err(error) => lost(number, error),
    }
}

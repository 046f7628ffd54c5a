//! An indexer and its steps.

ghost use Rattle.std.specs.Prelude.{◌≡◌, ◌↔◌, ◌<◌, ℕ, List, true, false, Some, None, IfOk, IsErrOf, IsTrue};
ghost use Rattle.byte_fields.specs.Causes.{Rose};
ghost use Rattle.meta_journal.specs.Spelling.{CanSpellFacts};
ghost use Rattle.meta_store.specs.declared.refusal.Refusal.{Refusal};
ghost use Rattle.source_log.specs.Log.{Log};
ghost use Rattle.split_states.specs.declared.facts.RowFacts.{RowFacts};
ghost use Rattle.index_world.specs.Calls.{Trouble, Unmade};
ghost use Rattle.index_world.specs.Core.{Core, IsConfigured, IsUnusedIn};
ghost use Rattle.index_world.specs.Gate.{IsTrouble, IsUnmade, IsPublishable};
ghost use Rattle.index_world.specs.SplitFile.{file_of};
ghost use Rattle.indexing_run.specs.Making.{IsBatch, IsAssigned};
ghost use Rattle.indexing_run.specs.Places.{Batch as Made, IndexerHeld, Indexer as Actor, IsStagedHeld, IsUploadedHeld, is_idle, idle, reading, staged as staged_at, uploaded as uploaded_at};
ghost use Rattle.indexing_run.specs.Ending.{fault_said, unstaged_said, refused_said, unpublished_said, Ends, EndsIdle, EndsOpen, EndsClosed, EndsBatch, EndsUpload, EndsPublish, EndsStep};
ghost use Rattle.indexing_run.specs.Steps.{trouble_outcome, publish_refused, publish_outcome, stage_outcome};
ghost use Rattle.indexing_run.specs.Standing.{BatchStands, IndexerStands, IsSaid, Answers, NamesGiven, HoldsOwn, StepsAs};

use crate::batch::Batch;
use crate::outcome::IndexerOutcome;
use doc_value::Bytes;
use index_world::{Gate, Staged, Uploaded, WorldError};
use meta_store::Refusal;
use source_checkpoint::{Delta, StaleDelta};
use source_log::{Partitions, ReadError, SourceLog};
use split_build::BuiltSplit;
use split_states::RowFacts;
use std::alloc::{AllocError, Global};
use std::mem;

// Where an indexer is.
#[derive(Drop)]
enum IndexerPlace {
    Idle,
    Reading(Batch),
    Staged(Staged, Bytes),
    Uploaded(Uploaded),
}

// Puts an indexer there, and lets go of what it held.
fn put(place: &mut IndexerPlace, next: IndexerPlace)
    ensures { place.new ≡ next }
{
    let before = mem::replace(place, next);
    mem::drop(before);
}

/// Reads a log in steps, and stages, uploads and publishes what it read.
#[derive(Drop)]
pub struct Indexer<L: SourceLog> {
    log: L,
    assignment: Option<Partitions>,
    place: IndexerPlace,
}

// A fault of the world; want of memory is the step's own answer.
#[tactic(auto, using(crate::proofs::Ended::told_as_fault))]
fn faulted(error: WorldError) -> Result<IndexerOutcome, AllocError>
    ensures trouble { (trouble : Trouble) → IsTrouble error trouble → Answers result (trouble_outcome trouble) }
    // Whatever the world is.
    ensures exact { result ≡ fault_said error }
{
    match error {
        WorldError::Memory(refused) => Err(refused),
        error => Ok(IndexerOutcome::Fault { error }),
    }
}

fn copied(alloc: Global, names: &Partitions) -> Result<Partitions, AllocError>
    ensures { IfOk result (λ copy. copy ≡ names.now) }
{
    let mut copy = Partitions::vacant(alloc);
    for name in names.as_slice() {
        copy.push(name.copy())?;
    }
    Ok(copy)
}

// The facts of a split whose ranges have so many refused records.
fn with_rejected(facts: RowFacts, rejected: u64) -> RowFacts
    requires { CanSpellFacts facts }
    ensures can { CanSpellFacts result }
    ensures facts { result ≡ record facts { rejected = rejected } }
{
    let mut facts = facts;
    facts.rejected = rejected;
    facts
}

// What became of a Publish that was refused.
#[tactic(auto, using(crate::proofs::Ended::lost_as))]
fn refused_publish(number: u64, refusal: Refusal) -> IndexerOutcome
    ensures said { IsSaid result (publish_refused number refusal) }
    ensures exact { result ≡ refused_said number refusal }
{
    if let Refusal::Delta(
        StaleDelta::Stale {
            partition,
            current,
            from,
        },
    ) = &refusal
    {
        let outcome = IndexerOutcome::Stale {
            partition: partition.copy(),
            current: *current,
            from: *from,
        };
        mem::drop(refusal);
        return outcome;
    }
    IndexerOutcome::Lost { number, refusal }
}

// Why a Publish was not made.
#[tactic(auto, using(crate::proofs::Ended::unpublished_as_fault))]
fn unpublished(number: u64, error: WorldError) -> Result<IndexerOutcome, AllocError>
    ensures unmade { (unmade : Unmade) → IsUnmade error unmade → Answers result (publish_outcome number unmade) }
    // Whatever the world is.
    ensures exact { result ≡ unpublished_said number error }
{
    match error {
        WorldError::Refused(refusal) => Ok(refused_publish(number, refusal)),
        error => faulted(error),
    }
}

// Why a Stage was not made.
#[tactic(auto, using(crate::proofs::Ended::unstaged_as_fault))]
fn unstaged(error: WorldError) -> Result<IndexerOutcome, AllocError>
    ensures unmade { (unmade : Unmade) → IsUnmade error unmade → Answers result (stage_outcome unmade) }
    // Whatever the world is.
    ensures exact { result ≡ unstaged_said error }
{
    match error {
        WorldError::Refused(refusal) => Ok(IndexerOutcome::Refused { refusal }),
        error => faulted(error),
    }
}

impl<L: SourceLog> Indexer<L> {
    /// An idle indexer of a log, which reads all its partitions.
    pub fn start(log: L) -> Indexer<L>
        ensures log { result.log ≡ log }
        ensures idle { result.place ≡ IndexerPlace.Idle }
        ensures stands { (core : Core) (read : Log) → L.told log ≡ Some read →
            IndexerStands L.told L.fault_count result (record { assignment = None; place = idle; log_faults = L.fault_count log }) core read }
    {
        Indexer {
            log,
            assignment: None,
            place: IndexerPlace::Idle,
        }
    }

    /// Drops the batch. The log and the assignment stay.
    pub fn restart(&mut self)
        ensures log { self.new.log ≡ self.old.log }
        ensures assignment { self.new.assignment ≡ self.old.assignment }
        ensures idle { self.new.place ≡ IndexerPlace.Idle }
        ensures stands { (indexer : Actor) (core after : Core) (read : Log) → IndexerStands L.told L.fault_count self.old indexer core read →
            IndexerStands L.told L.fault_count self.new (record indexer { place = idle }) after read }
    {
        put(&mut self.place, IndexerPlace::Idle);
    }

    pub fn is_idle(&self) -> bool
        ensures stands { (indexer : Actor) (core : Core) (read : Log) → IndexerStands L.told L.fault_count self.now indexer core read →
            result ≡ is_idle indexer.place }
        ensures exact { IsTrue result ↔ (self.now.place ≡ IndexerPlace.Idle) }
    {
        match &self.place {
            IndexerPlace::Idle => true,
            _ => false,
        }
    }

    /// The log's count of faults.
    pub fn log_faults(&self) -> u64
        ensures { result ≡ L.fault_count self.now.log }
    {
        self.log.faults()
    }

    pub fn log(&self) -> &L
        ensures { result.now ≡ self.now.log }
    {
        &self.log
    }

    /// Gives the log back. What it held beside that is dropped.
    pub fn into_log(self) -> L
        ensures { result ≡ self.log }
    {
        let Indexer {
            log,
            assignment: _,
            place: _,
        } = self;
        log
    }

    /// From here on it reads these partitions alone, in this order.
    pub fn assign(&mut self, partitions: Partitions)
        ensures log { self.new.log ≡ self.old.log }
        ensures place { self.new.place ≡ self.old.place }
        ensures stands { (indexer : Actor) (core : Core) (read : Log) → IndexerStands L.told L.fault_count self.old indexer core read →
            IsAssigned (Some partitions) → IndexerStands L.told L.fault_count self.new (record indexer { assignment = Some partitions }) core read }
    {
        self.assignment = Some(partitions);
    }

    fn names(&mut self, alloc: Global) -> Result<Partitions, ReadError>
        ensures later { L.since self.old.log self.new.log }
        ensures place { self.new.place ≡ self.old.place }
        ensures assignment { self.new.assignment ≡ self.old.assignment }
        ensures names { (read : Log) → L.told self.old.log ≡ Some read →
            NamesGiven self.old.assignment result (L.fault_count self.old.log) (L.fault_count self.new.log) read }
        ensures told { (read : Log) → L.told self.old.log ≡ Some read → L.told self.new.log ≡ Some read }
        // Over all logs: where names are assigned, none are asked for.
        ensures failed { IsErrOf result ReadError.Failed → Rose (L.fault_count self.old.log) (L.fault_count self.new.log) × (self.old.assignment ≡ None) }
        ensures assigned { (names : List (List ℕ)) → self.old.assignment ≡ Some names → IfOk result (λ given. given ≡ names) }
    {
        match &self.assignment {
            Some(partitions) => Ok(copied(alloc, partitions)?),
            None => self.log.partitions(alloc),
        }
    }

    fn take_checkpoints<G: Gate>(
        &mut self,
        alloc: Global,
        gate: &mut G,
    ) -> Result<IndexerOutcome, AllocError>
        ensures later { L.since self.old.log self.new.log }
        ensures later_gate { G.since gate.old gate.new }
        ensures owns { HoldsOwn G.Owns gate.old self.old.place → HoldsOwn G.Owns gate.new self.new.place }
        ensures assignment { self.new.assignment ≡ self.old.assignment }
        // Whatever the log and the gate tell.
        ensures ends { self.old.place ≡ IndexerPlace.Idle → Ends (EndsIdle (λ call. G.Answers gate.old call gate.new) (L.fault_count self.old.log) (L.fault_count self.new.log) (L.told self.old.log) self.old.assignment (G.configured gate.new)) result self.new.place }
        ensures step { (indexer : Actor) (core : Core) (read : Log) →
            IndexerStands L.told L.fault_count self.old (record indexer { place = idle }) core read → G.Stands gate.old core read →
            StepsAs L.told L.fault_count G.Stands G.Between G.Owns G.Adds result (record indexer { place = idle }) core read self.new gate.old gate.new }
    {
        let before = self.log.faults();
        let names = self.names(alloc);
        let after = self.log.faults();
        let names = match names {
            Ok(names) => names,
            Err(ReadError::Memory(refused)) => return Err(refused),
            Err(ReadError::Failed) => return Ok(IndexerOutcome::SourceFault { before, after }),
        };
        match gate.checkpoints(alloc) {
            Ok(marks) => {
                let config = gate.config().copy(alloc)?;
                let batch = Batch::begin(alloc, config, &names, &marks)?;
                put(&mut self.place, IndexerPlace::Reading(batch));
                Ok(IndexerOutcome::Checkpoint)
            }
            Err(error) => faulted(error),
        }
    }

    fn read_on<G: Gate>(
        &mut self,
        alloc: Global,
        gate: &mut G,
        batch: Batch,
    ) -> Result<IndexerOutcome, AllocError>
        ensures later { L.since self.old.log self.new.log }
        ensures later_gate { G.since gate.old gate.new }
        ensures owns { HoldsOwn G.Owns gate.old self.old.place → HoldsOwn G.Owns gate.new self.new.place }
        ensures assignment { self.new.assignment ≡ self.old.assignment }
        // Whatever the log and the gate tell.
        ensures ends { self.old.place ≡ IndexerPlace.Idle → Ends (EndsOpen (λ call. G.Answers gate.old call gate.new) (L.fault_count self.old.log) (L.fault_count self.new.log) batch) result self.new.place }
        ensures step { (indexer : Actor) (core : Core) (read : Log) (made : Made) →
            IndexerStands L.told L.fault_count self.old (record indexer { place = idle }) core read → G.Stands gate.old core read → BatchStands batch made → IsBatch read made → IsConfigured made.config core → made.closed ≡ false →
            StepsAs L.told L.fault_count G.Stands G.Between G.Owns G.Adds result (record indexer { place = reading made }) core read self.new gate.old gate.new }
    {
        let now = match gate.moment(alloc) {
            Ok(now) => now,
            Err(error) => {
                mem::drop(batch);
                return faulted(error);
            }
        };
        let Some(next) = batch.next_read() else {
            mem::drop(batch);
            return Ok(IndexerOutcome::CaughtUp);
        };
        let before = self.log.faults();
        let records = self.log.read(alloc, &next.partition, next.from, next.room);
        let after = self.log.faults();
        match records {
            Ok(records) => {
                let (batch, count) = batch.take(alloc, &next.partition, next.from, &records, now)?;
                put(&mut self.place, IndexerPlace::Reading(batch));
                Ok(IndexerOutcome::Read { count })
            }
            Err(ReadError::Memory(refused)) => {
                mem::drop(batch);
                Err(refused)
            }
            Err(ReadError::Failed) => {
                put(&mut self.place, IndexerPlace::Reading(batch));
                Ok(IndexerOutcome::SourceFault { before, after })
            }
        }
    }

    fn stage<G: Gate>(
        &mut self,
        alloc: Global,
        gate: &mut G,
        batch: Batch,
    ) -> Result<IndexerOutcome, AllocError>
        ensures later { L.since self.old.log self.new.log }
        ensures later_gate { G.since gate.old gate.new }
        ensures owns { HoldsOwn G.Owns gate.old self.old.place → HoldsOwn G.Owns gate.new self.new.place }
        ensures assignment { self.new.assignment ≡ self.old.assignment }
        // Whatever the log and the gate tell.
        ensures ends { self.old.place ≡ IndexerPlace.Idle → (batch.count ≡ 0 → ⊥) → Ends (EndsClosed (λ call. G.Answers gate.old call gate.new) batch) result self.new.place }
        ensures step { (indexer : Actor) (core : Core) (read : Log) (made : Made) →
            IndexerStands L.told L.fault_count self.old (record indexer { place = idle }) core read → G.Stands gate.old core read → BatchStands batch made → IsBatch read made → IsConfigured made.config core → made.closed ≡ true → (made.count ≡ 0 → ⊥) →
            StepsAs L.told L.fault_count G.Stands G.Between G.Owns G.Adds result (record indexer { place = reading made }) core read self.new gate.old gate.new }
    {
        let Batch {
            documents,
            parts,
            count,
            ..
        } = batch;
        let BuiltSplit { bytes, facts } = documents.finish(alloc)?;
        let rejected = count.saturating_sub(facts.docs);
        let facts = with_rejected(facts, rejected);
        let delta = Delta::from_vec(parts);
        let staged = gate.stage(alloc, &delta, &facts);
        mem::drop(facts);
        mem::drop(delta);
        match staged {
            Ok(staged) => {
                let number = staged.number;
                put(&mut self.place, IndexerPlace::Staged(staged, bytes));
                Ok(IndexerOutcome::Staged { number })
            }
            Err(error) => {
                mem::drop(bytes);
                unstaged(error)
            }
        }
    }

    fn upload<G: Gate>(
        &mut self,
        alloc: Global,
        gate: &mut G,
        staged: Staged,
        bytes: &Bytes,
    ) -> Result<IndexerOutcome, AllocError>
        requires owned { G.Owns gate.old staged.number }
        requires begun { (read : Log) → G.Begins gate.old read → (core : Core) × G.Stands gate.old core read × IsUnusedIn core staged.number }
        ensures later { L.since self.old.log self.new.log }
        ensures later_gate { G.since gate.old gate.new }
        ensures owns { HoldsOwn G.Owns gate.old self.old.place → HoldsOwn G.Owns gate.new self.new.place }
        ensures assignment { self.new.assignment ≡ self.old.assignment }
        // Whatever the log and the gate tell.
        ensures ends { self.old.place ≡ IndexerPlace.Idle → Ends (EndsUpload (λ call. G.Answers gate.old call gate.new) staged.number bytes.now (G.told gate.old) (G.told gate.new)) result self.new.place }
        ensures step { (indexer : Actor) (core : Core) (read : Log) (held : IndexerHeld) →
            IndexerStands L.told L.fault_count self.old (record indexer { place = idle }) core read → G.Stands gate.old core read → staged.number ≡ held.number → bytes.now ≡ file_of held.config held.documents → IsStagedHeld read core held →
            StepsAs L.told L.fault_count G.Stands G.Between G.Owns G.Adds result (record indexer { place = staged_at held }) core read self.new gate.old gate.new }
    {
        let number = staged.number;
        match gate.upload(alloc, staged, bytes.as_slice()) {
            Ok(uploaded) => {
                put(&mut self.place, IndexerPlace::Uploaded(uploaded));
                Ok(IndexerOutcome::Uploaded { number })
            }
            Err(error) => faulted(error),
        }
    }

    fn publish<G: Gate>(
        &mut self,
        alloc: Global,
        gate: &mut G,
        uploaded: Uploaded,
    ) -> Result<IndexerOutcome, AllocError>
        requires { (read : Log) → G.Begins gate.old read → (core : Core) × G.Stands gate.old core read × IsPublishable read core uploaded.number }
        ensures later { L.since self.old.log self.new.log }
        ensures later_gate { G.since gate.old gate.new }
        ensures owns { HoldsOwn G.Owns gate.old self.old.place → HoldsOwn G.Owns gate.new self.new.place }
        ensures assignment { self.new.assignment ≡ self.old.assignment }
        // Whatever the log and the gate tell.
        ensures ends { self.old.place ≡ IndexerPlace.Idle → Ends (EndsPublish (λ call. G.Answers gate.old call gate.new) uploaded.number) result self.new.place }
        ensures step { (indexer : Actor) (core : Core) (read : Log) (held : IndexerHeld) →
            IndexerStands L.told L.fault_count self.old (record indexer { place = idle }) core read → G.Stands gate.old core read → uploaded.number ≡ held.number → IsUploadedHeld read core held →
            StepsAs L.told L.fault_count G.Stands G.Between G.Owns G.Adds result (record indexer { place = uploaded_at held }) core read self.new gate.old gate.new }
    {
        let number = uploaded.number;
        match gate.publish(alloc, uploaded) {
            Ok(_) => Ok(IndexerOutcome::Published { number }),
            Err(error) => unpublished(number, error),
        }
    }

    fn go_on<G: Gate>(
        &mut self,
        alloc: Global,
        gate: &mut G,
        batch: Batch,
    ) -> Result<IndexerOutcome, AllocError>
        ensures later { L.since self.old.log self.new.log }
        ensures later_gate { G.since gate.old gate.new }
        ensures owns { HoldsOwn G.Owns gate.old self.old.place → HoldsOwn G.Owns gate.new self.new.place }
        ensures assignment { self.new.assignment ≡ self.old.assignment }
        // Whatever the log and the gate tell.
        ensures ends { self.old.place ≡ IndexerPlace.Idle → Ends (EndsBatch (λ call. G.Answers gate.old call gate.new) (L.fault_count self.old.log) (L.fault_count self.new.log) batch) result self.new.place }
        ensures step { (indexer : Actor) (core : Core) (read : Log) (made : Made) →
            IndexerStands L.told L.fault_count self.old (record indexer { place = idle }) core read → G.Stands gate.old core read → BatchStands batch made → IsBatch read made → IsConfigured made.config core →
            StepsAs L.told L.fault_count G.Stands G.Between G.Owns G.Adds result (record indexer { place = reading made }) core read self.new gate.old gate.new }
    {
        if !batch.closed {
            return self.read_on(alloc, gate, batch);
        }
        if batch.count == 0 {
            mem::drop(batch);
            return Ok(IndexerOutcome::CaughtUp);
        }
        self.stage(alloc, gate, batch)
    }

    /// One step. After a SourceFault it can be tried again; after every other fault, and after want of memory, the
    /// batch is dropped and the indexer is idle. A staged number that it holds is its own at the gate.
    pub fn step<G: Gate>(
        &mut self,
        alloc: Global,
        gate: &mut G,
    ) -> Result<IndexerOutcome, AllocError>
        requires owns { HoldsOwn G.Owns gate.old self.old.place }
        requires begun { (read : Log) → G.Begins gate.old read →
            (indexer : Actor) × (core : Core) × IndexerStands L.told L.fault_count self.old indexer core read × G.Stands gate.old core read }
        ensures later { L.since self.old.log self.new.log }
        ensures later_gate { G.since gate.old gate.new }
        ensures owns { HoldsOwn G.Owns gate.new self.new.place }
        // Whatever the log and the gate tell: what a call answered is told as itself.
        ensures ends { EndsStep L.told L.fault_count G.told G.configured G.Answers self.old result self.new gate.old gate.new }
        ensures step { (indexer : Actor) (core : Core) (read : Log) →
            IndexerStands L.told L.fault_count self.old indexer core read → G.Stands gate.old core read →
            StepsAs L.told L.fault_count G.Stands G.Between G.Owns G.Adds result indexer core read self.new gate.old gate.new }
    {
        match mem::replace(&mut self.place, IndexerPlace::Idle) {
            IndexerPlace::Idle => self.take_checkpoints(alloc, gate),
            IndexerPlace::Reading(batch) => self.go_on(alloc, gate, batch),
            IndexerPlace::Staged(staged, bytes) => self.upload(alloc, gate, staged, &bytes),
            IndexerPlace::Uploaded(uploaded) => self.publish(alloc, gate, uploaded),
        }
    }
}

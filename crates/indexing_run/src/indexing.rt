//! An indexer that takes its steps up to an end.

ghost use Rattle.std.specs.Prelude.{◌≡◌, ℕ, List};
ghost use Rattle.source_log.specs.Log.{Log};
ghost use Rattle.index_world.specs.Core.{Core};
ghost use Rattle.indexing_run.specs.Places.{Indexer as Actor};
ghost use Rattle.indexing_run.specs.Standing.{HoldsOwn, IndexerStands};
ghost use Rattle.index_world.specs.Ran.{Ran, WorksTo};
ghost use Rattle.indexing_run.specs.IndexAll.{IndexerDid, IndexesOnce, end_of, reader_at};

use crate::{Indexer, IndexerOutcome};
use index_world::{Gate, WorldError};
use meta_store::Refusal;
use source_log::SourceLog;
use std::alloc::{AllocError, Global};

/// How an indexer ends.
#[derive(Drop)]
pub enum IndexerEnd {
    /// Its partitions were read to their ends, and there was nothing behind the checkpoints.
    CaughtUp,
    /// A limit stands against its Stage.
    Refused(Refusal),
    /// A call of the world failed.
    Fault(WorldError),
    /// The log failed: its count of faults before the call and after it.
    SourceFault { before: u64, after: u64 },
    /// Its turns were used up.
    Turns,
    /// There was no memory.
    Memory,
}

// Whether a step that answered so is the last one, and with which end. What is stale or lost is read anew.
fn end_of(answer: Result<IndexerOutcome, AllocError>) -> Option<IndexerEnd>
    ensures { result ≡ end_of answer }
{
    match answer {
        Ok(IndexerOutcome::Checkpoint) => None,
        Ok(IndexerOutcome::Read { .. }) => None,
        Ok(IndexerOutcome::Staged { .. }) => None,
        Ok(IndexerOutcome::Uploaded { .. }) => None,
        Ok(IndexerOutcome::Published { .. }) => None,
        Ok(IndexerOutcome::CaughtUp) => Some(IndexerEnd::CaughtUp),
        Ok(IndexerOutcome::Stale { .. }) => None,
        Ok(IndexerOutcome::Lost { .. }) => None,
        Ok(IndexerOutcome::Refused { refusal }) => Some(IndexerEnd::Refused(refusal)),
        Ok(IndexerOutcome::Fault { error }) => Some(IndexerEnd::Fault(error)),
        Ok(IndexerOutcome::SourceFault { before, after }) => {
            Some(IndexerEnd::SourceFault { before, after })
        }
        Err(_) => Some(IndexerEnd::Memory),
    }
}

/// Takes so many steps at most, up to the first that has caught up, is refused, fails, or finds no memory. A batch that is stale or lost is
/// no end.
pub fn index_all<L: SourceLog, G: Gate>(
    alloc: Global,
    gate: &mut G,
    indexer: &mut Indexer<L>,
    turns: u64,
) -> IndexerEnd
    requires owns { HoldsOwn G.Owns gate.old indexer.old.place }
    requires begun { (read : Log) → G.Begins gate.old read →
        (actor : Actor) × (core : Core) × IndexerStands L.told L.fault_count indexer.old actor core read × G.Stands gate.old core read }
    ensures later { L.since indexer.old.log indexer.new.log }
    ensures later_gate { G.since gate.old gate.new }
    ensures owns { HoldsOwn G.Owns gate.new indexer.new.place }
    // Whatever the log and the gate tell: each step tells what a call answered as itself.
    ensures ends { WorksTo (IndexesOnce L.told L.fault_count G.told G.configured G.Answers) end_of IndexerEnd.Turns turns result (reader_at indexer.old gate.old) (reader_at indexer.new gate.new) }
    ensures ran { (actor : Actor) (core : Core) (read : Log) → IndexerStands L.told L.fault_count indexer.old actor core read → G.Stands gate.old core read →
        Ran G.Stands G.Adds (λ made after. IndexerDid L.told L.fault_count G.Between read turns result indexer.new actor core made after) core read gate.old gate.new }
{
    for _ in 0..turns {
        if let Some(end) = end_of(indexer.step(alloc, gate)) {
            return end;
        }
    }
    IndexerEnd::Turns
}

//! A collector that takes its steps up to an end.

ghost use Rattle.std.specs.Prelude.{◌≡◌, ℕ, List};
ghost use Rattle.source_log.specs.Log.{Log};
ghost use Rattle.index_world.specs.Core.{Core};
ghost use Rattle.index_world.specs.Ran.{Ran, WorksTo};
ghost use Rattle.split_collector.specs.Ending.{CallsTo};
ghost use Rattle.split_collector.specs.Turns.{ended, to_mark};
ghost use Rattle.split_collector.specs.CollectAll.{CollectorDid, end_of};

use crate::{Collector, CollectorOutcome};
use index_world::{Gate, WorldError};
use std::alloc::{AllocError, Global};

/// How a collector ends.
#[derive(Drop)]
pub enum CollectorEnd {
    /// There was nothing to do.
    Nothing,
    /// A call of the world failed.
    Fault(WorldError),
    /// Its turns were used up.
    Turns,
    /// There was no memory.
    Memory,
}

// Whether a step that answered so is the last one, and with which end.
fn end_of(answer: Result<CollectorOutcome, AllocError>) -> Option<CollectorEnd>
    ensures { result ≡ end_of answer }
{
    match answer {
        Ok(CollectorOutcome::MarkedStale { .. }) => None,
        Ok(CollectorOutcome::Doomed { .. }) => None,
        Ok(CollectorOutcome::Removed { .. }) => None,
        Ok(CollectorOutcome::Swept { .. }) => None,
        Ok(CollectorOutcome::Nothing) => Some(CollectorEnd::Nothing),
        Ok(CollectorOutcome::Fault(error)) => Some(CollectorEnd::Fault(error)),
        Err(_) => Some(CollectorEnd::Memory),
    }
}

/// Takes so many steps at most, up to the first that finds nothing to do, fails, or finds no memory.
pub fn collect_all<G: Gate>(
    alloc: Global,
    gate: &mut G,
    collector: &mut Collector,
    turns: u64,
) -> CollectorEnd
    ensures later { G.since gate.old gate.new }
    ensures same { G.bytes_fetched gate.new ≡ G.bytes_fetched gate.old }
    // Whatever the gate tells: each step makes the calls of its order, and answers what the last of them comes to.
    ensures ends { WorksTo (λ old told new. CallsTo G.told G.Answers to_mark (ended told) old new) end_of CollectorEnd.Turns turns result gate.old gate.new }
    ensures ran { (core : Core) (log : Log) → G.Stands gate.old core log →
        Ran G.Stands G.Adds (λ made after. CollectorDid G.Between turns result core made after) core log gate.old gate.new }
{
    for _ in 0..turns {
        if let Some(end) = end_of(collector.step(alloc, gate)) {
            return end;
        }
    }
    CollectorEnd::Turns
}

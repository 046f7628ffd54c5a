//! A run, and what it did in the words of the index.

ghost use Rattle.std.specs.Prelude.{◌≡◌, ◌≤◌, Some, length, map};
ghost use Rattle.std.specs.List.{AllByRecursion, AllZip};
ghost use Rattle.source_log.specs.Log.{IsLog, Log};
ghost use Rattle.index_world.specs.Core.{Core};
ghost use Rattle.index_world.specs.World.{WorldStands};
ghost use Rattle.thread_run.specs.RunDid.{RunDid};
ghost use Rattle.thread_run.specs.Settled.{HasSettled, TellsSettled};

use crate::{RunEnd, RunOptions, Settled, run_unsettled, settle};
use clock_time::{Clock, ScriptClock};
use index_world::World;
use object_store::ObjectStore;
use root_search::LeafHold;
use run_plan::Request;
use source_log::SourceLog;
use std::alloc::{AllocError, Global};
use std::mem;
use std::sync::Wait;
use std::thread::Threads;

// What settling came to, and whether there was no memory.
fn told(outcome: Result<Settled, AllocError>) -> (Option<Settled>, bool)
    ensures { TellsSettled outcome result.0 result.1 }
{
    match outcome {
        Ok(settled) => (Some(settled), false),
        Err(_) => (None, true),
    }
}

// Settles the index behind a run, if there was memory for all.
fn settled<S: ObjectStore, L: SourceLog>(alloc: Global, end: RunEnd<S, L>) -> RunEnd<S, L>
    ensures { HasSettled end result }
{
    if end.memory {
        return end;
    }
    let RunEnd {
        world,
        logs,
        replies,
        ends,
        settled: before,
        memory: _,
    } = end;
    mem::drop(before);
    let (world, outcome) = settle(alloc, world);
    let (settled, memory) = told(outcome);
    RunEnd {
        world,
        logs,
        replies,
        ends,
        settled,
        memory,
    }
}

/// Runs indexers, searchers, a merger, a delete worker and a collector, each in a thread of its own, over one world. The partitions of the logs
/// are shared out among the indexers, which read them up to their ends; the clients of the requests are shared out among the searchers. Where it is
/// asked, the index is settled behind them.
pub fn run<
    R: Threads + Wait + Sync,
    S: ObjectStore + Send,
    K: Clock + Send,
    L: SourceLog + Send,
    H: LeafHold,
>(
    rt: &R,
    alloc: Global,
    world: World<S, ScriptClock>,
    clock: K,
    logs: Vec<L>,
    requests: Vec<Request>,
    options: RunOptions,
    hold: &H,
) -> RunEnd<S, L>
    requires indexers { (1 ≤ options.indexers) × (options.indexers ≤ 64) × (options.indexers ≤ length logs.items) }
    requires searchers { (1 ≤ options.searchers) × (options.searchers ≤ 64) }
    ensures logs { AllZip L.since logs.items result.logs.items }
    ensures ran { (core : Core) (log : Log) → IsLog log → WorldStands world core log → AllByRecursion (λ own. L.told own ≡ Some log) logs.items →
        RunDid options log (map L.fault_count logs.items) core requests.items (map L.fault_count result.logs.items) result }
{
    let end = run_unsettled(rt, alloc, world, clock, logs, requests, options, hold);
    // The count of a store has its range.
    let _count = end.world.faults();
    if options.settle {
        settled(alloc, end)
    } else {
        end
    }
}

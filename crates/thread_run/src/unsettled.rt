//! A run: indexers, searchers, a merger, a delete worker and a collector, each in a thread of its own.

ghost use Rattle.std.specs.Prelude.{◌≡◌, ◌⊎◌, ◌+◌, ◌<◌, ◌≤◌, ◌++◌, [], List, Some, length, map};
ghost use Rattle.std.specs.List.{AllByRecursion, AllZip};
ghost use Rattle.source_log.specs.Log.{IsLog, Log};
ghost use Rattle.shared_gate.specs.Recording.{IsStanding};
ghost use Rattle.run_plan.specs.declared.clients.Request.{Request as Asked};
ghost use Rattle.thread_run.specs.Jobs.{IsFresh, Tells};
ghost use Rattle.thread_run.specs.Made.{HasRun, NotBegun, RunMade, RunWorked};
ghost use Rattle.thread_run.specs.Planning.{IsPlanned};
ghost use Rattle.thread_run.specs.Room.{IsRoom};
ghost use Rattle.thread_run.specs.Staffing.{jobs_of, log_in};

use crate::beginning::{Begun, indexers_of};
use crate::closing::{Askers, closed, given_back, unbegun};
use crate::ending::{Ended, ends_of};
use crate::filling::append_within;
use crate::outcome::outcome_of;
use crate::planning::{Plan, planned};
use crate::room::{Room, room_for};
use crate::run_end::{RunEnd, RunOptions};
use crate::staffing::jobs_of;
use crate::{Apart, Sources, run_together};
use clock_time::{Clock, ScriptClock};
use index_world::World;
use object_store::ObjectStore;
use root_search::LeafHold;
use run_plan::Request;
use shared_gate::Recorded;
use source_log::SourceLog;
use std::alloc::Global;
use std::mem;
use std::sync::Wait;
use std::thread::Threads;

// The world of a recording.
fn world_of<S: ObjectStore, K: Clock, M: SourceLog>(
    shelf: Recorded<S, K, M>,
) -> World<S, ScriptClock>
    ensures { result ≡ shelf.world }
{
    let Recorded {
        world,
        clock,
        events,
        opened,
        source,
    } = shelf;
    mem::drop(clock);
    mem::drop(events);
    mem::drop(opened);
    mem::drop(source);
    world
}

// The jobs of indexers that were begun, and of all others, in threads of their own.
fn worked<
    R: Threads + Wait + Sync,
    S: ObjectStore + Send,
    K: Clock + Send,
    M: SourceLog + Send,
    L: SourceLog + Send,
    H: LeafHold,
>(
    rt: &R,
    alloc: Global,
    shelf: Recorded<S, K, M>,
    begun: Vec<Begun<L>>,
    unused: Vec<L>,
    plan: Plan,
    room: Room<L>,
    options: RunOptions,
    hold: &H,
) -> RunEnd<S, L>
    requires few { (length begun.items ≤ 64) × (options.searchers ≤ 64) × (0 < options.searchers) }
    requires shares { length plan.shares.items ≡ options.searchers }
    requires room { IsRoom (length begun.items) options.searchers (length begun.items + length unused.items) room }
    requires standing { IsStanding M.told shelf }
    requires none { shelf.events.items ≡ [] }
    requires fresh { AllByRecursion IsFresh (jobs_of begun.items plan.shares.items) }
    requires told { (log : Log) → M.told shelf.source.value ≡ Some log → IsLog log × AllByRecursion (Tells L.told log) (jobs_of begun.items plan.shares.items) }
    ensures logs { AllZip L.since (map log_in begun.items ++ unused.items) result.logs.items }
    ensures made { NotBegun shelf.world result ⊎ RunWorked M.told L.told L.fault_count L.since options.searchers options.turns begun.items unused.items plan shelf result }
{
    let Plan {
        shares,
        by,
        clients,
    } = plan;
    let Room {
        jobs,
        posts,
        outcome,
        ended,
    } = room;
    let (jobs, posts) = jobs_of(begun, shares, jobs, posts);
    match run_together(rt, alloc, shelf, jobs, options.turns, hold) {
        Ok((shelf, done)) => {
            let outcome = outcome_of(done, outcome);
            let askers = Askers {
                by: by.as_slice(),
                clients,
                searchers: options.searchers,
            };
            closed(
                alloc,
                world_of(shelf),
                posts,
                outcome,
                ended,
                unused,
                askers,
            )
        }
        Err(Apart { shelf, jobs }) => {
            let indexed = given_back(jobs, outcome.indexed);
            let Ended { logs, ends: _ } = ends_of(posts, indexed, ended);
            let mut logs = logs;
            append_within(&mut logs, unused);
            unbegun(alloc, world_of(shelf), logs)
        }
    }
}

// Reads the first logs, each by an indexer of its own, and leaves the others as they are.
fn together<
    R: Threads + Wait + Sync,
    S: ObjectStore + Send,
    K: Clock + Send,
    M: SourceLog + Send,
    L: SourceLog + Send,
    H: LeafHold,
>(
    rt: &R,
    alloc: Global,
    shelf: Recorded<S, K, M>,
    logs: Vec<L>,
    unused: Vec<L>,
    plan: Plan,
    room: Room<L>,
    options: RunOptions,
    hold: &H,
) -> RunEnd<S, L>
    requires few { (length logs.items ≤ 64) × (options.searchers ≤ 64) × (0 < options.searchers) }
    requires shares { length plan.shares.items ≡ options.searchers }
    requires room { IsRoom (length logs.items) options.searchers (length logs.items + length unused.items) room }
    requires standing { IsStanding M.told shelf }
    requires none { shelf.events.items ≡ [] }
    requires told { (log : Log) → M.told shelf.source.value ≡ Some log → IsLog log × AllByRecursion (λ own. L.told own ≡ Some log) logs.items }
    ensures logs { AllZip L.since (logs.items ++ unused.items) result.logs.items }
    ensures made { (requests : List Asked) → IsPlanned requests options.searchers plan →
        NotBegun shelf.world result ⊎ RunMade M.told L.told L.fault_count L.since options.searchers options.turns logs.items unused.items requests shelf result }
{
    match indexers_of(alloc, logs) {
        Ok(begun) => worked(rt, alloc, shelf, begun, unused, plan, room, options, hold),
        Err(logs) => {
            let Room { ended, .. } = room;
            let Ended { logs: all, ends: _ } = ended;
            let mut all = all;
            append_within(&mut all, logs);
            append_within(&mut all, unused);
            unbegun(alloc, world_of(shelf), all)
        }
    }
}

/// Runs indexers, searchers, a merger, a delete worker and a collector, each in a thread of its own, over one world. The partitions of the logs
/// are shared out among the indexers, which read them up to their ends; the clients of the requests are shared out among the searchers. The
/// index isn't settled.
pub fn run_unsettled<
    R: Threads + Wait + Sync,
    S: ObjectStore + Send,
    K: Clock + Send,
    L: SourceLog + Send,
    H: LeafHold,
>(
    rt: &R,
    alloc: Global,
    world: World<S, ScriptClock>,
    clock: K,
    logs: Vec<L>,
    requests: Vec<Request>,
    options: RunOptions,
    hold: &H,
) -> RunEnd<S, L>
    requires indexers { (1 ≤ options.indexers) × (options.indexers ≤ 64) × (options.indexers ≤ length logs.items) }
    requires searchers { (1 ≤ options.searchers) × (options.searchers ≤ 64) }
    ensures logs { AllZip L.since logs.items result.logs.items }
    ensures went { NotBegun world result ⊎ HasRun K L.told L.fault_count L.since options world logs.items requests.items result }
{
    let count = logs.len();
    let Ok(plan) = planned(alloc, requests, options.searchers) else {
        return unbegun(alloc, world, logs);
    };
    let Ok(room) = room_for(alloc, options.indexers, options.searchers, count) else {
        return unbegun(alloc, world, logs);
    };
    let mut logs = logs;
    let Ok(unused) = logs.split_off(options.indexers) else {
        return unbegun(alloc, world, logs);
    };
    let sources = Sources { logs };
    let _ = sources.faults();
    let shelf = Recorded::new(alloc, world, clock, &sources);
    let Sources { logs } = sources;
    together(rt, alloc, shelf, logs, unused, plan, room, options, hold)
}

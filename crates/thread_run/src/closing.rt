//! What comes back of a run.

ghost use Rattle.std.specs.Prelude.{◌≡◌, ◌+◌, ◌<◌, ◌≤◌, ◌^◌, ◌++◌, ◌∷◌, [], None, false, true, length, map, vec_capacity, vec_len};
ghost use Rattle.std.specs.List.{AllByRecursion};
ghost use Rattle.thread_run.specs.Closing.{IsWhole, is_short_collector, is_short_end, is_short_indexer, is_short_worker, readers_of};
ghost use Rattle.thread_run.specs.Ending.{at_work, ends_from, logs_behind};
ghost use Rattle.thread_run.specs.Gathering.{gathered};
ghost use Rattle.thread_run.specs.Replying.{by_client, replies_by};

use crate::ending::{Ended, ends_of};
use crate::filling::{append_within, either, push_within};
use crate::outcome::{Indexed, Outcome, Served};
use crate::replying::{Noted, replies_of};
use crate::run_end::RunEnd;
use crate::staffing::Post;
use crate::{ActorEnd, Job};
use clock_time::ScriptClock;
use index_world::World;
use indexing_run::IndexerEnd;
use object_store::ObjectStore;
use search_api::Reply;
use source_log::SourceLog;
use split_collector::CollectorEnd;
use std::alloc::Global;
use upkeep_run::WorkerEnd;

/// Nothing was done: there was no memory.
pub(crate) fn unbegun<S: ObjectStore, L: SourceLog>(
    alloc: Global,
    world: World<S, ScriptClock>,
    logs: Vec<L>,
) -> RunEnd<S, L>
    ensures world { result.world ≡ world }
    ensures logs { result.logs ≡ logs }
    ensures none { (result.replies.items ≡ []) × (result.ends.items ≡ []) × (result.settled ≡ None) }
    ensures memory { result.memory ≡ true }
{
    RunEnd {
        world,
        logs,
        replies: Vec::new(alloc),
        ends: Vec::new(alloc),
        settled: None,
        memory: true,
    }
}

// Puts the indexer of a job, where it has one, behind the others. It did nothing.
fn take_back<L: SourceLog>(job: Job<L>, indexed: &mut Vec<Indexed<L>>)
    requires { vec_len indexed.old < vec_capacity indexed.old }
    ensures indexers { map (λ one. one.indexer) indexed.new.items ≡ map (λ one. one.indexer) indexed.old.items ++ readers_of job }
    ensures room { (vec_len indexed.new ≤ vec_len indexed.old + 1) × (vec_capacity indexed.old ≤ vec_capacity indexed.new) }
{
    match job {
        Job::Index(indexer) => {
            let end = IndexerEnd::Memory;
            push_within(indexed, Indexed { indexer, end });
        }
        Job::Answer(_) => {}
        Job::Merge => {}
        Job::Delete => {}
        Job::Collect => {}
    }
}

/// The indexers of jobs that weren't begun. There is room for them.
pub(crate) fn given_back<L: SourceLog>(
    jobs: Vec<Job<L>>,
    indexed: Vec<Indexed<L>>,
) -> Vec<Indexed<L>>
    requires none { indexed.items ≡ [] }
    requires room { vec_len jobs ≤ vec_capacity indexed }
    ensures { map (λ one. one.indexer) result.items ≡ gathered readers_of jobs.items }
{
    let mut indexed = indexed;
    for job in jobs {
        take_back(job, &mut indexed);
    }
    indexed
}

fn is_short_indexer(end: &IndexerEnd) -> bool
    ensures { result ≡ is_short_indexer end.now }
{
    match end {
        IndexerEnd::CaughtUp => false,
        IndexerEnd::Refused(_) => false,
        IndexerEnd::Fault(_) => false,
        IndexerEnd::SourceFault { .. } => false,
        IndexerEnd::Turns => false,
        IndexerEnd::Memory => true,
    }
}

fn is_short_worker(end: &WorkerEnd) -> bool
    ensures { result ≡ is_short_worker end.now }
{
    match end {
        WorkerEnd::Nothing => false,
        WorkerEnd::Refused(_) => false,
        WorkerEnd::Fault(_) => false,
        WorkerEnd::Turns => false,
        WorkerEnd::Memory => true,
    }
}

fn is_short_collector(end: &CollectorEnd) -> bool
    ensures { result ≡ is_short_collector end.now }
{
    match end {
        CollectorEnd::Nothing => false,
        CollectorEnd::Fault(_) => false,
        CollectorEnd::Turns => false,
        CollectorEnd::Memory => true,
    }
}

// Whether an actor ended for want of memory.
fn is_short_end(end: &ActorEnd) -> bool
    ensures { result ≡ is_short_end end.now }
{
    match end {
        ActorEnd::Indexer(_, end) => is_short_indexer(end),
        ActorEnd::Merger(end) => is_short_worker(end),
        ActorEnd::Deleter(end) => is_short_worker(end),
        ActorEnd::Collector(end) => is_short_collector(end),
    }
}

// Whether one of the actors did.
fn lack_memory(ends: &[ActorEnd]) -> bool
    ensures { result ≡ false → AllByRecursion (λ end. is_short_end end ≡ false) ends.now }
{
    for end in ends {
        if is_short_end(end) {
            return true;
        }
    }
    false
}

// The replies, and whether there was no memory for all.
fn all_replies(
    alloc: Global,
    by: &[usize],
    clients: usize,
    searchers: usize,
    served: Vec<Served>,
) -> Noted<Reply>
    requires { 0 < searchers }
    ensures replies { result.short ≡ false → result.all.items ≡ replies_by by.now (by_client searchers clients served.items) }
    ensures served { result.short ≡ false → AllByRecursion (λ one. one.short ≡ false) served.items }
    ensures answered { result.short ≡ false → AllByRecursion (λ one. one.short ≡ false) (by_client searchers clients served.items) }
{
    match replies_of(alloc, by, clients, searchers, served) {
        Ok(noted) => noted,
        Err(_) => Noted {
            all: Vec::new(alloc),
            short: true,
        },
    }
}

/// The clients of a run and its searchers.
#[derive(Clone, Copy)]
pub(crate) struct Askers<'a> {
    /// Of each request which of the clients asks it.
    pub by: &'a [usize],
    pub clients: usize,
    pub searchers: usize,
}

/// What comes back behind the jobs. There is room for the logs and the ends; those of no indexer come behind the others.
pub(crate) fn closed<'a, S: ObjectStore, L: SourceLog>(
    alloc: Global,
    world: World<S, ScriptClock>,
    posts: Vec<Post<L>>,
    outcome: Outcome<L>,
    all: Ended<L>,
    unused: Vec<L>,
    askers: Askers<'a>,
) -> RunEnd<S, L>
    requires some { 0 < askers.searchers }
    requires as_many { at_work posts.items ≤ length outcome.indexed.items }
    requires few { length posts.items < 2 ^ 63 }
    requires none { (all.logs.items ≡ []) × (all.ends.items ≡ []) }
    requires logs { vec_len posts + vec_len unused ≤ vec_capacity all.logs }
    requires ends { vec_len posts + vec_len outcome.ends ≤ vec_capacity all.ends }
    ensures world { result.world ≡ world }
    ensures logs { result.logs.items ≡ logs_behind posts.items outcome.indexed.items ++ unused.items }
    ensures ends { result.ends.items ≡ ends_from 0 posts.items outcome.indexed.items ++ outcome.ends.items }
    ensures replies { result.memory ≡ false → result.replies.items ≡ replies_by askers.entry.by.now (by_client askers.entry.searchers askers.entry.clients outcome.served.items) }
    ensures whole { result.memory ≡ false → IsWhole result.ends.items outcome.served.items (by_client askers.entry.searchers askers.entry.clients outcome.served.items) }
    ensures settled { result.settled ≡ None }
{
    let Outcome {
        indexed,
        served,
        ends: others,
    } = outcome;
    let Ended { logs, ends } = ends_of(posts, indexed, all);
    let mut logs = logs;
    let mut ends = ends;
    append_within(&mut logs, unused);
    append_within(&mut ends, others);
    let lacking = lack_memory(ends.as_slice());
    let noted = all_replies(alloc, askers.by, askers.clients, askers.searchers, served);
    RunEnd {
        world,
        logs,
        replies: noted.all,
        ends,
        settled: None,
        memory: either(lacking, noted.short),
    }
}

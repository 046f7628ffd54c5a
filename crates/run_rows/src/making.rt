//! What rows are made of: an index, logs and requests; and what is told of them.

ghost use Rattle.std.specs.Prelude.{◌≡◌, ◌≤◌, IfOk, length};

use byte_fields::{Client, Text};
use clock_time::ScriptClock;
use index_world::{Unopened, World};
use object_store::{MemoryStore, ObjectStore};
use root_search::LeafHold;
use run_plan::Request;
use search_api::{Reply, print_reply};
use source_checkpoint::Partition;
use source_log::{MemoryLog, SourceLog};
use std::alloc::{AllocError, Global};
use std::mem;
use std::sync::Wait;
use std::test::*;
use std::thread::Threads;
use thread_run::{ActorEnd, RunEnd, RunOptions, end_line, run};

/// A world over a store in memory.
pub type Memory = World<MemoryStore, ScriptClock>;

/// A new index with this configuration, made at moment 0.
pub fn new_world(alloc: Global, config: &str) -> Result<Memory, Fail> {
    let store = MemoryStore::vacant(alloc);
    match World::create(alloc, store, ScriptClock::at(0), config.as_bytes()) {
        Ok(world) => Ok(world),
        Err(Unopened { error, store }) => {
            mem::drop(error);
            mem::drop(store);
            Err(Fail::new("no index"))
        }
    }
}

pub fn let_go(world: Memory) {
    let (store, clock) = world.unload();
    mem::drop(store);
    mem::drop(clock);
}

/// Puts records behind those of a partition.
pub fn push_all(
    alloc: Global,
    log: &mut MemoryLog,
    name: &str,
    records: &[&str],
) -> Result<(), Fail> {
    let partition = Partition::from_text(name)?;
    for record in records {
        log.push(alloc, &partition, record.as_bytes())?;
    }
    Ok(())
}

/// A list of one log.
pub fn one_of<L: Drop>(alloc: Global, log: L) -> Result<Vec<L>, AllocError>
    ensures { IfOk result (λ logs. length logs.items ≡ 1) }
{
    let mut logs = Vec::new(alloc);
    logs.push(log)?;
    Ok(logs)
}

/// A list of two logs.
pub fn two_of<L: Drop>(alloc: Global, first: L, second: L) -> Result<Vec<L>, AllocError>
    ensures { IfOk result (λ logs. length logs.items ≡ 2) }
{
    let mut logs = Vec::new(alloc);
    logs.push(first)?;
    logs.push(second)?;
    Ok(logs)
}

/// Appends a request of a client.
pub fn ask(
    alloc: Global,
    requests: &mut Vec<Request>,
    client: &str,
    text: &str,
) -> Result<(), Fail> {
    let client = Client::from_text(client).ok_or("no client")?;
    let text = Text::from_slice(alloc, text.as_bytes())?;
    requests.push(Request { client, text })?;
    Ok(())
}

/// A run of one indexer and two searchers over one log, at moment 1000. No actor of upkeep takes a step.
pub fn run_one<R: Threads + Wait + Sync, L: SourceLog + Send, H: LeafHold>(
    rt: &R,
    alloc: Global,
    world: Memory,
    logs: Vec<L>,
    requests: Vec<Request>,
    hold: &H,
) -> RunEnd<MemoryStore, L>
    requires { length logs.items ≡ 1 }
{
    let options = RunOptions {
        indexers: 1,
        searchers: 2,
        turns: 0,
        settle: false,
    };
    let clock = ScriptClock::at(1000);
    run(rt, alloc, world, clock, logs, requests, options, hold)
}

/// A run of two indexers and two searchers over two logs, at moment 1000, in which the actors of upkeep take so many steps at most.
pub fn run_two<R: Threads + Wait + Sync, L: SourceLog + Send, H: LeafHold>(
    rt: &R,
    alloc: Global,
    world: Memory,
    logs: Vec<L>,
    requests: Vec<Request>,
    turns: u64,
    settle: bool,
    hold: &H,
) -> RunEnd<MemoryStore, L>
    requires { length logs.items ≡ 2 }
{
    let options = RunOptions {
        indexers: 2,
        searchers: 2,
        turns,
        settle,
    };
    let clock = ScriptClock::at(1000);
    run(rt, alloc, world, clock, logs, requests, options, hold)
}

/// The lines of replies.
pub fn lines_of(alloc: Global, replies: &[Reply]) -> Result<String, Fail> {
    let mut lines = String::new(alloc);
    for reply in replies {
        let line = print_reply(alloc, reply)?;
        let line = String::from_utf8_lossy(alloc, line.as_slice())?;
        lines.push_str(line.as_str())?;
        lines.push('\n')?;
    }
    Ok(lines)
}

/// The lines of ends.
pub fn ends_of(alloc: Global, ends: &[ActorEnd]) -> Result<String, Fail> {
    let mut lines = String::new(alloc);
    for end in ends {
        if let Some(line) = end_line(alloc, end)? {
            let line = String::from_utf8_lossy(alloc, line.bytes.as_slice())?;
            lines.push_str(line.as_str())?;
        }
        lines.push('\n')?;
    }
    Ok(lines)
}

//! An indexer and two searchers that wait for each other.

use crate::making::{Memory, ask, let_go, lines_of, new_world, one_of, push_all, run_one};
use byte_fields::Client;
use root_search::{LeafHold, NoHold};
use run_plan::Request;
use source_checkpoint::Partition;
use source_log::{MemoryLog, Partitions, ReadError, Records, SourceLog};
use std::alloc::Global;
use std::mem;
use std::sync::Wait;
use std::sync::atomic::{AtomicBool, Ordering};
use std::test::*;
use std::thread::{self, Threads};
use thread_run::RunEnd;

const CONFIG: &str =
    "version = \"0.9\"\nindex_id = \"logs\"\n[doc_mapping]\nmode = \"strict\"\n[[doc_mapping.field_mappings]]\nname = \"body\"\ntype = \"text\"\nrecord = \"position\"\n[[doc_mapping.field_mappings]]\nname = \"level\"\ntype = \"text\"\ntokenizer = \"raw\"\nfast = true\n[indexing_settings.merge_policy]\ntype = \"stable_log\"\nmin_level_num_docs = 100\nmerge_factor = 2\nmax_merge_factor = 4\n[search_settings]\ndefault_search_fields = [\"body\"]\n[upkeep]\nstaged_grace_secs = 200\ndeletion_grace_secs = 100\n";

const ALL: &str = "{\"search\":{\"query\":\"*\"}}";

const FOX: &str = "{\"delete\":{\"query\":\"fox\"}}";

// Both documents stand in the one split, published at revision 3; the delete is the next entry. No delete worker takes a step, so the fox is found
// behind it too.
const REPLIES: &str =
    "{\"aggregations\":{},\"client\":\"a\",\"hits\":[{\"body\":\"red fox\"},{\"body\":\"red hen\"}],\"num_hits\":2,\"revision\":3}\n{\"aggregations\":{},\"client\":\"b\",\"hits\":[{\"body\":\"red fox\"},{\"body\":\"red hen\"}],\"num_hits\":2,\"revision\":3}\n{\"client\":\"a\",\"opstamp\":1,\"revision\":4}\n{\"aggregations\":{},\"client\":\"a\",\"hits\":[{\"body\":\"red fox\"},{\"body\":\"red hen\"}],\"num_hits\":2,\"revision\":4}\n";

/// So often a thread looks for what another one does.
const LOOKS: u64 = 10_000_000;

// What happened so far, and whether a thread looked for it in vain.
#[derive(Drop)]
struct Signals {
    leaf_begun: AtomicBool,
    read_begun: AtomicBool,
    other_replied: AtomicBool,
    given_up: AtomicBool,
}

impl Signals {
    fn none() -> Signals {
        Signals {
            leaf_begun: AtomicBool::new(false),
            read_begun: AtomicBool::new(false),
            other_replied: AtomicBool::new(false),
            given_up: AtomicBool::new(false),
        }
    }

    // Looks until that happened.
    fn await_one(&self, happened: &AtomicBool) {
        for _ in 0..LOOKS {
            if happened.load(Ordering::SeqCst) {
                return;
            }
            thread::yield_now();
        }
        self.given_up.store(true, Ordering::SeqCst);
    }
}

// A log whose first read waits until the first leaf has begun.
#[derive(Drop)]
struct HeldLog<'a> {
    log: MemoryLog,
    signals: &'a Signals,
}

impl<'a> SourceLog for HeldLog<'a> {
    ghost use Rattle.std.specs.Prelude.{◌≡◌, Some, refl};
    ghost use Rattle.std.proofs.Common.{◌∙◌};

    ghost told = { λ held. Some held.log };

    ghost fault_count = { λ _. 0 };

    ghost since = { λ first now. now.log ≡ first.log };

    fn partitions(&mut self, alloc: Global) -> Result<Partitions, ReadError> {
        self.log.partitions(alloc)
    }

    fn read(
        &mut self,
        alloc: Global,
        partition: &Partition,
        from: u64,
        max: u32,
    ) -> Result<Records, ReadError> {
        self.signals.read_begun.store(true, Ordering::SeqCst);
        self.signals.await_one(&self.signals.leaf_begun);
        self.log.read(alloc, partition, from, max)
    }

    fn faults(&self) -> u64 {
        self.log.faults()
    }

    ghost since_itself = { λ held. refl };

    ghost since_then = { λ first second third a b. b ∙ a };
}

// Keeps the first leaf of one client until the log is read and the other client has its reply.
#[derive(Drop)]
struct FirstLeaf<'a> {
    signals: &'a Signals,
    held: Client,
}

impl<'a> LeafHold for FirstLeaf<'a> {
    fn before_leaf(&self, client: &Client) {
        if client.is_same(&self.held) {
            self.signals.leaf_begun.store(true, Ordering::SeqCst);
            self.signals.await_one(&self.signals.read_begun);
            self.signals.await_one(&self.signals.other_replied);
        }
    }

    fn after_reply(&self, client: &Client) {
        if !client.is_same(&self.held) {
            self.signals.other_replied.store(true, Ordering::SeqCst);
        }
    }
}

// A log of three records, of which one is no document.
fn three_records(alloc: Global) -> Result<MemoryLog, Fail> {
    let mut log = MemoryLog::vacant(alloc);
    let records = ["{\"body\":\"red fox\"}", "oops", "{\"body\":\"red hen\"}"];
    push_all(alloc, &mut log, "p0", &records)?;
    Ok(log)
}

fn four_requests(alloc: Global) -> Result<Vec<Request>, Fail> {
    let mut requests = Vec::new(alloc);
    ask(alloc, &mut requests, "a", ALL)?;
    ask(alloc, &mut requests, "b", ALL)?;
    ask(alloc, &mut requests, "a", FOX)?;
    ask(alloc, &mut requests, "a", ALL)?;
    Ok(requests)
}

// An index with the records of the log.
fn indexed<R: Threads + Wait + Sync>(rt: &R, alloc: Global) -> Result<Memory, Fail> {
    let logs = one_of(alloc, three_records(alloc)?)?;
    let world = new_world(alloc, CONFIG)?;
    let end = run_one(rt, alloc, world, logs, Vec::new(alloc), &NoHold);
    let RunEnd {
        world,
        logs: _,
        replies: _,
        ends: _,
        settled: _,
        memory: _,
    } = end;
    Ok(world)
}

// The lines of the replies of an indexer and two searchers at work: the first leaf of client a waits until the log is read and client b has its
// reply, and the log's first read until that leaf has begun.
fn shared_work<R: Threads + Wait + Sync>(
    rt: &R,
    alloc: Global,
    signals: &Signals,
) -> Result<String, Fail> {
    let requests = four_requests(alloc)?;
    let held = Client::from_text("a").ok_or("no client")?;
    let log = three_records(alloc)?;
    let logs = one_of(alloc, HeldLog { log, signals })?;
    let hold = FirstLeaf { signals, held };
    let world = indexed(rt, alloc)?;
    let end = run_one(rt, alloc, world, logs, requests, &hold);
    let RunEnd {
        world,
        logs,
        replies,
        ends: _,
        settled: _,
        memory: _,
    } = end;
    let_go(world);
    mem::drop(logs);
    lines_of(alloc, replies.as_slice())
}

#[test]
fn an_indexer_and_two_searchers_share_a_world(rt: HostRuntime) -> Result<(), Fail> {
    let signals = Signals::none();
    let lines = shared_work(&rt, rt.alloc(), &signals)?;
    let given_up = signals.given_up.load(Ordering::SeqCst);
    assert!(rt; !given_up);
    assert!(rt; lines.as_str() == REPLIES);
    Ok(())
}

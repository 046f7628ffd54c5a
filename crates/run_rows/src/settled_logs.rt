//! Two readers of one log, and an index that is settled behind them.

use crate::making::{Memory, ask, let_go, new_world, push_all, run_two, two_of};
use meta_store::Meta;
use root_search::NoHold;
use run_plan::Request;
use source_checkpoint::Partition;
use source_log::MemoryLog;
use split_states::RowState;
use std::alloc::Global;
use std::mem;
use std::sync::Wait;
use std::test::*;
use std::thread::Threads;
use thread_run::{RunEnd, Settled};

// Splits of two documents, of which two or three are merged.
const CONFIG: &str =
    "version = \"0.9\"\nindex_id = \"logs\"\n[doc_mapping]\nmode = \"strict\"\n[[doc_mapping.field_mappings]]\nname = \"body\"\ntype = \"text\"\n[indexing_settings]\nsplit_num_docs_target = 2\n[indexing_settings.merge_policy]\ntype = \"stable_log\"\nmin_level_num_docs = 100\nmerge_factor = 2\nmax_merge_factor = 3\n[search_settings]\ndefault_search_fields = [\"body\"]\n";

const FOX: &str = "{\"body\":\"red fox\"}";

const HEN: &str = "{\"body\":\"old hen\"}";

// Three partitions with 9, 4 and 7 records, of which three are no documents.
fn new_log(alloc: Global) -> Result<MemoryLog, Fail> {
    let mut log = MemoryLog::vacant(alloc);
    push_all(
        alloc,
        &mut log,
        "p0",
        &[FOX, HEN, FOX, "oops", HEN, HEN, FOX, HEN, HEN],
    )?;
    push_all(alloc, &mut log, "p1", &[HEN, HEN, "oops", FOX])?;
    push_all(
        alloc,
        &mut log,
        "p2",
        &[HEN, FOX, HEN, HEN, "oops", FOX, HEN],
    )?;
    Ok(log)
}

fn requests_of(alloc: Global) -> Result<Vec<Request>, Fail> {
    let mut requests = Vec::new(alloc);
    ask(
        alloc,
        &mut requests,
        "d",
        "{\"delete\":{\"query\":\"fox\"}}",
    )?;
    ask(alloc, &mut requests, "s", "{\"search\":{\"query\":\"*\"}}")?;
    ask(
        alloc,
        &mut requests,
        "d",
        "{\"delete\":{\"query\":\"red\"}}",
    )?;
    ask(
        alloc,
        &mut requests,
        "s",
        "{\"search\":{\"query\":\"hen\"}}",
    )?;
    Ok(requests)
}

// What is asked of the index: the marks of the partitions, the opstamp of the last delete, and how many spans of published rows are behind it.
struct Found {
    marks: [u64; 3],
    opstamp: u64,
    behind: usize,
    is_whole: bool,
}

fn mark_of(meta: &Meta, name: &str) -> u64 {
    match Partition::from_text(name) {
        Ok(partition) => meta.checkpoint(&partition),
        Err(_) => 0,
    }
}

// How many spans of published rows are not applied up to an opstamp.
fn behind(meta: &Meta, opstamp: u64) -> usize {
    let mut count: usize = 0;
    for row in meta.rows().as_slice() {
        if let RowState::Published = row.state {
            for span in row.spans.as_slice() {
                if span.applied != opstamp {
                    count = count.saturating_add(1);
                }
            }
        }
    }
    count
}

fn found_in(meta: &Meta, is_whole: bool) -> Found {
    let opstamp = meta.last_opstamp();
    Found {
        marks: [
            mark_of(meta, "p0"),
            mark_of(meta, "p1"),
            mark_of(meta, "p2"),
        ],
        opstamp,
        behind: behind(meta, opstamp),
        is_whole,
    }
}

// A run over two logs, in which the actors of upkeep take so many steps at most, and which settles the index.
fn settled_run<R: Threads + Wait + Sync>(
    rt: &R,
    alloc: Global,
    turns: u64,
) -> Result<(Found, usize), Fail> {
    let logs = two_of(alloc, new_log(alloc)?, new_log(alloc)?)?;
    let requests = requests_of(alloc)?;
    let world = new_world(alloc, CONFIG)?;
    let end = run_two(rt, alloc, world, logs, requests, turns, true, &NoHold);
    let RunEnd {
        world,
        logs,
        replies,
        ends: _,
        settled,
        memory: _,
    } = end;
    mem::drop(logs);
    let is_whole = matches!(&settled, Some(Settled::Whole));
    let found = found_in(world.meta(), is_whole);
    let_go(world);
    Ok((found, replies.len()))
}

#[test]
fn two_logs_settle(rt: HostRuntime) -> Result<(), Fail> {
    let alloc = rt.alloc();
    for turns in [0, 7, 1000] {
        let (found, replies) = settled_run(&rt, alloc, turns)?;
        let Found {
            marks,
            opstamp,
            behind,
            is_whole,
        } = found;
        assert!(rt; is_whole, "at {turns}");
        assert_eq!(rt; replies, 4, "at {turns}");
        assert!(rt; marks == [9, 4, 7], "at {turns}");
        assert_eq!(rt; opstamp, 2, "at {turns}");
        assert_eq!(rt; behind, 0, "at {turns}");
    }
    Ok(())
}

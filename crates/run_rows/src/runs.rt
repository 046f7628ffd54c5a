//! Runs whose replies depend on which thread comes first: of what kind each reply is, and how each actor ended.

use crate::making::{ask, ends_of, let_go, new_world, one_of, push_all, run_one, run_two, two_of};
use root_search::NoHold;
use run_plan::Request;
use search_api::{Reply, Said};
use source_log::MemoryLog;
use std::alloc::Global;
use std::mem;
use std::test::*;
use thread_run::{RunEnd, Settled};

const CONFIG: &str =
    "version = \"0.9\"\nindex_id = \"logs\"\n[doc_mapping]\nmode = \"strict\"\n[[doc_mapping.field_mappings]]\nname = \"n\"\ntype = \"u64\"\n";

// Three partitions with so many records each.
fn new_log(alloc: Global) -> Result<MemoryLog, Fail> {
    let mut log = MemoryLog::vacant(alloc);
    let records = ["{\"n\":1}", "{\"n\":1}", "{\"n\":2}", "{\"n\":1}"];
    for name in ["a", "b", "c"] {
        push_all(alloc, &mut log, name, &records)?;
    }
    Ok(log)
}

fn requests_of(alloc: Global) -> Result<Vec<Request>, Fail> {
    let mut requests = Vec::new(alloc);
    ask(alloc, &mut requests, "u", "{\"search\":{\"query\":\"*\"}}")?;
    ask(
        alloc,
        &mut requests,
        "v",
        "{\"delete\":{\"query\":\"n:1\"}}",
    )?;
    ask(
        alloc,
        &mut requests,
        "u",
        "{\"search\":{\"query\":\"n:1\"}}",
    )?;
    ask(alloc, &mut requests, "w", "{\"no\":1}")?;
    ask(alloc, &mut requests, "v", "{\"search\":{\"query\":\"*\"}}")?;
    Ok(requests)
}

fn kind_of(said: &Said) -> &'static str {
    match said {
        Said::Found { .. } => " found ",
        Said::Deleted { .. } => " deleted ",
        Said::Refused(_) => " refused ",
    }
}

// The client and the kind of each reply.
fn kinds_of(alloc: Global, replies: &[Reply]) -> Result<String, Fail> {
    let mut kinds = String::new(alloc);
    for reply in replies {
        let client = String::from_utf8_lossy(alloc, reply.client.as_bytes())?;
        kinds.push_str(client.as_str())?;
        kinds.push_str(kind_of(&reply.said))?;
    }
    Ok(kinds)
}

const KINDS: &str = "u found v deleted u found w refused v found ";

#[test]
fn two_indexers_and_two_searchers_settle(rt: HostRuntime) -> Result<(), Fail> {
    let alloc = rt.alloc();
    let logs = two_of(alloc, new_log(alloc)?, new_log(alloc)?)?;
    let requests = requests_of(alloc)?;
    let world = new_world(alloc, CONFIG)?;
    let end = run_two(&rt, alloc, world, logs, requests, 1000, true, &NoHold);
    let RunEnd {
        world,
        logs,
        replies,
        ends,
        settled,
        memory,
    } = end;
    let_go(world);
    assert!(rt; !memory && logs.len() == 2);
    mem::drop(logs);
    let kinds = kinds_of(alloc, replies.as_slice())?;
    assert!(rt; kinds.as_str() == KINDS);
    let lines = ends_of(alloc, ends.as_slice())?;
    assert!(rt;
        lines.as_str()
            == "indexer 0 caughtup\nindexer 1 caughtup\nmerger nothing\ndeleter nothing\ncollector nothing\n"
    );
    let is_whole = matches!(&settled, Some(Settled::Whole));
    assert!(rt; is_whole);
    Ok(())
}

#[test]
fn actors_that_take_no_step_end_so(rt: HostRuntime) -> Result<(), Fail> {
    let alloc = rt.alloc();
    let logs = one_of(alloc, new_log(alloc)?)?;
    let requests = requests_of(alloc)?;
    let world = new_world(alloc, CONFIG)?;
    let end = run_one(&rt, alloc, world, logs, requests, &NoHold);
    let RunEnd {
        world,
        logs,
        replies,
        ends,
        settled,
        memory,
    } = end;
    let_go(world);
    assert!(rt; !memory && logs.len() == 1);
    mem::drop(logs);
    let kinds = kinds_of(alloc, replies.as_slice())?;
    assert!(rt; kinds.as_str() == KINDS);
    let lines = ends_of(alloc, ends.as_slice())?;
    assert!(rt;
        lines.as_str() == "indexer 0 caughtup\nmerger turns\ndeleter turns\ncollector turns\n"
    );
    let is_asked = settled.is_some();
    assert!(rt; !is_asked);
    Ok(())
}

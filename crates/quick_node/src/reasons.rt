//! What is said to a person on standard error. It stands outside of what is promised, and standard output does not change by it.

use node_run::Logs;
use object_store::{ObjectStore, SteadyStore};
use real_edge::{Disk, FileLog, FolderStore, GrowingFiles, Reason};
use run_progress::{CountedLog, CountedStore};
use source_log::{MemoryLog, SourceLog};
use std::time;

const USAGE: &str = "usage: quick_node STORE LOGS COMMAND

  STORE     the folder of the index, or `memory`
  LOGS      the folder of the logs, a file for each partition and a record on each line, or `memory`

  create    makes the index of the configuration on standard input
  run       --indexers N --searchers N --turns N [--settle] [--progress]
            lets every actor work at once, and answers the requests on standard input
  drive     does the lines of a schedule on standard input
  splits    writes a line for each split of the index
  describe  writes the index as a whole";

/// Why a call of the system failed first, of what keeps it.
pub trait Reasoned {
    fn first_reason(&self) -> Option<&Reason>;
}

impl<D: Disk> Reasoned for FolderStore<D> {
    fn first_reason(&self) -> Option<&Reason> {
        self.first_reason()
    }
}

impl Reasoned for SteadyStore {
    fn first_reason(&self) -> Option<&Reason> {
        None
    }
}

impl<G: GrowingFiles> Reasoned for FileLog<G> {
    fn first_reason(&self) -> Option<&Reason> {
        self.first_reason()
    }
}

impl Reasoned for MemoryLog {
    fn first_reason(&self) -> Option<&Reason> {
        None
    }
}

impl<'a, S: ObjectStore + Reasoned, R: Eprint + time::Clock> Reasoned for CountedStore<'a, S, R> {
    fn first_reason(&self) -> Option<&Reason> {
        self.store().first_reason()
    }
}

impl<'a, L: SourceLog + Reasoned, R: Eprint + time::Clock> Reasoned for CountedLog<'a, L, R> {
    fn first_reason(&self) -> Option<&Reason> {
        self.log().first_reason()
    }
}

// The first reason of the first log that has one.
fn reason_of_logs<L: SourceLog + Reasoned>(logs: &Logs<L>) -> Option<&Reason> {
    match logs {
        Logs::Unread(logs) => logs.iter().find_map(|log| log.first_reason()),
        Logs::Read(indexers) => indexers
            .iter()
            .find_map(|indexer| indexer.log().first_reason()),
    }
}

// What a status says where no call of the system failed.
fn sentence_of(status: u8) -> &'static str {
    match status {
        1 => USAGE,
        2 => "quick_node: the configuration is refused, with the key above",
        3 =>
            "quick_node: the input is refused from the line above on; of a schedule the lines before it are done, of a run nothing is",
        4 => "quick_node: the store failed",
        5 => "quick_node: standard input failed",
        6 => "quick_node: standard output failed; what was done is done",
        7 => "quick_node: the store is no sound index, by the object above; nothing was written",
        8 => "quick_node: the store has no index yet; `create` makes one",
        9 => "quick_node: the store has an index already",
        10 => "quick_node: the limit above was passed",
        _ => "quick_node: there was no memory",
    }
}

/// Says why a call of the system failed, if one did. Whether one did.
pub fn tell_reason(rt: &HostRuntime, reason: Option<&Reason>) -> bool {
    match reason {
        Some(reason) => {
            let _ = eprintln!(rt; "quick_node: {reason}");
            true
        }
        None => false,
    }
}

/// Says why a call of the system failed that a log keeps, and lets the logs go. Whether one did.
pub fn tell_logs<L: SourceLog + Reasoned>(rt: &HostRuntime, logs: Logs<L>) -> bool {
    tell_reason(rt, reason_of_logs(&logs))
}

/// Says why a call ended with a status that is not 0, where no call of the system failed.
pub fn tell_status(rt: &HostRuntime, status: u8) {
    if status != 0 {
        let _ = eprintln!(rt; "{}", sentence_of(status));
    }
}

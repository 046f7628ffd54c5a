//! A schedule that is played: lines in any order over a node, in lives with failing calls and one without.

use crate::asked::Asked;
use crate::clients::{Clients, Request, name_of};
use crate::counts::Counts;
use crate::dice::Dice;
use crate::failing_store::FailingStore;
use crate::plain::Plain;
use crate::shown::Shown;
use crate::wrong::Wrong;
use clock_time::{MOMENT_END, ScriptClock};
use index_world::{Unopened, World, WorldError};
use meta_journal::{Entries, decode_entry, meta_key};
use node_run::{Accepts, DriveNode, LineError, Unstarted, read_line};
use object_store::{GetError, ObjectStore};
use source_log::MemoryLog;
use std::alloc::Global;
use std::mem;
use std::thread::Threads;

// Small splits, so that there are many, of which two or three are merged; short times of grace.
const CONFIG: &str =
    "version = \"0.9\"\nindex_id = \"logs\"\n[doc_mapping]\nmode = \"strict\"\ntimestamp_field = \"ts\"\n[[doc_mapping.field_mappings]]\nname = \"body\"\ntype = \"text\"\nrecord = \"position\"\n[[doc_mapping.field_mappings]]\nname = \"ts\"\ntype = \"datetime\"\nfast = true\n[indexing_settings]\nsplit_num_docs_target = 3\n[indexing_settings.merge_policy]\ntype = \"stable_log\"\nmin_level_num_docs = 100\nmerge_factor = 2\nmax_merge_factor = 3\n[search_settings]\ndefault_search_fields = [\"body\"]\n[upkeep]\nstaged_grace_secs = 40\ndeletion_grace_secs = 30\n";

const DELETION_GRACE: u64 = 30;

/// How many lines a life with failing calls has.
const LINES: u64 = 120;

/// How many lines a life without failing calls has at most.
const MOST_LINES: u64 = 2_000;

/// No journal of a schedule has more entries.
const MOST_ENTRIES: u64 = 10_000;

type Node = DriveNode<FailingStore, MemoryLog>;

/// A schedule of a seed.
#[derive(Drop)]
pub struct Schedule {
    alloc: Global,
    dice: Dice,
    plain: Plain,
    clients: Clients,
    indexers: u64,
    moment: u64,
}

// What a node answers to a line.
fn answered<Rt: Threads + Sync>(
    rt: &Rt,
    alloc: Global,
    node: &mut Node,
    text: &str,
) -> Result<String, Wrong> {
    let line = match read_line(alloc, text.as_bytes()) {
        Ok(line) => line,
        Err(LineError::BadLine) => return Err(Wrong::seen(alloc, "no line:", text)),
        Err(LineError::Memory(refused)) => return Err(Wrong::from(refused)),
    };
    match node.accepts(&line) {
        Accepts::Yes => {
            let out = node.step(rt, alloc, &line)?;
            Ok(String::from_utf8_lossy(alloc, out.bytes.as_slice())?)
        }
        Accepts::BadLine | Accepts::TooManyClients => Err(Wrong::seen(alloc, "refused:", text)),
    }
}

// A world that was not opened gives its store back where a call of it failed.
fn given_back(alloc: Global, unopened: Unopened<FailingStore>) -> Result<FailingStore, Wrong> {
    let Unopened { error, store } = unopened;
    let is_fault = matches!(&error, WorldError::StoreFault { .. });
    mem::drop(error);
    if is_fault {
        Ok(store)
    } else {
        mem::drop(store);
        Err(Wrong::seen(alloc, "the index", "does not open"))
    }
}

// A store with a new index.
fn new_index(alloc: Global, seed: u64) -> Result<FailingStore, Wrong> {
    let store = FailingStore::vacant(alloc, seed);
    match World::create(alloc, store, ScriptClock::at(0), CONFIG.as_bytes()) {
        Ok(world) => Ok(world.unload().0),
        Err(Unopened { error, store }) => {
            mem::drop(error);
            mem::drop(store);
            Err(Wrong::seen(alloc, "no index", "was made"))
        }
    }
}

// A log for each indexer, all with the same records.
fn logs_of(alloc: Global, plain: &Plain, indexers: u64) -> Result<Vec<MemoryLog>, Wrong> {
    let mut logs = Vec::new(alloc);
    for _ in 0..indexers {
        logs.push(plain.log()?)?;
    }
    Ok(logs)
}

// A node over a store, or the store again where a call failed while the index was opened.
fn opened(
    alloc: Global,
    store: FailingStore,
    logs: Vec<MemoryLog>,
    moment: u64,
) -> Result<Result<Node, FailingStore>, Wrong> {
    let moment = if moment < MOMENT_END { moment } else { 0 };
    let world = match World::load(alloc, store, ScriptClock::at(moment)) {
        Ok(world) => world,
        Err(unopened) => {
            mem::drop(logs);
            return Ok(Err(given_back(alloc, unopened)?));
        }
    };
    match DriveNode::start(alloc, world, logs) {
        Ok(node) => Ok(Ok(node)),
        Err(
            Unstarted {
                world,
                logs,
                error: _,
            },
        ) => {
            mem::drop(logs);
            mem::drop(world.unload());
            Err(Wrong::Memory)
        }
    }
}

impl Schedule {
    pub fn drawn(alloc: Global, seed: u64) -> Result<Schedule, Wrong> {
        let mut dice = Dice::of_seed(seed);
        let plain = Plain::drawn(alloc, &mut dice)?;
        let indexers = dice.below(2).saturating_add(1);
        Ok(Schedule {
            alloc,
            dice,
            plain,
            clients: Clients::new(alloc, DELETION_GRACE),
            indexers,
            moment: 0,
        })
    }

    // A line of the indexers, of the clock or of an actor of upkeep.
    fn work_line(&mut self) -> Result<String, Wrong> {
        let alloc = self.alloc;
        let indexer = self.dice.below(self.indexers);
        let text = match self.dice.below(54) {
            0..=19 => format!(in alloc; "indexer {indexer}")?,
            20..=23 => {
                self.moment = self.moment.saturating_add(self.dice.below(15));
                let moment = self.moment;
                format!(in alloc; "at {moment}")?
            }
            24..=29 => String::from_str(alloc, "collector")?,
            30..=36 => String::from_str(alloc, "merger")?,
            37..=49 => String::from_str(alloc, "deleter")?,
            50 => format!(in alloc; "restart indexer {indexer}")?,
            51 => String::from_str(alloc, "restart merger")?,
            52 => String::from_str(alloc, "restart deleter")?,
            _ => self.assign_line(indexer)?,
        };
        Ok(text)
    }

    fn assign_line(&mut self, indexer: u64) -> Result<String, Wrong> {
        let name = self.plain.name(self.dice.below(self.plain.count()));
        Ok(format!(in self.alloc; "assign {indexer} {name}")?)
    }

    // A line that is no client's is answered without a word of an object that is not as it must be.
    fn do_work<Rt: Threads + Sync>(&mut self, rt: &Rt, node: &mut Node) -> Result<(), Wrong> {
        let line = if self.dice.one_of(60) {
            self.clients.restart();
            String::from_str(self.alloc, "restart node")?
        } else {
            self.work_line()?
        };
        let said = answered(rt, self.alloc, node, line.as_str())?;
        self.is_sound(said.as_str())
    }

    fn is_sound(&self, said: &str) -> Result<(), Wrong> {
        for word in [" corrupt", " foreign", " missing"] {
            if said.contains(word) {
                return Err(Wrong::seen(self.alloc, "said:", said));
            }
        }
        Ok(())
    }

    // A client asks, where it waits for nothing, goes on, or drops what it asked.
    fn do_client<Rt: Threads + Sync>(&mut self, rt: &Rt, node: &mut Node) -> Result<(), Wrong> {
        let alloc = self.alloc;
        let number = self.dice.below(3) as usize;
        let name = name_of(number);
        match self.dice.below(13) {
            0..=3 => {
                let asked = Asked::of_search(&mut self.dice);
                self.ask(rt, node, number, Request::Search(asked))
            }
            4 => {
                let asked = Asked::of_delete(&mut self.dice);
                self.ask(rt, node, number, Request::Delete(asked))
            }
            5 => {
                self.clients.restart_client(number);
                let line = format!(in alloc; "restart client {name}")?;
                mem::drop(answered(rt, alloc, node, line.as_str())?);
                Ok(())
            }
            _ => self.step_client(rt, node, number),
        }
    }

    fn ask<Rt: Threads + Sync>(
        &mut self,
        rt: &Rt,
        node: &mut Node,
        number: usize,
        request: Request,
    ) -> Result<(), Wrong> {
        let line = self.asking(number, request)?;
        let said = answered(rt, self.alloc, node, line.as_str())?;
        if said.ends_with(" opened") {
            self.clients.ask(number, request)?;
        }
        Ok(())
    }

    fn asking(&self, number: usize, request: Request) -> Result<String, Wrong> {
        let name = name_of(number);
        match request {
            Request::Search(asked) => {
                let keys = asked.text(self.alloc)?;
                Ok(format!(in self.alloc;
                    "client {name} {{\"search\":{{{keys},\"max_hits\":100}}}}"
                )?)
            }
            Request::Delete(asked) => {
                let keys = asked.text(self.alloc)?;
                Ok(format!(in self.alloc; "client {name} {{\"delete\":{{{keys}}}}}")?)
            }
        }
    }

    fn step_client<Rt: Threads + Sync>(
        &mut self,
        rt: &Rt,
        node: &mut Node,
        number: usize,
    ) -> Result<(), Wrong> {
        let name = name_of(number);
        let line = format!(in self.alloc; "client {name}")?;
        let said = answered(rt, self.alloc, node, line.as_str())?;
        if said.starts_with('{') {
            return self.clients.take(number, said);
        }
        Ok(())
    }

    // A life with failing calls. It ends as a process that is stopped: with what it holds.
    fn live<Rt: Threads + Sync>(
        &mut self,
        rt: &Rt,
        store: FailingStore,
    ) -> Result<FailingStore, Wrong> {
        let mut store = store;
        store.set_odds(self.dice.below(30).saturating_add(4));
        let logs = logs_of(self.alloc, &self.plain, self.indexers)?;
        let mut node = match opened(self.alloc, store, logs, self.moment)? {
            Ok(node) => node,
            Err(store) => return Ok(store),
        };
        self.clients.restart();
        let played = self.play(rt, &mut node);
        let (store, logs) = node.finish_with_logs();
        mem::drop(logs);
        played?;
        Ok(store)
    }

    fn play<Rt: Threads + Sync>(&mut self, rt: &Rt, node: &mut Node) -> Result<(), Wrong> {
        for _ in 0..LINES {
            if self.dice.one_of(3) {
                self.do_client(rt, node)?;
            } else {
                self.do_work(rt, node)?;
            }
        }
        Ok(())
    }

    // Steps an actor until it has nothing to do.
    fn rest<Rt: Threads + Sync>(
        &mut self,
        rt: &Rt,
        node: &mut Node,
        line: &str,
        end: &str,
    ) -> Result<(), Wrong> {
        for _ in 0..MOST_LINES {
            let said = answered(rt, self.alloc, node, line)?;
            self.is_sound(said.as_str())?;
            if said.ends_with(end) {
                return Ok(());
            }
        }
        Err(Wrong::seen(self.alloc, line, "never ends"))
    }

    // A client deletes, and a delete is answered.
    fn delete<Rt: Threads + Sync>(&mut self, rt: &Rt, node: &mut Node) -> Result<(), Wrong> {
        let asked = Asked::of_delete(&mut self.dice);
        let before = self.clients.deleted();
        self.ask(rt, node, 1, Request::Delete(asked))?;
        self.step_client(rt, node, 1)?;
        if self.clients.deleted() > before {
            Ok(())
        } else {
            Err(Wrong::seen(self.alloc, "a delete", "is not answered"))
        }
    }

    // All is indexed, deleted, merged and collected, and found by a search. Behind a merge there is nothing to delete.
    fn calm<Rt: Threads + Sync>(&mut self, rt: &Rt, node: &mut Node) -> Result<(), Wrong> {
        for indexer in 0..self.indexers {
            let line = format!(in self.alloc; "indexer {indexer}")?;
            self.rest(rt, node, line.as_str(), " caughtup")?;
        }
        self.delete(rt, node)?;
        self.rest(rt, node, "deleter", " nothing")?;
        self.rest(rt, node, "merger", " nothing")?;
        let said = answered(rt, self.alloc, node, "deleter")?;
        if !said.ends_with(" nothing") {
            return Err(Wrong::seen(self.alloc, "behind merges:", said.as_str()));
        }
        self.moment = self.moment.saturating_add(100);
        let moment = self.moment;
        let line = format!(in self.alloc; "at {moment}")?;
        mem::drop(answered(rt, self.alloc, node, line.as_str())?);
        self.rest(rt, node, "collector", " nothing")?;
        self.ask(rt, node, 0, Request::Search(Asked::all()))?;
        for _ in 0..MOST_LINES {
            let before = self.clients.answered();
            self.step_client(rt, node, 0)?;
            if self.clients.answered() > before {
                return Ok(());
            }
        }
        Err(Wrong::seen(self.alloc, "a search", "never ends"))
    }

    // The journal as it stands.
    fn journal(&self, store: &mut FailingStore) -> Result<Entries, Wrong> {
        let mut entries = Entries::vacant(self.alloc);
        for number in 0..MOST_ENTRIES {
            match store.get(self.alloc, &meta_key(number), 0, u64::MAX) {
                Ok(piece) => match decode_entry(self.alloc, piece.bytes.as_slice()) {
                    Ok(entry) => entries.push(entry)?,
                    Err(_) => return Err(Wrong::seen(self.alloc, "an entry", "does not read")),
                },
                Err(GetError::Absent) => return Ok(entries),
                Err(_) => return Err(Wrong::seen(self.alloc, "a calm store", "fails")),
            }
        }
        Err(Wrong::seen(self.alloc, "the journal", "never ends"))
    }

    // A life without failing calls, behind which each record is shown, and each answer is the plain list's.
    fn end<Rt: Threads + Sync>(&mut self, rt: &Rt, store: FailingStore) -> Result<Counts, Wrong> {
        let mut store = store;
        store.set_odds(0);
        let faults = store.faults();
        let logs = logs_of(self.alloc, &self.plain, self.indexers)?;
        let mut node = match opened(self.alloc, store, logs, self.moment)? {
            Ok(node) => node,
            Err(store) => {
                mem::drop(store);
                return Err(Wrong::seen(self.alloc, "a calm store", "fails"));
            }
        };
        self.clients.restart();
        let played = self.calm(rt, &mut node);
        let (store, logs) = node.finish_with_logs();
        mem::drop(logs);
        played?;
        self.judge(store, faults)
    }

    fn judge(&mut self, store: FailingStore, faults: u64) -> Result<Counts, Wrong> {
        let mut store = store;
        let entries = self.journal(&mut store)?;
        mem::drop(store);
        self.clients.judge(&self.plain, entries.as_slice())?;
        let shown = Shown::by(self.alloc, entries.as_slice())?;
        if !self.plain.is_shown(&shown) {
            return Err(Wrong::seen(self.alloc, "not each record", "is shown and asked"));
        }
        let documents = self.plain.documents();
        let left = self.plain.found(&shown, Asked::all())?.count;
        Ok(Counts {
            entries: entries.len() as u64,
            answers: self.clients.answered() as u64,
            faults,
            merges: shown.kinds.merges,
            deletes: shown.kinds.deletes,
            raises: shown.kinds.raises,
            removals: shown.kinds.removals,
            documents,
            removed: documents.saturating_sub(left),
            parted: u64::from(0 < left && left < documents),
        })
    }

    /// Plays two lives with failing calls and one without.
    pub fn played<Rt: Threads + Sync>(&mut self, rt: &Rt) -> Result<Counts, Wrong> {
        let seed = self.dice.below(u64::MAX);
        let store = new_index(self.alloc, seed)?;
        let store = self.live(rt, store)?;
        let store = self.live(rt, store)?;
        self.end(rt, store)
    }
}

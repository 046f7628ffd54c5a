//! A node that takes the lines of a schedule one at a time.

ghost use Rattle.std.specs.Prelude.{◌++◌, ◌∷◌, [], ◌+◌, vec_capacity, ◌≡◌, ◌<◌, ◌≤◌, ◌^◌, vec_len, length, List, All, map, min, sum, ℕ, IfOk, IfErr, IfSome, IfNone, IsErr, OnErr, OnOk, Some, None, true, false};
ghost use Rattle.std.specs.List.{AllZip};
ghost use Rattle.source_log.specs.Log.{Log, IsLog};
ghost use Rattle.index_world.specs.Calls.{Fault, faulted, no_memory, not_read, no_index};
ghost use Rattle.index_world.specs.Core.{Core, last_count};
ghost use Rattle.index_world.specs.Loading.{IsUnread};
ghost use Rattle.index_world.specs.World.{WorldStands};
ghost use Rattle.indexing_run.specs.Making.{IsAssigned};
ghost use Rattle.indexing_run.specs.Places.{Indexer as Actor, is_idle};
ghost use Rattle.indexing_run.specs.Standing.{IndexerStands};
ghost use Rattle.root_search.specs.Searching.{SearcherStands};
ghost use Rattle.root_search.specs.Steps.{Client as Asker, without_request};
ghost use Rattle.split_collector.specs.Ending.{CallsTo};
ghost use Rattle.split_collector.specs.Turns.{ended, to_mark};
ghost use Rattle.upkeep_run.specs.Places.{WorkerPlace as Worker};
ghost use Rattle.upkeep_run.specs.Standing.{PlaceStands};
ghost use Rattle.upkeep_run.specs.declared.work.Aim.TheVariants.{Deleting, Merging};
ghost use Rattle.node_run.specs.Alone.{CollectsAlone, SearchesAlone, StepsAlone, WorksAlone};
ghost use Rattle.node_run.specs.Calm.{log_counts};
ghost use Rattle.node_run.specs.Fitting.{IsNumbered, IsYes};
ghost use Rattle.node_run.specs.Lines.{IsWellFormed, AreNames, outcome_text};
ghost use Rattle.node_run.specs.Logs.{logs_in};
ghost use Rattle.node_run.specs.Named.{place_in, names_of, HasPlaces, IsKnown};
ghost use Rattle.node_run.specs.Node.{Node};
ghost use Rattle.node_run.specs.Node as said;
ghost use Rattle.node_run.specs.Printing.{AnswersAlone, fault_text, EndsAlone, DeletesAlone, MergesAlone, told_alone, TellsSearch, HasMore, PrintsLine};
ghost use Rattle.node_run.specs.Seen.{seen};
ghost use Rattle.node_run.specs.Standing.{NodeStands, IsFresh, fresh_node, accepts_of, accepts_client, accepts_indexer, DoesLine, DoesMost, LetGo, GivesLogs, GivesStore};
ghost use Rattle.node_run.specs.Turns.{made_idle, quiet, stopped};

use crate::OutLine;
use crate::line::Line;
use crate::logs::Logs;
use byte_fields::{Client, Text};
use clock_time::{MOMENT_END, ScriptClock};
use index_world::{Direct, World, WorldError};
use indexing_run::{Indexer, IndexerOutcome};
use object_store::ObjectStore;
use root_search::{SearchStep, Searcher};
use source_log::{Partitions, SourceLog};
use split_collector::{Collector, CollectorOutcome};
use std::alloc::{AllocError, Global};
use std::collections::BTreeMap;
use std::mem;
use std::thread::Threads;
use upkeep_run::{DeleteWorker, Merger, UpkeepOutcome};

/// How many clients an input may name.
pub const MAX_CLIENTS: u64 = 10_000;

/// A node: a world, one indexer for each log, a merger, a delete worker, a collector, and one searcher for each client
/// that a line named.
pub struct DriveNode<S: ObjectStore, L: SourceLog> {
    gate: Direct<S, ScriptClock>,
    indexers: Vec<Indexer<L>>,
    merger: Merger,
    deleter: DeleteWorker,
    collector: Collector,
    clients: Vec<Searcher>,
    // The place of each client among the searchers.
    places: BTreeMap<Client, usize>,
    // What the clock tells.
    moment: u64,
    // The last restart of the node failed.
    down: bool,
}

/// A node that was not made, with what was handed in.
pub struct Unstarted<S: ObjectStore, L: SourceLog> {
    pub world: World<S, ScriptClock>,
    pub logs: Vec<L>,
    pub error: AllocError,
}

/// Whether a node takes a line.
#[derive(Clone, Copy)]
pub enum Accepts {
    Yes,
    /// No indexer has the number, or the moment falls.
    BadLine,
    TooManyClients,
}

fn step_indexer<S: ObjectStore, L: SourceLog>(
    alloc: Global,
    gate: &mut Direct<S, ScriptClock>,
    indexer: &mut Indexer<L>,
) -> Result<IndexerOutcome, AllocError>
    ensures later { L.since indexer.old.log indexer.new.log }
    ensures step { (actor : Actor) (core : Core) (log : Log) → IndexerStands L.told L.fault_count indexer.old actor core log →
        WorldStands gate.old.world core log →
        StepsAlone L.told L.fault_count result actor core log indexer.new gate.new.world }
    // Whatever the log and the world are.
    ensures ends { EndsAlone L.told L.fault_count indexer.old result indexer.new gate.old.world gate.new.world }
{
    indexer.step(alloc, gate)
}

fn step_merger<S: ObjectStore>(
    alloc: Global,
    gate: &mut Direct<S, ScriptClock>,
    merger: &mut Merger,
) -> Result<UpkeepOutcome, AllocError>
    ensures step { (worker : Worker) (core : Core) (log : Log) → IsLog log → PlaceStands Merging log core merger.old.place worker → WorldStands gate.old.world core log →
        WorksAlone Merging result worker core log merger.new.place gate.new.world }
    // Whatever the world is.
    ensures ends { MergesAlone merger.old.place result merger.new.place gate.old.world gate.new.world }
{
    merger.step(alloc, gate)
}

fn step_deleter<S: ObjectStore>(
    alloc: Global,
    gate: &mut Direct<S, ScriptClock>,
    deleter: &mut DeleteWorker,
) -> Result<UpkeepOutcome, AllocError>
    ensures step { (worker : Worker) (core : Core) (log : Log) → IsLog log → PlaceStands Deleting log core deleter.old.place worker → WorldStands gate.old.world core log →
        WorksAlone Deleting result worker core log deleter.new.place gate.new.world }
    // Whatever the world is.
    ensures ends { DeletesAlone deleter.old.place result deleter.new.place gate.old.world gate.new.world }
{
    deleter.step(alloc, gate)
}

fn step_collector<S: ObjectStore>(
    alloc: Global,
    gate: &mut Direct<S, ScriptClock>,
    collector: &mut Collector,
) -> Result<CollectorOutcome, AllocError>
    ensures step { (core : Core) (log : Log) → WorldStands gate.old.world core log → CollectsAlone result gate.new.world core log }
    // Whatever the world is.
    ensures tells { CallsTo told_alone AnswersAlone to_mark (ended result) gate.old gate.new }
{
    collector.step(alloc, gate)
}

fn step_searcher<Rt: Threads + Sync, S: ObjectStore>(
    rt: &Rt,
    alloc: Global,
    gate: &mut Direct<S, ScriptClock>,
    searcher: &mut Searcher,
) -> Result<SearchStep, AllocError>
    ensures step { (client : Asker) (core : Core) (log : Log) → IsLog log → WorldStands gate.old.world core log →
        SearcherStands searcher.old client core log →
        SearchesAlone result searcher.new gate.new.world client core log }
    // Whatever the world is.
    ensures tells { IfOk result (λ outcome. TellsSearch searcher.old searcher.new outcome gate.old gate.new) }
{
    searcher.step(rt, alloc, gate)
}

fn copied(alloc: Global, names: &Partitions) -> Result<Partitions, AllocError>
    ensures { IfOk result (λ copy. copy ≡ names.now) }
{
    let mut copy = Partitions::vacant(alloc);
    for name in names.as_slice() {
        copy.push(name.copy())?;
    }
    Ok(copy)
}

// Gives how many partitions were assigned, where the indexer was idle. Else it stays as it was.
fn assign<L: SourceLog>(indexer: &mut Indexer<L>, partitions: Partitions) -> Option<usize>
    ensures log { indexer.new.log ≡ indexer.old.log }
    ensures count { IfSome result (λ count. count ≡ length partitions) }
    ensures some { (actor : Actor) (core : Core) (log : Log) → IndexerStands L.told L.fault_count indexer.old actor core log →
        IsAssigned (Some partitions) → IfSome result (λ count. (is_idle actor.place ≡ true)
        × IndexerStands L.told L.fault_count indexer.new (record actor { assignment = Some partitions }) core log) }
    ensures none { (actor : Actor) (core : Core) (log : Log) → IndexerStands L.told L.fault_count indexer.old actor core log →
        IfNone result ((is_idle actor.place ≡ false) × IndexerStands L.told L.fault_count indexer.new actor core log) }
{
    if !indexer.is_idle() {
        return None;
    }
    let count = partitions.len();
    indexer.assign(partitions);
    Some(count)
}

// The place of a client's searcher, where the client was named before.
fn place_of(
    clients: &[Searcher],
    places: &BTreeMap<Client, usize>,
    client: &Client,
) -> Option<usize>
    ensures within { IfSome result (λ place. place < length clients.now) }
    ensures exact { (names : List (List ℕ)) → length names ≡ length clients.now → HasPlaces places.now.entries names →
        result ≡ place_in client.now names }
{
    match places.get(client) {
        Some(place) if *place < clients.len() => Some(*place),
        _ => None,
    }
}

// The place of a client's searcher, which begins where the client wasn't named yet.
fn known(
    clients: &mut Vec<Searcher>,
    places: &mut BTreeMap<Client, usize>,
    client: &Client,
) -> Result<usize, AllocError>
    ensures bound { IfOk result (λ place. place < vec_len clients.new) }
    ensures known { IfOk result (λ place. (models : List Asker) (core : Core) (log : Log) →
        AllZip (λ searcher model. SearcherStands searcher model core log) clients.old.items models →
        HasPlaces places.old.entries (names_of models) →
        IsKnown client.now clients.new.items places.new.entries models place core log) }
    ensures kept { OnOk result (HasMore clients.old.items clients.new.items) }
    ensures clients { OnErr result (clients.new.items ≡ clients.old.items) }
    ensures places { OnErr result (places.new.entries ≡ places.old.entries) }
{
    match place_of(clients.as_slice(), places, client) {
        Some(place) => Ok(place),
        None => {
            let place = clients.len();
            clients.reserve(1)?;
            places.insert(*client, place)?;
            match clients.push(Searcher::start(*client)) {
                Ok(()) => Ok(place),
                Err(_) => unreachable!(),
            }
        }
    }
}

fn restart_indexers<L: SourceLog>(indexers: &mut [Indexer<L>])
    ensures logs { map (λ reader. reader.log) indexers.new ≡ map (λ reader. reader.log) indexers.old }
    ensures stand { (actors : List Actor) (core after : Core) (log : Log) →
        AllZip (λ reader actor. IndexerStands L.told L.fault_count reader actor core log) indexers.old actors →
        AllZip (λ reader actor. IndexerStands L.told L.fault_count reader actor after log) indexers.new (map made_idle actors) }
{
    for i in 0..indexers.len() {
        indexers[i].restart();
    }
}

fn restart_clients(clients: &mut [Searcher])
    ensures { (models : List Asker) (core after : Core) (log : Log) →
        AllZip (λ searcher model. SearcherStands searcher model core log) clients.old models →
        AllZip (λ searcher model. SearcherStands searcher model after log) clients.new (map without_request models) }
{
    for i in 0..clients.len() {
        clients[i].restart();
    }
}

// Why the node isn't restarted; want of memory is the line's own answer.
fn fault_line(alloc: Global, error: WorldError) -> Result<OutLine, AllocError>
    ensures memory { IsUnread error (not_read no_memory) → IsErr result }
    ensures fault { (fault : Fault) → IsUnread error (not_read (faulted fault)) →
        IfOk result (λ out. out.bytes ≡ outcome_text (said.node_failed (said.world_fault fault))) }
    ensures none { IsUnread error no_index → IfOk result (λ out. out.bytes ≡ outcome_text (said.node_failed said.no_index)) }
    // Whatever the error is.
    ensures exact { IfOk result (λ out. out.bytes ≡ fault_text error) }
{
    match error {
        WorldError::Memory(refused) => Err(refused),
        error => {
            let line = OutLine::node_fault(alloc, &error);
            mem::drop(error);
            line
        }
    }
}

// A fresh reader of a log, behind those of other logs.
fn push_reader<L: SourceLog>(readers: &mut Vec<Indexer<L>>, log: L)
    requires { vec_len readers.old < vec_capacity readers.old }
    ensures fresh { (logs : List L) → AllZip (IsFresh L.told L.fault_count) logs readers.old.items →
        AllZip (IsFresh L.told L.fault_count) (logs ++ log ∷ []) readers.new.items }
    ensures len { vec_len readers.new ≡ vec_len readers.old + 1 }
    ensures room { vec_capacity readers.old ≤ vec_capacity readers.new }
{
    match readers.push(Indexer::start(log)) {
        Ok(()) => {}
        Err(_) => unreachable!(),
    }
}

// A fresh reader of each log, in a list that has room.
fn readers_of<L: SourceLog>(readers: Vec<Indexer<L>>, logs: Vec<L>) -> Vec<Indexer<L>>
    requires none { readers.items ≡ [] }
    requires room { vec_len logs ≤ vec_capacity readers }
    ensures { AllZip (IsFresh L.told L.fault_count) logs.items result.items }
{
    let mut readers = readers;
    for log in logs {
        push_reader(&mut readers, log);
    }
    readers
}

impl<S: ObjectStore, L: SourceLog> DriveNode<S, L> {
    /// A node over a world whose clock tells 0, with one idle indexer for each log.
    pub fn start(
        alloc: Global,
        world: World<S, ScriptClock>,
        logs: Vec<L>,
    ) -> Result<DriveNode<S, L>, Unstarted<S, L>>
        ensures ok { IfOk result (λ drive. (core : Core) (log : Log) → WorldStands world core log → core.clock ≡ 0 → IsLog log →
            All (λ l. L.told l ≡ Some log) logs.items →
            NodeStands L.told L.fault_count L.since logs.items drive (fresh_node core log (map L.fault_count logs.items))) }
        ensures err { IfErr result (λ unstarted. (unstarted.world ≡ world) × (unstarted.logs.items ≡ logs.items)) }
    {
        let indexers = match Vec::with_capacity(alloc, logs.len()) {
            Ok(indexers) => indexers,
            Err(error) => return Err(Unstarted { world, logs, error }),
        };
        let indexers = readers_of(indexers, logs);
        Ok(DriveNode {
            gate: Direct::over(world),
            indexers,
            merger: Merger::start(),
            deleter: DeleteWorker::start(),
            collector: Collector::start(),
            clients: Vec::new(alloc),
            places: BTreeMap::new(alloc),
            moment: 0,
            down: false,
        })
    }

    /// Ends the node. Gives the store and the logs.
    pub fn finish_with_logs(self) -> (S, Logs<L>)
        ensures store { (firsts : List L) (node : Node) → NodeStands L.told L.fault_count L.since firsts self node →
            GivesStore S.told S.fault_count result.0 node.core node.log }
        ensures logs { (firsts : List L) (node : Node) → NodeStands L.told L.fault_count L.since firsts self node →
            GivesLogs L.fault_count L.since firsts (logs_in result.1) (log_counts node.indexers) }
        // Over all logs: those that the node has as it ends.
        ensures same { logs_in result.1 ≡ map (λ reader. reader.log) self.indexers.items }
    {
        let DriveNode {
            gate,
            indexers,
            merger: _,
            deleter: _,
            collector: _,
            clients: _,
            places: _,
            moment: _,
            down: _,
        } = self;
        (gate.into_world().unload().0, Logs::Read(indexers))
    }

    /// Ends the node. Gives the store, and the sum of the logs' counts of faults, at most 2 ^ 64 - 1.
    pub fn finish(self) -> (S, u64)
        ensures store { (firsts : List L) (node : Node) → NodeStands L.told L.fault_count L.since firsts self node →
            GivesStore S.told S.fault_count result.0 node.core node.log }
        ensures faults { (firsts : List L) (node : Node) → NodeStands L.told L.fault_count L.since firsts self node →
            LetGo L.fault_count L.since firsts (log_counts node.indexers) result.1 }
        // Over all logs: of those that the node has as it ends.
        ensures sum { result.1 ≡ min (sum (map (λ reader. L.fault_count reader.log) self.indexers.items)) last_count }
    {
        let (store, logs) = self.finish_with_logs();
        let faults = logs.faults();
        (store, faults)
    }

    fn accepts_client(&self, client: &Client) -> Accepts
        ensures { (firsts : List L) (node : Node) → NodeStands L.told L.fault_count L.since firsts self.now node → result ≡ accepts_client client.now node }
    {
        if self.clients.len() as u64 >= MAX_CLIENTS
            && place_of(self.clients.as_slice(), &self.places, client).is_none()
        {
            return Accepts::TooManyClients;
        }
        Accepts::Yes
    }

    fn accepts_indexer(&self, indexer: u64) -> Accepts
        ensures numbered { IsYes result → indexer < vec_len self.now.indexers }
        ensures exact { (firsts : List L) (node : Node) → NodeStands L.told L.fault_count L.since firsts self.now node → result ≡ accepts_indexer indexer node }
    {
        if indexer < self.indexers.len() as u64 {
            Accepts::Yes
        } else {
            Accepts::BadLine
        }
    }

    /// Whether the node takes this line: its indexer has a number, its moment doesn't fall, and its client is known or
    /// one of the first 10,000.
    pub fn accepts(&self, line: &Line) -> Accepts
        ensures numbered { IsYes result → IsNumbered line.now (vec_len self.now.indexers) }
        ensures exact { (firsts : List L) (node : Node) → NodeStands L.told L.fault_count L.since firsts self.now node → result ≡ accepts_of node (seen line.now) }
    {
        match line {
            Line::At { moment } => {
                if *moment < self.moment {
                    Accepts::BadLine
                } else {
                    Accepts::Yes
                }
            }
            Line::Assign { indexer, .. } => self.accepts_indexer(*indexer),
            Line::Indexer { indexer } => self.accepts_indexer(*indexer),
            Line::RestartIndexer { indexer } => self.accepts_indexer(*indexer),
            Line::RestartClient { client } => self.accepts_client(client),
            Line::Merger => Accepts::Yes,
            Line::RestartMerger => Accepts::Yes,
            Line::Deleter => Accepts::Yes,
            Line::RestartDeleter => Accepts::Yes,
            Line::Collector => Accepts::Yes,
            Line::RestartCollector => Accepts::Yes,
            Line::RestartNode => Accepts::Yes,
            Line::Open { client, .. } => self.accepts_client(client),
            Line::Client { client } => self.accepts_client(client),
        }
    }

    // All actors are idle, and the node is down.
    fn stop(&mut self)
        ensures count { vec_len self.new.indexers ≡ vec_len self.old.indexers }
        ensures world { self.new.gate.world ≡ self.old.gate.world }
        ensures down { self.new.down ≡ true }
        ensures does { (firsts : List L) (node : Node) → NodeStands L.told L.fault_count L.since firsts self.old node → NodeStands L.told L.fault_count L.since firsts self.new (stopped node.core node) }
    {
        restart_indexers(self.indexers.as_mut_slice());
        self.merger.restart();
        self.deleter.restart();
        restart_clients(self.clients.as_mut_slice());
        self.down = true;
    }

    fn restart_node(&mut self, alloc: Global) -> Result<OutLine, AllocError>
        ensures count { vec_len self.new.indexers ≡ vec_len self.old.indexers }
        ensures does { (firsts : List L) (node : Node) → NodeStands L.told L.fault_count L.since firsts self.old node →
            DoesMost L.told L.fault_count L.since firsts node said.RestartNode result self.new }
        // Whatever the node is.
        ensures prints { IfOk result (λ out. PrintsLine L.told L.fault_count said.RestartNode self.old self.new out.bytes) }
    {
        self.stop();
        match self.gate.world.reload(alloc) {
            Ok(()) => {
                self.down = false;
                OutLine::node_restarted(alloc, self.gate.world.meta().revision())
            }
            Err(error) => fault_line(alloc, error),
        }
    }

    fn indexer_line(&mut self, alloc: Global, number: u64) -> Result<OutLine, AllocError>
        requires { number < vec_len self.old.indexers }
        ensures count { vec_len self.new.indexers ≡ vec_len self.old.indexers }
        ensures does { (firsts : List L) (node : Node) → NodeStands L.told L.fault_count L.since firsts self.old node →
            DoesMost L.told L.fault_count L.since firsts node (said.StepIndexer number) result self.new }
        // Whatever the node is.
        ensures prints { IfOk result (λ out. PrintsLine L.told L.fault_count (said.StepIndexer number) self.old self.new out.bytes) }
    {
        if self.down {
            return OutLine::indexer_down(alloc, number);
        }
        let outcome = step_indexer(alloc, &mut self.gate, &mut self.indexers[number as usize])?;
        let line = OutLine::indexer(alloc, number, &outcome);
        mem::drop(outcome);
        line
    }

    fn merger_line(&mut self, alloc: Global) -> Result<OutLine, AllocError>
        ensures count { vec_len self.new.indexers ≡ vec_len self.old.indexers }
        ensures does { (firsts : List L) (node : Node) → NodeStands L.told L.fault_count L.since firsts self.old node →
            DoesMost L.told L.fault_count L.since firsts node said.StepMerger result self.new }
        // Whatever the node is.
        ensures prints { IfOk result (λ out. PrintsLine L.told L.fault_count said.StepMerger self.old self.new out.bytes) }
    {
        if self.down {
            return OutLine::merger_down(alloc);
        }
        let outcome = step_merger(alloc, &mut self.gate, &mut self.merger)?;
        let line = OutLine::merger(alloc, &outcome);
        mem::drop(outcome);
        line
    }

    fn restart_merger(&mut self, alloc: Global) -> Result<OutLine, AllocError>
        ensures count { vec_len self.new.indexers ≡ vec_len self.old.indexers }
        ensures does { (firsts : List L) (node : Node) → NodeStands L.told L.fault_count L.since firsts self.old node →
            DoesMost L.told L.fault_count L.since firsts node said.RestartMerger result self.new }
        // Whatever the node is.
        ensures prints { IfOk result (λ out. PrintsLine L.told L.fault_count said.RestartMerger self.old self.new out.bytes) }
    {
        self.merger.restart();
        OutLine::merger_restarted(alloc)
    }

    fn deleter_line(&mut self, alloc: Global) -> Result<OutLine, AllocError>
        ensures count { vec_len self.new.indexers ≡ vec_len self.old.indexers }
        ensures does { (firsts : List L) (node : Node) → NodeStands L.told L.fault_count L.since firsts self.old node →
            DoesMost L.told L.fault_count L.since firsts node said.StepDeleter result self.new }
        // Whatever the node is.
        ensures prints { IfOk result (λ out. PrintsLine L.told L.fault_count said.StepDeleter self.old self.new out.bytes) }
    {
        if self.down {
            return OutLine::deleter_down(alloc);
        }
        let outcome = step_deleter(alloc, &mut self.gate, &mut self.deleter)?;
        let line = OutLine::deleter(alloc, &outcome);
        mem::drop(outcome);
        line
    }

    fn restart_deleter(&mut self, alloc: Global) -> Result<OutLine, AllocError>
        ensures count { vec_len self.new.indexers ≡ vec_len self.old.indexers }
        ensures does { (firsts : List L) (node : Node) → NodeStands L.told L.fault_count L.since firsts self.old node →
            DoesMost L.told L.fault_count L.since firsts node said.RestartDeleter result self.new }
        // Whatever the node is.
        ensures prints { IfOk result (λ out. PrintsLine L.told L.fault_count said.RestartDeleter self.old self.new out.bytes) }
    {
        self.deleter.restart();
        OutLine::deleter_restarted(alloc)
    }

    fn collector_line(&mut self, alloc: Global) -> Result<OutLine, AllocError>
        ensures count { vec_len self.new.indexers ≡ vec_len self.old.indexers }
        ensures does { (firsts : List L) (node : Node) → NodeStands L.told L.fault_count L.since firsts self.old node →
            DoesMost L.told L.fault_count L.since firsts node said.StepCollector result self.new }
        // Whatever the node is.
        ensures prints { IfOk result (λ out. PrintsLine L.told L.fault_count said.StepCollector self.old self.new out.bytes) }
    {
        if self.down {
            return OutLine::collector_down(alloc);
        }
        let outcome = step_collector(alloc, &mut self.gate, &mut self.collector)?;
        let line = OutLine::collector(alloc, &outcome);
        mem::drop(outcome);
        line
    }

    fn restart_collector(&mut self, alloc: Global) -> Result<OutLine, AllocError>
        ensures count { vec_len self.new.indexers ≡ vec_len self.old.indexers }
        ensures does { (firsts : List L) (node : Node) → NodeStands L.told L.fault_count L.since firsts self.old node →
            DoesMost L.told L.fault_count L.since firsts node said.RestartCollector result self.new }
        // Whatever the node is.
        ensures prints { IfOk result (λ out. PrintsLine L.told L.fault_count said.RestartCollector self.old self.new out.bytes) }
    {
        self.collector.restart();
        OutLine::collector_restarted(alloc)
    }

    fn client_line<Rt: Threads + Sync>(
        &mut self,
        rt: &Rt,
        alloc: Global,
        client: &Client,
    ) -> Result<OutLine, AllocError>
        ensures count { vec_len self.new.indexers ≡ vec_len self.old.indexers }
        ensures does { (firsts : List L) (node : Node) → NodeStands L.told L.fault_count L.since firsts self.old node →
            DoesMost L.told L.fault_count L.since firsts node (said.StepClient client.now) result self.new }
        // Whatever the node is.
        ensures prints { IfOk result (λ out. PrintsLine L.told L.fault_count (said.StepClient client.now) self.old self.new out.bytes) }
    {
        let place = known(&mut self.clients, &mut self.places, client)?;
        if self.down {
            return OutLine::client_down(alloc, client);
        }
        let outcome = step_searcher(rt, alloc, &mut self.gate, &mut self.clients[place])?;
        OutLine::client(alloc, client, &outcome)
    }

    fn open_line(
        &mut self,
        alloc: Global,
        client: &Client,
        text: Text,
    ) -> Result<OutLine, AllocError>
        ensures count { vec_len self.new.indexers ≡ vec_len self.old.indexers }
        ensures does { (firsts : List L) (node : Node) → NodeStands L.told L.fault_count L.since firsts self.old node →
            DoesMost L.told L.fault_count L.since firsts node (said.Open client.now text) result self.new }
        // Whatever the node is.
        ensures prints { IfOk result (λ out. PrintsLine L.told L.fault_count (said.Open client.now text) self.old self.new out.bytes) }
    {
        let place = known(&mut self.clients, &mut self.places, client)?;
        match self.clients[place].submit(text) {
            Ok(()) => OutLine::opened(alloc, client),
            Err(_) => OutLine::busy(alloc, client),
        }
    }

    fn assign_line(
        &mut self,
        alloc: Global,
        number: u64,
        partitions: &Partitions,
    ) -> Result<OutLine, AllocError>
        requires { number < vec_len self.old.indexers }
        ensures count { vec_len self.new.indexers ≡ vec_len self.old.indexers }
        ensures does { (firsts : List L) (node : Node) → NodeStands L.told L.fault_count L.since firsts self.old node → AreNames partitions.now →
            DoesMost L.told L.fault_count L.since firsts node (said.Assign number partitions.now) result self.new }
        // Whatever the node is.
        ensures prints { IfOk result (λ out. PrintsLine L.told L.fault_count (said.Assign number partitions.now) self.old self.new out.bytes) }
    {
        let partitions = copied(alloc, partitions)?;
        match assign(&mut self.indexers[number as usize], partitions) {
            Some(count) => OutLine::assigned(alloc, number, count),
            None => OutLine::indexer_busy(alloc, number),
        }
    }

    fn at_line(&mut self, alloc: Global, moment: u64) -> Result<OutLine, AllocError>
        ensures count { vec_len self.new.indexers ≡ vec_len self.old.indexers }
        ensures does { (firsts : List L) (node : Node) → NodeStands L.told L.fault_count L.since firsts self.old node → moment < 2 ^ 62 →
            DoesMost L.told L.fault_count L.since firsts node (said.At moment) result self.new }
        // Whatever the node is.
        ensures prints { IfOk result (λ out. PrintsLine L.told L.fault_count (said.At moment) self.old self.new out.bytes) }
    {
        if moment < MOMENT_END {
            self.moment = moment;
            self.gate.world.clock_mut().set(moment);
        }
        OutLine::at(alloc, moment)
    }

    fn restart_indexer(&mut self, alloc: Global, number: u64) -> Result<OutLine, AllocError>
        requires { number < vec_len self.old.indexers }
        ensures count { vec_len self.new.indexers ≡ vec_len self.old.indexers }
        ensures does { (firsts : List L) (node : Node) → NodeStands L.told L.fault_count L.since firsts self.old node →
            DoesMost L.told L.fault_count L.since firsts node (said.RestartIndexer number) result self.new }
        // Whatever the node is.
        ensures prints { IfOk result (λ out. PrintsLine L.told L.fault_count (said.RestartIndexer number) self.old self.new out.bytes) }
    {
        self.indexers[number as usize].restart();
        OutLine::indexer_restarted(alloc, number)
    }

    fn restart_client(&mut self, alloc: Global, client: &Client) -> Result<OutLine, AllocError>
        ensures count { vec_len self.new.indexers ≡ vec_len self.old.indexers }
        ensures does { (firsts : List L) (node : Node) → NodeStands L.told L.fault_count L.since firsts self.old node →
            DoesMost L.told L.fault_count L.since firsts node (said.RestartClient client.now) result self.new }
        // Whatever the node is.
        ensures prints { IfOk result (λ out. PrintsLine L.told L.fault_count (said.RestartClient client.now) self.old self.new out.bytes) }
    {
        let place = known(&mut self.clients, &mut self.places, client)?;
        self.clients[place].restart();
        OutLine::client_restarted(alloc, client)
    }

    fn do_line<Rt: Threads + Sync>(
        &mut self,
        rt: &Rt,
        alloc: Global,
        line: &Line,
    ) -> Result<OutLine, AllocError>
        requires { IsNumbered line.now (vec_len self.old.indexers) }
        ensures count { vec_len self.new.indexers ≡ vec_len self.old.indexers }
        ensures does { (firsts : List L) (node : Node) → NodeStands L.told L.fault_count L.since firsts self.old node → IsWellFormed (seen line.now) →
            DoesMost L.told L.fault_count L.since firsts node (seen line.now) result self.new }
        // Whatever the node is.
        ensures prints { IfOk result (λ out. PrintsLine L.told L.fault_count (seen line.now) self.old self.new out.bytes) }
    {
        match line {
            Line::At { moment } => self.at_line(alloc, *moment),
            Line::Assign {
                indexer,
                partitions,
            } => self.assign_line(alloc, *indexer, partitions),
            Line::Indexer { indexer } => self.indexer_line(alloc, *indexer),
            Line::RestartIndexer { indexer } => self.restart_indexer(alloc, *indexer),
            Line::RestartClient { client } => self.restart_client(alloc, client),
            Line::Merger => self.merger_line(alloc),
            Line::RestartMerger => self.restart_merger(alloc),
            Line::Deleter => self.deleter_line(alloc),
            Line::RestartDeleter => self.restart_deleter(alloc),
            Line::Collector => self.collector_line(alloc),
            Line::RestartCollector => self.restart_collector(alloc),
            Line::RestartNode => self.restart_node(alloc),
            Line::Open { client, text } => {
                let text = Text::from_slice(alloc, text.as_slice())?;
                self.open_line(alloc, client, text)
            }
            Line::Client { client } => self.client_line(rt, alloc, client),
        }
    }

    fn quiet_indexer(&mut self, number: u64)
        requires { number < vec_len self.old.indexers }
        ensures { (firsts : List L) (node : Node) → NodeStands L.told L.fault_count L.since firsts self.old node → NodeStands L.told L.fault_count L.since firsts self.new (quiet (said.RestartIndexer number) node) }
    {
        self.indexers[number as usize].restart();
    }

    fn quiet_client(&mut self, client: &Client)
        ensures { (firsts : List L) (node : Node) → NodeStands L.told L.fault_count L.since firsts self.old node → NodeStands L.told L.fault_count L.since firsts self.new (quiet (said.RestartClient client.now) node) }
    {
        if let Some(place) = place_of(self.clients.as_slice(), &self.places, client) {
            self.clients[place].restart();
        }
    }

    fn quiet_merger(&mut self)
        ensures { (firsts : List L) (node : Node) → NodeStands L.told L.fault_count L.since firsts self.old node → NodeStands L.told L.fault_count L.since firsts self.new (quiet said.RestartMerger node) }
    {
        self.merger.restart();
    }

    fn quiet_deleter(&mut self)
        ensures { (firsts : List L) (node : Node) → NodeStands L.told L.fault_count L.since firsts self.old node → NodeStands L.told L.fault_count L.since firsts self.new (quiet said.RestartDeleter node) }
    {
        self.deleter.restart();
    }

    // The line's actor is idle and its request is dropped.
    fn quiet(&mut self, line: &Line)
        requires { IsNumbered line.now (vec_len self.old.indexers) }
        ensures { (firsts : List L) (node : Node) → NodeStands L.told L.fault_count L.since firsts self.old node → NodeStands L.told L.fault_count L.since firsts self.new (quiet (seen line.now) node) }
    {
        match line {
            Line::At { .. } => {}
            Line::Assign { indexer, .. } => self.quiet_indexer(*indexer),
            Line::Indexer { indexer } => self.quiet_indexer(*indexer),
            Line::RestartIndexer { indexer } => self.quiet_indexer(*indexer),
            Line::RestartClient { client } => self.quiet_client(client),
            Line::Merger => self.quiet_merger(),
            Line::RestartMerger => self.quiet_merger(),
            Line::Deleter => self.quiet_deleter(),
            Line::RestartDeleter => self.quiet_deleter(),
            Line::Collector => {}
            Line::RestartCollector => {}
            Line::RestartNode => self.stop(),
            Line::Open { client, .. } => self.quiet_client(client),
            Line::Client { client } => self.quiet_client(client),
        }
    }

    /// Does one line. After want of memory the line's actor is idle and its request is dropped; after that of a restart of
    /// the node the node is down.
    pub fn step<Rt: Threads + Sync>(
        &mut self,
        rt: &Rt,
        alloc: Global,
        line: &Line,
    ) -> Result<OutLine, AllocError>
        requires { IsNumbered line.now (vec_len self.old.indexers) }
        ensures does { (firsts : List L) (node : Node) → NodeStands L.told L.fault_count L.since firsts self.old node → IsWellFormed (seen line.now) →
            DoesLine L.told L.fault_count L.since firsts node (seen line.now) result self.new }
        // Whatever the node, its store and its logs are: what was answered is told as itself.
        ensures prints { IfOk result (λ out. PrintsLine L.told L.fault_count (seen line.now) self.old self.new out.bytes) }
    {
        match self.do_line(rt, alloc, line) {
            Ok(out) => Ok(out),
            Err(refused) => {
                self.quiet(line);
                Err(refused)
            }
        }
    }
}

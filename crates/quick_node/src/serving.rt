//! The top call: one command over a store, logs, a clock, an input and an output.

ghost use Rattle.std.specs.Prelude.{◌≡◌, ◌⊎◌, ◌≤◌, ℕ, All, List, Option, Some, Ok, length, map, min, sum};
ghost use Rattle.std.specs.List.{AllZip};
ghost use Rattle.std.specs.String.{string_bytes};
ghost use Rattle.meta_journal.specs.declared.entry.Entry.{Entry};
ghost use Rattle.command_words.specs.Words.{IsWithin};
ghost use Rattle.command_words.specs.declared.run.RunOptions.{RunOptions as RunWords};
ghost use Rattle.object_store.specs.Store.{HasLanded, State, WhereTold};
ghost use Rattle.source_log.specs.Log.{IsLog, Log};
ghost use Rattle.index_world.specs.Core.{Core, last_count};
ghost use Rattle.index_world.specs.World.{WorldStands};
ghost use Rattle.node_run.specs.Node.{Node};
ghost use Rattle.node_run.specs.Logs.{logs_in};
ghost use Rattle.node_run.specs.Standing.{NodeStands};
ghost use Rattle.quick_node.specs.Causes.{faults_of, IsOneOf, other_statuses, DriveCauses, CreateCauses, ReportCauses};
ghost use Rattle.quick_node.specs.Contract.{Serves};
ghost use Rattle.quick_node.specs.Creating.{CreatesAt};
ghost use Rattle.quick_node.specs.Ending.{EndsSo, ended_status};
ghost use Rattle.quick_node.specs.Opening.{Outside, outside_of, IsFound, IsFoundFrom, DriveFinds, RunFinds, CreateFinds, ReportFinds, EndsBy};
ghost use Rattle.quick_node.specs.Reporting.{Reports};
ghost use Rattle.quick_node.specs.Runs.{Runs, options_of};
ghost use Rattle.quick_node.specs.Saying.{RanOn, SaidAlone, end_of};
ghost use Rattle.quick_node.specs.Serve.{Before, LogsShow, StreamsShow, Shows, Returns, EntersAs, IsFresh, Opens, BeginsAlong, Drives, WroteWords};

use crate::creating::create_index;
use crate::error_line::{End, NO_MEMORY, print_end, status_of};
use crate::reporting::{Report, write_report};
use crate::running::run;
use crate::saying::{Finished, finish};
use crate::writing::write_all;
use byte_fields::{Sink, Source};
use clock_time::{Clock, ScriptClock};
use command_words::{Command, RunOptions as RunAsked, read_words};
use index_world::{Unopened, World};
use input_lines::{ReadEnd, read_requests};
use node_run::{DriveNode, Logs, Unstarted};
use object_store::ObjectStore;
use root_search::{LeafHold, NoHold};
use run_plan::Request;
use source_log::SourceLog;
use std::alloc::Global;
use std::mem;
use std::sync::Wait;
use std::thread::Threads;
use thread_run::RunOptions;

/// How a call of `serve` ended, the store, its count of faults, and the sum of the logs' counts, at most 2 ^ 64 - 1.
#[derive(Drop)]
pub struct Served<S> {
    pub status: u8,
    pub store: S,
    pub store_faults: u64,
    pub log_faults: u64,
}

// Writes the last line. Gives the status: that of want of memory where the line's text finds none.
fn write_end<W: Sink>(alloc: Global, end: &End, output: &mut W) -> u8
    ensures counted { W.fault_count output.old ≤ W.fault_count output.new }
    ensures status { (result ≡ ended_status end.now) ⊎ (result ≡ 11) }
    ensures writes { (held : List ℕ) → W.content output.old ≡ Some held →
        EndsSo end.now held (W.content output.new) (W.fault_count output.old) (W.fault_count output.new) result }
{
    match print_end(alloc, end) {
        Ok(text) => {
            let _ = write_all(output, text.as_slice());
            status_of(end)
        }
        Err(_) => NO_MEMORY,
    }
}

// Writes the last line, and gives back the store and the logs with their counts.
fn ended<S: ObjectStore, L: SourceLog, W: Sink>(
    alloc: Global,
    store: S,
    logs: Logs<L>,
    end: End,
    output: &mut W,
) -> (Served<S>, Logs<L>)
    ensures store { result.0.store ≡ store }
    ensures store_faults { result.0.store_faults ≡ S.fault_count store }
    ensures logs { logs_in result.1 ≡ logs_in logs }
    ensures later { AllZip L.since (logs_in logs) (logs_in result.1) }
    ensures log_sum { result.0.log_faults ≡ min (sum (map L.fault_count (logs_in result.1))) last_count }
    ensures counted { W.fault_count output.old ≤ W.fault_count output.new }
    ensures status { (result.0.status ≡ ended_status end) ⊎ (result.0.status ≡ 11) }
    ensures writes { (held : List ℕ) → W.content output.old ≡ Some held →
        EndsSo end held (W.content output.new) (W.fault_count output.old) (W.fault_count output.new) result.0.status }
{
    let store_faults = store.faults();
    let log_faults = logs.faults();
    let status = write_end(alloc, &end, output);
    mem::drop(end);
    let finished = Served {
        status,
        store,
        store_faults,
        log_faults,
    };
    (finished, logs)
}

// Answers other words.
fn refuse<S: ObjectStore, L: SourceLog, W: Sink>(
    alloc: Global,
    store: S,
    logs: Vec<L>,
    output: &mut W,
) -> (Served<S>, Logs<L>)
    ensures store { result.0.store ≡ store }
    ensures store_faults { result.0.store_faults ≡ S.fault_count store }
    ensures logs { logs_in result.1 ≡ logs.items }
    ensures log_sum { result.0.log_faults ≡ min (sum (map L.fault_count (logs_in result.1))) last_count }
    ensures counted { W.fault_count output.old ≤ W.fault_count output.new }
    ensures status { IsOneOf result.0.status other_statuses }
    ensures writes { WroteWords result.0.status (W.fault_count output.old) (W.fault_count output.new) (W.content output.old) (W.content output.new) }
{
    ended(alloc, store, Logs::Unread(logs), End::BadWords, output)
}

// Does the lines of the input with an opened node, and lets it go.
#[tactic(none)]
fn drive_node<Rt: Threads + Sync, S: ObjectStore, L: SourceLog, R: Source, W: Sink>(
    rt: &Rt,
    alloc: Global,
    node: DriveNode<S, L>,
    input: &mut R,
    output: &mut W,
) -> (Served<S>, Logs<L>)
    ensures drives { (history : List Entry) (before : Before) (firsts : List L) (fresh opened : Node) → IsFresh before history fresh → Opens fresh (Ok tt) opened → BeginsAlong fresh opened →
        NodeStands L.told L.fault_count L.since firsts node opened →
        StreamsShow R.left R.fault_count W.content W.fault_count input.old output.old before →
        Returns S.told S.fault_count L.fault_count L.since R.left R.fault_count W.content W.fault_count result.0.store result.0.store_faults result.0.log_faults
        firsts (logs_in result.1) input.new output.new (λ after. Drives history before after result.0.status) }
    ensures opening { (before : Outside) → IsFound before.store → EndsBy DriveFinds before
        (outside_of (S.told result.0.store) (S.fault_count result.0.store) (R.left input.new) (R.fault_count input.new) (W.content output.new) (W.fault_count output.new)) result.0.status }
    ensures causes { (low high : ℕ) → DriveCauses (faults_of low (R.fault_count input.old) (W.fault_count output.old))
        (faults_of high (R.fault_count input.new) (W.fault_count output.new)) result.0.status }
    ensures store_faults { result.0.store_faults ≡ S.fault_count result.0.store }
    ensures log_sum { result.0.log_faults ≡ min (sum (map L.fault_count (logs_in result.1))) last_count }
{
    let mut node = node;
    let end = run(rt, alloc, &mut node, input, output);
    let (store, logs) = node.finish_with_logs();
    ended(alloc, store, logs, end, output)
}

// Starts a node over an opened world, and drives it.
#[tactic(none)]
fn drive_world<Rt: Threads + Sync, S: ObjectStore, L: SourceLog, R: Source, W: Sink>(
    rt: &Rt,
    alloc: Global,
    world: World<S, ScriptClock>,
    logs: Vec<L>,
    input: &mut R,
    output: &mut W,
) -> (Served<S>, Logs<L>)
    ensures drives { (history : List Entry) (before : Before) (fresh opened : Node) → IsFresh before history fresh → Opens fresh (Ok tt) opened → BeginsAlong fresh opened →
        WorldStands world opened.core before.log → IsLog before.log → LogsShow L.told L.fault_count logs.items before →
        StreamsShow R.left R.fault_count W.content W.fault_count input.old output.old before →
        Returns S.told S.fault_count L.fault_count L.since R.left R.fault_count W.content W.fault_count result.0.store result.0.store_faults result.0.log_faults
        logs.items (logs_in result.1) input.new output.new (λ after. Drives history before after result.0.status) }
    ensures opening { (before : Outside) → IsFound before.store → EndsBy DriveFinds before
        (outside_of (S.told result.0.store) (S.fault_count result.0.store) (R.left input.new) (R.fault_count input.new) (W.content output.new) (W.fault_count output.new)) result.0.status }
    ensures causes { (low high : ℕ) → DriveCauses (faults_of low (R.fault_count input.old) (W.fault_count output.old))
        (faults_of high (R.fault_count input.new) (W.fault_count output.new)) result.0.status }
    ensures store_faults { result.0.store_faults ≡ S.fault_count result.0.store }
    ensures log_sum { result.0.log_faults ≡ min (sum (map L.fault_count (logs_in result.1))) last_count }
{
    match DriveNode::start(alloc, world, logs) {
        Ok(node) => drive_node(rt, alloc, node, input, output),
        Err(unstarted) => {
            let Unstarted {
                world,
                logs,
                error: _error,
            } = unstarted;
            let (store, _) = world.unload();
            ended(alloc, store, Logs::Unread(logs), End::Memory, output)
        }
    }
}

// Opens the index of a store, and drives a node over it.
#[tactic(none)]
fn drive<Rt: Threads + Sync, S: ObjectStore, L: SourceLog, R: Source, W: Sink>(
    rt: &Rt,
    alloc: Global,
    store: S,
    logs: Vec<L>,
    input: &mut R,
    output: &mut W,
) -> (Served<S>, Logs<L>)
    ensures drives { (history : List Entry) (before : Before) →
        Shows S.told S.fault_count L.told L.fault_count R.left R.fault_count W.content W.fault_count store logs.items input.old output.old before →
        EntersAs history before →
        Returns S.told S.fault_count L.fault_count L.since R.left R.fault_count W.content W.fault_count result.0.store result.0.store_faults result.0.log_faults
        logs.items (logs_in result.1) input.new output.new (λ after. Drives history before after result.0.status) }
    ensures opening { EndsBy DriveFinds (outside_of (S.told store) (S.fault_count store) (R.left input.old) (R.fault_count input.old) (W.content output.old) (W.fault_count output.old))
        (outside_of (S.told result.0.store) (S.fault_count result.0.store) (R.left input.new) (R.fault_count input.new) (W.content output.new) (W.fault_count output.new)) result.0.status }
    ensures causes { DriveCauses (faults_of (S.fault_count store) (R.fault_count input.old) (W.fault_count output.old))
        (faults_of (S.fault_count result.0.store) (R.fault_count input.new) (W.fault_count output.new)) result.0.status }
    ensures store_faults { result.0.store_faults ≡ S.fault_count result.0.store }
    ensures log_sum { result.0.log_faults ≡ min (sum (map L.fault_count (logs_in result.1))) last_count }
{
    match World::load(alloc, store, ScriptClock::at(0)) {
        Ok(world) => drive_world(rt, alloc, world, logs, input, output),
        Err(Unopened { error, store }) => {
            ended(
                alloc,
                store,
                Logs::Unread(logs),
                End::NotOpened(error),
                output,
            )
        }
    }
}

// Makes the index of the configuration that the input has.
#[tactic(none)]
fn create<S: ObjectStore, L: SourceLog, C: Clock, R: Source, W: Sink>(
    alloc: Global,
    store: S,
    logs: Vec<L>,
    clock: C,
    input: &mut R,
    output: &mut W,
) -> (Served<S>, Logs<L>)
    ensures creates { (history : List Entry) (before : Before) →
        Shows S.told S.fault_count L.told L.fault_count R.left R.fault_count W.content W.fault_count store logs.items input.old output.old before →
        EntersAs history before →
        Returns S.told S.fault_count L.fault_count L.since R.left R.fault_count W.content W.fault_count result.0.store result.0.store_faults result.0.log_faults
        logs.items (logs_in result.1) input.new output.new (λ after. CreatesAt (C.told clock) history before after result.0.status) }
    ensures opening { EndsBy (CreateFinds (C.told clock)) (outside_of (S.told store) (S.fault_count store) (R.left input.old) (R.fault_count input.old) (W.content output.old) (W.fault_count output.old))
        (outside_of (S.told result.0.store) (S.fault_count result.0.store) (R.left input.new) (R.fault_count input.new) (W.content output.new) (W.fault_count output.new)) result.0.status }
    ensures causes { CreateCauses (faults_of (S.fault_count store) (R.fault_count input.old) (W.fault_count output.old))
        (faults_of (S.fault_count result.0.store) (R.fault_count input.new) (W.fault_count output.new)) result.0.status }
    ensures store_faults { result.0.store_faults ≡ S.fault_count result.0.store }
    ensures log_sum { result.0.log_faults ≡ min (sum (map L.fault_count (logs_in result.1))) last_count }
    ensures unread { logs_in result.1 ≡ logs.items }
{
    let (end, store) = create_index(alloc, store, clock, input, output);
    ended(alloc, store, Logs::Unread(logs), end, output)
}

// Writes a report on the index of a store. Nothing is read of the input.
#[tactic(none)]
fn report<S: ObjectStore, L: SourceLog, R: Source, W: Sink>(
    alloc: Global,
    asked: Report,
    store: S,
    logs: Vec<L>,
    _input: &R,
    output: &mut W,
) -> (Served<S>, Logs<L>)
    ensures reports { (history : List Entry) (before : Before) →
        Shows S.told S.fault_count L.told L.fault_count R.left R.fault_count W.content W.fault_count store logs.items _input.now output.old before →
        EntersAs history before →
        Returns S.told S.fault_count L.fault_count L.since R.left R.fault_count W.content W.fault_count result.0.store result.0.store_faults result.0.log_faults
        logs.items (logs_in result.1) _input.now output.new (λ after. Reports asked history before after result.0.status) }
    ensures landed { WhereTold (S.told store) (S.told result.0.store) HasLanded }
    ensures opening { EndsBy (ReportFinds asked) (outside_of (S.told store) (S.fault_count store) (R.left _input.now) (R.fault_count _input.now) (W.content output.old) (W.fault_count output.old))
        (outside_of (S.told result.0.store) (S.fault_count result.0.store) (R.left _input.now) (R.fault_count _input.now) (W.content output.new) (W.fault_count output.new)) result.0.status }
    ensures causes { ReportCauses (faults_of (S.fault_count store) (R.fault_count _input.now) (W.fault_count output.old))
        (faults_of (S.fault_count result.0.store) (R.fault_count _input.now) (W.fault_count output.new)) result.0.status }
    ensures store_faults { result.0.store_faults ≡ S.fault_count result.0.store }
    ensures log_sum { result.0.log_faults ≡ min (sum (map L.fault_count (logs_in result.1))) last_count }
    ensures unread { logs_in result.1 ≡ logs.items }
{
    let (end, store) = write_report(alloc, asked, store, output);
    ended(alloc, store, Logs::Unread(logs), end, output)
}

// What the words ask of a run.
fn options_of(asked: &RunAsked) -> RunOptions
    requires { IsWithin asked.now }
    ensures { result ≡ options_of asked.now }
{
    RunOptions {
        indexers: asked.indexers as usize,
        searchers: asked.searchers as usize,
        turns: asked.turns,
        settle: asked.settle,
    }
}

// How a run ends that does not begin, by the reading of its input.
fn end_of(end: ReadEnd) -> Option<End>
    ensures { result ≡ end_of end }
{
    match end {
        ReadEnd::Whole => None,
        ReadEnd::BadLine(number) => Some(End::BadLine(number)),
        ReadEnd::RequestsOver => Some(End::RequestsOver),
        ReadEnd::ClientsOver => Some(End::ClientsOver),
        ReadEnd::LineOver => Some(End::LineOver),
        ReadEnd::InputOver => Some(End::InputOver),
        ReadEnd::Fault => Some(End::ReadFault),
    }
}

// Lets an opened world go as it is.
fn unused<S: ObjectStore, L: SourceLog, W: Sink>(
    alloc: Global,
    world: World<S, ScriptClock>,
    logs: Vec<L>,
    end: End,
    output: &mut W,
) -> (Served<S>, Logs<L>)
    ensures store { S.told result.0.store ≡ world.told }
    ensures store_faults { (result.0.store_faults ≡ S.fault_count result.0.store) × (S.fault_count result.0.store ≡ world.store_faults) }
    ensures logs { logs_in result.1 ≡ logs.items }
    ensures later { AllZip L.since logs.items (logs_in result.1) }
    ensures log_sum { result.0.log_faults ≡ min (sum (map L.fault_count (logs_in result.1))) last_count }
    ensures counted { W.fault_count output.old ≤ W.fault_count output.new }
    ensures status { (result.0.status ≡ ended_status end) ⊎ (result.0.status ≡ 11) }
    ensures writes { (held : List ℕ) → W.content output.old ≡ Some held →
        EndsSo end held (W.content output.new) (W.fault_count output.old) (W.fault_count output.new) result.0.status }
{
    let (store, _) = world.unload();
    ended(alloc, store, Logs::Unread(logs), end, output)
}

// Makes a run over an opened world, by these requests.
#[tactic(none)]
fn run_requests<
    Rt: Threads + Wait + Sync,
    S: ObjectStore + Send,
    L: SourceLog + Send,
    C: Clock + Send,
    H: LeafHold,
    W: Sink,
>(
    rt: &Rt,
    alloc: Global,
    options: RunOptions,
    world: World<S, ScriptClock>,
    logs: Vec<L>,
    clock: C,
    hold: &H,
    requests: Vec<Request>,
    output: &mut W,
) -> (Served<S>, Logs<L>)
    requires indexers { (1 ≤ options.indexers) × (options.indexers ≤ 64) × (options.indexers ≤ length logs.items) }
    requires searchers { (1 ≤ options.searchers) × (options.searchers ≤ 64) }
    ensures later { AllZip L.since logs.items (logs_in result.1) }
    ensures counted { W.fault_count output.old ≤ W.fault_count output.new }
    ensures ends { SaidAlone (W.fault_count output.old) (W.fault_count output.new) result.0.status }
    ensures ran { (core : Core) (log : Log) (held : List ℕ) → IsLog log → WorldStands world core log → All (λ own. L.told own ≡ Some log) logs.items →
        W.content output.old ≡ Some held →
        RanOn options log (map L.fault_count logs.items) (map L.fault_count (logs_in result.1)) core requests.items
        (S.told result.0.store) (S.fault_count result.0.store) held (W.content output.new) (W.fault_count output.old) (W.fault_count output.new) result.0.status }
    ensures store_faults { result.0.store_faults ≡ S.fault_count result.0.store }
    ensures log_sum { result.0.log_faults ≡ min (sum (map L.fault_count (logs_in result.1))) last_count }
{
    let Finished { end, store, logs } = finish(
        rt, alloc, options, world, logs, clock, hold, requests, output,
    );
    ended(alloc, store, Logs::Unread(logs), end, output)
}

// Reads the requests of an input, and makes a run over an opened world.
#[tactic(none)]
fn run_world<
    Rt: Threads + Wait + Sync,
    S: ObjectStore + Send,
    L: SourceLog + Send,
    C: Clock + Send,
    H: LeafHold,
    R: Source,
    W: Sink,
>(
    rt: &Rt,
    alloc: Global,
    options: RunOptions,
    world: World<S, ScriptClock>,
    logs: Vec<L>,
    clock: C,
    hold: &H,
    input: &mut R,
    output: &mut W,
) -> (Served<S>, Logs<L>)
    requires indexers { (1 ≤ options.indexers) × (options.indexers ≤ 64) × (options.indexers ≤ length logs.items) }
    requires searchers { (1 ≤ options.searchers) × (options.searchers ≤ 64) }
    ensures runs { (asked : RunWords) (history : List Entry) (before : Before) (fresh opened : Node) → options ≡ options_of asked → IsFresh before history fresh → Opens fresh (Ok tt) opened →
        fresh.core.store_faults ≤ opened.core.store_faults → WorldStands world opened.core before.log → IsLog before.log → LogsShow L.told L.fault_count logs.items before →
        StreamsShow R.left R.fault_count W.content W.fault_count input.old output.old before →
        Returns S.told S.fault_count L.fault_count L.since R.left R.fault_count W.content W.fault_count result.0.store result.0.store_faults result.0.log_faults
        logs.items (logs_in result.1) input.new output.new (λ after. Runs asked history before after result.0.status) }
    ensures opening { (told : Option State) (count : ℕ) → WhereTold told world.told IsFoundFrom →
        EndsBy RunFinds (outside_of told count (R.left input.old) (R.fault_count input.old) (W.content output.old) (W.fault_count output.old))
        (outside_of (S.told result.0.store) (S.fault_count result.0.store) (R.left input.new) (R.fault_count input.new) (W.content output.new) (W.fault_count output.new)) result.0.status }
    ensures causes { (low high : ℕ) → DriveCauses (faults_of low (R.fault_count input.old) (W.fault_count output.old))
        (faults_of high (R.fault_count input.new) (W.fault_count output.new)) result.0.status }
    ensures store_faults { result.0.store_faults ≡ S.fault_count result.0.store }
    ensures log_sum { result.0.log_faults ≡ min (sum (map L.fault_count (logs_in result.1))) last_count }
{
    let Ok((requests, read)) = read_requests(alloc, input) else {
        return unused(alloc, world, logs, End::Memory, output);
    };
    match end_of(read) {
        None => run_requests(
            rt, alloc, options, world, logs, clock, hold, requests, output,
        ),
        Some(end) => unused(alloc, world, logs, end, output),
    }
}

// Opens the index of a store, and makes a run over it.
#[tactic(none)]
fn run_index<
    Rt: Threads + Wait + Sync,
    S: ObjectStore + Send,
    L: SourceLog + Send,
    C: Clock + Send,
    H: LeafHold,
    R: Source,
    W: Sink,
>(
    rt: &Rt,
    alloc: Global,
    options: RunOptions,
    store: S,
    logs: Vec<L>,
    clock: C,
    hold: &H,
    input: &mut R,
    output: &mut W,
) -> (Served<S>, Logs<L>)
    requires indexers { (1 ≤ options.indexers) × (options.indexers ≤ 64) × (options.indexers ≤ length logs.items) }
    requires searchers { (1 ≤ options.searchers) × (options.searchers ≤ 64) }
    ensures runs { (asked : RunWords) (history : List Entry) (before : Before) → options ≡ options_of asked →
        Shows S.told S.fault_count L.told L.fault_count R.left R.fault_count W.content W.fault_count store logs.items input.old output.old before →
        EntersAs history before →
        Returns S.told S.fault_count L.fault_count L.since R.left R.fault_count W.content W.fault_count result.0.store result.0.store_faults result.0.log_faults
        logs.items (logs_in result.1) input.new output.new (λ after. Runs asked history before after result.0.status) }
    ensures opening { EndsBy RunFinds (outside_of (S.told store) (S.fault_count store) (R.left input.old) (R.fault_count input.old) (W.content output.old) (W.fault_count output.old))
        (outside_of (S.told result.0.store) (S.fault_count result.0.store) (R.left input.new) (R.fault_count input.new) (W.content output.new) (W.fault_count output.new)) result.0.status }
    ensures causes { DriveCauses (faults_of (S.fault_count store) (R.fault_count input.old) (W.fault_count output.old))
        (faults_of (S.fault_count result.0.store) (R.fault_count input.new) (W.fault_count output.new)) result.0.status }
    ensures store_faults { result.0.store_faults ≡ S.fault_count result.0.store }
    ensures log_sum { result.0.log_faults ≡ min (sum (map L.fault_count (logs_in result.1))) last_count }
{
    match World::load(alloc, store, ScriptClock::at(0)) {
        Ok(world) => run_world(rt, alloc, options, world, logs, clock, hold, input, output),
        Err(unopened) => {
            let Unopened { error, store } = unopened;
            let end = End::NotOpened(error);
            ended(alloc, store, Logs::Unread(logs), end, output)
        }
    }
}

/// Does the command that the words name. `drive` reads a schedule line by line from the input, and answers each line by a
/// line of the output. `run` reads all requests, lets every actor work in a thread of its own, and writes the replies and how
/// each actor ended; `hold` is told of each search and each reply meanwhile. `create` reads a configuration from the input, and makes the index of a store that has none, at the
/// moment that the clock tells. `splits` writes a line for each split of the index, and `describe` the index as a whole.
/// Statuses: 0 all lines were answered, an index was made, or a report was written, 1 the words name no command, 2 the input
/// is no configuration, 3 a line is none, 4 the store failed in opening or making, 5 the input failed, 6 the output failed,
/// 7 the store is no index, 8 its journal is empty, 9 it has an entry, 10 a limit was passed, 11 want of memory. The logs are
/// given back, each as a later state of the one that was handed in.
#[tactic(none)]
pub fn serve_with_logs<
    Rt: Threads + Wait + Sync,
    S: ObjectStore + Send,
    L: SourceLog + Send,
    C: Clock + Send,
    H: LeafHold,
    R: Source,
    W: Sink,
>(
    rt: &Rt,
    alloc: Global,
    words: &[String],
    store: S,
    logs: Vec<L>,
    clock: C,
    hold: &H,
    input: &mut R,
    output: &mut W,
) -> (Served<S>, Logs<L>)
    ensures { Serves S.told S.fault_count L.told L.fault_count L.since R.left R.fault_count W.content W.fault_count
        (map string_bytes words.now) store logs.items (C.told clock) input.old output.old
        result.0.store result.0.store_faults result.0.log_faults (logs_in result.1) input.new output.new result.0.status }
{
    let Ok(named) = read_words(alloc, words) else {
        return ended(alloc, store, Logs::Unread(logs), End::Memory, output);
    };
    let Some(command) = named else {
        return refuse(alloc, store, logs, output);
    };
    match command {
        Command::Create => create(alloc, store, logs, clock, input, output),
        Command::Drive => drive(rt, alloc, store, logs, input, output),
        Command::Run(asked) => {
            let options = options_of(&asked);
            if logs.len() < options.indexers {
                return refuse(alloc, store, logs, output);
            }
            run_index(rt, alloc, options, store, logs, clock, hold, input, output)
        }
        Command::Splits => report(alloc, Report::Splits, store, logs, input, output),
        Command::Describe => report(alloc, Report::Describe, store, logs, input, output),
    }
}

/// Does the command that the words name, as `serve_with_logs`, and lets the logs go.
#[tactic(none)]
pub fn serve<
    Rt: Threads + Wait + Sync,
    S: ObjectStore + Send,
    L: SourceLog + Send,
    C: Clock + Send,
    R: Source,
    W: Sink,
>(
    rt: &Rt,
    alloc: Global,
    words: &[String],
    store: S,
    logs: Vec<L>,
    clock: C,
    input: &mut R,
    output: &mut W,
) -> Served<S>
    // The same of some logs.
    ensures { (lasts : List L) × Serves S.told S.fault_count L.told L.fault_count L.since R.left R.fault_count W.content W.fault_count
        (map string_bytes words.now) store logs.items (C.told clock) input.old output.old
        result.store result.store_faults result.log_faults lasts input.new output.new result.status }
{
    let (finished, logs) = serve_with_logs(
        rt, alloc, words, store, logs, clock, &NoHold, input, output,
    );
    mem::drop(logs);
    finished
}

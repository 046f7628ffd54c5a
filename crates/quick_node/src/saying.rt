//! What a run says: a line for each reply, a line for each end, and a line for what settling came to.

ghost use Rattle.std.specs.Prelude.{◌≡◌, ◌≤◌, ◌++◌, ◌∷◌, [], ℕ, List, Some, IfErr, OnOk, IsSome, length, map, flat_map, option_to_list};
ghost use Rattle.std.specs.List.{AllByRecursion, AllZip};
ghost use Rattle.search_api.specs.Replies.{reply_text};
ghost use Rattle.source_log.specs.Log.{IsLog, Log};
ghost use Rattle.index_world.specs.Core.{Core};
ghost use Rattle.index_world.specs.World.{WorldStands};
ghost use Rattle.thread_run.specs.EndLines.{end_text, settled_text};
ghost use Rattle.quick_node.specs.Runs.{with_feeds};
ghost use Rattle.quick_node.specs.Saying.{EndsSaying, IsUnsaid, RunsOn, SaysUpTo, WroteSo};

use crate::error_line::End;
use crate::writing::write_all;
use byte_fields::{Bytes, Sink};
use clock_time::{Clock, ScriptClock};
use index_world::World;
use object_store::ObjectStore;
use root_search::LeafHold;
use run_plan::Request;
use search_api::{Reply, print_reply};
use source_log::SourceLog;
use std::alloc::{AllocError, Global};
use std::sync::Wait;
use std::thread::Threads;
use thread_run::{ActorEnd, RunEnd, RunOptions, Settled, end_line, run, settled_line};

/// Why a line was not written to its end.
#[derive(Clone, Copy)]
pub enum Unsaid {
    Memory,
    Fault,
}

impl From<AllocError> for Unsaid {
    ghost use Rattle.std.specs.Prelude.{◌≡◌};
    ghost use Rattle.quick_node.specs.declared.saying.Unsaid.TheVariants.{Memory};

    ghost from_gives = { λ _ why. why ≡ Memory };

    fn from(_refused: AllocError) -> Self {
        Unsaid::Memory
    }
}

// Writes a line.
fn say_line<W: Sink>(text: Bytes, output: &mut W) -> Result<(), Unsaid>
    ensures counted { W.fault_count output.old ≤ W.fault_count output.new }
    ensures cause { IfErr result (IsUnsaid (W.fault_count output.old) (W.fault_count output.new)) }
    ensures writes { (held : List ℕ) → W.content output.old ≡ Some held → (said : List ℕ) × (W.content output.new ≡ Some (held ++ said))
        × WroteSo said (text ++ 10 ∷ []) result }
{
    let mut text = text;
    text.push(b'\n')?;
    match write_all(output, text.as_slice()) {
        Ok(()) => Ok(()),
        Err(_) => Err(Unsaid::Fault),
    }
}

// Writes a line for each reply.
fn say_replies<W: Sink>(alloc: Global, replies: &[Reply], output: &mut W) -> Result<(), Unsaid>
    ensures counted { W.fault_count output.old ≤ W.fault_count output.new }
    ensures cause { IfErr result (IsUnsaid (W.fault_count output.old) (W.fault_count output.new)) }
    ensures writes { (held : List ℕ) → W.content output.old ≡ Some held → (said : List ℕ) × (W.content output.new ≡ Some (held ++ said))
        × WroteSo said (with_feeds (map reply_text replies.now)) result }
{
    for reply in replies {
        let line = print_reply(alloc, reply)?;
        say_line(line, output)?;
    }
    Ok(())
}

// Writes a line for each end, up to one that is want of memory.
fn say_ends<W: Sink>(alloc: Global, ends: &[ActorEnd], output: &mut W) -> Result<(), Unsaid>
    ensures counted { W.fault_count output.old ≤ W.fault_count output.new }
    ensures cause { IfErr result (IsUnsaid (W.fault_count output.old) (W.fault_count output.new)) }
    ensures told { OnOk result (AllByRecursion (λ end. IsSome (end_text end)) ends.now) }
    ensures writes { (held : List ℕ) → W.content output.old ≡ Some held → (said : List ℕ) × (W.content output.new ≡ Some (held ++ said))
        × WroteSo said (with_feeds (flat_map (λ end. option_to_list (end_text end)) ends.now)) result }
{
    for end in ends {
        let Some(line) = end_line(alloc, end)? else {
            return Err(Unsaid::Memory);
        };
        say_line(line.bytes, output)?;
    }
    Ok(())
}

// Writes what settling came to, where it was asked.
fn say_settled<W: Sink>(
    alloc: Global,
    settled: &Option<Settled>,
    output: &mut W,
) -> Result<(), Unsaid>
    ensures counted { W.fault_count output.old ≤ W.fault_count output.new }
    ensures cause { IfErr result (IsUnsaid (W.fault_count output.old) (W.fault_count output.new)) }
    ensures writes { (held : List ℕ) → W.content output.old ≡ Some held → (said : List ℕ) × (W.content output.new ≡ Some (held ++ said))
        × WroteSo said (with_feeds (map settled_text (option_to_list settled.now))) result }
{
    match settled {
        Some(settled) => {
            let line = settled_line(alloc, settled)?;
            say_line(line.bytes, output)
        }
        None => Ok(()),
    }
}

// Writes all that a run says.
fn say_all<W: Sink>(
    alloc: Global,
    replies: &[Reply],
    ends: &[ActorEnd],
    settled: &Option<Settled>,
    output: &mut W,
) -> Result<(), Unsaid>
    ensures counted { W.fault_count output.old ≤ W.fault_count output.new }
    ensures cause { IfErr result (IsUnsaid (W.fault_count output.old) (W.fault_count output.new)) }
    ensures told { OnOk result (AllByRecursion (λ end. IsSome (end_text end)) ends.now) }
    ensures writes { (held : List ℕ) → W.content output.old ≡ Some held → (said : List ℕ) × (W.content output.new ≡ Some (held ++ said))
        × WroteSo said (with_feeds (map reply_text replies.now ++ (flat_map (λ end. option_to_list (end_text end)) ends.now ++ map settled_text (option_to_list settled.now)))) result }
{
    say_replies(alloc, replies, output)?;
    say_ends(alloc, ends, output)?;
    say_settled(alloc, settled, output)
}

// Writes all that a run says. Gives how it ends.
fn say_run<W: Sink>(
    alloc: Global,
    replies: &[Reply],
    ends: &[ActorEnd],
    settled: &Option<Settled>,
    output: &mut W,
) -> End
    ensures counted { W.fault_count output.old ≤ W.fault_count output.new }
    ensures ends { EndsSaying (W.fault_count output.old) (W.fault_count output.new) result }
    ensures writes { (held : List ℕ) → W.content output.old ≡ Some held → (said : List ℕ) × (W.content output.new ≡ Some (held ++ said))
        × SaysUpTo (record { replies = replies.now; ends = ends.now; settled = settled.now }) said result }
{
    match say_all(alloc, replies, ends, settled, output) {
        Ok(()) => End::Done,
        Err(Unsaid::Memory) => End::Memory,
        Err(Unsaid::Fault) => End::WriteFault,
    }
}

/// What comes back of a run that said what it had to say: how it ends, the store and the logs.
pub struct Finished<S, L> {
    pub end: End,
    pub store: S,
    pub logs: Vec<L>,
}

/// Makes a run over an opened world, and writes what it says.
pub fn finish<
    Rt: Threads + Wait + Sync,
    S: ObjectStore + Send,
    L: SourceLog + Send,
    C: Clock + Send,
    H: LeafHold,
    W: Sink,
>(
    rt: &Rt,
    alloc: Global,
    options: RunOptions,
    world: World<S, ScriptClock>,
    logs: Vec<L>,
    clock: C,
    hold: &H,
    requests: Vec<Request>,
    output: &mut W,
) -> Finished<S, L>
    requires indexers { (1 ≤ options.indexers) × (options.indexers ≤ 64) × (options.indexers ≤ length logs.items) }
    requires searchers { (1 ≤ options.searchers) × (options.searchers ≤ 64) }
    ensures later { AllZip L.since logs.items result.logs.items }
    ensures counted { W.fault_count output.old ≤ W.fault_count output.new }
    ensures ends { EndsSaying (W.fault_count output.old) (W.fault_count output.new) result.end }
    ensures ran { (core : Core) (log : Log) (held : List ℕ) → IsLog log → WorldStands world core log → AllByRecursion (λ own. L.told own ≡ Some log) logs.items →
        W.content output.old ≡ Some held →
        RunsOn options log (map L.fault_count logs.items) (map L.fault_count result.logs.items) core requests.items
        (S.told result.store) (S.fault_count result.store) held (W.content output.new) result.end }
{
    let RunEnd {
        world,
        logs,
        replies,
        ends,
        settled,
        memory,
    } = run(rt, alloc, world, clock, logs, requests, options, hold);
    let (store, _) = world.unload();
    let end = if memory {
        End::Memory
    } else {
        say_run(alloc, replies.as_slice(), ends.as_slice(), &settled, output)
    };
    Finished { end, store, logs }
}

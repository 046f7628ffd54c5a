//! The lines of an input, one after another.

ghost use Rattle.std.specs.Prelude.{◌≡◌, ◌≤◌, ◌<◌, ◌+◌, ℕ, List, [], Some, None, length, vec_len, IfOk, IfSome};
ghost use Rattle.node_run.specs.declared.drive.Accepts.TheVariants.{Yes};
ghost use Rattle.node_run.specs.Fitting.{IsNumbered};
ghost use Rattle.node_run.specs.Lines.{Spells};
ghost use Rattle.node_run.specs.Node.{Node};
ghost use Rattle.node_run.specs.Seen.{seen};
ghost use Rattle.node_run.specs.Standing.{NodeStands, accepts_of};
ghost use Rattle.quick_node.specs.Causes.{EndsLineBy, EndsRunBy};
ghost use Rattle.quick_node.specs.Running.{Counts, counts_of, TakesLine, done_behind, IsGoing, GoesOrEnds, Runs, RunsOrShort};
ghost use Rattle.input_lines.specs.Held.{held as in_hand};

use crate::error_line::End;
use crate::writing::write_all;
use byte_fields::{Sink, Source};
use input_lines::{Lines, Next};
use node_run::{Accepts, DriveNode, Line, LineError, read_line};
use object_store::ObjectStore;
use source_log::SourceLog;
use std::alloc::{AllocError, Global};
use std::mem;
use std::thread::Threads;

// Does one line of the input. Gives how the run ends, where it ends with this line.
#[tactic(none)]
fn take_line<Rt: Threads + Sync, S: ObjectStore, L: SourceLog, W: Sink>(
    rt: &Rt,
    alloc: Global,
    node: &mut DriveNode<S, L>,
    text: &[u8],
    number: u64,
    output: &mut W,
) -> Result<Option<End>, AllocError>
    ensures counted { W.fault_count output.old ≤ W.fault_count output.new }
    ensures causes { IfOk result (λ end. IfSome end (EndsLineBy (W.fault_count output.old) (W.fault_count output.new))) }
    ensures takes { (firsts : List L) (mid : Node) (held : List ℕ) → NodeStands L.told L.fault_count L.since firsts node.old mid → W.content output.old ≡ Some held →
        TakesLine (λ n. NodeStands L.told L.fault_count L.since firsts node.new n) text.now number mid held (W.content output.new)
        (W.fault_count output.old) (W.fault_count output.new) result }
{
    let line = match read_line(alloc, text) {
        Ok(line) => line,
        Err(LineError::BadLine) => return Ok(Some(End::BadLine(number))),
        Err(LineError::Memory(refused)) => return Err(refused),
    };
    match node.accepts(&line) {
        Accepts::BadLine => {
            mem::drop(line);
            Ok(Some(End::BadLine(number)))
        }
        Accepts::TooManyClients => {
            mem::drop(line);
            Ok(Some(End::ClientsOver))
        }
        Accepts::Yes => {
            let ended = answer_line(rt, alloc, node, &line, output);
            mem::drop(line);
            ended
        }
    }
}

#[tactic(none)]
fn answer_line<Rt: Threads + Sync, S: ObjectStore, L: SourceLog, W: Sink>(
    rt: &Rt,
    alloc: Global,
    node: &mut DriveNode<S, L>,
    line: &Line,
    output: &mut W,
) -> Result<Option<End>, AllocError>
    requires { IsNumbered line.now (vec_len node.old.indexers) }
    ensures counted { W.fault_count output.old ≤ W.fault_count output.new }
    ensures causes { IfOk result (λ end. IfSome end (EndsLineBy (W.fault_count output.old) (W.fault_count output.new))) }
    ensures takes { (firsts : List L) (mid : Node) (text : List ℕ) (number : ℕ) (held : List ℕ) →
        NodeStands L.told L.fault_count L.since firsts node.old mid → Spells text (seen line.now) → accepts_of mid (seen line.now) ≡ Yes →
        W.content output.old ≡ Some held →
        TakesLine (λ n. NodeStands L.told L.fault_count L.since firsts node.new n) text number mid held (W.content output.new)
        (W.fault_count output.old) (W.fault_count output.new) result }
{
    let mut said = node.step(rt, alloc, line)?.bytes;
    said.push(b'\n')?;
    match write_all(output, said.as_slice()) {
        Ok(()) => Ok(None),
        Err(_) => Ok(Some(End::WriteFault)),
    }
}

// Behind the last line the run is done.
fn or_done(ended: Result<Option<End>, AllocError>) -> Result<Option<End>, AllocError>
    ensures { result ≡ done_behind ended }
{
    match ended {
        Ok(None) => Ok(Some(End::Done)),
        Ok(Some(end)) => Ok(Some(end)),
        Err(refused) => Err(refused),
    }
}

// Does the next line of the input. Gives how the run ends, where it ends here: behind the last line at the latest.
#[tactic(none)]
fn next_line<Rt: Threads + Sync, S: ObjectStore, L: SourceLog, R: Source, W: Sink>(
    rt: &Rt,
    alloc: Global,
    node: &mut DriveNode<S, L>,
    lines: &mut Lines,
    number: u64,
    input: &mut R,
    output: &mut W,
) -> Result<Option<End>, AllocError>
    // It goes on behind a line with its line feed alone: the input told no end yet.
    ensures moves { IfOk result (λ end. end ≡ None → lines.new.taken ≡ lines.old.taken + length lines.new.line.items + 1) }
    ensures read { R.fault_count input.old ≤ R.fault_count input.new }
    ensures written { W.fault_count output.old ≤ W.fault_count output.new }
    ensures causes { IfOk result (λ end. IfSome end (EndsRunBy (counts_of (R.fault_count input.old) (R.fault_count input.new) (W.fault_count output.old) (W.fault_count output.new)))) }
    ensures goes { (firsts : List L) (readers : ℕ) (text : List ℕ) (begun : Node) (held : List ℕ) (counts : Counts) →
        IsGoing (λ n. NodeStands L.told L.fault_count L.since firsts node.old n) readers text begun held (W.content output.old) (R.left input.old) (in_hand lines.old) lines.old.taken number →
        counts.read_before ≤ R.fault_count input.old → R.fault_count input.new ≤ counts.read_after →
        counts.write_before ≤ W.fault_count output.old → W.fault_count output.new ≤ counts.write_after →
        GoesOrEnds (λ n. NodeStands L.told L.fault_count L.since firsts node.new n) readers text begun held (W.content output.new) (R.left input.new) (in_hand lines.new) lines.new.taken
        (number + 1) counts result }
{
    let number = number.saturating_add(1);
    match lines.next(input)? {
        Next::Line => take_line(rt, alloc, node, lines.line(), number, output),
        Next::Last => or_done(take_line(rt, alloc, node, lines.line(), number, output)),
        Next::End => Ok(Some(End::Done)),
        Next::LineOver => Ok(Some(End::LineOver)),
        Next::InputOver => Ok(Some(End::InputOver)),
        Next::Fault => Ok(Some(End::ReadFault)),
    }
}

// Reads the input, and does its lines one after another.
#[tactic(none)]
fn run_lines<Rt: Threads + Sync, S: ObjectStore, L: SourceLog, R: Source, W: Sink>(
    rt: &Rt,
    alloc: Global,
    node: &mut DriveNode<S, L>,
    input: &mut R,
    output: &mut W,
) -> Result<End, AllocError>
    ensures read { R.fault_count input.old ≤ R.fault_count input.new }
    ensures written { W.fault_count output.old ≤ W.fault_count output.new }
    ensures causes { IfOk result (EndsRunBy (counts_of (R.fault_count input.old) (R.fault_count input.new) (W.fault_count output.old) (W.fault_count output.new))) }
    ensures runs { (firsts : List L) (begun : Node) (text held : List ℕ) → NodeStands L.told L.fault_count L.since firsts node.old begun →
        begun.core.clock ≡ 0 → begun.clients ≡ [] → R.left input.old ≡ Some text → W.content output.old ≡ Some held →
        RunsOrShort (λ n. NodeStands L.told L.fault_count L.since firsts node.new n) (length begun.indexers) text begun held (W.content output.new) (R.left input.new)
        (counts_of (R.fault_count input.old) (R.fault_count input.new) (W.fault_count output.old) (W.fault_count output.new)) result }
{
    let mut lines = Lines::start(alloc)?;
    let mut number: u64 = 0;
    'lines: loop {
        let end = next_line(rt, alloc, node, &mut lines, number, input, output)?;
        if let Some(end) = end {
            return Ok(end);
        }
        number = number.saturating_add(1);
    }
}

/// Does the lines of an input, and says how that ended.
#[tactic(none)]
pub fn run<Rt: Threads + Sync, S: ObjectStore, L: SourceLog, R: Source, W: Sink>(
    rt: &Rt,
    alloc: Global,
    node: &mut DriveNode<S, L>,
    input: &mut R,
    output: &mut W,
) -> End
    ensures read { R.fault_count input.old ≤ R.fault_count input.new }
    ensures written { W.fault_count output.old ≤ W.fault_count output.new }
    ensures causes { EndsRunBy (counts_of (R.fault_count input.old) (R.fault_count input.new) (W.fault_count output.old) (W.fault_count output.new)) result }
    ensures runs { (firsts : List L) (begun : Node) (text held : List ℕ) → NodeStands L.told L.fault_count L.since firsts node.old begun →
        begun.core.clock ≡ 0 → begun.clients ≡ [] → R.left input.old ≡ Some text → W.content output.old ≡ Some held →
        Runs (λ n. NodeStands L.told L.fault_count L.since firsts node.new n) (length begun.indexers) text begun held (W.content output.new) (R.left input.new)
        (counts_of (R.fault_count input.old) (R.fault_count input.new) (W.fault_count output.old) (W.fault_count output.new)) result }
{
    match run_lines(rt, alloc, node, input, output) {
        Ok(end) => end,
        Err(_) => End::Memory,
    }
}

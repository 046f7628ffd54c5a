//! The command `create`: an index out of the configuration that an input has.

ghost use Rattle.std.specs.Prelude.{◌≡◌, ◌<◌, ◌≤◌, ◌++◌, ℕ, List, [], Option, Some, IfOk, MatchResult, IsErr, IsOkAnd, length, take, vec_len};
ghost use Rattle.byte_fields.specs.Causes.{HasCause};
ghost use Rattle.meta_journal.specs.declared.entry.Entry.{Entry};
ghost use Rattle.index_world.specs.Created.{IsToldBy};
ghost use Rattle.index_world.specs.Index.{IsIndexOf};
ghost use Rattle.quick_node.specs.Creating.{IsWhole, IsFaulty, CreatesUpTo, EndsCreateBy, SaysCreated, counts_at};
ghost use Rattle.quick_node.specs.Opening.{outside_of, IsConfigText, CreateFinds, BeforeLine};
ghost use Rattle.quick_node.specs.Reading.{max_config};
ghost use Rattle.quick_node.specs.Serve.{Before};

use crate::error_line::End;
use crate::writing::write_all;
use byte_fields::{Failed, Sink, Source};
use clock_time::{Clock, ScriptClock};
use index_world::{Unopened, World};
use object_store::ObjectStore;
use std::alloc::{AllocError, Global};

pub const MAX_CONFIG: usize = 1_048_576;

const CHUNK: usize = 65_536;

/// An input as a whole.
#[derive(Drop)]
pub enum Whole {
    /// All its bytes.
    Text(Vec<u8>),
    /// It is too long for a configuration.
    Over,
    /// It failed.
    Fault,
}

// Reads the next piece of an input into the front of a chunk. Gives how many bytes it has, 0 at the end.
fn read_piece<R: Source>(chunk: &mut Vec<u8>, input: &mut R) -> Result<usize, Failed>
    requires { 0 < vec_len chunk.old }
    ensures room { vec_len chunk.new ≡ vec_len chunk.old }
    ensures within { IfOk result (λ count. count ≤ vec_len chunk.new) }
    ensures reads { (more : List ℕ) → R.left input.old ≡ Some more → MatchResult result
        (λ count. (behind : List ℕ) × (R.left input.new ≡ Some behind) × (more ≡ take count chunk.new.items ++ behind) × (count ≡ 0 → more ≡ []))
        (λ _. R.left input.new ≡ Some more) }
    ensures cause { HasCause (R.fault_count input.old) (R.fault_count input.new) (IsErr result) }
{
    input.read(chunk.as_mut_slice())
}

// Reads an input to its end, within the limit of a configuration.
fn read_whole<R: Source>(alloc: Global, input: &mut R) -> Result<Whole, AllocError>
    ensures reads { (text : List ℕ) → R.left input.old ≡ Some text → IfOk result (λ whole. IsWhole whole text) }
    ensures cause { HasCause (R.fault_count input.old) (R.fault_count input.new) (IsOkAnd result IsFaulty) }
{
    let mut chunk = Vec::new(alloc);
    chunk.resize(CHUNK, 0)?;
    let mut text = Vec::new(alloc);
    'pieces: loop {
        let Ok(count) = read_piece(&mut chunk, input) else {
            return Ok(Whole::Fault);
        };
        if count == 0 {
            return Ok(Whole::Text(text));
        }
        if MAX_CONFIG - text.len() < count {
            return Ok(Whole::Over);
        }
        text.extend_from_slice(&chunk[..count])?;
    }
}

// Says that an index was made.
fn say_created<W: Sink>(output: &mut W) -> End
    ensures says { (held : List ℕ) → W.content output.old ≡ Some held → (said : List ℕ) × (W.content output.new ≡ Some (held ++ said))
        × SaysCreated (W.fault_count output.old) (W.fault_count output.new) said result }
    ensures causes { (said : List ℕ) × SaysCreated (W.fault_count output.old) (W.fault_count output.new) said result }
    ensures later { W.fault_count output.old ≤ W.fault_count output.new }
{
    match write_all(output, b"created\n") {
        Ok(()) => End::Done,
        Err(_) => End::WriteFault,
    }
}

// Makes the index of a text at the moment that the clock tells, and says so. Gives how it ends, and the store.
fn make_index<S: ObjectStore, C: Clock, W: Sink>(
    alloc: Global,
    store: S,
    clock: C,
    text: &[u8],
    output: &mut W,
) -> (End, S)
    ensures makes { (history : List Entry) (before : Before) (read : ℕ) → S.told store ≡ Some before.kept → S.fault_count store ≡ before.store_faults →
        text.now ≡ before.input → length text.now ≤ max_config → W.content output.old ≡ Some before.written →
        W.fault_count output.old ≡ before.write_faults → IsIndexOf before.kept history before.log →
        (moment : ℕ) × IsToldBy (C.told clock) moment
        × CreatesUpTo history before moment (S.told result.1) (W.content output.new) (counts_at (S.fault_count result.1) read (W.fault_count output.new)) result.0 }
    // What any store that tells is found to be, and what is done to it, whatever the clock is.
    ensures opening { (input left : Option (List ℕ)) (low high : ℕ) → IsConfigText input text.now →
        BeforeLine (CreateFinds (C.told clock)) (outside_of (S.told store) (S.fault_count store) input low (W.content output.old) (W.fault_count output.old))
        (outside_of (S.told result.1) (S.fault_count result.1) left high (W.content output.new) (W.fault_count output.new)) result.0 }
    ensures causes { (low high : ℕ) → EndsCreateBy (counts_at (S.fault_count store) low (W.fault_count output.old)) (counts_at (S.fault_count result.1) high (W.fault_count output.new)) result.0 }
    ensures later { W.fault_count output.old ≤ W.fault_count output.new }
{
    let mut clock = clock;
    let told = ScriptClock::at(clock.now());
    match World::create(alloc, store, told, text) {
        Ok(world) => {
            let end = say_created(output);
            let (store, _) = world.unload();
            (end, store)
        }
        Err(Unopened { error, store }) => (End::NotMade(error), store),
    }
}

/// Makes the index of the configuration that the input has, and says so. Gives how it ends, and the store.
pub fn create_index<S: ObjectStore, C: Clock, R: Source, W: Sink>(
    alloc: Global,
    store: S,
    clock: C,
    input: &mut R,
    output: &mut W,
) -> (End, S)
    ensures creates { (history : List Entry) (before : Before) → S.told store ≡ Some before.kept → S.fault_count store ≡ before.store_faults →
        R.left input.old ≡ Some before.input → R.fault_count input.old ≡ before.read_faults →
        W.content output.old ≡ Some before.written → W.fault_count output.old ≡ before.write_faults → IsIndexOf before.kept history before.log →
        (moment : ℕ) × IsToldBy (C.told clock) moment
        × CreatesUpTo history before moment (S.told result.1) (W.content output.new) (counts_at (S.fault_count result.1) (R.fault_count input.new) (W.fault_count output.new)) result.0 }
    ensures opening { BeforeLine (CreateFinds (C.told clock))
        (outside_of (S.told store) (S.fault_count store) (R.left input.old) (R.fault_count input.old) (W.content output.old) (W.fault_count output.old))
        (outside_of (S.told result.1) (S.fault_count result.1) (R.left input.new) (R.fault_count input.new) (W.content output.new) (W.fault_count output.new)) result.0 }
    ensures causes { EndsCreateBy (counts_at (S.fault_count store) (R.fault_count input.old) (W.fault_count output.old))
        (counts_at (S.fault_count result.1) (R.fault_count input.new) (W.fault_count output.new)) result.0 }
    ensures read_on { R.fault_count input.old ≤ R.fault_count input.new }
    ensures written_on { W.fault_count output.old ≤ W.fault_count output.new }
{
    match read_whole(alloc, input) {
        Ok(Whole::Text(text)) => make_index(alloc, store, clock, text.as_slice(), output),
        Ok(Whole::Over) => (End::ConfigOver, store),
        Ok(Whole::Fault) => (End::ReadFault, store),
        Err(_) => (End::Memory, store),
    }
}

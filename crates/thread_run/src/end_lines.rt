//! The lines of a run behind its replies: how each actor ended, and what settling came to.

ghost use Rattle.std.specs.Prelude.{◌≡◌, ◌∷◌, [], IfOk, codes};
ghost use Rattle.std.specs.Option.{option_map};
ghost use Rattle.index_world.specs.Saying.{words};
ghost use Rattle.thread_run.specs.EndLines.{IsPut, collector_end_words, end_text, end_words, indexer_end_words, settled_text, worker_end_words};

use crate::settling::Settled;
use byte_fields::Bytes;
use index_world::{put_fault, put_number, put_refusal, put_word};
use indexing_run::IndexerEnd;
use split_collector::CollectorEnd;
use std::alloc::{AllocError, Global};
use upkeep_run::WorkerEnd;

/// The last outcome of an actor: of an indexer with its number.
#[derive(Drop)]
pub enum ActorEnd {
    Indexer(usize, IndexerEnd),
    Merger(WorkerEnd),
    Deleter(WorkerEnd),
    Collector(CollectorEnd),
}

/// A line of a run behind its replies, without a line feed.
#[derive(Drop)]
pub struct RunLine {
    pub bytes: Bytes,
}

// Appends the words of an end, and says whether it has any: want of memory has none.
fn put_indexer_end(alloc: Global, out: &mut Bytes, end: &IndexerEnd) -> Result<bool, AllocError>
    ensures { IfOk result (λ put. IsPut (indexer_end_words end.now) put out.old out.new) }
{
    match end {
        IndexerEnd::CaughtUp => put_word(out, b"caughtup")?,
        IndexerEnd::Refused(refusal) => {
            put_word(out, b"refused")?;
            put_refusal(alloc, out, refusal)?;
        }
        IndexerEnd::Fault(error) => put_fault(alloc, out, error)?,
        IndexerEnd::SourceFault { before, after } => {
            put_word(out, b"sourcefault")?;
            put_number(alloc, out, *before)?;
            put_number(alloc, out, *after)?;
        }
        IndexerEnd::Turns => put_word(out, b"turns")?,
        IndexerEnd::Memory => return Ok(false),
    }
    Ok(true)
}

fn put_worker_end(alloc: Global, out: &mut Bytes, end: &WorkerEnd) -> Result<bool, AllocError>
    ensures { IfOk result (λ put. IsPut (worker_end_words end.now) put out.old out.new) }
{
    match end {
        WorkerEnd::Nothing => put_word(out, b"nothing")?,
        WorkerEnd::Refused(refusal) => {
            put_word(out, b"refused")?;
            put_refusal(alloc, out, refusal)?;
        }
        WorkerEnd::Fault(error) => put_fault(alloc, out, error)?,
        WorkerEnd::Turns => put_word(out, b"turns")?,
        WorkerEnd::Memory => return Ok(false),
    }
    Ok(true)
}

fn put_collector_end(alloc: Global, out: &mut Bytes, end: &CollectorEnd) -> Result<bool, AllocError>
    ensures { IfOk result (λ put. IsPut (collector_end_words end.now) put out.old out.new) }
{
    match end {
        CollectorEnd::Nothing => put_word(out, b"nothing")?,
        CollectorEnd::Fault(error) => put_fault(alloc, out, error)?,
        CollectorEnd::Turns => put_word(out, b"turns")?,
        CollectorEnd::Memory => return Ok(false),
    }
    Ok(true)
}

fn put_end(alloc: Global, out: &mut Bytes, end: &ActorEnd) -> Result<bool, AllocError>
    ensures { IfOk result (λ put. IsPut (end_words end.now) put out.old out.new) }
{
    match end {
        ActorEnd::Indexer(number, end) => {
            put_word(out, b"indexer")?;
            put_number(alloc, out, *number as u64)?;
            put_indexer_end(alloc, out, end)
        }
        ActorEnd::Merger(end) => {
            put_word(out, b"merger")?;
            put_worker_end(alloc, out, end)
        }
        ActorEnd::Deleter(end) => {
            put_word(out, b"deleter")?;
            put_worker_end(alloc, out, end)
        }
        ActorEnd::Collector(end) => {
            put_word(out, b"collector")?;
            put_collector_end(alloc, out, end)
        }
    }
}

/// The line of an end: the actor's name and its last outcome, or `turns` where its turns were used up. Want of memory has no line.
pub fn end_line(alloc: Global, end: &ActorEnd) -> Result<Option<RunLine>, AllocError>
    ensures { IfOk result (λ line. option_map (λ out. out.bytes) line ≡ end_text end.now) }
{
    let mut bytes = Bytes::vacant(alloc);
    if put_end(alloc, &mut bytes, end)? {
        return Ok(Some(RunLine { bytes }));
    }
    Ok(None)
}

/// The line of what settling came to: `settled`, or `settle` and why it isn't.
pub fn settled_line(alloc: Global, settled: &Settled) -> Result<RunLine, AllocError>
    ensures { IfOk result (λ out. out.bytes ≡ settled_text settled.now) }
{
    let mut bytes = Bytes::vacant(alloc);
    match settled {
        Settled::Whole => put_word(&mut bytes, b"settled")?,
        Settled::Refused(refusal) => {
            put_word(&mut bytes, b"settle")?;
            put_word(&mut bytes, b"refused")?;
            put_refusal(alloc, &mut bytes, refusal)?;
        }
        Settled::Fault(error) => {
            put_word(&mut bytes, b"settle")?;
            put_fault(alloc, &mut bytes, error)?;
        }
    }
    Ok(RunLine { bytes })
}

//! What a step of an indexer answers, and its words.

ghost use Rattle.std.specs.Prelude.{◌≡◌, ◌∷◌, [], OnOk, IfOk, decimal};
ghost use Rattle.index_world.specs.Saying.{with_words};
ghost use Rattle.indexing_run.specs.Outcomes.{IndexerOutcome as Outcome, outcome_words, words};
ghost use Rattle.indexing_run.specs.Standing.{IsSaid, said_words};

use byte_fields::Bytes;
use index_world::{WorldError, put_fault, put_number, put_refusal, put_word};
use meta_store::Refusal;
use source_checkpoint::Partition;
use std::alloc::{AllocError, Global};

/// What a step of an indexer answers.
#[derive(Drop)]
pub enum IndexerOutcome {
    /// The checkpoints of its partitions were taken.
    Checkpoint,
    /// So many records were read.
    Read {
        count: u64,
    },
    /// The batch was staged under this number.
    Staged {
        number: u64,
    },
    Uploaded {
        number: u64,
    },
    Published {
        number: u64,
    },
    /// Its partitions were read to their ends, and there was nothing behind the checkpoints.
    CaughtUp,
    /// The partition stands at `current` by now, and the batch began at `from`.
    Stale {
        partition: Partition,
        current: u64,
        from: u64,
    },
    /// The row can't be published any more.
    Lost {
        number: u64,
        refusal: Refusal,
    },
    /// A limit stands against the Stage.
    Refused {
        refusal: Refusal,
    },
    /// The world's call failed.
    Fault {
        error: WorldError,
    },
    /// The log failed: its count of faults before the call and after it.
    SourceFault {
        before: u64,
        after: u64,
    },
}

fn put_numbered(alloc: Global, out: &mut Bytes, word: &[u8], number: u64) -> Result<(), AllocError>
    ensures { OnOk result (out.new ≡ with_words out.old (word.now ∷ decimal number ∷ [])) }
{
    put_word(out, word)?;
    put_number(alloc, out, number)
}

fn put_outcome(alloc: Global, out: &mut Bytes, outcome: &IndexerOutcome) -> Result<(), AllocError>
    ensures { OnOk result (out.new ≡ with_words out.old (said_words outcome.now)) }
{
    match outcome {
        IndexerOutcome::Checkpoint => put_word(out, b"checkpoint"),
        IndexerOutcome::Read { count } => put_numbered(alloc, out, b"read", *count),
        IndexerOutcome::Staged { number } => put_numbered(alloc, out, b"staged", *number),
        IndexerOutcome::Uploaded { number } => put_numbered(alloc, out, b"uploaded", *number),
        IndexerOutcome::Published { number } => put_numbered(alloc, out, b"published", *number),
        IndexerOutcome::CaughtUp => put_word(out, b"caughtup"),
        IndexerOutcome::Stale {
            partition,
            current,
            from,
        } => {
            put_word(out, b"stale")?;
            put_word(out, partition.as_bytes())?;
            put_number(alloc, out, *current)?;
            put_number(alloc, out, *from)
        }
        IndexerOutcome::Lost { number, refusal } => {
            put_numbered(alloc, out, b"lost", *number)?;
            put_refusal(alloc, out, refusal)
        }
        IndexerOutcome::Refused { refusal } => {
            put_word(out, b"refused")?;
            put_refusal(alloc, out, refusal)
        }
        IndexerOutcome::Fault { error } => put_fault(alloc, out, error),
        IndexerOutcome::SourceFault { before, after } => {
            put_numbered(alloc, out, b"sourcefault", *before)?;
            put_number(alloc, out, *after)
        }
    }
}

/// The words of an outcome, with one blank between.
pub fn print_outcome(alloc: Global, outcome: &IndexerOutcome) -> Result<Bytes, AllocError>
    ensures said { (said : Outcome) → IsSaid outcome.now said → IfOk result (λ bytes. bytes ≡ words (outcome_words said)) }
    // Whatever the outcome is.
    ensures exact { IfOk result (λ bytes. bytes ≡ words (said_words outcome.now)) }
{
    let mut out = Bytes::vacant(alloc);
    put_outcome(alloc, &mut out, outcome)?;
    Ok(out)
}

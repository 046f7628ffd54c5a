//! What a step of a merger or a delete worker answers, and its words.

ghost use Rattle.std.specs.Prelude.{◌≡◌, ◌∷◌, [], OnOk, IfOk, decimal};
ghost use Rattle.index_world.specs.Saying.{with_words, words};
ghost use Rattle.upkeep_run.specs.Outcomes.{UpkeepOutcome as Outcome, outcome_words};
ghost use Rattle.upkeep_run.specs.Standing.{IsSaid, said_words};

use byte_fields::Bytes;
use index_world::{WorldError, put_fault, put_number, put_refusal, put_word};
use meta_store::Refusal;
use std::alloc::{AllocError, Global};

/// What a step of a merger or a delete worker answers.
#[derive(Drop)]
pub enum UpkeepOutcome {
    /// There was nothing to do.
    Nothing,
    /// So many rows are worked on.
    Planned { count: u64 },
    /// The file of the row with this number was fetched.
    Fetched { number: u64 },
    /// A row was staged that is to replace the planned ones.
    Staged { number: u64 },
    Uploaded { number: u64 },
    /// The row with this number stands for the planned ones.
    Replaced { number: u64 },
    /// The row with this number is applied up to the last task of its plan, and its file stays.
    Raised { number: u64 },
    /// A planned row isn't published any more, or the row that was to replace them isn't staged.
    Lost { number: u64, refusal: Refusal },
    /// A limit stands against the Stage.
    Refused { refusal: Refusal },
    /// The world's call failed, or a planned row's file isn't what the row says.
    Fault { error: WorldError },
}

fn put_numbered(alloc: Global, out: &mut Bytes, word: &[u8], number: u64) -> Result<(), AllocError>
    ensures { OnOk result (out.new ≡ with_words out.old (word.now ∷ decimal number ∷ [])) }
{
    put_word(out, word)?;
    put_number(alloc, out, number)
}

fn put_outcome(alloc: Global, out: &mut Bytes, outcome: &UpkeepOutcome) -> Result<(), AllocError>
    ensures { OnOk result (out.new ≡ with_words out.old (said_words outcome.now)) }
{
    match outcome {
        UpkeepOutcome::Nothing => put_word(out, b"nothing"),
        UpkeepOutcome::Planned { count } => put_numbered(alloc, out, b"planned", *count),
        UpkeepOutcome::Fetched { number } => put_numbered(alloc, out, b"fetched", *number),
        UpkeepOutcome::Staged { number } => put_numbered(alloc, out, b"staged", *number),
        UpkeepOutcome::Uploaded { number } => put_numbered(alloc, out, b"uploaded", *number),
        UpkeepOutcome::Replaced { number } => put_numbered(alloc, out, b"replaced", *number),
        UpkeepOutcome::Raised { number } => put_numbered(alloc, out, b"raised", *number),
        UpkeepOutcome::Lost { number, refusal } => {
            put_numbered(alloc, out, b"lost", *number)?;
            put_refusal(alloc, out, refusal)
        }
        UpkeepOutcome::Refused { refusal } => {
            put_word(out, b"refused")?;
            put_refusal(alloc, out, refusal)
        }
        UpkeepOutcome::Fault { error } => put_fault(alloc, out, error),
    }
}

/// The words of an outcome, with one blank between.
pub fn print_outcome(alloc: Global, outcome: &UpkeepOutcome) -> Result<Bytes, AllocError>
    ensures said { (said : Outcome) → IsSaid outcome.now said → IfOk result (λ bytes. bytes ≡ words (outcome_words said)) }
    // Whatever the outcome is.
    ensures exact { IfOk result (λ bytes. bytes ≡ words (said_words outcome.now)) }
{
    let mut out = Bytes::vacant(alloc);
    put_outcome(alloc, &mut out, outcome)?;
    Ok(out)
}

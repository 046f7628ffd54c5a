//! What a step of a client answers, and its words.

ghost use Rattle.std.specs.Prelude.{◌≡◌, IfOk};
ghost use Rattle.index_world.specs.Saying.{words};
ghost use Rattle.root_search.specs.Steps.{step_words};

use byte_fields::Bytes;
use index_world::{put_number, put_word};
use search_api::{Reply, print_reply};
use std::alloc::{AllocError, Global};

/// What a step of a client answers.
#[derive(Drop)]
pub enum SearchStep {
    /// There is no request.
    Idle,
    /// So many splits were planned over this revision.
    Planned { revision: u64, count: u64 },
    /// The split with this number was fetched.
    Fetched { number: u64 },
    Replied(Reply),
}

/// The words of an outcome with one blank between, or the line of a reply.
pub fn print_outcome(alloc: Global, outcome: &SearchStep) -> Result<Bytes, AllocError>
    ensures { IfOk result (λ text. text ≡ words (step_words outcome.now)) }
{
    let mut out = Bytes::vacant(alloc);
    match outcome {
        SearchStep::Idle => put_word(&mut out, b"idle")?,
        SearchStep::Planned { revision, count } => {
            put_word(&mut out, b"planned")?;
            put_number(alloc, &mut out, *revision)?;
            put_number(alloc, &mut out, *count)?;
        }
        SearchStep::Fetched { number } => {
            put_word(&mut out, b"fetched")?;
            put_number(alloc, &mut out, *number)?;
        }
        SearchStep::Replied(reply) => return print_reply(alloc, reply),
    }
    Ok(out)
}

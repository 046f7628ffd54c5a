//! Room for what comes of a run.

ghost use Rattle.std.specs.Prelude.{◌≡◌, ◌+◌, ◌<◌, ◌≤◌, ◌^◌, [], IfOk, vec_capacity};
ghost use Rattle.thread_run.specs.Outcome.{HasRoom, Vacant};
ghost use Rattle.thread_run.specs.Room.{IsRoom};

use crate::Job;
use crate::ending::Ended;
use crate::outcome::Outcome;
use crate::staffing::Post;
use source_log::SourceLog;
use std::alloc::{AllocError, Global};

/// Lists with room for the jobs of a run, and for what comes of them.
#[derive(Drop)]
pub struct Room<L: SourceLog> {
    pub jobs: Vec<Job<L>>,
    pub posts: Vec<Post<L>>,
    pub outcome: Outcome<L>,
    pub ended: Ended<L>,
}

// Room for what comes of so many jobs.
fn outcome_room<L: SourceLog>(alloc: Global, many: usize) -> Result<Outcome<L>, AllocError>
    ensures none { IfOk result Vacant }
    ensures room { IfOk result (HasRoom many) }
{
    let indexed = Vec::with_capacity(alloc, many)?;
    let served = Vec::with_capacity(alloc, many)?;
    let ends = Vec::with_capacity(alloc, many)?;
    Ok(Outcome {
        indexed,
        served,
        ends,
    })
}

// Room for so many logs, and for so many ends.
fn ended_room<L: SourceLog>(alloc: Global, logs: usize, many: usize) -> Result<Ended<L>, AllocError>
    ensures none { IfOk result (λ all. (all.logs.items ≡ []) × (all.ends.items ≡ [])) }
    ensures room { IfOk result (λ all. (logs ≤ vec_capacity all.logs) × (many ≤ vec_capacity all.ends)) }
{
    let logs = Vec::with_capacity(alloc, logs)?;
    let ends = Vec::with_capacity(alloc, many)?;
    Ok(Ended { logs, ends })
}

/// Room for so many indexers and searchers, and for so many logs.
pub fn room_for<L: SourceLog>(
    alloc: Global,
    indexers: usize,
    searchers: usize,
    logs: usize,
) -> Result<Room<L>, AllocError>
    requires { indexers + searchers < 2 ^ 32 }
    ensures { IfOk result (IsRoom indexers searchers logs) }
{
    let many = indexers + searchers + 3;
    let jobs = Vec::with_capacity(alloc, many)?;
    let posts = Vec::with_capacity(alloc, indexers)?;
    let outcome = outcome_room(alloc, many)?;
    let ended = ended_room(alloc, logs, indexers + many)?;
    Ok(Room {
        jobs,
        posts,
        outcome,
        ended,
    })
}

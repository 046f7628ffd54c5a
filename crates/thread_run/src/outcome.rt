//! What came of the jobs of a run.

ghost use Rattle.std.specs.Prelude.{◌+◌, ℕ, vec_len};
ghost use Rattle.thread_run.specs.Outcome.{Adds, HasRoom, IsOutcome, Vacant};

use crate::filling::push_within;
use crate::serving::Answered;
use crate::{ActorEnd, Done};
use indexing_run::{Indexer, IndexerEnd};
use source_log::SourceLog;

/// An indexer that ended.
#[derive(Drop)]
pub struct Indexed<L: SourceLog> {
    pub indexer: Indexer<L>,
    pub end: IndexerEnd,
}

/// What a searcher answered its clients.
#[derive(Drop)]
pub struct Served {
    pub answered: Vec<Answered>,
    /// There was no memory to note what it answered all of them.
    pub short: bool,
}

/// What came of the jobs of a run, by their kinds.
#[derive(Drop)]
pub struct Outcome<L: SourceLog> {
    pub indexed: Vec<Indexed<L>>,
    pub served: Vec<Served>,
    pub ends: Vec<ActorEnd>,
}

// Puts what came of a job to what came of others of its kind.
fn sort<L: SourceLog>(outcome: &mut Outcome<L>, done: Done<L>)
    requires { HasRoom 1 outcome.old }
    ensures adds { Adds outcome.old done outcome.new }
    ensures room { (n : ℕ) → HasRoom (1 + n) outcome.old → HasRoom n outcome.new }
{
    match done {
        Done::Indexed(indexer, end) => push_within(&mut outcome.indexed, Indexed { indexer, end }),
        Done::Answered(answered, short) => {
            push_within(&mut outcome.served, Served { answered, short })
        }
        Done::Merged(end) => push_within(&mut outcome.ends, ActorEnd::Merger(end)),
        Done::Deleted(end) => push_within(&mut outcome.ends, ActorEnd::Deleter(end)),
        Done::Collected(end) => push_within(&mut outcome.ends, ActorEnd::Collector(end)),
    }
}

/// What came of jobs, by their kinds. There is room for all.
pub fn outcome_of<L: SourceLog>(all: Vec<Done<L>>, outcome: Outcome<L>) -> Outcome<L>
    requires none { Vacant outcome }
    requires room { HasRoom (vec_len all) outcome }
    ensures { IsOutcome all.items result }
{
    let mut outcome = outcome;
    for done in all {
        sort(&mut outcome, done);
    }
    outcome
}

//! The logs and the ends of the indexers of a run.

ghost use Rattle.std.specs.Prelude.{◌≡◌, ◌+◌, ◌<◌, ◌≤◌, ◌^◌, ◌∷◌, [], ℕ, List, length, suc, vec_capacity, vec_len};
ghost use Rattle.std.specs.Vec.Iter.{into_iter_items};
ghost use Rattle.thread_run.specs.declared.end_lines.ActorEnd.TheVariants as kinds;
ghost use Rattle.thread_run.specs.Ending.{at_work, ends_from, logs_behind};

use crate::ActorEnd;
use crate::filling::push_within;
use crate::outcome::Indexed;
use crate::staffing::Post;
use indexing_run::IndexerEnd;
use source_log::SourceLog;
use std::vec::IntoIter;

/// The logs of indexers, and their ends.
#[derive(Drop)]
pub struct Ended<L: SourceLog> {
    pub logs: Vec<L>,
    pub ends: Vec<ActorEnd>,
}

// The log of an indexer and its end: of one that worked they are the next ones.
fn end_post<L: SourceLog>(post: Post<L>, rest: &mut IntoIter<Indexed<L>>) -> (L, IndexerEnd)
    requires { at_work (post ∷ []) ≤ length (into_iter_items rest.old) }
    ensures log { (posts : List (Post L)) → logs_behind (post ∷ posts) (into_iter_items rest.old) ≡ result.0 ∷ logs_behind posts (into_iter_items rest.new) }
    ensures end { (place : ℕ) (posts : List (Post L)) → ends_from place (post ∷ posts) (into_iter_items rest.old) ≡ kinds.Indexer place result.1 ∷ ends_from (suc place) posts (into_iter_items rest.new) }
    ensures left { length (into_iter_items rest.old) ≡ at_work (post ∷ []) + length (into_iter_items rest.new) }
{
    match post {
        Post::Working => match rest.next() {
            Some(Indexed { indexer, end }) => (indexer.into_log(), end),
            None => unreachable!(),
        },
        Post::Failed { log, before, after } => (log, IndexerEnd::SourceFault { before, after }),
        Post::Short(log) => (log, IndexerEnd::Memory),
    }
}

/// The logs of indexers and their ends, in the order of their posts. There is room for them.
pub fn ends_of<L: SourceLog>(
    posts: Vec<Post<L>>,
    indexed: Vec<Indexed<L>>,
    all: Ended<L>,
) -> Ended<L>
    requires as_many { at_work posts.items ≤ length indexed.items }
    requires few { length posts.items < 2 ^ 63 }
    requires none { (all.logs.items ≡ []) × (all.ends.items ≡ []) }
    requires room { (vec_len posts ≤ vec_capacity all.logs) × (vec_len posts ≤ vec_capacity all.ends) }
    ensures logs { result.logs.items ≡ logs_behind posts.items indexed.items }
    ensures ends { result.ends.items ≡ ends_from 0 posts.items indexed.items }
    ensures long { (vec_len result.logs ≡ vec_len posts) × (vec_len result.ends ≡ vec_len posts) }
    ensures room { (vec_capacity all.logs ≤ vec_capacity result.logs) × (vec_capacity all.ends ≤ vec_capacity result.ends) }
{
    let Ended { logs, ends } = all;
    let mut logs = logs;
    let mut ends = ends;
    let mut rest = indexed.into_iter();
    let mut place = 0;
    for post in posts {
        let (log, end) = end_post(post, &mut rest);
        push_within(&mut logs, log);
        push_within(&mut ends, ActorEnd::Indexer(place, end));
        place += 1;
    }
    Ended { logs, ends }
}

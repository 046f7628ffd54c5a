//! A run: what is handed in, and what comes back.

use crate::{ActorEnd, Settled};
use clock_time::ScriptClock;
use index_world::World;
use object_store::ObjectStore;
use search_api::Reply;
use source_log::SourceLog;

/// How many actors of each kind work, how many steps a merger, a delete worker and a collector take at most, and whether the index is
/// settled behind them.
#[derive(Clone, Copy)]
pub struct RunOptions {
    pub indexers: usize,
    pub searchers: usize,
    pub turns: u64,
    pub settle: bool,
}

/// What comes back of a run.
pub struct RunEnd<S: ObjectStore, L: SourceLog> {
    pub world: World<S, ScriptClock>,
    /// All that were handed in, in their order, each a later state.
    pub logs: Vec<L>,
    /// One for each request, in their order.
    pub replies: Vec<Reply>,
    /// Of each indexer in order, then of the merger, the delete worker and the collector.
    pub ends: Vec<ActorEnd>,
    /// Where settling was asked.
    pub settled: Option<Settled>,
    /// There was no memory to begin, for an actor, or for all replies. The lists of replies and ends may then lack members.
    pub memory: bool,
}

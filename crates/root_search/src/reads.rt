//! What was read of a text.

ghost use Rattle.std.specs.Prelude.{◌≡◌, true};
ghost use Rattle.root_search.specs.Intervals.{have_steps};

use crate::leaf_asks::LeafAsk;
use index_world::DeleteAsk;
use meta_store::Choice;

/// A search that was read: which rows are chosen for it, and what it asks of each split.
#[derive(Drop)]
pub(crate) struct ReadSearch {
    pub choice: Choice,
    pub ask: LeafAsk,
    // No interval of its aggregations is 0.
    ghost intervals: { have_steps ask.request.aggs ≡ true },
}

/// What a text asks of an index, as it is read.
#[derive(Drop)]
pub(crate) enum ReadRequest {
    Search(ReadSearch),
    Delete(DeleteAsk),
}

//! A planned search.

ghost use Rattle.std.specs.Prelude.{◌≡◌, true};
ghost use Rattle.root_search.specs.Intervals.{have_steps};

use crate::fetched_splits::FetchedSplits;
use crate::leaf_asks::LeafAsk;
use index_world::Plan;

/// A planned search: what it asks of each split, and what was fetched of the first rows.
#[derive(Drop)]
pub(crate) struct Planned {
    pub ask: LeafAsk,
    pub plan: Plan,
    /// The place of the row that is fetched next.
    pub next: u32,
    pub parts: FetchedSplits,
    // No interval of its aggregations is 0.
    ghost intervals: { have_steps ask.request.aggs ≡ true },
}

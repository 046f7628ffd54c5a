//! What is asked of a split, and what it answers.

use agg_nested::{NestedPartial, NestedRequest};
use doc_tallies::HitOrder;
use doc_value::TimeRange;
use query_ast::Query;
use split_bundle::PlacedList;

/// What is asked of a split.
#[derive(Drop)]
pub struct LeafRequest {
    pub query: Query,
    pub times: TimeRange,
    /// By what hits are sorted before their partition and offset, if by anything.
    pub order: Option<HitOrder>,
    /// How many hits are wanted at most: 0 where none is shown.
    pub wanted: usize,
    pub aggs: NestedRequest,
}

/// What a split answers: how many documents match, the first of them in the request's order, and what they count.
#[derive(Drop)]
pub struct LeafAnswer {
    pub count: u64,
    pub hits: PlacedList,
    pub partial: NestedPartial,
}

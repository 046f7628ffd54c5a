//! What a request asks of an index's schema.

use crate::request::Paths;
use agg_nested::NestedRequest;
use doc_value::{Text, TimeRange};
use query_ast::Query;

/// The field by whose first value hits are sorted, by its number.
#[derive(Clone, Copy)]
pub struct SortField {
    pub field: usize,
    pub descending: bool,
}

/// A search over a schema.
#[derive(Drop)]
pub struct SearchAsk {
    pub query: Query,
    pub times: TimeRange,
    pub start_offset: u32,
    pub max_hits: u32,
    pub sort: Option<SortField>,
    pub aggs: NestedRequest,
}

/// A delete over a schema: its query's text, which reads over it, and the paths of the text fields that a clause without
/// a field asks.
#[derive(Drop)]
pub struct Deletion {
    pub text: Text,
    pub fields: Paths,
    pub times: TimeRange,
}

/// A request over a schema.
#[derive(Drop)]
pub enum Resolved {
    Search(SearchAsk),
    Delete(Deletion),
}

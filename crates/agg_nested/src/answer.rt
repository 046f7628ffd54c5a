//! What is answered.

use crate::request::WholeRange;
use agg_model::AggAnswer;
use doc_value::{List, Text};

/// How many documents have their first value in a range.
#[derive(Clone, Copy)]
pub struct RangeBucket {
    pub range: WholeRange,
    pub count: u64,
}

/// The answer of one aggregation without its nested ones.
#[derive(Drop)]
pub enum FlatAnswer {
    /// Buckets of values or of steps.
    Counted(AggAnswer),
    /// None for the least and the greatest of no values.
    Metric(Option<i128>),
    /// The buckets in the order in which they were asked for.
    Ranges(List<RangeBucket>),
}

/// The answer of a nested aggregation under its name.
#[derive(Drop)]
pub struct NamedAnswer {
    pub name: Text,
    pub answer: FlatAnswer,
}

/// The answer of an aggregation under its name. `nested` has of each bucket, in the order of the buckets, the answers of the nested
/// aggregations in the order of the request; of a metric, nothing.
#[derive(Drop)]
pub struct NestedAnswer {
    pub name: Text,
    pub answer: FlatAnswer,
    pub nested: List<List<NamedAnswer>>,
}

/// The answers in the order of the request.
pub type NestedResult = List<NestedAnswer>;

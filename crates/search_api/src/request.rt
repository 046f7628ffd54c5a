use agg_model::Distance;
use agg_nested::WholeRange;
use doc_value::{List, Text, TimeRange};

/// Paths of fields, in the order in which they were given.
pub type Paths = List<Text>;

/// Which documents a search or a delete is about.
#[derive(Drop)]
pub struct Selection {
    /// The query's text.
    pub query: Text,
    /// The fields that a clause without a field asks. Where none are given, the configuration's default fields.
    pub fields: Option<Paths>,
    /// In whole seconds from 1970 on: from the start on and before the end.
    pub times: TimeRange,
}

/// The field by whose first value hits are sorted.
#[derive(Drop)]
pub struct SortBy {
    pub path: Text,
    pub descending: bool,
}

/// What an aggregation counts of its field's values.
#[derive(Drop)]
pub enum AggShape {
    /// The `size` values that the most documents have.
    Terms {
        size: u32,
    },
    /// Values by intervals, in the field's unit, or in seconds where it is dated. The interval 0 stands for one that
    /// can't be: 0 itself, or that of a dated histogram whose interval or offset isn't spelled as one.
    Histogram {
        interval: Distance,
        offset: Distance,
        min_doc_count: u32,
        dated: bool,
    },
    /// The least, the greatest and the sum of the first values of the documents.
    Min,
    Max,
    Sum,
    /// How many values the documents have.
    ValueCount,
    /// How many documents have their first value in each range, in whole seconds in a datetime field.
    Range {
        ranges: Ranges,
    },
}

/// Ranges in the order in which they were given.
pub type Ranges = List<WholeRange>;

/// An aggregation without nested ones under its name, over the field with this path.
#[derive(Drop)]
pub struct AskedFlat {
    pub name: Text,
    pub path: Text,
    pub shape: AggShape,
}

/// Those in byte order of their names.
pub type AskedFlats = List<AskedFlat>;

/// An aggregation under its name, over the field with this path, and what is counted of the documents of each of its
/// buckets.
#[derive(Drop)]
pub struct AskedAgg {
    pub name: Text,
    pub path: Text,
    pub shape: AggShape,
    pub nested: AskedFlats,
}

/// Aggregations in byte order of their names.
pub type AskedAggs = List<AskedAgg>;

/// A search: which documents, which of them are shown, and what is counted.
#[derive(Drop)]
pub struct SearchRequest {
    pub selection: Selection,
    /// How many hits are passed over.
    pub start_offset: u32,
    /// How many hits are shown at most.
    pub max_hits: u32,
    pub sort_by: Option<SortBy>,
    pub aggs: AskedAggs,
}

/// What a client asks.
#[derive(Drop)]
pub enum Request {
    Search(SearchRequest),
    Delete(Selection),
}

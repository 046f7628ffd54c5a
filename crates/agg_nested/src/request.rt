//! What is asked of documents, and of those of each bucket.

use agg_model::Agg;
use doc_value::{List, Replica, Text};
use std::alloc::{AllocError, Global};

/// Which number of a field's values is asked for.
#[derive(Clone, Copy)]
pub enum MetricKind {
    /// The least of the first values of the documents.
    Min,
    /// The greatest of the first values of the documents.
    Max,
    /// The sum of the first values of the documents.
    Sum,
    /// How many values the documents have.
    ValueCount,
}

/// The whole numbers from `from` on, that one included, up to `to`, that one excluded. An edge that is absent bounds nothing.
#[derive(Clone, Copy)]
pub struct WholeRange {
    pub from: Option<i128>,
    pub to: Option<i128>,
}

impl Replica for WholeRange {
    fn copy(&self, _alloc: Global) -> Result<WholeRange, AllocError> {
        Ok(*self)
    }
}

/// One aggregation without nested ones. `field` is the field's number in the schema.
#[derive(Drop)]
pub enum FlatAgg {
    /// The buckets of a value or of a histogram's step, as agg_model counts them.
    Counted(Agg),
    Metric {
        kind: MetricKind,
        field: u32,
    },
    /// How many documents have their first value in each range. In a datetime field it is whole seconds.
    Ranges {
        field: u32,
        ranges: List<WholeRange>,
    },
}

impl Replica for FlatAgg {
    fn copy(&self, alloc: Global) -> Result<FlatAgg, AllocError> {
        match self {
            FlatAgg::Counted(agg) => Ok(FlatAgg::Counted(*agg)),
            FlatAgg::Metric { kind, field } => Ok(FlatAgg::Metric {
                kind: *kind,
                field: *field,
            }),
            FlatAgg::Ranges { field, ranges } => Ok(FlatAgg::Ranges {
                field: *field,
                ranges: ranges.copy(alloc)?,
            }),
        }
    }
}

/// A nested aggregation under the name by which it is answered.
#[derive(Drop)]
pub struct NamedFlat {
    pub name: Text,
    pub agg: FlatAgg,
}

impl Replica for NamedFlat {
    fn copy(&self, alloc: Global) -> Result<NamedFlat, AllocError> {
        Ok(NamedFlat {
            name: self.name.copy(alloc)?,
            agg: self.agg.copy(alloc)?,
        })
    }
}

/// An aggregation under the name by which it is answered, and what is asked of the documents of each of its buckets.
#[derive(Drop)]
pub struct NestedAgg {
    pub name: Text,
    pub agg: FlatAgg,
    pub nested: List<NamedFlat>,
}

impl Replica for NestedAgg {
    fn copy(&self, alloc: Global) -> Result<NestedAgg, AllocError> {
        Ok(NestedAgg {
            name: self.name.copy(alloc)?,
            agg: self.agg.copy(alloc)?,
            nested: self.nested.copy(alloc)?,
        })
    }
}

/// Aggregations in byte order of their names.
pub type NestedRequest = List<NestedAgg>;

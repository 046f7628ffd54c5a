//! What is asked of documents.

use crate::distance::Distance;
use doc_value::{Doc, List, Replica, Text};
use std::alloc::{AllocError, Global};

/// What is counted over a list of documents. `field` is the field's number in the schema.
#[derive(Clone, Copy)]
pub enum Agg {
    /// The values that most documents have: the first `size` of them by count downwards, then by value upwards.
    Terms {
        field: u32,
        size: u32,
    },
    /// The documents by their first value, in steps of `interval` from `offset` on. `dated` is set where whole seconds of a datetime
    /// field are counted. With `min_doc_count` 0 every step from the least to the greatest is answered, else those with at least that
    /// count.
    Histogram {
        field: u32,
        interval: Distance,
        offset: Distance,
        min_doc_count: u32,
        dated: bool,
    },
}

/// An aggregation under the name by which it is answered.
#[derive(Drop)]
pub struct NamedAgg {
    pub name: Text,
    pub agg: Agg,
}

impl Replica for NamedAgg {
    fn copy(&self, alloc: Global) -> Result<NamedAgg, AllocError> {
        Ok(NamedAgg {
            name: self.name.copy(alloc)?,
            agg: self.agg,
        })
    }
}

/// Aggregations in byte order of their names.
pub type AggRequest = List<NamedAgg>;

/// A document's values of its fast fields, by rising numbers of the fields.
pub type DocValues = Doc;

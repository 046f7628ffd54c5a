//! Why aggregations are refused.

use doc_value::Text;
use std::alloc::AllocError;
use thiserror::Error;

/// Why aggregations are refused.
#[derive(Debug, Drop, Error)]
pub enum AggError {
    /// An aggregation's field, by its path, is not fast, or not of a kind that the aggregation takes: a histogram takes numbers and
    /// datetimes, a dated one datetimes alone.
    #[error("notfast {}", .field.as_str())]
    NotFast { field: Text },
    /// The interval of the aggregation of this name is below 1.
    #[error("badinterval {}", .name.as_str())]
    BadInterval { name: Text },
    /// The answer has so many buckets in all its aggregations, more than 65,000.
    #[error("toomanybuckets {count}")]
    TooManyBuckets { count: u128 },
    #[error(transparent)]
    Memory(#[from(alloc)] AllocError),
}

//! What a client is answered.

use agg_nested::NestedResult;
use byte_fields::Client;
use doc_value::{Bytes, List, Text};
use object_store::Key;

/// Why a request has no answer, with what is kept of it.
#[derive(Drop)]
pub enum Refusal {
    NotJson,
    UnknownKey { name: Text },
    WrongKind { name: Text },
    MissingKey { name: Text },
    TooManyHits { wanted: u64 },
    /// No field has this path, or a field that is to be searched has no text.
    UnknownField { name: Text },
    /// What is sorted by or counted, by its path, is not fast, or not of a kind that the aggregation takes.
    NotFast { field: Text },
    /// A time is given, and the index has no timestamp field.
    NoTimestampField,
    /// The query is refused at this byte of its text.
    Syntax { at: usize },
    TooDeep { at: usize },
    NotIndexed { at: usize },
    BadValue { at: usize },
    NoDefaultField { at: usize },
    NoPositions { at: usize },
    /// The interval of the aggregation of this name is below 1, or not spelled as one, or a range doesn't begin below its
    /// end.
    BadInterval { name: Text },
    /// The plan's files may be gone: the moments of the plan and of the refusal.
    Expired { planned_at: u64, now: u64 },
    /// The store failed: its count of faults before the call and after it.
    StoreFault { before: u64, after: u64 },
    /// A key that stood is absent.
    Missing { key: Key },
    /// The object's bytes are not of its kind.
    Corrupt { key: Key },
    /// The key is none that the index made.
    Foreign { key: Key },
    /// The answer has so many buckets, more than 65,000.
    TooManyBuckets { count: u128 },
    /// So many delete tasks stand already.
    TooManyTasks { count: u64 },
    /// The journal has no further number.
    Full,
}

/// Printed documents in their order.
pub type Hits = List<Bytes>;

/// What a request is answered.
#[derive(Drop)]
pub enum Said {
    /// How many documents match, those of them that are shown, each as it is printed, and what was counted.
    Found {
        count: u64,
        hits: Hits,
        aggregations: NestedResult,
    },
    /// The delete is a task with this number.
    Deleted {
        opstamp: u64,
    },
    Refused(Refusal),
}

/// An answer to a client's request, over this revision.
#[derive(Drop)]
pub struct Reply {
    pub client: Client,
    pub revision: u64,
    pub said: Said,
}

//! What is answered.

use doc_value::{List, Text, Value};

/// What the documents of a bucket have in common.
#[derive(Drop)]
pub enum Key {
    /// A value of the field that was asked for.
    Value(Value),
    /// Where a step of a histogram begins: of a dated one, whole seconds from 1970 on.
    Step(i128),
}

/// How many documents have a key.
#[derive(Drop)]
pub struct Bucket {
    pub key: Key,
    pub count: u64,
}

/// Buckets in the order in which they are answered.
pub type Buckets = List<Bucket>;

/// The answer of one aggregation.
#[derive(Drop)]
pub enum AggAnswer {
    /// The greatest buckets, and the sum of the counts of all others.
    Terms { buckets: Buckets, others: u128 },
    /// The buckets by rising keys.
    Histogram { buckets: Buckets },
}

/// The answer of an aggregation under its name.
#[derive(Drop)]
pub struct NamedResult {
    pub name: Text,
    pub result: AggAnswer,
}

/// The answers in the order of the request.
pub type AggResult = List<NamedResult>;

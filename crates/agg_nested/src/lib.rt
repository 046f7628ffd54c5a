//! Aggregations of buckets with nested ones over the documents of each bucket, metrics and ranges.
#![tactic(auto)]

pub mod answer;
pub mod checking;
pub mod finishing;
pub mod flat_part;
pub mod flat_parts;
pub mod group;
pub mod group_maps;
pub mod groups;
mod laws;
pub mod nested_finishing;
pub mod nested_partial;
pub mod request;
pub mod spots;
pub mod spotting;
pub mod totals;

pub use answer::{FlatAnswer, NamedAnswer, NestedAnswer, NestedResult, RangeBucket};
pub use checking::check_nested;
pub use finishing::finish_flat;
pub use flat_part::{FlatPart, collect_flat, merge_flat, vacant_flat};
pub use flat_parts::{collect_flats, merge_flats, vacant_flats};
pub use laws::{answers_are_permuted, finished_is_finished, finished_is_one, plain_answers_stay};
pub use nested_finishing::finish_nested;
pub use nested_partial::{
    NestedPart, NestedPartial, collect_nested, collect_part, merge_nested, part_alone,
    parts_together, vacant_nested, vacant_part,
};
pub use request::{FlatAgg, MetricKind, NamedFlat, NestedAgg, NestedRequest, WholeRange};

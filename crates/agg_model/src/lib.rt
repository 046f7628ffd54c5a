//! Aggregations over documents: what is asked, partials that are collected and merged, and what is answered.
#![tactic(auto)]

pub mod agg_error;
pub mod answer;
pub mod checking;
mod collecting;
pub mod counts;
pub mod distance;
pub mod finishing;
pub mod histogram;
pub mod merging;
pub mod partial;
pub mod ranking;
pub mod request;
pub mod tallies;

pub use agg_error::AggError;
pub use answer::{AggAnswer, AggResult, Bucket, Buckets, Key, NamedResult};
pub use checking::check_aggs;
pub use distance::Distance;
pub use finishing::{finish, full_answer};
pub use merging::merge_partials;
pub use partial::{Partial, collect_one, vacant_partial};
pub use request::{Agg, AggRequest, DocValues, NamedAgg};

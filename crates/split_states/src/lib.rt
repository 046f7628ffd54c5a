//! The rows of an index: each split file that was staged, how it stands, and which change it allows.
#![tactic(auto)]

pub mod answers;
pub mod facts;
pub mod laws;
pub mod numbers;
pub mod refusal;
pub mod rows;
mod stamps;

pub use answers::{may_mark, may_publish, may_raise, may_remove, may_replace, may_retire};
pub use facts::{MAX_WEIGHT, RowFacts, Times};
pub use numbers::Numbers;
pub use refusal::StateRefusal;
pub use rows::{Row, RowState, Rows};

//! Columns: the values of one field of many documents, each found by its place in constant time.
#![tactic(auto)]

mod column;
mod encode;
mod entries;
mod packed;
mod rows;
mod texts;

pub use column::Column;
pub use encode::{encode_column, put_column};
pub use entries::Entry;
pub use rows::{ColumnList, ColumnRow};
pub use texts::{distinct, ordinal};

//! A split made of splits: their documents one behind another, without those that are dropped.
#![tactic(auto)]

mod cells;
mod facts;
mod keeping;
mod kept;
mod key_lists;
mod key_walks;
mod lent;
mod lent_documents;
mod lists;
mod merge_error;
mod merging;
mod numbers;
mod places;
mod scanning;
mod spelling;
mod terms;

pub use merge_error::MergeError;
pub use merging::merge;

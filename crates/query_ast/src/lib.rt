//! A query as a tree, what it means on a document, and whether any document with some tag facts can meet it.
#![tactic(auto)]

pub mod copying;
mod fields;
pub mod matching;
pub mod pruning;
pub mod query;
pub mod tokens;
pub mod values;

pub use copying::{copy_queries, copy_query};
pub use matching::{lies_in, matches};
pub use pruning::possible;
pub use query::{Edge, Item, Items, Query};
pub use tokens::{folded_prefix, tokens_of};
pub use values::value_of;

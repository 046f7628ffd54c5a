//! The answer of one split to a search, from its dictionary, its lists and its columns.
#![tactic(auto)]

mod block_ranges;
mod column_ranges;
mod evaluate;
mod fields;
mod file_ranges;
mod joining;
mod laws;
mod leaf_answer;
mod list_ranges;
mod lookups;
mod matched;
mod needed;
mod numbers;
mod query_counts;
mod request;
mod shown;
mod timed;
mod token_counts;

pub use doc_sets::LeafError;
pub use file_ranges::{FileRange, Ranges};
pub use laws::{counts_need_a_block, counts_need_no_documents, pages_need_few_documents};
pub use leaf_answer::leaf;
pub use matched::matching_numbers;
pub use needed::{blocks_needed, lists_and_columns, lists_needed};
pub use request::{LeafAnswer, LeafRequest};
pub use shown::{documents_needed, shown_documents, starts_needed};

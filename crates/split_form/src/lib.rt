//! The file of a list of documents, and its facts, as functions of the documents.
#![tactic(auto)]

mod laws;

pub use laws::{file_is_one, file_laws, keys_laws, sorted_laws};

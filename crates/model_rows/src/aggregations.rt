//! Aggregations of documents.

mod answered;
pub mod answers;
mod counted;
mod made;
mod printed;

//! Indexers: what they read, and what each of their steps answers.
#![tactic(auto)]

mod batch;
mod documents;
mod index_laws;
mod indexer;
mod indexing;
mod outcome;
mod queue;

pub use index_laws::{caught_up_stays, turns_are_enough, turns_are_few};
pub use indexer::Indexer;
pub use indexing::{IndexerEnd, index_all};
pub use outcome::{IndexerOutcome, print_outcome};

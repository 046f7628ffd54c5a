//! Laws of built splits: what is built of documents is their file, with their facts.
#![tactic(auto)]

mod laws;

pub use laws::{built_is_one, built_laws, facts_laws};

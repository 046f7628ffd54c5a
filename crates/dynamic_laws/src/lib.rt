//! What queries on paths that no field has mean, by the leaves of a record.
#![tactic(auto)]

mod laws;

pub use laws::clause_laws;

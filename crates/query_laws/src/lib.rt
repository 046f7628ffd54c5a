//! Laws of the query language: the machine that reads is the grammar, and what is printed is read again, and what is
//! read is of the schema.
#![tactic(auto)]

mod laws;

pub use laws::{printing_laws, reading_laws, schema_laws};

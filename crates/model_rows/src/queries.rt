//! Queries over a schema.

pub mod answers;
mod fields;
mod leaves;

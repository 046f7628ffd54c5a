//! What a file says, part by part.

pub mod answers;
mod fields;
mod whole;

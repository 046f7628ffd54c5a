//! What some documents of a file count.

pub mod answers;
mod counted;
mod fields;

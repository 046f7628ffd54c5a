//! Entries of a journal, and what their histories mean.

mod bytes;
mod entries;
mod places;
pub mod questions;

//! Which rows of an index are merged next, by the index's merge policy.
#![tactic(auto)]

mod candidate;
mod choice;
mod laws;
mod level;
mod walk;

pub use choice::choose;
pub use laws::{choice_is_chosen, choice_laws};

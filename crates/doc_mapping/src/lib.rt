//! From a record in JSON to its document.
#![tactic(auto)]

mod accepting;
mod documents;
mod faults;
mod finder;
pub mod laws;
mod leaf_texts;
mod levels;
mod mapping;
mod misfit;
mod parts;
pub mod reject;
mod taking;
mod walk;

pub use accepting::{MAX_LEVELS, MAX_RECORD, accept};
pub use mapping::Mapping;
pub use reject::Reject;

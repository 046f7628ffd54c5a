//! A dictionary of terms: blocks of 64 terms by rising keys, and an index of the blocks' first keys.
#![tactic(auto)]

mod block;
mod bounds;
mod build;
mod dict;
mod index;
mod range;
mod term;

pub use block::Block;
pub use build::{DictBuilder, build_dict};
pub use dict::Dict;
pub use index::{BlockIndex, BlockStart};
pub use range::TermRange;
pub use term::{Term, TermInfo, TermList};

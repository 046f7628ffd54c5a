//! Lists of documents with positions, in blocks of 128 documents whose heads tell where the next one stands.
#![tactic(auto)]

mod cursor;
mod encode;
mod list;
mod moves;

pub use cursor::Cursor;
pub use encode::{append_postings, encode_postings};
pub use list::{Positions, Posting, PostingList, Row};

//! The journal of an index: numbered entries in an object store, each with its moment, and how a number whose
//! entry is in doubt is settled.
#![tactic(auto)]

pub mod entries;
pub mod entry;
pub mod entry_error;
mod fields;
pub mod journal;
pub mod journal_error;
pub mod keys;
mod loading;
mod objects;
pub mod place;
pub mod reading;
mod trying;
pub mod writing;

pub use entries::Entries;
pub use entry::{Act, Entry};
pub use entry_error::EntryError;
pub use journal::Journal;
pub use journal_error::JournalError;
pub use keys::{MAX_ENTRIES, meta_key, split_key, split_number, split_prefix};
pub use place::JournalPlace;
pub use reading::decode_entry;
pub use writing::encode_entry;

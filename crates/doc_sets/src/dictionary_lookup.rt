//! What is looked up in a split.

use crate::wanted::{NumberRange, Wanted};
use byte_fields::{Bytes, List};

/// What is looked up in a split: keys in its dictionary, or values in a column.
#[derive(Drop)]
pub enum Lookup {
    /// How many documents have a key. Its block says it.
    Count(Bytes),
    /// The documents that have a key: its block and its list.
    Documents(Bytes),
    /// The places of a key in its documents: its block, its list and, where the field keeps them, its positions.
    Places(Bytes),
    /// The documents of the wanted keys that begin so: the blocks that can have these, and their lists.
    Walk(Bytes, Wanted),
    /// The documents that have a value in a range, by the field's number: the field's column.
    Values(usize, NumberRange),
}

pub type Lookups = List<Lookup>;

//! What an entry of the journal says.

use byte_fields::{Bytes, Text, Texts};
use doc_value::TimeRange;
use source_checkpoint::Delta;
use split_states::{Numbers, RowFacts};

/// What an entry does.
#[derive(Drop)]
pub enum Act {
    /// Nothing: it closes a number whose entry was in doubt.
    Fence,
    /// The index begins, with the bytes of its configuration as they were given.
    Create {
        config: Bytes,
    },
    /// A split file is on its way. With parts it takes these records in; without it is to replace others.
    Stage {
        number: u64,
        delta: Delta,
        facts: RowFacts,
    },
    /// The file is shown, and the checkpoints move with its delta.
    Publish {
        number: u64,
    },
    /// The file `new` stands for the files `old`, applied up to the task `upto`.
    Replace {
        new: u64,
        old: Numbers,
        upto: u64,
    },
    /// The file stands as it is, applied up to the task `upto`.
    Raise {
        number: u64,
        upto: u64,
    },
    /// A query that removes what it matches in these fields and times.
    Task {
        opstamp: u64,
        text: Text,
        fields: Texts,
        times: TimeRange,
    },
    /// These files were staged and are given up.
    MarkStaged {
        numbers: Numbers,
    },
    /// These files are gone.
    Remove {
        numbers: Numbers,
    },
    /// These files are old, and leave the index.
    Retire {
        numbers: Numbers,
    },
}

/// An act, with the moment in whole seconds at which it was written.
#[derive(Drop)]
pub struct Entry {
    pub moment: u64,
    pub act: Act,
}

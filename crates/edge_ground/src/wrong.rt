//! What is wrong with a row of the table.

use std::alloc::{AllocError, AllocFailed, Global};
use std::io;

/// Why a life is not as it is to be.
#[derive(Drop)]
pub enum Wrong {
    Memory,
    /// What was seen that is not to be.
    Seen(String),
    /// The disk was not looked at.
    Disk(io::Error),
}

impl From<AllocError> for Wrong {
    fn from(_refused: AllocError) -> Wrong {
        Wrong::Memory
    }
}

impl<T: Drop> From<AllocFailed<T>> for Wrong {
    fn from(_refused: AllocFailed<T>) -> Wrong {
        Wrong::Memory
    }
}

impl From<io::Error> for Wrong {
    fn from(fault: io::Error) -> Wrong {
        Wrong::Disk(fault)
    }
}

impl Wrong {
    /// What a thing is that is not to be so.
    pub fn seen(alloc: Global, thing: &str, what: &str) -> Wrong {
        match format!(in alloc; "{thing} {what}") {
            Ok(text) => Wrong::Seen(text),
            Err(_) => Wrong::Memory,
        }
    }

    pub fn text(&self, alloc: Global) -> Result<String, AllocError> {
        match self {
            Wrong::Memory => String::from_str(alloc, "no memory"),
            Wrong::Seen(text) => String::from_str(alloc, text.as_str()),
            Wrong::Disk(fault) => format!(in alloc; "the disk: {fault}"),
        }
    }
}

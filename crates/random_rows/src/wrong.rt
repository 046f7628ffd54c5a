//! What is wrong with a schedule.

use std::alloc::{AllocError, AllocFailed, Global};

/// Why a schedule is not as it is to be.
#[derive(Drop)]
pub enum Wrong {
    Memory,
    /// What was seen that is not to be.
    Seen(String),
}

impl From<AllocError> for Wrong {
    fn from(_refused: AllocError) -> Wrong {
        Wrong::Memory
    }
}

impl<T: Drop> From<AllocFailed<T>> for Wrong {
    fn from(_refused: AllocFailed<T>) -> Wrong {
        Wrong::Memory
    }
}

impl Wrong {
    /// What a thing is that is not to be so.
    pub fn seen(alloc: Global, thing: &str, what: &str) -> Wrong {
        match format!(in alloc; "{thing} {what}") {
            Ok(text) => Wrong::Seen(text),
            Err(_) => Wrong::Memory,
        }
    }

    pub fn text(&self) -> &str {
        match self {
            Wrong::Memory => "no memory",
            Wrong::Seen(text) => text.as_str(),
        }
    }
}

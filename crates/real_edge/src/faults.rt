//! How often something of the outside failed, and why first.

ghost use Rattle.std.specs.Prelude.{◌≡◌, ◌≤◌, IfOk};
ghost use Rattle.byte_fields.specs.Causes.{Rose};

use std::alloc::{AllocError, AllocFailed, Global};
use std::fmt::{self, Display, Formatter};
use std::io::{self, ErrorKind};

/// A failed call of the system: what was tried, the path that it was tried at (none of a stream), and the system's error.
#[derive(Drop)]
pub struct Reason {
    doing: &'static str,
    path: Option<String>,
    error: io::Error,
}

impl Display for Reason {
    fn fmt<W: fmt::Write>(&self, f: &mut Formatter<W>) -> fmt::Result {
        match &self.path {
            Some(path) => write!(f, "{} {}: {}", self.doing, path, self.error),
            None => write!(f, "{}: {}", self.doing, self.error),
        }
    }
}

/// What was tried, and the system's error.
#[derive(Drop)]
pub struct Trouble {
    pub doing: &'static str,
    pub error: io::Error,
}

impl Trouble {
    /// What can't be done, and why, in the program's own words.
    pub fn of(doing: &'static str, why: &str) -> Trouble {
        Trouble {
            doing,
            error: io::Error::other(why),
        }
    }

    pub fn is_memory(&self) -> bool {
        self.error.kind() == ErrorKind::OutOfMemory
    }
}

impl From<AllocError> for Trouble {
    fn from(refused: AllocError) -> Self {
        Trouble {
            doing: "taking memory for",
            error: io::Error::from(refused),
        }
    }
}

impl<T: Drop> From<AllocFailed<T>> for Trouble {
    fn from(refused: AllocFailed<T>) -> Self {
        Trouble::from(AllocError::from(refused))
    }
}

/// What a call of the system gave, or what was tried with it.
pub fn tried<T>(doing: &'static str, given: io::Result<T>) -> Result<T, Trouble> {
    match given {
        Ok(value) => Ok(value),
        Err(error) => Err(Trouble { doing, error }),
    }
}

// The path in the room that was made for it, where there is one.
fn written(room: Option<String>, path: &str) -> Option<String> {
    let mut text = room?;
    match text.push_str(path) {
        Ok(()) => Some(text),
        Err(_) => None,
    }
}

/// The failures of one thing of the outside.
#[derive(Drop)]
pub struct Faults {
    /// How many there were, up to 2^64 - 1.
    pub count: u64,
    room: Option<String>,
    first: Option<Reason>,
}

impl Faults {
    /// None yet. The room for a path of so many bytes is made now.
    pub fn with_room(alloc: Global, room: usize) -> Result<Faults, AllocError>
        ensures { IfOk result (λ faults. faults.count ≡ 0) }
    {
        Ok(Faults {
            count: 0,
            room: Some(String::with_capacity(alloc, room)?),
            first: None,
        })
    }

    /// None yet, of what has no path.
    pub fn without_path() -> Faults
        ensures { result.count ≡ 0 }
    {
        Faults {
            count: 0,
            room: None,
            first: None,
        }
    }

    /// One more. It takes no memory.
    pub fn add(&mut self, path: &str, trouble: Trouble)
        ensures later { self.old.count ≤ self.new.count }
        ensures rose { Rose self.old.count self.new.count }
    {
        self.count = self.count.saturating_add(1);
        if self.first.is_none() {
            let Trouble { doing, error } = trouble;
            self.first = Some(Reason {
                doing,
                path: written(self.room.take(), path),
                error,
            });
        }
    }

    pub fn first(&self) -> Option<&Reason> {
        self.first.as_ref()
    }
}

//! The lock of a folder's one writer.

use crate::disk::Standing;
use crate::faults::{Trouble, tried};
use crate::folder_path::standing_at;
use std::fs::{File, Files, OpenFile, OpenOptions, TryLockError};
use std::io::{self, ErrorKind};
use std::time::Clock;

/// The name of the locked file, which is no key.
pub const LOCK: &str = ".lock";

/// Files that can be locked, each for one open of it alone, until that is dropped; and the clock by whose moments they change.
pub trait WriterLock: Files + Clock {
    /// Takes the lock without waiting. Whether no other open has it.
    fn try_lock(&self, file: &Self::File) -> io::Result<bool>;
}

impl WriterLock for HostRuntime {
    fn try_lock(&self, file: &File) -> io::Result<bool> {
        match file.try_lock() {
            Ok(()) => Ok(true),
            Err(TryLockError::WouldBlock) => Ok(false),
            Err(TryLockError::Error(fault)) => Err(fault),
        }
    }
}

// The file of a path, which is made where nothing stands there. It is not written to.
fn opened<F: Files>(files: &F, path: &str) -> Result<F::File, Trouble> {
    match OpenOptions::new()
        .write(true)
        .create_new(true)
        .open(files, path)
    {
        Ok(file) => return Ok(file),
        Err(fault) if fault.kind() == ErrorKind::AlreadyExists => {}
        Err(fault) => return tried("making", Err(fault)),
    }
    open_plain(files, path)
}

/// The plain file of a path, opened for reading. Opening it never waits.
pub fn open_plain<F: Files>(files: &F, path: &str) -> Result<F::File, Trouble> {
    let found = tried("looking at", standing_at(files, path))?;
    let Standing::PlainFile = found else {
        return Err(Trouble::of("opening", "it is no plain file"));
    };
    let file = tried("opening", File::open(files, path))?;
    if !tried("looking at", file.metadata())?.is_file() {
        return Err(Trouble::of("opening", "it is no plain file"));
    }
    Ok(file)
}

/// The locked file of a path.
pub fn locked<F: WriterLock>(files: &F, path: &str) -> Result<F::File, Trouble> {
    let file = opened(files, path)?;
    if tried("locking", files.try_lock(&file))? {
        Ok(file)
    } else {
        let fault = io::Error::new(ErrorKind::WouldBlock, "another program writes there");
        tried("locking", Err(fault))
    }
}

//! The paths of what lies in a folder, and what stands under them.

use crate::disk::Standing;
use crate::faults::{Trouble, tried};
use std::alloc::{AllocError, Global};
use std::fs::{self, Files};
use std::io::{self, ErrorKind};

/// What a key's path adds to a folder's path at most.
const LONGEST: usize = 256;

/// What stands under a path.
pub fn standing_at<F: Files>(files: &F, path: &str) -> io::Result<Standing> {
    match fs::symlink_metadata(files, path) {
        Ok(found) if found.is_file() => Ok(Standing::PlainFile),
        Ok(found) if found.is_dir() => Ok(Standing::Folder),
        Ok(_) => Ok(Standing::Other),
        Err(fault) if fault.kind() == ErrorKind::NotFound => Ok(Standing::Nothing),
        Err(fault) => Err(fault),
    }
}

/// A folder, and the path of something in it, at first of itself. The room for the paths of keys is made with it.
#[derive(Drop)]
pub struct FolderPath {
    folder: String,
    path: String,
}

impl FolderPath {
    pub fn of(alloc: Global, folder: &str) -> Result<FolderPath, AllocError> {
        let mut path = String::with_capacity(alloc, FolderPath::room(folder))?;
        path.push_str(folder)?;
        Ok(FolderPath {
            folder: String::from_str(alloc, folder)?,
            path,
        })
    }

    /// How many bytes the paths of keys in a folder have at most.
    pub fn room(folder: &str) -> usize {
        folder.len().saturating_add(LONGEST)
    }

    /// The folder itself.
    pub fn folder(&self) -> &str {
        self.folder.as_str()
    }

    /// The path that was gone to last.
    pub fn path(&self) -> &str {
        self.path.as_str()
    }

    /// Goes to a name in the folder, which may have folders of its own.
    pub fn go_to(&mut self, name: &str) -> Result<(), AllocError> {
        self.go_back()?;
        self.path.push('/')?;
        self.path.push_str(name)
    }

    /// Goes to the folder itself.
    pub fn go_back(&mut self) -> Result<(), AllocError> {
        self.path.clear();
        self.path.push_str(self.folder.as_str())
    }

    /// What stands under the path, where each folder on the way from the folder to it is one and no link. The folder itself may be
    /// a link.
    pub fn standing<F: Files>(&self, files: &F) -> Result<Standing, Trouble> {
        let bytes = self.path.as_bytes();
        for at in self.folder.len().saturating_add(1)..bytes.len() {
            if bytes[at] == b'/' {
                let way = standing_at(files, front(self.path.as_str(), at));
                let Standing::Folder = tried("looking at the folders of", way)? else {
                    return Ok(Standing::Nothing);
                };
            }
        }
        tried("looking at", standing_at(files, self.path.as_str()))
    }

    /// Fails where the folder is not there, and goes to it then.
    pub fn require<F: Files>(&mut self, files: &F) -> Result<(), Trouble> {
        let found = match fs::metadata(files, self.folder.as_str()) {
            Ok(found) if found.is_dir() => return Ok(()),
            Ok(_) => Err(io::Error::from(ErrorKind::NotADirectory)),
            Err(fault) => Err(fault),
        };
        self.go_back()?;
        tried("looking at", found)
    }
}

/// So many bytes of a path, or all of it where they end within a character.
pub fn front(path: &str, len: usize) -> &str {
    path.get(..len).unwrap_or(path)
}

/// The part of a path before its last slash, and the part behind it.
pub fn parent_and_name(path: &str) -> (&str, &str) {
    path.rsplit_once('/').unwrap_or(("", path))
}

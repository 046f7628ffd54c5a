//! What a life is over.

use crate::failing::{Course, SharedCourse};
use crate::memory_files::MemoryFiles;
use crate::memory_tree::{Left, MemoryTree};
use crate::shared_disk::SharedDisk;
use std::alloc::{AllocError, Global};
use std::cell::RefMut;
use std::io;

/// The folder of the objects, where they are in the file system.
pub const STORE: &str = "store";

/// A file, by its path from where the objects are.
#[derive(Drop)]
pub struct Object {
    pub path: String,
    pub bytes: Vec<u8>,
}

/// Where the objects are.
#[derive(Clone, Copy)]
pub enum Place {
    /// In a folder of a file system in memory.
    Folder,
    /// On a disk in memory of their own.
    Disk,
}

impl Place {
    /// Whether a call may do half of what it was to do, and tell how much. One of a disk of objects does all or fails.
    pub fn has_short_calls(self) -> bool {
        match self {
            Place::Folder => true,
            Place::Disk => false,
        }
    }
}

/// A file system in memory, in which the logs are, and the objects in a folder of it or on a disk of their own. The course is of the
/// calls of the one that has the objects.
#[derive(Drop)]
pub struct Ground {
    pub files: MemoryFiles,
    pub disk: Option<SharedDisk>,
    course: SharedCourse,
}

impl Ground {
    /// No file and no folder stands.
    pub fn vacant(alloc: Global, place: Place) -> Result<Ground, AllocError> {
        match place {
            Place::Folder => Ground::of_folder(alloc),
            Place::Disk => Ground::of_disk(alloc),
        }
    }

    fn of_folder(alloc: Global) -> Result<Ground, AllocError> {
        let course = SharedCourse::vacant(alloc)?;
        let tree = MemoryTree::vacant(alloc, course.share()?)?;
        Ok(Ground {
            files: MemoryFiles::over(tree),
            disk: None,
            course,
        })
    }

    fn of_disk(alloc: Global) -> Result<Ground, AllocError> {
        let course = SharedCourse::vacant(alloc)?;
        let tree = MemoryTree::vacant(alloc, SharedCourse::vacant(alloc)?)?;
        let disk = SharedDisk::vacant(alloc, course.share()?)?;
        Ok(Ground {
            files: MemoryFiles::over(tree),
            disk: Some(disk),
            course,
        })
    }

    /// The file system.
    pub fn tree(&self) -> &MemoryTree {
        self.files.tree()
    }

    /// How calls go. It is taken for as long as what is given lasts.
    pub fn course(&self) -> io::Result<RefMut<'_, Course>> {
        self.course.taken()
    }

    /// The files where the objects are.
    pub fn objects(&self) -> io::Result<Vec<Object>> {
        match &self.disk {
            Some(disk) => disk.objects(),
            None => self.tree().state()?.objects_in(STORE),
        }
    }

    /// The power goes and comes back.
    pub fn lose(&self, left: Left) -> io::Result<()> {
        match &self.disk {
            Some(disk) => {
                if let Left::AllNames = left {
                    disk.settle()?;
                }
                disk.lose()
            }
            None => self.tree().state()?.lose(left),
        }
    }
}

//! A folder whose names were read, and whether they are still its names.

ghost use Rattle.std.specs.Prelude.{◌≡◌};
ghost use Rattle.real_edge.specs.Disk.{Leaves};
ghost use Rattle.real_edge.specs.Folders.{folder_key};

use crate::disk::{Disk, Stamp};
use object_store::Key;

/// File systems tell the moment of a change in steps of so many seconds at most.
const STEP: u64 = 2;

/// A folder whose names were read.
#[derive(Drop)]
pub struct FolderRead {
    /// Its key, which ends in a slash. The store's own folder has none.
    folder: Option<Key>,
    /// The second in which its reading began, where the system tells it.
    began: Option<u64>,
    /// What stood there behind its reading.
    stamp: Option<Stamp>,
}

impl FolderRead {
    /// A folder that is to be read now.
    pub fn beginning<D: Disk>(disk: &D, folder: Option<Key>) -> FolderRead
        ensures { result.folder ≡ folder }
    {
        FolderRead {
            folder,
            began: disk.second(),
            stamp: None,
        }
    }

    /// Whether a key is of this folder.
    pub fn is_around(&self, key: &Key) -> bool {
        key.as_bytes().starts_with(self.name())
    }

    /// The folder's key, or nothing.
    pub fn name(&self) -> &[u8]
        ensures { result.now ≡ folder_key self.now.folder }
    {
        match &self.folder {
            None => &[],
            Some(folder) => folder.as_bytes(),
        }
    }

    // Keeps what stands there, the first time.
    fn keep_stamp<D: Disk>(&mut self, disk: &mut D)
        ensures { Leaves (D.told disk.old) (D.told disk.new) (D.may_leave disk.old) (D.may_leave disk.new) (D.has_way disk.old) (D.has_way disk.new) }
    {
        if self.stamp.is_some() {
            return;
        }
        let found = disk.stamp(self.name());
        self.stamp = found;
    }

    /// Keeps what stands there, and says whether that had not changed for a while when its reading began: then it did not change in
    /// the reading, and each change that comes shows.
    pub fn settle<D: Disk>(&mut self, disk: &mut D) -> bool
        ensures { Leaves (D.told disk.old) (D.told disk.new) (D.may_leave disk.old) (D.may_leave disk.new) (D.has_way disk.old) (D.has_way disk.new) }
    {
        self.keep_stamp(disk);
        match (self.began, self.stamp) {
            (Some(began), Some(stamp)) => stamp.second.saturating_add(STEP) < began,
            _ => false,
        }
    }

    /// Whether it has not changed since it was settled.
    pub fn is_unchanged<D: Disk>(&self, disk: &mut D) -> bool
        ensures { Leaves (D.told disk.old) (D.told disk.new) (D.may_leave disk.old) (D.may_leave disk.new) (D.has_way disk.old) (D.has_way disk.new) }
    {
        match (self.stamp, disk.stamp(self.name())) {
            (Some(kept), Some(found)) => kept == found,
            _ => false,
        }
    }
}

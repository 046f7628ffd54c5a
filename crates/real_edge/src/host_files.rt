//! A folder of the system as files that grow.

ghost use Rattle.std.specs.Prelude.{◌≡◌, ◌≤◌, ⊤, None, IfOk, length};

use crate::disk::Standing;
use crate::faults::{Trouble, tried};
use crate::folder_path::{FolderPath, standing_at};
use crate::growing_files::GrowingFiles;
use crate::object_reading::read_piece;
use crate::writer_lock::open_plain;
use byte_fields::Bytes;
use source_checkpoint::Partition;
use source_log::Partitions;
use std::alloc::{AllocError, Global};
use std::fs::{self, File, Files, OpenFile};
use std::io::{self, ErrorKind};
use std::mem;

/// A folder of the system, each plain file of which is a partition, named so. Files whose names are no partition's and links are
/// passed over. It tells contracts nothing: what it does is read here, and trusted.
#[derive(Drop)]
pub struct HostFiles<'a, F: Files> {
    files: &'a F,
    place: FolderPath,
    /// The files whose names are on the disk.
    placed: Vec<Partition>,
    /// A file or the folder was not put on the disk, and may never be.
    has_lost: bool,
}

// The names in a folder that are partitions', rising.
fn names_in<F: Files>(files: &F, alloc: Global, folder: &str) -> io::Result<Vec<Partition>> {
    let mut names = Vec::new(alloc);
    for entry in fs::read_dir(&(files, alloc), folder)? {
        let found = match entry {
            Ok(entry) => Partition::from_text(entry.file_name()).ok(),
            Err(fault) if fault.kind() == ErrorKind::InvalidFilename => None,
            Err(fault) => return Err(fault),
        };
        if let Some(partition) = found {
            names.push(partition)?;
        }
    }
    names.sort_unstable_by(|one, other| one.compare(other));
    Ok(names)
}

// What an open file has is on the disk. Behind a failure the system may have forgotten it, so none is believed.
fn sync<H: OpenFile>(has_lost: &mut bool, file: &H) -> Result<(), Trouble> {
    if *has_lost {
        return Err(Trouble::of("syncing", "a sync before it failed"));
    }
    let synced = file.sync_all();
    *has_lost = synced.is_err();
    tried("syncing", synced)
}

impl<'a, F: Files> HostFiles<'a, F> {
    /// The partitions of this folder. Nothing is opened yet.
    pub fn over(alloc: Global, files: &'a F, folder: &str) -> Result<HostFiles<'a, F>, AllocError> {
        Ok(HostFiles {
            files,
            place: FolderPath::of(alloc, folder)?,
            placed: Vec::new(alloc),
            has_lost: false,
        })
    }

    // Goes to a partition's file.
    fn go_to(&mut self, alloc: Global, partition: &Partition) -> Result<(), AllocError> {
        let name = format!(in alloc; "{partition}")?;
        self.place.go_to(name.as_str())
    }

    // The name of a partition's file is on the disk.
    fn place_name(&mut self, partition: &Partition) -> Result<(), Trouble> {
        if self.placed.iter().any(|one| one.is(partition)) {
            return Ok(());
        }
        let folder = tried(
            "syncing the folder of",
            File::open(self.files, self.place.folder()),
        )?;
        sync(&mut self.has_lost, &folder)?;
        self.placed.push(*partition)?;
        Ok(())
    }
}

impl<'a, F: Files> GrowingFiles for HostFiles<'a, F> {
    ghost told = { λ _. None };

    ghost may_leave = { λ _ _. ⊤ };

    fn names(&mut self, alloc: Global) -> Result<Partitions, Trouble> {
        self.place.go_back()?;
        let names = tried("reading", names_in(self.files, alloc, self.place.path()))?;
        Ok(Partitions::from_vec(names))
    }

    fn can_open(&mut self, alloc: Global, partition: &Partition) -> Result<bool, Trouble> {
        self.go_to(alloc, partition)?;
        let path = self.place.path();
        let Standing::PlainFile = tried("looking at", standing_at(self.files, path))? else {
            return Ok(false);
        };
        mem::drop(tried("opening", File::open(self.files, path))?);
        Ok(true)
    }

    fn settle(&mut self, alloc: Global, partition: &Partition) -> Result<Option<u64>, Trouble> {
        self.go_to(alloc, partition)?;
        let Standing::PlainFile = self.place.standing(self.files)? else {
            self.place.require(self.files)?;
            return Ok(None);
        };
        let file = open_plain(self.files, self.place.path())?;
        let size = tried("looking at", file.metadata())?.len();
        sync(&mut self.has_lost, &file)?;
        self.place_name(partition)?;
        Ok(Some(size))
    }

    fn read(
        &mut self,
        alloc: Global,
        partition: &Partition,
        from: u64,
        len: u64,
    ) -> Result<Bytes, Trouble> {
        self.go_to(alloc, partition)?;
        match read_piece(self.files, alloc, &mut self.place, from, len)? {
            Some(piece) => Ok(piece.bytes),
            None => Ok(Bytes::vacant(alloc)),
        }
    }

    fn may_pass_over(&self) -> bool {
        true
    }

    fn path(&self) -> &str {
        self.place.path()
    }

    fn room(&self) -> usize {
        FolderPath::room(self.place.folder())
    }

    ghost sound = { λ _. tt };

    ghost stays = { λ _ _ _. tt };
}

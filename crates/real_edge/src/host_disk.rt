//! A folder of the system as a disk.

ghost use Rattle.std.specs.Prelude.{◌≡◌, ◌≤◌, true, None, IfOk, IfSome, IsErr, length, ⊤};
ghost use Rattle.std.specs.FinMap.{empty};

use crate::disk::{Disk, DiskError, MakeError, Stamp, Standing};
use crate::faults::{Trouble, tried};
use crate::folder_names::names_in;
use crate::folder_path::{FolderPath, front, parent_and_name, standing_at};
use crate::object_reading::read_piece;
use crate::writer_lock::{LOCK, WriterLock, locked};
use byte_fields::{Bytes, List};
use object_store::Piece;
use std::alloc::{AllocError, Global};
use std::fs::{self, File, Files, Metadata, OpenFile, OpenOptions};
use std::io::{self, ErrorKind, Write};
use std::os::unix::fs::MetadataExt;
use std::str;

/// A folder of the system, whose plain files are the disk's. It tells contracts nothing: what it does is read here, and trusted.
#[derive(Drop)]
pub struct HostDisk<'a, F: WriterLock> {
    files: &'a F,
    place: FolderPath,
    is_writer: bool,
    /// The writer's locked file, once it is.
    held: Option<F::File>,
    /// The folders whose names are on the disk.
    synced: Vec<String>,
    /// A folder was not put on the disk, and may never be.
    has_lost: bool,
}

// The file has these bytes and no others, on the disk.
fn write_whole<H: Write + OpenFile + Drop>(mut file: H, content: &[u8]) -> io::Result<()> {
    file.write_all(content)?;
    file.sync_all()
}

// None where the system doesn't tell when the folder changed.
fn stamp_of(found: &Metadata) -> Option<Stamp> {
    match u64::try_from(found.ctime()) {
        Ok(second) if second > 0 => Some(Stamp {
            device: found.dev(),
            node: found.ino(),
            second,
            nanos: found.ctime_nsec(),
        }),
        _ => None,
    }
}

// What was made and removed in a folder is on the disk. Behind a failure the system may have forgotten it, so none is believed.
fn sync_folder<F: Files>(files: &F, has_lost: &mut bool, path: &str) -> Result<(), Trouble>
    ensures fails { has_lost.old ≡ true → IsErr result }
    ensures lost { has_lost.old ≡ true → has_lost.new ≡ true }
{
    let doing = "syncing the folder of";
    if *has_lost {
        return Err(Trouble::of(doing, "a sync before it failed"));
    }
    let folder = tried(doing, File::open(files, path))?;
    let synced = folder.sync_all();
    *has_lost = synced.is_err();
    tried(doing, synced)
}

impl<'a, F: WriterLock> HostDisk<'a, F> {
    fn over(
        alloc: Global,
        files: &'a F,
        folder: &str,
        is_writer: bool,
    ) -> Result<HostDisk<'a, F>, AllocError> {
        Ok(HostDisk {
            files,
            place: FolderPath::of(alloc, folder)?,
            is_writer,
            held: None,
            synced: Vec::new(alloc),
            has_lost: false,
        })
    }

    /// This folder, to be read. Nothing is opened yet.
    pub fn reading(
        alloc: Global,
        files: &'a F,
        folder: &str,
    ) -> Result<HostDisk<'a, F>, AllocError> {
        HostDisk::over(alloc, files, folder, false)
    }

    /// This folder, to be read and written behind the lock of its file `.lock`. Nothing is opened yet.
    pub fn writing(
        alloc: Global,
        files: &'a F,
        folder: &str,
    ) -> Result<HostDisk<'a, F>, AllocError> {
        HostDisk::over(alloc, files, folder, true)
    }

    // Goes to a name. Whether it is a path: it is text, and no part of it is empty.
    fn go_to(&mut self, name: &[u8]) -> Result<bool, AllocError> {
        match str::from_utf8(name) {
            Ok(name) if !name.split('/').any(|part| part.is_empty()) => {
                self.place.go_to(name)?;
                Ok(true)
            }
            _ => {
                self.place.go_back()?;
                Ok(false)
            }
        }
    }

    // Goes to a folder, which is named with the slash behind it.
    fn go_to_folder(&mut self, folder: &[u8]) -> Result<bool, AllocError> {
        match folder.strip_suffix(b"/") {
            Some(name) => self.go_to(name),
            None => {
                self.place.go_back()?;
                Ok(true)
            }
        }
    }

    // A folder within a folder that stands, its name on the disk. It was made, or this is the first name in it, unless it is known
    // to be synced.
    fn make_folder(&mut self, alloc: Global, len: usize) -> Result<(), Trouble> {
        let folder = front(self.place.path(), len);
        let is_new = match tried("looking at the folders of", standing_at(self.files, folder))? {
            Standing::Folder => false,
            Standing::Nothing => {
                tried("making the folders of", fs::create_dir(self.files, folder))?;
                true
            }
            _ => return Err(Trouble::of("making the folders of", "no folder stands there")),
        };
        let is_synced = self.synced.iter().any(|one| one.as_str() == folder);
        if is_synced && !is_new {
            return Ok(());
        }
        let (parent, _) = parent_and_name(folder);
        sync_folder(self.files, &mut self.has_lost, parent)?;
        if !is_synced {
            self.synced.push(String::from_str(alloc, folder)?)?;
        }
        Ok(())
    }
}

// No path.
fn no_path() -> Trouble {
    Trouble::of("making an object in", "a key has an empty part")
}

// The names that NULs end.
fn split_names(alloc: Global, text: &[u8]) -> Result<List<Bytes>, AllocError> {
    let mut names = List::vacant(alloc);
    for name in text.split(|byte| *byte == 0) {
        if !name.is_empty() {
            names.push(Bytes::from_slice(alloc, name)?)?;
        }
    }
    Ok(names)
}

impl<'a, F: WriterLock> Disk for HostDisk<'a, F> {
    ghost told = { λ _. None };

    ghost may_leave = { λ _ _. ⊤ };

    ghost crashed = { λ _. empty };

    ghost has_way = { λ _ _. ⊤ };

    ghost seen_may_stay = { λ _. tt };

    ghost leaves_some = { λ _. tt };

    fn claim(&mut self) -> Result<(), Trouble> {
        if self.is_writer && self.held.is_none() {
            self.place.go_to(LOCK)?;
            self.held = Some(locked(self.files, self.place.path())?);
        }
        Ok(())
    }

    fn make_way(&mut self, alloc: Global, name: &[u8]) -> Result<(), DiskError> {
        if !self.go_to(name)? {
            return Err(DiskError::Failed(no_path()));
        }
        let len = self.place.path().len();
        for at in self.place.folder().len().saturating_add(1)..len {
            if self.place.path().as_bytes().get(at) == Some(&b'/') {
                self.make_folder(alloc, at)?;
            }
        }
        Ok(())
    }

    fn create_new(&mut self, _alloc: Global, name: &[u8], content: &[u8]) -> Result<(), MakeError> {
        if !self.go_to(name)? {
            return Err(MakeError::Failed(no_path()));
        }
        let path = self.place.path();
        let opened = OpenOptions::new()
            .write(true)
            .create_new(true)
            .open(self.files, path);
        let file = match opened {
            Ok(file) => file,
            Err(fault) if fault.kind() == ErrorKind::AlreadyExists => return Err(MakeError::Exists),
            Err(fault) => return Err(MakeError::of("making the file beside", fault)),
        };
        match write_whole(file, content) {
            Ok(()) => Ok(()),
            Err(fault) => {
                let _ = fs::remove_file(self.files, path);
                Err(MakeError::of("writing the file beside", fault))
            }
        }
    }

    fn link(&mut self, alloc: Global, from: &[u8], to: &[u8]) -> Result<(), MakeError> {
        if !self.go_to(from)? {
            return Err(MakeError::Failed(no_path()));
        }
        let beside = String::from_str(alloc, self.place.path())?;
        if !self.go_to(to)? {
            return Err(MakeError::Failed(no_path()));
        }
        match fs::hard_link(self.files, beside.as_str(), self.place.path()) {
            Ok(()) => Ok(()),
            Err(fault) if fault.kind() == ErrorKind::AlreadyExists => Err(MakeError::Exists),
            Err(fault) => Err(MakeError::of("linking", fault)),
        }
    }

    fn remove(&mut self, name: &[u8]) -> Result<(), Trouble> {
        if self.go_to(name)? {
            if let Standing::PlainFile = self.place.standing(self.files)? {
                match fs::remove_file(self.files, self.place.path()) {
                    Err(fault) if fault.kind() == ErrorKind::NotFound => {}
                    given => return tried("removing", given),
                }
            }
        }
        self.place.require(self.files)
    }

    fn sync(&mut self, name: &[u8]) -> Result<(), Trouble> {
        if self.go_to(name)? {
            let (folder, _) = parent_and_name(self.place.path());
            match sync_folder(self.files, &mut self.has_lost, folder) {
                Err(trouble) if trouble.error.kind() == ErrorKind::NotFound => {}
                given => return given,
            }
        }
        self.place.require(self.files)
    }

    fn read(
        &mut self,
        alloc: Global,
        name: &[u8],
        from: u64,
        len: u64,
    ) -> Result<Option<Piece>, DiskError> {
        if self.go_to(name)? {
            return match read_piece(self.files, alloc, &mut self.place, from, len) {
                Ok(found) => Ok(found),
                Err(trouble) => Err(DiskError::of(trouble)),
            };
        }
        self.place.require(self.files)?;
        Ok(None)
    }

    fn look(&mut self, name: &[u8]) -> Result<Standing, Trouble> {
        if self.go_to(name)? {
            return tried("looking at", standing_at(self.files, self.place.path()));
        }
        Ok(Standing::Nothing)
    }

    fn look_along(&mut self, name: &[u8]) -> Result<Standing, Trouble> {
        if self.go_to(name)? {
            match self.place.standing(self.files)? {
                Standing::Nothing => {}
                found => return Ok(found),
            }
        }
        self.place.require(self.files)?;
        Ok(Standing::Nothing)
    }

    fn names(&mut self, alloc: Global, folder: &[u8]) -> Result<List<Bytes>, DiskError> {
        if self.go_to_folder(folder)? {
            match names_in(self.files, alloc, self.place.path()) {
                Ok(text) => return Ok(split_names(alloc, text.as_slice())?),
                Err(fault) if fault.kind() == ErrorKind::NotFound => {}
                Err(error) => {
                    let doing = "reading";
                    return Err(DiskError::of(Trouble { doing, error }));
                }
            }
        }
        self.place.require(self.files)?;
        Ok(List::vacant(alloc))
    }

    // Most file systems count a folder's folders with its names, of which it has two.
    fn may_have_folders(&mut self, folder: &[u8]) -> bool {
        match self.go_to_folder(folder) {
            Ok(true) => match fs::metadata(self.files, self.place.path()) {
                Ok(found) => found.nlink() != 2,
                Err(_) => true,
            },
            _ => true,
        }
    }

    fn stamp(&mut self, folder: &[u8]) -> Option<Stamp> {
        match self.go_to_folder(folder) {
            Ok(true) => {}
            _ => return None,
        }
        if !folder.is_empty() {
            let Ok(Standing::Folder) = self.place.standing(self.files) else {
                return None;
            };
        }
        match fs::metadata(self.files, self.place.path()) {
            Ok(found) => stamp_of(&found),
            Err(_) => None,
        }
    }

    fn second(&self) -> Option<u64> {
        match self.files.since_1970() {
            Ok(since) => Some(since.as_secs()),
            Err(_) => None,
        }
    }

    fn path(&self) -> &str {
        self.place.path()
    }
}

//! A disk of objects in memory that its stores share, some calls of which fail.

ghost use Rattle.std.specs.Prelude.{◌≡◌, ◌≤◌, Ok, None, ⊤, IfOk, IfSome, length};
ghost use Rattle.std.specs.FinMap.{empty};

use crate::failing::{SharedCourse, Turn};
use crate::ground::Object;
use byte_fields::{Bytes, List};
use object_store::Piece;
use real_edge::{Disk, DiskError, MakeError, MemoryDisk, Stamp, Standing, Trouble};
use std::alloc::{AllocError, Global};
use std::cell::{RefCell, RefMut};
use std::rc::Rc;
use std::{io, str};

/// The disk itself, and the folders in which objects are, each with the slash behind it.
const FOLDERS: [&str; 3] = ["", "meta/", "splits/"];

/// A disk in memory, as one store has it. It tells contracts nothing.
#[derive(Drop)]
pub struct SharedDisk {
    alloc: Global,
    disk: Rc<RefCell<MemoryDisk>>,
    course: SharedCourse,
    // A sync of this store failed.
    has_lost: bool,
}

fn trouble_of(error: io::Error) -> Trouble {
    Trouble {
        doing: "asking",
        error,
    }
}

fn told_to_fail() -> Trouble {
    Trouble::of("asking", "the disk was told to fail")
}

fn fault_of(error: DiskError) -> io::Error {
    match error {
        DiskError::Memory(refused) => io::Error::from(refused),
        DiskError::Failed(trouble) => fault_in(trouble),
    }
}

fn fault_in(trouble: Trouble) -> io::Error {
    let Trouble { doing: _, error } = trouble;
    error
}

// The answer of a call that was done.
fn ended<T: Drop>(turn: Turn, answer: Result<T, Trouble>) -> Result<T, Trouble> {
    match turn {
        Turn::Failing => Err(told_to_fail()),
        Turn::Good | Turn::Short => answer,
    }
}

// The same of a call that makes a name.
fn made(turn: Turn, answer: Result<(), MakeError>) -> Result<(), MakeError> {
    match turn {
        Turn::Failing => Err(MakeError::Failed(told_to_fail())),
        Turn::Good | Turn::Short => answer,
    }
}

// The same of a call that reads.
fn given<T: Drop>(turn: Turn, answer: Result<T, DiskError>) -> Result<T, DiskError>
    ensures { IfOk result (λ value. answer ≡ Ok value) }
{
    match turn {
        Turn::Failing => Err(DiskError::Failed(told_to_fail())),
        Turn::Good | Turn::Short => answer,
    }
}

// Adds the files of a folder.
fn add_files(
    disk: &mut MemoryDisk,
    alloc: Global,
    folder: &str,
    found: &mut Vec<Object>,
) -> Result<(), DiskError> {
    for name in disk.names(alloc, folder.as_bytes())?.as_slice() {
        let mut path = String::from_str(alloc, folder)?;
        path.push_str(str::from_utf8(name.as_slice()).unwrap_or(""))?;
        if let Some(piece) = disk.read(alloc, path.as_bytes(), 0, u64::MAX)? {
            let bytes = Vec::from_slice(alloc, piece.bytes.as_slice())?;
            found.push(Object { path, bytes })?;
        }
    }
    Ok(())
}

impl SharedDisk {
    /// No files.
    pub fn vacant(alloc: Global, course: SharedCourse) -> Result<SharedDisk, AllocError> {
        let disk = RefCell::new(MemoryDisk::vacant(alloc));
        Ok(SharedDisk {
            alloc,
            disk: Rc::new(alloc, disk)?,
            course,
            has_lost: false,
        })
    }

    /// The same disk once more, for one more store.
    pub fn share(&self) -> Result<SharedDisk, AllocError> {
        Ok(SharedDisk {
            alloc: self.alloc,
            disk: self.disk.clone()?,
            course: self.course.share()?,
            has_lost: false,
        })
    }

    // What is shared. A call takes it for as long as it lasts.
    fn taken(&self) -> io::Result<RefMut<'_, MemoryDisk>> {
        Ok(self.disk.try_borrow_mut()?)
    }

    /// The power goes and comes back: what was not synced is lost.
    pub fn lose(&self) -> io::Result<()> {
        Ok(self.taken()?.crash()?)
    }

    /// All that stands is synced.
    pub fn settle(&self) -> io::Result<()> {
        match self.taken()?.sync(b"") {
            Ok(()) => Ok(()),
            Err(trouble) => Err(fault_in(trouble)),
        }
    }

    /// The files.
    pub fn objects(&self) -> io::Result<Vec<Object>> {
        let mut disk = self.taken()?;
        let mut found = Vec::new(self.alloc);
        for folder in FOLDERS {
            if let Err(error) = add_files(&mut disk, self.alloc, folder, &mut found) {
                return Err(fault_of(error));
            }
        }
        Ok(found)
    }

    // Begins a call: how it goes, or a trouble where nothing is done.
    fn begin(&self) -> Result<Turn, Trouble> {
        match self.turn() {
            Ok(turn) => Ok(turn),
            Err(fault) => Err(trouble_of(fault)),
        }
    }

    fn turn(&self) -> io::Result<Turn> {
        self.course.taken()?.turn()
    }

    // Begins a call that gives or takes a name.
    fn begin_change(&self) -> Result<Turn, Trouble> {
        match self.turn_of_change() {
            Ok(turn) => Ok(turn),
            Err(fault) => Err(trouble_of(fault)),
        }
    }

    fn turn_of_change(&self) -> io::Result<Turn> {
        let mut course = self.course.taken()?;
        let turn = course.turn()?;
        course.change();
        Ok(turn)
    }

    // Begins a call that takes a name.
    fn begin_removal(&self) -> Result<Turn, Trouble> {
        let turn = self.begin_change()?;
        match self.course.taken() {
            Ok(course) => {
                if course.keeps_files() {
                    return Err(told_to_fail());
                }
                Ok(turn)
            }
            Err(fault) => Err(trouble_of(fault)),
        }
    }

    fn on_disk(&self) -> Result<RefMut<'_, MemoryDisk>, Trouble> {
        match self.taken() {
            Ok(disk) => Ok(disk),
            Err(fault) => Err(trouble_of(fault)),
        }
    }

    fn try_sync(&self, name: &[u8]) -> Result<(), Trouble> {
        let turn = self.begin()?;
        ended(turn, self.on_disk()?.sync(name))
    }

    fn note_lost(&self) {
        if let Ok(mut course) = self.course.taken() {
            course.lose_sync();
        }
    }

    // Without a name that no listing gives.
    fn shown(&self, names: &[Bytes]) -> io::Result<List<Bytes>> {
        let course = self.course.taken()?;
        let mut shown = List::vacant(self.alloc);
        for name in names {
            if course.shows(name.as_slice()) {
                shown.push(Bytes::from_slice(self.alloc, name.as_slice())?)?;
            }
        }
        Ok(shown)
    }
}

impl Disk for SharedDisk {
    ghost told = { λ _. None };

    ghost may_leave = { λ _ _. ⊤ };

    ghost crashed = { λ _. empty };

    ghost has_way = { λ _ _. ⊤ };

    ghost seen_may_stay = { λ _. tt };

    ghost leaves_some = { λ _. tt };

    fn claim(&mut self) -> Result<(), Trouble> {
        let turn = self.begin()?;
        ended(turn, self.on_disk()?.claim())
    }

    fn make_way(&mut self, alloc: Global, name: &[u8]) -> Result<(), DiskError> {
        let turn = self.begin()?;
        given(turn, self.on_disk()?.make_way(alloc, name))
    }

    fn create_new(&mut self, alloc: Global, name: &[u8], content: &[u8]) -> Result<(), MakeError> {
        let turn = self.begin_change().map_err(MakeError::Failed)?;
        let mut disk = self.on_disk().map_err(MakeError::Failed)?;
        made(turn, disk.create_new(alloc, name, content))
    }

    fn link(&mut self, alloc: Global, from: &[u8], to: &[u8]) -> Result<(), MakeError> {
        let turn = self.begin_change().map_err(MakeError::Failed)?;
        let mut disk = self.on_disk().map_err(MakeError::Failed)?;
        made(turn, disk.link(alloc, from, to))
    }

    fn remove(&mut self, name: &[u8]) -> Result<(), Trouble> {
        let turn = self.begin_removal()?;
        ended(turn, self.on_disk()?.remove(name))
    }

    fn sync(&mut self, name: &[u8]) -> Result<(), Trouble> {
        if self.has_lost {
            return Err(told_to_fail());
        }
        let synced = self.try_sync(name);
        if synced.is_err() {
            self.has_lost = true;
            self.note_lost();
        }
        synced
    }

    fn read(
        &mut self,
        alloc: Global,
        name: &[u8],
        from: u64,
        len: u64,
    ) -> Result<Option<Piece>, DiskError> {
        let turn = self.begin()?;
        given(turn, self.on_disk()?.read(alloc, name, from, len))
    }

    fn look(&mut self, name: &[u8]) -> Result<Standing, Trouble> {
        let turn = self.begin()?;
        ended(turn, self.on_disk()?.look(name))
    }

    fn look_along(&mut self, name: &[u8]) -> Result<Standing, Trouble> {
        self.look(name)
    }

    fn names(&mut self, alloc: Global, folder: &[u8]) -> Result<List<Bytes>, DiskError> {
        let turn = self.begin()?;
        let names = given(turn, self.on_disk()?.names(alloc, folder))?;
        match self.shown(names.as_slice()) {
            Ok(shown) => Ok(shown),
            Err(fault) => Err(DiskError::of(trouble_of(fault))),
        }
    }

    fn may_have_folders(&mut self, _folder: &[u8]) -> bool {
        true
    }

    // It has no time.
    fn stamp(&mut self, _folder: &[u8]) -> Option<Stamp> {
        None
    }

    fn second(&self) -> Option<u64> {
        None
    }

    fn path(&self) -> &str {
        ""
    }
}

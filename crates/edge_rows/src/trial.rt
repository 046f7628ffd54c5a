//! One life of an index with what is wrong with its disk, and what is looked at behind it.

use crate::lives::{Session, Told, is_vacant};
use clock_time::ScriptClock;
use edge_ground::{Book, Ground, Left, Manner, MemoryTree, Place, Plan, STORE, Wrong, left_beside};
use index_world::{Unopened, World};
use object_store::{Key, ObjectStore};
use real_edge::FolderStore;
use std::alloc::{AllocError, Global};
use std::thread::Threads;
use std::{io, mem};

/// The records of the log at first, and once more when the faults are over.
const RECORDS: u64 = 6;

/// A life makes at least so many objects: the index, three splits, and that each of them is published.
pub const OBJECTS: u64 = 7;

/// An object takes at least so many calls of files: its file beside is made, written and put on the disk, linked and removed, and its
/// folder is opened and put on the disk. And so many of a disk of objects: it is taken, the way is made, the name is looked at, the
/// file beside is made, linked and removed, and the names are put on the disk.
const OBJECT_CALLS: u64 = 7;

/// How a life goes: a call goes so, and then the power may go.
#[derive(Clone, Copy)]
pub struct Fate {
    pub manner: Manner,
    pub then: Option<Left>,
}

impl Fate {
    /// No call fails by it.
    pub fn is_quiet(&self) -> bool {
        match self.manner {
            Manner::Short => true,
            Manner::Undone | Manner::Done | Manner::Stops => false,
        }
    }
}

/// What a life is over, and what stood there.
#[derive(Drop)]
pub struct Trial {
    alloc: Global,
    ground: Ground,
    book: Book,
}

fn add_folders(tree: &MemoryTree) -> io::Result<()> {
    let mut state = tree.state()?;
    state.add_folder(STORE)?;
    state.add_folder("logs")?;
    state.add_file("logs/p0")?;
    Ok(())
}

fn record_of(alloc: Global, number: u64) -> Result<String, AllocError> {
    format!(in alloc; "{{\"n\":{number}}}\n")
}

fn append(tree: &MemoryTree, text: &[u8]) -> io::Result<()> {
    let mut state = tree.state()?;
    let log = state.find("logs/p0")?;
    let end = state.bytes(log).len();
    state.write(log, end, text)?;
    state.sync(log)?;
    for path in ["", "logs"] {
        let folder = state.find(path)?;
        state.sync(folder)?;
    }
    Ok(())
}

// Whether a store has an index. Of one that it has, the objects of the splits are listed.
fn has_index<S: ObjectStore + Drop>(alloc: Global, store: S) -> Result<bool, Wrong> {
    match World::load(alloc, store, ScriptClock::at(0)) {
        Ok(world) => {
            let (store, _) = world.unload();
            lists_splits(alloc, store)?;
            Ok(true)
        }
        Err(Unopened { error, store }) => {
            mem::drop(store);
            let vacant = is_vacant(alloc, &error);
            mem::drop(error);
            vacant?;
            Ok(false)
        }
    }
}

fn lists_splits<S: ObjectStore + Drop>(alloc: Global, store: S) -> Result<(), Wrong> {
    let mut store = store;
    let listed = list_splits(alloc, &mut store);
    mem::drop(store);
    listed
}

fn list_splits<S: ObjectStore>(alloc: Global, store: &mut S) -> Result<(), Wrong> {
    let Ok(prefix) = Key::from_text("splits/") else {
        return Err(Wrong::seen(alloc, "splits/", "is no key"));
    };
    match store.list(alloc, &prefix, None, 100) {
        Ok(_) => Ok(()),
        Err(_) => Err(Wrong::seen(alloc, "a reader", "has no list")),
    }
}

impl Trial {
    /// No objects, and a log of records.
    pub fn of(alloc: Global, place: Place) -> Result<Trial, Wrong> {
        let trial = Trial {
            alloc,
            ground: Ground::vacant(alloc, place)?,
            book: Book::vacant(alloc),
        };
        trial.lay_out()?;
        Ok(trial)
    }

    fn lay_out(&self) -> Result<(), Wrong> {
        add_folders(self.ground.tree())?;
        for number in 1..=RECORDS {
            self.add_record(number)?;
        }
        Ok(())
    }

    // The log has a record more, and all that stands is on the disk.
    fn add_record(&self, number: u64) -> Result<(), Wrong> {
        let text = record_of(self.alloc, number)?;
        append(self.ground.tree(), text.as_bytes())?;
        Ok(())
    }

    fn play<Rt: Threads + Sync>(
        &mut self,
        rt: &Rt,
        writer: u64,
        splits: Option<u64>,
        records: u64,
    ) -> Result<Told, Wrong> {
        let session = Session {
            alloc: self.alloc,
            ground: &self.ground,
            writer,
            splits,
            records,
        };
        session.play(rt, &mut self.book)
    }

    // A whole life: the first session makes two splits, the second all others.
    fn live<Rt: Threads + Sync>(&mut self, rt: &Rt, writers: [u64; 2]) -> Result<Told, Wrong> {
        let began = self.play(rt, writers[0], Some(2), RECORDS)?;
        let ended = self.play(rt, writers[1], None, RECORDS)?;
        Ok(Told {
            fault: began.fault || ended.fault,
            found: ended.found,
        })
    }

    // Opens the index to read it alone, and lists the objects of its splits. Whether there was an index; nothing is changed.
    fn read(&self) -> Result<bool, Wrong> {
        let before = self.ground.course()?.changes();
        let is_index = self.finds_index()?;
        if self.ground.course()?.changes() != before {
            return Err(Wrong::seen(self.alloc, "a reader", "changed what stands"));
        }
        Ok(is_index)
    }

    fn finds_index(&self) -> Result<bool, Wrong> {
        let alloc = self.alloc;
        match &self.ground.disk {
            Some(disk) => has_index(alloc, FolderStore::reader_of(alloc, disk.share()?)?),
            None => has_index(
                alloc,
                FolderStore::reading(alloc, &self.ground.files, STORE)?,
            ),
        }
    }

    // The session behind a life: nothing fails, the log has a record more, and each is found.
    fn clean_up<Rt: Threads + Sync>(&mut self, rt: &Rt) -> Result<(), Wrong> {
        self.add_record(RECORDS + 1)?;
        self.read()?;
        let told = self.play(rt, 3, None, RECORDS + 1)?;
        if told.fault || !told.found {
            return Err(Wrong::seen(self.alloc, "a clean session", "told a fault"));
        }
        left_beside(self.alloc, &self.ground)
    }

    /// A life in which nothing fails. How many calls it has.
    pub fn sound_calls<Rt: Threads + Sync>(&mut self, rt: &Rt) -> Result<u64, Wrong> {
        self.ground.course()?.follow(None);
        let told = self.live(rt, [1, 2])?;
        let calls = self.ground.course()?.calls();
        if told.fault || !told.found {
            return Err(Wrong::seen(self.alloc, "a sound life", "told a fault"));
        }
        if calls < OBJECTS * OBJECT_CALLS {
            return Err(Wrong::seen(self.alloc, "a sound life", "has too few calls"));
        }
        self.clean_up(rt)?;
        Ok(calls)
    }

    /// A life with a fault, and a clean session behind it. Whether the call of this number went so.
    pub fn strike<Rt: Threads + Sync>(
        &mut self,
        rt: &Rt,
        fate: Fate,
        call: u64,
    ) -> Result<bool, Wrong> {
        let manner = fate.manner;
        self.ground.course()?.follow(Some(Plan { call, manner }));
        let told = self.live(rt, [1, 2])?;
        let struck = self.ground.course()?.has_struck();
        self.ground.course()?.follow(None);
        self.judge(fate, told)?;
        if !struck {
            return Ok(false);
        }
        if let Some(left) = fate.then {
            self.ground.lose(left)?;
            self.book.forget_lost(&self.ground)?;
        }
        self.clean_up(rt)?;
        Ok(true)
    }

    // What a life with a fault may tell.
    fn judge(&self, fate: Fate, told: Told) -> Result<(), Wrong> {
        if !told.fault && !told.found {
            return Err(Wrong::seen(self.alloc, "a life", "ended with no answer"));
        }
        if !told.fault {
            return left_beside(self.alloc, &self.ground);
        }
        if fate.is_quiet() {
            return Err(Wrong::seen(self.alloc, "a life", "told a fault"));
        }
        Ok(())
    }

    /// A life in which no file can be removed, and a clean session behind it when files can be.
    pub fn append<Rt: Threads + Sync>(&mut self, rt: &Rt, writers: [u64; 2]) -> Result<(), Wrong> {
        self.ground.course()?.keep_files(true);
        let told = self.live(rt, writers)?;
        if !told.fault {
            return Err(Wrong::seen(self.alloc, "a life", "told no fault"));
        }
        self.ground.course()?.keep_files(false);
        self.clean_up(rt)
    }

    /// A sound life, and a reader whose listing lacks an entry that stands, as it may where entries are made meanwhile.
    pub fn overlook<Rt: Threads + Sync>(&mut self, rt: &Rt, name: &str) -> Result<(), Wrong> {
        self.live(rt, [1, 2])?;
        self.ground.course()?.overlook(name)?;
        if self.read()? {
            Ok(())
        } else {
            Err(Wrong::seen(self.alloc, "a reader", "finds no index"))
        }
    }
}

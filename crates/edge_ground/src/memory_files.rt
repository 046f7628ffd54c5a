//! What is opened on a file system in memory.

ghost use Rattle.std.specs.Prelude.{◌≡◌, ◌≤◌, length};

use crate::failing::Turn;
use crate::memory_tree::{MemoryTree, State};
use real_edge::WriterLock;
use std::alloc::Allocator;
use std::cell::Cell;
use std::fs::{Files, Metadata, OpenFile, OpenOptions};
use std::io::{self, ErrorKind, Read, Seek, SeekFrom, Write};
use std::time::{Clock, Duration};

/// A file system in memory as the system's files.
#[derive(Drop)]
pub struct MemoryFiles {
    tree: MemoryTree,
}

/// A file or a folder that was opened, and the place of its next read or write.
pub struct MemoryFile {
    tree: MemoryTree,
    node: usize,
    at: u64,
    writes: bool,
    has_lock: Cell<bool>,
}

impl Drop for MemoryFile {
    fn drop(self) {
        let MemoryFile {
            tree,
            node,
            at: _,
            writes: _,
            has_lock,
        } = self;
        if has_lock.get() {
            if let Ok(mut state) = tree.state() {
                state.unlock(node);
            }
        }
    }
}

/// A folder that was opened to be read: its names that were not read yet.
#[derive(Drop)]
pub struct MemoryDir {
    tree: MemoryTree,
    names: Vec<u8>,
    at: usize,
}

fn unsupported() -> io::Error {
    io::Error::from(ErrorKind::Unsupported)
}

impl MemoryFiles {
    pub fn over(tree: MemoryTree) -> MemoryFiles {
        MemoryFiles { tree }
    }

    pub fn tree(&self) -> &MemoryTree {
        &self.tree
    }
}

// The file that is opened so. One that is made has no bytes.
fn opened(state: &mut State, how: &OpenOptions, path: &str) -> io::Result<usize> {
    how.check()?;
    match state.find(path) {
        Ok(_) if how.asks_create_new() => Err(io::Error::from(ErrorKind::AlreadyExists)),
        Ok(node) => {
            if how.asks_write() && state.is_folder(node) {
                return Err(io::Error::from(ErrorKind::IsADirectory));
            }
            if how.asks_truncate() {
                state.resize(node, 0)?;
            }
            Ok(node)
        }
        Err(fault) => {
            if how.asks_create_new() || how.asks_create() {
                state.add_file(path)
            } else {
                Err(fault)
            }
        }
    }
}

fn metadata_of(state: &State, node: usize) -> Metadata {
    if state.is_folder(node) {
        Metadata::of_dir()
    } else {
        Metadata::of_file(state.bytes(node).len() as u64)
    }
}

fn looked_at(state: &State, path: &str) -> io::Result<Metadata> {
    let node = state.find(path)?;
    if path.ends_with('/') && !state.is_folder(node) {
        return Err(io::Error::from(ErrorKind::NotADirectory));
    }
    Ok(metadata_of(state, node))
}

impl Files for MemoryFiles {
    type File = MemoryFile;

    type Dir = MemoryDir;

    fn open_file(&self, how: &OpenOptions, path: &str) -> io::Result<MemoryFile> {
        let mut state = self.tree.state()?;
        let turn = state.turn()?;
        let node = turn.end(opened(&mut state, how, path))?;
        Ok(MemoryFile {
            tree: self.tree.share()?,
            node,
            at: 0,
            writes: how.asks_write(),
            has_lock: Cell::new(false),
        })
    }

    fn open_dir(&self, path: &str) -> io::Result<MemoryDir> {
        let mut state = self.tree.state()?;
        let turn = state.turn()?;
        let node = turn.end(state.find(path))?;
        Ok(MemoryDir {
            tree: self.tree.share()?,
            names: state.list(node)?,
            at: 0,
        })
    }

    fn metadata(&self, path: &str) -> io::Result<Metadata> {
        let mut state = self.tree.state()?;
        let turn = state.turn()?;
        turn.end(looked_at(&state, path))
    }

    fn symlink_metadata(&self, path: &str) -> io::Result<Metadata> {
        self.metadata(path)
    }

    fn copy(&self, _from: &str, _to: &str) -> io::Result<u64> {
        Err(unsupported())
    }

    fn rename(&self, _from: &str, _to: &str) -> io::Result<()> {
        Err(unsupported())
    }

    fn remove_file(&self, path: &str) -> io::Result<()> {
        let mut state = self.tree.state()?;
        let turn = state.turn()?;
        turn.end(state.remove(path))
    }

    fn create_dir(&self, path: &str) -> io::Result<()> {
        let mut state = self.tree.state()?;
        let turn = state.turn()?;
        turn.end(state.add_folder(path))
    }

    fn remove_dir(&self, _path: &str) -> io::Result<()> {
        Err(unsupported())
    }

    fn remove_dir_all<B: Allocator>(&self, _alloc: B, _path: &str) -> io::Result<()> {
        Err(unsupported())
    }

    fn hard_link(&self, original: &str, link: &str) -> io::Result<()> {
        let mut state = self.tree.state()?;
        let turn = state.turn()?;
        turn.end(state.link(original, link))
    }
}

// It has no time.
impl Clock for MemoryFiles {
    fn monotonic(&self) -> io::Result<Duration> {
        Err(unsupported())
    }

    fn since_1970(&self) -> io::Result<Duration> {
        Err(unsupported())
    }
}

impl WriterLock for MemoryFiles {
    fn try_lock(&self, file: &MemoryFile) -> io::Result<bool> {
        let mut state = self.tree.state()?;
        let turn = state.turn()?;
        let locked = state.lock(file.node)?;
        if locked {
            file.has_lock.set(true);
        }
        turn.end(Ok(locked))
    }
}

impl OpenFile for MemoryFile {
    fn metadata(&self) -> io::Result<Metadata> {
        let mut state = self.tree.state()?;
        let turn = state.turn()?;
        turn.end(Ok(metadata_of(&state, self.node)))
    }

    fn set_len(&self, size: u64) -> io::Result<()> {
        let mut state = self.tree.state()?;
        let turn = state.turn()?;
        turn.end(state.resize(self.node, size as usize))
    }

    fn sync_all(&self) -> io::Result<()> {
        let mut state = self.tree.state()?;
        let synced = match state.turn() {
            Ok(turn) => turn.end(state.sync(self.node)),
            Err(fault) => Err(fault),
        };
        state.end_sync(self.node, synced)
    }

    fn sync_data(&self) -> io::Result<()> {
        self.sync_all()
    }
}

// How many of so many bytes a read or a write does in this turn.
fn part(state: &mut State, turn: Turn, len: usize) -> usize
    ensures { result ≤ len }
{
    let count = turn.share(len);
    if count < len {
        state.strike();
    }
    count
}

// The front of what is left, as far as there is room.
fn give(buf: &mut [u8], left: &[u8], count: usize) -> usize
    ensures { result ≤ length buf.new }
{
    let count = count.min(left.len()).min(buf.len());
    buf[..count].copy_from_slice(&left[..count]);
    count
}

impl Read for MemoryFile {
    fn read(&mut self, buf: &mut [u8]) -> io::Result<usize> {
        let mut state = self.tree.state()?;
        let turn = state.turn()?;
        if state.is_folder(self.node) {
            return Err(io::Error::from(ErrorKind::IsADirectory));
        }
        let size = state.bytes(self.node).len();
        let from = (self.at.min(size as u64)) as usize;
        let room = (size - from).min(buf.len());
        let count = part(&mut state, turn, room);
        let given = match state.bytes(self.node).get(from..) {
            Some(left) => give(buf, left, count),
            None => 0,
        };
        self.at = self.at.saturating_add(given as u64);
        turn.end(Ok(given))
    }
}

impl Write for MemoryFile {
    fn write(&mut self, buf: &[u8]) -> io::Result<usize> {
        let mut state = self.tree.state()?;
        let turn = state.turn()?;
        if !self.writes {
            return Err(io::Error::from(ErrorKind::PermissionDenied));
        }
        let count = part(&mut state, turn, buf.len());
        let written = state.write(self.node, self.at as usize, &buf[..count]);
        self.at = self.at.saturating_add(count as u64);
        turn.end(written)?;
        Ok(count)
    }

    fn flush(&mut self) -> io::Result<()> {
        Ok(())
    }
}

impl Seek for MemoryFile {
    fn seek(&mut self, to: SeekFrom) -> io::Result<u64> {
        let mut state = self.tree.state()?;
        let turn = state.turn()?;
        match to {
            SeekFrom::Start(at) => self.at = at,
            SeekFrom::End(_) | SeekFrom::Current(_) => return Err(unsupported()),
        }
        turn.end(Ok(self.at))
    }
}

// How many bytes the first names have that have room, at most one name where it is to be short.
fn whole_names(names: &[u8], room: usize, short: bool) -> usize {
    let mut end = 0;
    for (i, byte) in names.iter().enumerate() {
        if i >= room || (short && end > 0) {
            break;
        }
        if *byte == 0 {
            end = i + 1;
        }
    }
    end
}

impl Read for MemoryDir {
    fn read(&mut self, buf: &mut [u8]) -> io::Result<usize> {
        let mut state = self.tree.state()?;
        let turn = state.turn()?;
        let left = self.names.as_slice().get(self.at..).unwrap_or(&[]);
        let whole = whole_names(left, buf.len(), false);
        let count = match turn {
            Turn::Short => whole_names(left, buf.len(), true),
            Turn::Good | Turn::Failing => whole,
        };
        if count < whole {
            state.strike();
        }
        let given = give(buf, left, count);
        self.at = self.at.saturating_add(given);
        turn.end(Ok(given))
    }
}

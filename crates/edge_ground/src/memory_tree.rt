//! A file system in memory, whose calls are counted and may fail, and whose power may go.

use crate::failing::{Course, SharedCourse, Turn};
use crate::ground::Object;
use std::alloc::{AllocError, Global};
use std::cell::{RefCell, RefMut};
use std::io::{self, ErrorKind};
use std::rc::Rc;

/// The folder in which all paths begin.
const ROOT: usize = 0;

/// A name in a folder. One that was removed is kept until its folder is synced, since the power may bring it back.
#[derive(Drop)]
struct Name {
    text: String,
    node: usize,
    stands: bool,
    synced: bool,
}

/// What a file has, and what it had when it was synced last.
#[derive(Drop)]
struct Content {
    bytes: Vec<u8>,
    synced: Vec<u8>,
}

/// A file or a folder. A file may have several names.
#[derive(Drop)]
enum Node {
    File(Content),
    Folder(Vec<Name>),
}

/// What is left where the power goes: of each file what its last sync had, and of the names this.
#[derive(Clone, Copy)]
pub enum Left {
    /// The names of each folder's last sync.
    SyncedNames,
    /// All names.
    AllNames,
}

// A file or a folder, and its path.
#[derive(Drop)]
struct Found {
    path: String,
    node: usize,
}

/// What stands where, and how calls go.
#[derive(Drop)]
pub struct State {
    alloc: Global,
    nodes: Vec<Node>,
    locked: Vec<usize>,
    course: SharedCourse,
}

/// A file system in memory, which what is opened on it shares.
#[derive(Drop)]
pub struct MemoryTree {
    state: Rc<RefCell<State>>,
}

fn missing() -> io::Error {
    io::Error::from(ErrorKind::NotFound)
}

fn no_folder() -> io::Error {
    io::Error::from(ErrorKind::NotADirectory)
}

impl Content {
    // The bytes from a place on become these.
    fn write(&mut self, alloc: Global, at: usize, piece: &[u8]) -> Result<(), AllocError> {
        let end = at.saturating_add(piece.len());
        let mut whole = Vec::new(alloc);
        whole.extend_from_slice(&self.bytes.as_slice()[..at.min(self.bytes.len())])?;
        whole.resize(at, 0)?;
        whole.extend_from_slice(piece)?;
        if let Some(rest) = self.bytes.as_slice().get(end..) {
            whole.extend_from_slice(rest)?;
        }
        self.bytes = whole;
        Ok(())
    }

    fn sync(&mut self) -> Result<(), AllocError> {
        self.synced.clear();
        self.synced.extend_from_slice(self.bytes.as_slice())
    }

    fn lose(&mut self) -> Result<(), AllocError> {
        self.bytes.clear();
        self.bytes.extend_from_slice(self.synced.as_slice())
    }
}

impl MemoryTree {
    /// One folder that is empty, the one in which all paths begin.
    pub fn vacant(alloc: Global, course: SharedCourse) -> Result<MemoryTree, AllocError> {
        let mut nodes = Vec::new(alloc);
        nodes.push(Node::Folder(Vec::new(alloc)))?;
        let state = RefCell::new(State {
            alloc,
            nodes,
            locked: Vec::new(alloc),
            course,
        });
        Ok(MemoryTree {
            state: Rc::new(alloc, state)?,
        })
    }

    /// The same file system once more.
    pub fn share(&self) -> Result<MemoryTree, AllocError> {
        Ok(MemoryTree {
            state: self.state.clone()?,
        })
    }

    /// What stands on it. A call takes it for as long as it lasts.
    pub fn state(&self) -> io::Result<RefMut<'_, State>> {
        Ok(self.state.try_borrow_mut()?)
    }
}

impl State {
    /// Counts a call, and says how it goes: an error where nothing is done.
    pub fn turn(&self) -> io::Result<Turn> {
        self.course()?.turn()
    }

    /// A read or a write was cut short.
    pub fn strike(&self) {
        if let Ok(mut course) = self.course() {
            course.strike();
        }
    }

    /// How calls go. It is taken for as long as what is given lasts.
    pub fn course(&self) -> io::Result<RefMut<'_, Course>> {
        self.course.taken()
    }

    fn names(&self, folder: usize) -> io::Result<&[Name]> {
        match self.nodes.get(folder) {
            Some(Node::Folder(names)) => Ok(names.as_slice()),
            Some(Node::File(_)) => Err(no_folder()),
            None => Err(missing()),
        }
    }

    fn child(&self, folder: usize, text: &str) -> io::Result<usize> {
        for name in self.names(folder)? {
            if name.stands && name.text.as_str() == text {
                return Ok(name.node);
            }
        }
        Err(missing())
    }

    /// The file or the folder of a path.
    pub fn find(&self, path: &str) -> io::Result<usize> {
        let mut at = ROOT;
        for part in path.split('/') {
            if !part.is_empty() {
                at = self.child(at, part)?;
            }
        }
        Ok(at)
    }

    // The folder of a path's last part, and that part.
    fn place<'a>(&self, path: &'a str) -> io::Result<(usize, &'a str)> {
        let (parent, text) = path.rsplit_once('/').unwrap_or(("", path));
        Ok((self.find(parent)?, text))
    }

    fn add_name(&mut self, folder: usize, text: &str, node: usize) -> io::Result<()> {
        let text = String::from_str(self.alloc, text)?;
        self.course()?.change();
        match self.nodes.get_mut(folder) {
            Some(Node::Folder(names)) => {
                names.push(Name {
                    text,
                    node,
                    stands: true,
                    synced: false,
                })?;
                Ok(())
            }
            _ => Err(no_folder()),
        }
    }

    fn add_node(&mut self, path: &str, node: Node) -> io::Result<usize> {
        let (folder, text) = self.place(path)?;
        let at = self.nodes.len();
        self.nodes.push(node)?;
        self.add_name(folder, text, at)?;
        Ok(at)
    }

    /// Makes a file with no bytes.
    pub fn add_file(&mut self, path: &str) -> io::Result<usize> {
        let node = Node::File(Content {
            bytes: Vec::new(self.alloc),
            synced: Vec::new(self.alloc),
        });
        self.add_node(path, node)
    }

    /// Makes a folder with no names.
    pub fn add_folder(&mut self, path: &str) -> io::Result<()> {
        match self.find(path) {
            Ok(_) => Err(io::Error::from(ErrorKind::AlreadyExists)),
            Err(_) => {
                self.add_node(path, Node::Folder(Vec::new(self.alloc)))?;
                Ok(())
            }
        }
    }

    /// Gives a file one name more.
    pub fn link(&mut self, original: &str, path: &str) -> io::Result<()> {
        let node = self.find(original)?;
        if self.names(node).is_ok() {
            return Err(io::Error::from(ErrorKind::PermissionDenied));
        }
        if self.find(path).is_ok() {
            return Err(io::Error::from(ErrorKind::AlreadyExists));
        }
        let (folder, text) = self.place(path)?;
        self.add_name(folder, text, node)
    }

    /// Takes a file's name.
    pub fn remove(&mut self, path: &str) -> io::Result<()> {
        if self.course()?.keeps_files() {
            return Err(io::Error::from(ErrorKind::PermissionDenied));
        }
        let node = self.find(path)?;
        if self.names(node).is_ok() {
            return Err(io::Error::from(ErrorKind::IsADirectory));
        }
        let (folder, text) = self.place(path)?;
        self.course()?.change();
        if let Some(Node::Folder(names)) = self.nodes.get_mut(folder) {
            for name in names.iter_mut() {
                if name.stands && name.text.as_str() == text {
                    name.stands = false;
                }
            }
        }
        Ok(())
    }

    /// Whether a node is a folder.
    pub fn is_folder(&self, node: usize) -> bool {
        self.names(node).is_ok()
    }

    /// The bytes of a file, none for a folder.
    pub fn bytes(&self, node: usize) -> &[u8] {
        match self.nodes.get(node) {
            Some(Node::File(content)) => content.bytes.as_slice(),
            _ => &[],
        }
    }

    /// A file's bytes from a place on become these.
    pub fn write(&mut self, node: usize, at: usize, piece: &[u8]) -> io::Result<()> {
        self.course()?.change();
        match self.nodes.get_mut(node) {
            Some(Node::File(content)) => Ok(content.write(self.alloc, at, piece)?),
            _ => Err(io::Error::from(ErrorKind::IsADirectory)),
        }
    }

    /// A file has so many bytes: what it had, then zeros.
    pub fn resize(&mut self, node: usize, len: usize) -> io::Result<()> {
        self.course()?.change();
        match self.nodes.get_mut(node) {
            Some(Node::File(content)) => Ok(content.bytes.resize(len, 0)?),
            _ => Err(io::Error::from(ErrorKind::IsADirectory)),
        }
    }

    /// Locks a file. Whether it was not locked.
    pub fn lock(&mut self, node: usize) -> io::Result<bool> {
        if self.locked.as_slice().contains(&node) {
            return Ok(false);
        }
        self.locked.push(node)?;
        Ok(true)
    }

    /// A file is locked no more.
    pub fn unlock(&mut self, node: usize) {
        self.locked.retain(|one| *one != node);
    }

    /// What a file or a folder has is on the disk, or not where that fails.
    pub fn end_sync(&mut self, node: usize, synced: io::Result<()>) -> io::Result<()> {
        if synced.is_err() && self.is_folder(node) {
            self.course()?.lose_sync();
        }
        synced
    }

    /// What a file or a folder has is on the disk.
    pub fn sync(&mut self, node: usize) -> io::Result<()> {
        match self.nodes.get_mut(node) {
            Some(Node::File(content)) => content.sync()?,
            Some(Node::Folder(names)) => lose_names(names, Left::AllNames),
            None => {}
        }
        Ok(())
    }

    /// The power goes and comes back.
    pub fn lose(&mut self, left: Left) -> io::Result<()> {
        for node in self.nodes.iter_mut() {
            match node {
                Node::File(content) => content.lose()?,
                Node::Folder(names) => lose_names(names, left),
            }
        }
        Ok(())
    }

    /// The names in a folder, each ended by a NUL.
    pub fn list(&self, node: usize) -> io::Result<Vec<u8>> {
        let mut list = Vec::new(self.alloc);
        let course = self.course()?;
        for name in self.names(node)? {
            if name.stands && course.shows(name.text.as_bytes()) {
                list.extend_from_slice(name.text.as_bytes())?;
                list.push(0)?;
            }
        }
        Ok(list)
    }

    /// The files in a folder and within it, by their paths from there on.
    pub fn objects_in(&self, folder: &str) -> io::Result<Vec<Object>> {
        let mut found = Vec::new(self.alloc);
        let mut folders = Vec::new(self.alloc);
        folders.push(Found {
            path: String::new(self.alloc),
            node: self.find(folder)?,
        })?;
        for _ in 0..self.nodes.len() {
            let Some(next) = folders.pop() else {
                break;
            };
            self.look_in(&next, &mut folders, &mut found)?;
        }
        Ok(found)
    }

    // What stands in a folder: the folders, and the files.
    fn look_in(
        &self,
        folder: &Found,
        folders: &mut Vec<Found>,
        files: &mut Vec<Object>,
    ) -> io::Result<()> {
        for name in self.names(folder.node)? {
            if name.stands {
                let path = self.within(folder, name)?;
                let node = name.node;
                if self.is_folder(node) {
                    folders.push(Found { path, node })?;
                } else {
                    let bytes = Vec::from_slice(self.alloc, self.bytes(node))?;
                    files.push(Object { path, bytes })?;
                }
            }
        }
        Ok(())
    }

    // The path of a name in a folder.
    fn within(&self, folder: &Found, name: &Name) -> Result<String, AllocError> {
        let mut path = String::from_str(self.alloc, folder.path.as_str())?;
        if !path.is_empty() {
            path.push('/')?;
        }
        path.push_str(name.text.as_str())?;
        Ok(path)
    }
}

// The names that are left of a folder's, which are synced then.
fn lose_names(names: &mut Vec<Name>, left: Left) {
    match left {
        Left::SyncedNames => names.retain(|name| name.synced),
        Left::AllNames => names.retain(|name| name.stands),
    }
    for name in names.iter_mut() {
        name.stands = true;
        name.synced = true;
    }
}

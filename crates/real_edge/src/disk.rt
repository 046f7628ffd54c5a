//! What a store of objects asks of a disk.

ghost use Rattle.std.specs.Prelude.{◌≡◌, ◌≤◌, List as Items, ℕ, length, Option, IfOk, IfSome};
ghost use Rattle.real_edge.specs.Disk.{Files, Where, Makes, Links, Removes, Reads, Looks, Names, IsSettled, NoMore, Leaves};

use crate::faults::Trouble;
use byte_fields::{Bytes, List};
use object_store::Piece;
use std::alloc::{AllocError, AllocFailed, Global};
use std::io;

/// What stands under a name. No link is followed.
#[derive(Clone, Copy)]
pub enum Standing {
    Nothing,
    PlainFile,
    Folder,
    /// A link, a FIFO, a socket or a device.
    Other,
}

/// Why a call that changes nothing gave nothing.
#[derive(Drop)]
pub enum DiskError {
    Memory(AllocError),
    Failed(Trouble),
}

/// Why a name was not made.
#[derive(Drop)]
pub enum MakeError {
    /// Nothing changed.
    Memory(AllocError),
    /// The name is taken. Nothing changed.
    Exists,
    Failed(Trouble),
}

impl From<AllocError> for DiskError {
    ghost use Rattle.std.specs.Prelude.{◌≡◌};
    ghost use Rattle.real_edge.specs.declared.disk.DiskError.TheVariants.{Memory};

    ghost from_gives = { λ a e. e ≡ Memory a };

    fn from(refused: AllocError) -> Self {
        DiskError::Memory(refused)
    }
}

impl<T: Drop> From<AllocFailed<T>> for DiskError {
    fn from(refused: AllocFailed<T>) -> Self {
        DiskError::Memory(AllocError::from(refused))
    }
}

impl From<Trouble> for DiskError {
    ghost use Rattle.std.specs.Prelude.{◌≡◌};
    ghost use Rattle.real_edge.specs.declared.disk.DiskError.TheVariants.{Failed};

    ghost from_gives = { λ t e. e ≡ Failed t };

    fn from(trouble: Trouble) -> Self {
        DiskError::Failed(trouble)
    }
}

impl From<AllocError> for MakeError {
    ghost use Rattle.std.specs.Prelude.{◌≡◌};
    ghost use Rattle.real_edge.specs.declared.disk.MakeError.TheVariants.{Memory};

    ghost from_gives = { λ a e. e ≡ Memory a };

    fn from(refused: AllocError) -> Self {
        MakeError::Memory(refused)
    }
}

impl MakeError {
    /// What was tried, and the system's error.
    pub fn of(doing: &'static str, error: io::Error) -> MakeError {
        MakeError::Failed(Trouble { doing, error })
    }
}

impl DiskError {
    /// A failure that changed nothing. One for want of memory is none of the disk's.
    pub fn of(trouble: Trouble) -> DiskError {
        if trouble.is_memory() {
            DiskError::Memory(AllocError)
        } else {
            DiskError::Failed(trouble)
        }
    }
}

/// Which folder stands somewhere, and the moment at which it changed last.
#[derive(Clone, Copy, PartialEq, Eq)]
pub struct Stamp {
    pub device: u64,
    pub node: u64,
    pub second: u64,
    pub nanos: i64,
}

/// The files of a disk under their names, whose parts before a slash are folders. No call changes the bytes of a file that stands,
/// so two names may share one. Nobody else changes a disk that tells. A folder is named with the slash behind it, and the whole disk
/// by nothing.
pub trait Disk: Drop {
    /// The files, where the disk tells.
    ghost told: { Self → Option Files };

    /// The files that a crash at this moment may leave.
    ghost may_leave: { Self → Files → Type 0 };

    /// Those that it leaves, which are some of them. What decides is the disk's own, and no call tells.
    ghost crashed: { Self → Files };

    /// The folders that this name is in are on the disk.
    ghost has_way: { Self → Items ℕ → Type 0 };

    /// Takes the disk for this one alone, where it is one that writes.
    fn claim(&mut self) -> Result<(), Trouble>
        ensures { Leaves (told self.old) (told self.new) (may_leave self.old) (may_leave self.new) (has_way self.old) (has_way self.new) };

    /// Makes the folders that a name is in where they lack, and puts them on the disk.
    fn make_way(&mut self, alloc: Global, name: &[u8]) -> Result<(), DiskError>
        ensures leaves { Leaves (told self.old) (told self.new) (may_leave self.old) (may_leave self.new) (has_way self.old) (has_way self.new) }
        ensures way { IfOk result (λ _. has_way self.new name.now) };

    /// Makes a file of these bytes under a name that nothing has, and puts the file on the disk, but not its name.
    fn create_new(&mut self, alloc: Global, name: &[u8], content: &[u8]) -> Result<(), MakeError>
        ensures step { Where (told self.old) (told self.new) (Makes name.now content.now result (may_leave self.old) (may_leave self.new)) }
        ensures ways { (q : Items ℕ) → has_way self.old q → has_way self.new q };

    /// Gives the file of one name another, which nothing has.
    fn link(&mut self, alloc: Global, from: &[u8], to: &[u8]) -> Result<(), MakeError>
        ensures step { Where (told self.old) (told self.new) (Links from.now to.now result (may_leave self.old) (may_leave self.new)) }
        ensures ways { (q : Items ℕ) → has_way self.old q → has_way self.new q };

    /// Takes the plain file of a name out. Where none is there, that is `Ok`.
    fn remove(&mut self, name: &[u8]) -> Result<(), Trouble>
        ensures step { Where (told self.old) (told self.new) (Removes name.now result (may_leave self.old) (may_leave self.new)) }
        ensures ways { (q : Items ℕ) → has_way self.old q → has_way self.new q };

    /// Puts the names of a name's folder on the disk. Behind one that failed, none is `Ok`.
    fn sync(&mut self, name: &[u8]) -> Result<(), Trouble>
        ensures leaves { Leaves (told self.old) (told self.new) (may_leave self.old) (may_leave self.new) (has_way self.old) (has_way self.new) }
        ensures settled { IfOk result (λ _. IfSome (told self.old) (λ files. IsSettled name.now (has_way self.old) files (may_leave self.new))) };

    /// The bytes from `from` on, as many as there are up to `len`, and the size of the whole. None where no plain file is there.
    fn read(
        &mut self,
        alloc: Global,
        name: &[u8],
        from: u64,
        len: u64,
    ) -> Result<Option<Piece>, DiskError>
        ensures leaves { Leaves (told self.old) (told self.new) (may_leave self.old) (may_leave self.new) (has_way self.old) (has_way self.new) }
        ensures finds { IfOk result (λ found. IfSome (told self.old) (λ files. Reads name.now from len found files)) }
        ensures bound { IfOk result (λ found. IfSome found (λ piece. length piece.bytes ≤ len)) };

    /// What stands under a name, each of whose folders is known to stand.
    fn look(&mut self, name: &[u8]) -> Result<Standing, Trouble>
        ensures leaves { Leaves (told self.old) (told self.new) (may_leave self.old) (may_leave self.new) (has_way self.old) (has_way self.new) }
        ensures looks { IfOk result (λ standing. IfSome (told self.old) (λ files. Looks name.now standing files)) };

    /// What stands under a name.
    fn look_along(&mut self, name: &[u8]) -> Result<Standing, Trouble>
        ensures leaves { Leaves (told self.old) (told self.new) (may_leave self.old) (may_leave self.new) (has_way self.old) (has_way self.new) }
        ensures looks { IfOk result (λ standing. IfSome (told self.old) (λ files. Looks name.now standing files)) };

    /// The names in a folder, in any order.
    fn names(&mut self, alloc: Global, folder: &[u8]) -> Result<List<Bytes>, DiskError>
        ensures leaves { Leaves (told self.old) (told self.new) (may_leave self.old) (may_leave self.new) (has_way self.old) (has_way self.new) }
        ensures names { IfOk result (λ names. IfSome (told self.old) (λ files. Names folder.now names files)) };

    /// Whether a folder may have folders.
    fn may_have_folders(&mut self, folder: &[u8]) -> bool
        ensures { Leaves (told self.old) (told self.new) (may_leave self.old) (may_leave self.new) (has_way self.old) (has_way self.new) };

    /// What stands at a folder's name now, where no link leads there and the disk tells when it changed.
    fn stamp(&mut self, folder: &[u8]) -> Option<Stamp>
        ensures { Leaves (told self.old) (told self.new) (may_leave self.old) (may_leave self.new) (has_way self.old) (has_way self.new) };

    /// The second by whose clock the folders' changes are told, if any.
    fn second(&self) -> Option<u64>;

    /// The path that was gone to last, for whoever reads why a call failed.
    fn path(&self) -> &str;

    /// What is seen may be left.
    ghost seen_may_stay: { (d : Self) → IfSome (told d) (λ files. may_leave d files) };

    /// What is left may be left.
    ghost leaves_some: { (d : Self) → IfSome (told d) (λ _. may_leave d (crashed d)) };
}

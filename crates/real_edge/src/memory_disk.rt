//! A disk in memory.

ghost use Rattle.std.specs.Prelude.{◌≡◌, ◌≤◌, ◌++◌, ◌∷◌, [], IfOk, IfSome, OnOk, OnErr, Some, ⊤, refl, length, List as Items, ℕ};
ghost use Rattle.std.proofs.Common.{inl, inr};
ghost use Rattle.std.specs.FinMap as finmap;
ghost use Rattle.object_store.specs.Store.{IsPieceOf};
ghost use Rattle.real_edge.specs.Disk.{Files, Looks, Reads};
ghost use Rattle.real_edge.specs.MemoryDisk.{IsLeft};

use crate::disk::{Disk, DiskError, MakeError, Stamp, Standing};
use crate::faults::Trouble;
use crate::shelf::Shelf;
use byte_fields::{Bytes, Calls, List};
use object_store::Piece;
use std::alloc::{AllocError, Global};

/// Files in memory, and what of them is on the disk. The calls that it was told to fail have no effect, and behind a sync that
/// failed each sync fails.
#[derive(Drop)]
pub struct MemoryDisk {
    alloc: Global,
    files: Shelf,
    synced: Shelf,
    calls: Calls,
    has_lost: bool,
}

fn told_to_fail() -> Trouble {
    Trouble::of("asking", "the disk was told to fail")
}

// A name, and the slash behind it.
fn with_slash(alloc: Global, name: &[u8]) -> Result<Vec<u8>, AllocError>
    ensures { IfOk result (λ within. within.items ≡ name.now ++ 47 ∷ []) }
{
    let mut within = Vec::from_slice(alloc, name)?;
    within.push(b'/')?;
    Ok(within)
}

// The bytes from a place on, as many as there are up to a number.
fn piece_of(alloc: Global, content: &Bytes, from: u64, len: u64) -> Result<Piece, AllocError>
    ensures piece { IfOk result (IsPieceOf content.now from len) }
    ensures bound { IfOk result (λ piece. length piece.bytes ≤ len) }
{
    let size = content.len();
    let start = size.min(from as usize);
    let count = (size - start).min(len as usize);
    let bytes = Bytes::from_slice(alloc, &content.as_slice()[start..start + count])?;
    Ok(Piece {
        bytes,
        size: size as u64,
    })
}

// The same of a file that stands under a name.
fn found_piece(
    alloc: Global,
    content: &Bytes,
    from: u64,
    len: u64,
) -> Result<Option<Piece>, DiskError>
    ensures reads { IfOk result (λ found. (files : Files) (name : Items ℕ) → finmap.get files name ≡ Some content.now → Reads name from len found files) }
    ensures bound { IfOk result (λ found. IfSome found (λ piece. length piece.bytes ≤ len)) }
{
    match piece_of(alloc, content, from, len) {
        Ok(piece) => Ok(Some(piece)),
        Err(refused) => Err(DiskError::Memory(refused)),
    }
}

impl MemoryDisk {
    /// No files, and no call that is to fail.
    pub fn vacant(alloc: Global) -> MemoryDisk
        ensures files { result.files.objects ≡ finmap.empty }
        ensures synced { result.synced.objects ≡ finmap.empty }
    {
        MemoryDisk {
            alloc,
            files: Shelf::vacant(alloc),
            synced: Shelf::vacant(alloc),
            calls: Calls::vacant(alloc),
            has_lost: false,
        }
    }

    /// Makes the call with this number, counted from 1, fail.
    pub fn fail_call(&mut self, number: u64) -> Result<(), AllocError>
        ensures files { self.new.files.objects ≡ self.old.files.objects }
        ensures synced { self.new.synced.objects ≡ self.old.synced.objects }
    {
        self.calls.fail_call(number)
    }

    /// The power goes: what was not put on the disk is lost.
    pub fn crash(&mut self) -> Result<(), AllocError>
        ensures files { OnOk result (self.new.files.objects ≡ self.old.synced.objects) }
        ensures left { OnOk result (IsLeft self.old.files.objects self.old.synced.objects self.new.files.objects) }
        ensures synced { self.new.synced.objects ≡ self.old.synced.objects }
        ensures err { OnErr result (self.new.files.objects ≡ self.old.files.objects) }
    {
        let files = self.synced.copy(self.alloc)?;
        self.files = files;
        self.has_lost = false;
        Ok(())
    }

    // What stands under a name, of whose folder the names would begin so.
    #[tactic(auto, using(crate::proofs::Lasting::none_of))]
    fn standing(&self, name: &[u8], within: &[u8]) -> Result<Standing, Trouble>
        requires { within.now ≡ name.now ++ 47 ∷ [] }
        ensures { IfOk result (λ standing. Looks name.now standing self.now.files.objects) }
    {
        let is_file = self.files.stands(name);
        if self.files.has_front(within) {
            if is_file {
                return Err(Trouble::of("looking at", "a file stands in a file"));
            }
            return Ok(Standing::Folder);
        }
        if is_file {
            return Ok(Standing::PlainFile);
        }
        Ok(Standing::Nothing)
    }

    fn look_at(&self, name: &[u8]) -> Result<Standing, Trouble>
        ensures { IfOk result (λ standing. Looks name.now standing self.now.files.objects) }
    {
        match with_slash(self.alloc, name) {
            Ok(within) => self.standing(name, within.as_slice()),
            Err(_) => Err(told_to_fail()),
        }
    }
}

impl Disk for MemoryDisk {
    ghost told = { λ d. Some d.files.objects };

    ghost may_leave = { λ d c. IsLeft d.files.objects d.synced.objects c };

    ghost crashed = { λ d. d.synced.objects };

    ghost has_way = { λ _ _. ⊤ };

    ghost seen_may_stay = { λ d q. inl refl };

    ghost leaves_some = { λ d q. inr refl };

    fn claim(&mut self) -> Result<(), Trouble> {
        if self.calls.begin().is_err() {
            return Err(told_to_fail());
        }
        Ok(())
    }

    fn make_way(&mut self, _alloc: Global, _name: &[u8]) -> Result<(), DiskError> {
        if self.calls.begin().is_err() {
            return Err(DiskError::Failed(told_to_fail()));
        }
        Ok(())
    }

    fn create_new(&mut self, alloc: Global, name: &[u8], content: &[u8]) -> Result<(), MakeError> {
        if self.calls.begin().is_err() {
            return Err(MakeError::Failed(told_to_fail()));
        }
        if self.files.stands(name) {
            return Err(MakeError::Exists);
        }
        match self.files.add(alloc, name, content) {
            Ok(()) => Ok(()),
            Err(refused) => Err(MakeError::Memory(refused)),
        }
    }

    fn link(&mut self, alloc: Global, from: &[u8], to: &[u8]) -> Result<(), MakeError> {
        if self.calls.begin().is_err() {
            return Err(MakeError::Failed(told_to_fail()));
        }
        if self.files.stands(to) {
            return Err(MakeError::Exists);
        }
        let found = match self.files.copy_of(alloc, from) {
            Ok(found) => found,
            Err(refused) => return Err(MakeError::Memory(refused)),
        };
        let Some(content) = found else {
            let why = Trouble::of("linking", "no file stands there");
            return Err(MakeError::Failed(why));
        };
        match self.files.add(alloc, to, content.as_slice()) {
            Ok(()) => Ok(()),
            Err(refused) => Err(MakeError::Memory(refused)),
        }
    }

    fn remove(&mut self, name: &[u8]) -> Result<(), Trouble> {
        if self.calls.begin().is_err() {
            return Err(told_to_fail());
        }
        self.files.take_out(name);
        Ok(())
    }

    fn sync(&mut self, _name: &[u8]) -> Result<(), Trouble> {
        if self.has_lost {
            return Err(told_to_fail());
        }
        if self.calls.begin().is_err() {
            self.has_lost = true;
            return Err(told_to_fail());
        }
        match self.files.copy(self.alloc) {
            Ok(copy) => {
                self.synced = copy;
                Ok(())
            }
            Err(_) => {
                self.has_lost = true;
                Err(told_to_fail())
            }
        }
    }

    fn read(
        &mut self,
        alloc: Global,
        name: &[u8],
        from: u64,
        len: u64,
    ) -> Result<Option<Piece>, DiskError> {
        if self.calls.begin().is_err() {
            return Err(DiskError::Failed(told_to_fail()));
        }
        match self.files.find(name) {
            None => Ok(None),
            Some(content) => found_piece(alloc, content, from, len),
        }
    }

    fn look(&mut self, name: &[u8]) -> Result<Standing, Trouble> {
        if self.calls.begin().is_err() {
            return Err(told_to_fail());
        }
        self.look_at(name)
    }

    fn look_along(&mut self, name: &[u8]) -> Result<Standing, Trouble> {
        if self.calls.begin().is_err() {
            return Err(told_to_fail());
        }
        self.look_at(name)
    }

    fn names(&mut self, alloc: Global, folder: &[u8]) -> Result<List<Bytes>, DiskError> {
        if self.calls.begin().is_err() {
            return Err(DiskError::Failed(told_to_fail()));
        }
        match self.files.parts(alloc, folder) {
            Ok(names) => Ok(names),
            Err(refused) => Err(DiskError::Memory(refused)),
        }
    }

    fn may_have_folders(&mut self, _folder: &[u8]) -> bool {
        true
    }

    fn stamp(&mut self, _folder: &[u8]) -> Option<Stamp> {
        Some(Stamp {
            device: 0,
            node: 0,
            second: 0,
            nanos: 0,
        })
    }

    fn second(&self) -> Option<u64> {
        Some(u64::MAX)
    }

    fn path(&self) -> &str {
        ""
    }
}

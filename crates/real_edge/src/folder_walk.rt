//! The keys of the files in a folder and the folders within it.

ghost use Rattle.std.specs.Prelude.{◌≡◌, ◌≤◌, ◌+◌, ◌++◌, ◌∷◌, ◌||◌, cond, nat_eq, Some, false, List as Items, ℕ, Contains, IfOk, IfSome, IsTrue, OnOk, length, take};
ghost use Rattle.std.specs.List.{starts_with};
ghost use Rattle.std.specs.Option.{option_copied};
ghost use Rattle.object_store.specs.Store.{is_behind, is_wanted};
ghost use Rattle.real_edge.specs.Disk.{Leaves};
ghost use Rattle.real_edge.specs.Names.{is_object};
ghost use Rattle.real_edge.specs.declared.waiting.Wait.{Wait};
ghost use Rattle.real_edge.specs.Waiting.{IsFirst};
ghost use Rattle.real_edge.specs.Walk.{Covers, CoversWith, IsCovering, Meets, MeetsWithin, Gives, Goes, left_of, may_be_behind, may_have, option_list};
ghost use Rattle.real_edge.specs.Folders.{folder_key};

use crate::disk::{Disk, DiskError, Standing};
use crate::faults::Trouble;
use crate::folder_read::FolderRead;
use crate::object_names::{folder_len, is_object};
use crate::waiting::{Wait, Waiting};
use byte_fields::{Bytes, List};
use object_store::{Key, Keys};
use std::alloc::{AllocError, Global};
use std::cmp::Ordering;

/// The keys that begin with a prefix and are greater than a key, page by page in the order of their bytes. It follows no link, and
/// looks at no name behind the last key that it gave.
#[derive(Drop)]
pub struct Walk {
    prefix: Key,
    after: Option<Key>,
    /// Names to be looked at, and folders to be read.
    waiting: Waiting,
    /// The folders that were read.
    read: Vec<FolderRead>,
}

// Whether a key is behind another, where there is one.
fn is_behind(after: Option<&Key>, key: &[u8]) -> bool
    ensures { result ≡ is_behind (option_copied after.entry) key.now }
{
    match after {
        None => true,
        Some(after) => after.as_bytes().cmp(key) == Ordering::Less,
    }
}

// Whether keys that begin with a folder may be behind a key, where there is one.
fn may_be_behind(after: Option<&Key>, folder: &[u8]) -> bool
    ensures { result ≡ may_be_behind (option_copied after.entry) folder.now }
{
    match after {
        None => true,
        Some(after) => {
            after.as_bytes().starts_with(folder) || after.as_bytes().cmp(folder) == Ordering::Less
        }
    }
}

// Whether one of two begins with the other.
fn are_in_line(one: &[u8], other: &[u8]) -> bool
    ensures { result ≡ (starts_with nat_eq one.now other.now || starts_with nat_eq other.now one.now) }
{
    one.starts_with(other) || other.starts_with(one)
}

// Whether two keys are there, and are one.
fn are_same(last: Option<&Key>, after: Option<&Key>) -> bool
    ensures { IsTrue result → option_copied last.entry ≡ option_copied after.entry }
{
    match (last, after) {
        (Some(last), Some(after)) => last.is_same(after),
        _ => false,
    }
}

impl Walk {
    // Whether a file with this key is sought.
    fn is_sought(&self, key: &[u8]) -> bool
        ensures { result ≡ is_wanted self.now.prefix self.now.after key.now }
    {
        key.starts_with(self.prefix.as_bytes()) && is_behind(self.after.as_ref(), key)
    }

    // Whether a folder may have keys that are sought. Its own key ends in a slash.
    fn may_have(&self, folder: &[u8]) -> bool
        ensures { result ≡ may_have self.now.prefix self.now.after folder.now }
    {
        are_in_line(folder, self.prefix.as_bytes()) && may_be_behind(self.after.as_ref(), folder)
    }

    // What a name leads to that is no key: with the slash behind it, it is the front of keys, where it has no bytes.
    fn slash_at(&self, room: &mut Vec<u8>) -> Result<Option<Wait>, AllocError>
        requires { is_object room.old.items ≡ false }
        ensures { IfOk result (λ found. Meets self.now.prefix self.now.after room.old.items (option_list found)) }
    {
        room.push(b'/')?;
        if !is_object(room.as_slice()) {
            return Ok(None);
        }
        Ok(Some(Wait {
            key: Key::of(room.as_slice()),
            is_folder: true,
        }))
    }

    // The name in `room`, where it is worth a look: it may be a file that is sought, or a folder of such files.
    fn wait_at(&self, room: &mut Vec<u8>) -> Result<Option<Wait>, AllocError>
        ensures { IfOk result (λ found. Meets self.now.prefix self.now.after room.old.items (option_list found)) }
    {
        if !is_object(room.as_slice()) {
            return self.slash_at(room);
        }
        let one = Wait {
            key: Key::of(room.as_slice()),
            is_folder: false,
        };
        if self.is_sought(room.as_slice()) {
            return Ok(Some(one));
        }
        room.push(b'/')?;
        if self.may_have(room.as_slice()) {
            Ok(Some(one))
        } else {
            Ok(None)
        }
    }

    // The same of a name in a folder. `room` is where its text is written.
    fn wait_of(
        &self,
        room: &mut Vec<u8>,
        folder: &[u8],
        name: &[u8],
    ) -> Result<Option<Wait>, AllocError>
        ensures { IfOk result (λ found. Meets self.now.prefix self.now.after (folder.now ++ name.now) (option_list found)) }
    {
        room.clear();
        room.extend_from_slice(folder)?;
        room.extend_from_slice(name)?;
        self.wait_at(room)
    }

    // Adds the name in a folder to what was found, where it is worth a look.
    fn find_at(
        &self,
        room: &mut Vec<u8>,
        folder: &[u8],
        name: &[u8],
        found: &mut List<Wait>,
    ) -> Result<(), AllocError>
        ensures meets { OnOk result (Meets self.now.prefix self.now.after (folder.now ++ name.now) found.new) }
        ensures rest { OnOk result ((w : Wait) → Contains found.old w → Contains found.new w) }
    {
        let one = self.wait_of(room, folder, name)?;
        match one {
            Some(one) => found.push(one),
            None => Ok(()),
        }
    }

    // What is worth a look of the names in a folder.
    fn found(&self, alloc: Global, folder: &[u8], names: &[Bytes]) -> Result<List<Wait>, AllocError>
        ensures { IfOk result (λ found. (name : Items ℕ) → Contains names.now name → Meets self.now.prefix self.now.after (folder.now ++ name) found) }
    {
        let mut room = Vec::new(alloc);
        let mut found = List::vacant(alloc);
        for name in names {
            self.find_at(&mut room, folder, name.as_slice(), &mut found)?;
        }
        Ok(found)
    }

    // Reads a folder, whose key ends in a slash; the store's own has none.
    fn read_folder<D: Disk>(
        &mut self,
        disk: &mut D,
        alloc: Global,
        folder: Option<Key>,
    ) -> Result<(), DiskError>
        requires { IfSome (D.told disk.old) (CoversWith self.old.prefix self.old.after (folder_key folder) self.old.waiting) }
        ensures leaves { Leaves (D.told disk.old) (D.told disk.new) (D.may_leave disk.old) (D.may_leave disk.new) (D.has_way disk.old) (D.has_way disk.new) }
        ensures prefix { self.new.prefix ≡ self.old.prefix }
        ensures after { self.new.after ≡ self.old.after }
        ensures covers { OnOk result (IfSome (D.told disk.old) (IsCovering self.new)) }
    {
        let read = FolderRead::beginning(disk, folder);
        let name = read.name();
        let names = disk.names(alloc, name)?;
        let found = self.found(alloc, name, names.as_slice())?;
        self.waiting.put_all(found.as_slice())?;
        self.read.push(read)?;
        Ok(())
    }

    // Waits with the folder of a name until the names before it were looked at.
    fn wait_within(&mut self, alloc: Global, name: &Key) -> Result<(), AllocError>
        ensures prefix { self.new.prefix ≡ self.old.prefix }
        ensures after { self.new.after ≡ self.old.after }
        ensures within { OnOk result (MeetsWithin self.old.prefix self.old.after name.now self.new.waiting) }
        ensures rest { OnOk result ((w : Wait) → Contains self.old.waiting w → Contains self.new.waiting w) }
    {
        let mut folder = Vec::from_slice(alloc, name.as_bytes())?;
        folder.push(b'/')?;
        if !is_object(folder.as_slice()) {
            return Ok(());
        }
        if !self.may_have(folder.as_slice()) {
            return Ok(());
        }
        self.waiting.put(Wait {
            key: Key::of(folder.as_slice()),
            is_folder: true,
        })
    }

    // Whether a plain file is sought. The walk then goes on behind it.
    fn gives(&mut self, key: &Key) -> bool
        ensures sought { result ≡ is_wanted self.old.prefix self.old.after key.now }
        ensures prefix { self.new.prefix ≡ self.old.prefix }
        ensures after { self.new.after ≡ cond result (Some key.now) self.old.after }
        ensures waiting { self.new.waiting ≡ self.old.waiting }
    {
        if self.is_sought(key.as_bytes()) {
            self.after = Some(*key);
            true
        } else {
            false
        }
    }

    // Looks at a name, or reads a folder. Whether it is a file that is sought.
    fn take<D: Disk>(&mut self, disk: &mut D, alloc: Global, next: &Wait) -> Result<bool, DiskError>
        requires first { IsFirst next.now.key self.old.waiting }
        requires covers { IfSome (D.told disk.old) (Covers self.old.prefix self.old.after (next.now ∷ self.old.waiting)) }
        ensures leaves { Leaves (D.told disk.old) (D.told disk.new) (D.may_leave disk.old) (D.may_leave disk.new) (D.has_way disk.old) (D.has_way disk.new) }
        ensures prefix { self.new.prefix ≡ self.old.prefix }
        ensures gives { IfOk result (λ given. IfSome (D.told disk.old) (Gives given next.now.key self.old self.new)) }
    {
        if next.is_folder {
            self.read_folder(disk, alloc, Some(next.key))?;
            return Ok(false);
        }
        let standing = disk.look(next.key.as_bytes())?;
        match standing {
            Standing::PlainFile => Ok(self.gives(&next.key)),
            Standing::Folder => {
                self.wait_within(alloc, &next.key)?;
                Ok(false)
            }
            Standing::Nothing => Ok(false),
            Standing::Other => Ok(false),
        }
    }

    // The same, and adds its key to those that are given.
    fn look_at<D: Disk>(
        &mut self,
        disk: &mut D,
        alloc: Global,
        next: &Wait,
        keys: &mut Keys,
    ) -> Result<bool, DiskError>
        requires first { IsFirst next.now.key self.old.waiting }
        requires covers { IfSome (D.told disk.old) (Covers self.old.prefix self.old.after (next.now ∷ self.old.waiting)) }
        ensures leaves { Leaves (D.told disk.old) (D.told disk.new) (D.may_leave disk.old) (D.may_leave disk.new) (D.has_way disk.old) (D.has_way disk.new) }
        ensures len { length keys.new ≤ length keys.old + 1 }
        ensures goes { IfOk result (λ more. IfSome (D.told disk.old) (Goes more keys.old keys.new self.old self.new)) }
    {
        let given = self.take(disk, alloc, next)?;
        if !given {
            return Ok(true);
        }
        match keys.push(next.key) {
            Ok(()) => Ok(true),
            Err(refused) => Err(DiskError::Memory(refused)),
        }
    }

    // Looks at the next name. Whether there was one.
    fn step<D: Disk>(
        &mut self,
        disk: &mut D,
        alloc: Global,
        keys: &mut Keys,
    ) -> Result<bool, DiskError>
        requires { IfSome (D.told disk.old) (IsCovering self.old) }
        ensures leaves { Leaves (D.told disk.old) (D.told disk.new) (D.may_leave disk.old) (D.may_leave disk.new) (D.has_way disk.old) (D.has_way disk.new) }
        ensures len { length keys.new ≤ length keys.old + 1 }
        ensures goes { IfOk result (λ more. IfSome (D.told disk.old) (Goes more keys.old keys.new self.old self.new)) }
    {
        match self.waiting.pop() {
            Some(next) => self.look_at(disk, alloc, &next, keys),
            None => Ok(false),
        }
    }

    // Reads the folder of the prefix, if it is there.
    fn begin<D: Disk>(&mut self, disk: &mut D, alloc: Global) -> Result<(), DiskError>
        ensures leaves { Leaves (D.told disk.old) (D.told disk.new) (D.may_leave disk.old) (D.may_leave disk.new) (D.has_way disk.old) (D.has_way disk.new) }
        ensures prefix { self.new.prefix ≡ self.old.prefix }
        ensures after { self.new.after ≡ self.old.after }
        ensures covers { OnOk result (IfSome (D.told disk.old) (IsCovering self.new)) }
    {
        let prefix = self.prefix;
        let name = prefix.as_bytes();
        let len = folder_len(name);
        if len == 0 {
            return self.read_folder(disk, alloc, None);
        }
        let standing = disk.look_along(&name[..len - 1])?;
        match standing {
            Standing::Folder => self.read_folder(disk, alloc, Some(Key::of(&name[..len]))),
            Standing::PlainFile => Ok(()),
            Standing::Nothing => Ok(()),
            Standing::Other => Ok(()),
        }
    }

    /// A walk that gave no key yet, from a key on where there is one.
    pub fn start<D: Disk>(
        disk: &mut D,
        alloc: Global,
        prefix: &Key,
        after: Option<&Key>,
    ) -> Result<Walk, DiskError>
        ensures leaves { Leaves (D.told disk.old) (D.told disk.new) (D.may_leave disk.old) (D.may_leave disk.new) (D.has_way disk.old) (D.has_way disk.new) }
        ensures prefix { IfOk result (λ walk. walk.prefix ≡ prefix.now) }
        ensures after { IfOk result (λ walk. walk.after ≡ option_copied after.entry) }
        ensures covers { IfOk result (λ walk. IfSome (D.told disk.old) (IsCovering walk)) }
    {
        let mut walk = Walk {
            prefix: *prefix,
            after: after.copied(),
            waiting: Waiting::none(alloc),
            read: Vec::new(alloc),
        };
        walk.begin(disk, alloc)?;
        Ok(walk)
    }

    /// The next `max` keys.
    pub fn page<D: Disk>(
        &mut self,
        disk: &mut D,
        alloc: Global,
        max: u32,
    ) -> Result<Keys, DiskError>
        requires { IfSome (D.told disk.old) (IsCovering self.old) }
        ensures leaves { Leaves (D.told disk.old) (D.told disk.new) (D.may_leave disk.old) (D.may_leave disk.new) (D.has_way disk.old) (D.has_way disk.new) }
        ensures bound { IfOk result (λ keys. length keys ≤ max) }
        ensures keys { IfOk result (λ keys. IfSome (D.told disk.old) (λ files. keys ≡ take max (left_of self.old files))) }
        ensures covers { IfOk result (λ _. IfSome (D.told disk.old) (IsCovering self.new)) }
    {
        let mut keys = Keys::vacant(alloc);
        for _ in 0..u64::MAX {
            if keys.len() >= max as usize {
                return Ok(keys);
            }
            let more = self.step(disk, alloc, &mut keys)?;
            if !more {
                return Ok(keys);
            }
        }
        Err(DiskError::Failed(Trouble::of("listing", "there is no end of names")))
    }

    /// Whether it may rest behind the last key that it gave: that each name that comes meanwhile will show.
    pub fn rest<D: Disk>(&mut self, disk: &mut D, last: &Key) -> bool
        ensures leaves { Leaves (D.told disk.old) (D.told disk.new) (D.may_leave disk.old) (D.may_leave disk.new) (D.has_way disk.old) (D.has_way disk.new) }
        ensures prefix { self.new.prefix ≡ self.old.prefix }
        ensures after { self.new.after ≡ self.old.after }
        ensures waiting { self.new.waiting ≡ self.old.waiting }
    {
        self.read.retain(|one| one.is_around(last));
        settle_all(disk, self.read.as_mut_slice())
    }

    /// Whether it rests where a page begins, and no name came to its folders since.
    pub fn can_go_on<D: Disk>(&self, disk: &mut D, prefix: &Key, after: Option<&Key>) -> bool
        ensures leaves { Leaves (D.told disk.old) (D.told disk.new) (D.may_leave disk.old) (D.may_leave disk.new) (D.has_way disk.old) (D.has_way disk.new) }
        ensures prefix { IsTrue result → self.now.prefix ≡ prefix.now }
        ensures after { IsTrue result → self.now.after ≡ option_copied after.entry }
    {
        if !are_same(self.after.as_ref(), after) {
            return false;
        }
        if !self.prefix.is_same(prefix) {
            return false;
        }
        are_unchanged(disk, self.read.as_slice())
    }

    /// Whether it may come to a key.
    pub fn seeks(&self, key: &Key) -> bool
        ensures { result ≡ is_wanted self.now.prefix self.now.after key.now }
    {
        self.is_sought(key.as_bytes())
    }
}

// Whether each of these folders was read when it had not changed for a while.
fn settle_all<D: Disk>(disk: &mut D, read: &mut [FolderRead]) -> bool
    ensures { Leaves (D.told disk.old) (D.told disk.new) (D.may_leave disk.old) (D.may_leave disk.new) (D.has_way disk.old) (D.has_way disk.new) }
{
    for folder in read {
        if !folder.settle(disk) {
            return false;
        }
    }
    true
}

fn are_unchanged<D: Disk>(disk: &mut D, read: &[FolderRead]) -> bool
    ensures { Leaves (D.told disk.old) (D.told disk.new) (D.may_leave disk.old) (D.may_leave disk.new) (D.has_way disk.old) (D.has_way disk.new) }
{
    for folder in read {
        if !folder.is_unchanged(disk) {
            return false;
        }
    }
    true
}

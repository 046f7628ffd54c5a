//! Objects as files of a disk.

ghost use Rattle.std.specs.Prelude.{◌≡◌, ◌≤◌, None, Some, false, IfOk, IfSome, IsErr, IsErrOf, length};
ghost use Rattle.std.specs.Option.{option_copied};
ghost use Rattle.byte_fields.specs.Causes.{HasCause};
ghost use Rattle.object_store.specs.Store.{State, AfterLanding, Creates, Gets, Deletes, Lists, given_more, is_wanted};
ghost use Rattle.real_edge.specs.Answers.{get_answer};
ghost use Rattle.real_edge.specs.Objects.{state_in, state_of, create_answer, delete_answer, IsPlaced, IsTaken, KeepsSafe, IsSure};
ghost use Rattle.real_edge.specs.declared.folder_walk.Walk.{Walk};
ghost use Rattle.real_edge.specs.Disk.{Files};
ghost use Rattle.real_edge.specs.Walk.{IsLed};

use crate::disk::{Disk, DiskError, MakeError};
use crate::faults::{Faults, Reason, Trouble};
use crate::folder_path::FolderPath;
use crate::folder_walk::Walk;
use crate::host_disk::HostDisk;
use crate::object_calls::{Page, keys_of, make, piece_of, take_out};
use crate::object_making::Writer;
use crate::writer_lock::WriterLock;
use byte_fields::Failed;
use object_store::{CreateError, GetError, Key, Keys, ListError, ObjectStore, Piece, given_behind};
use std::alloc::{AllocError, Global};

/// Objects as files of a disk, each a plain file under its key, whose parts before a slash are folders.
///
/// A create writes a file beside, whose name no file had, puts it on the disk, links it under the key's name where nothing has that
/// name, removes the first name, and puts the folder on the disk, so that a key never has half of an object, and an object that
/// stands keeps its bytes. What is no plain file is no object.
///
/// Where a change of an object could not be put on the disk, nobody knows what a crash would leave of it. Behind that each call fails,
/// until the store is opened anew: nothing is made, taken out or shown that rests on what the power may take.
#[derive(Drop)]
pub struct FolderStore<D: Disk> {
    alloc: Global,
    disk: D,
    writer: Option<Writer>,
    /// A change was not put on the disk, and may never be.
    is_lost: bool,
    ghost sure: { (files : Files) → D.told disk ≡ Some files → is_lost ≡ false → IsSure (D.may_leave disk) files },
    /// What gave the last page of a listing, where the page behind it may go on from there.
    walk: Option<Walk>,
    ghost walks: { (files : Files) → D.told disk ≡ Some files → (rests : Walk) → walk ≡ Some rests → IsLed rests files },
    faults: Faults,
    // How many bytes it gave.
    given: u64,
}

impl<D: Disk> FolderStore<D> {
    fn over(alloc: Global, disk: D, writer: Option<Writer>) -> Result<FolderStore<D>, AllocError>
        requires { IfSome (D.told disk) (IsSure (D.may_leave disk)) }
        ensures disk { IfOk result (λ store. store.disk ≡ disk) }
        ensures kept { IfOk result (λ store. store.is_lost ≡ false) }
    {
        let faults = Faults::with_room(alloc, FolderPath::room(disk.path()))?;
        Ok(FolderStore {
            alloc,
            disk,
            writer,
            is_lost: false,
            walk: None,
            faults,
            given: 0,
        })
    }

    /// The objects of this disk, to be read: each create and each delete is a failure. Nothing is asked of the disk yet. Where the disk
    /// tells, what is seen of its objects is on it, as when the machine has just begun.
    pub fn reader_of(alloc: Global, disk: D) -> Result<FolderStore<D>, AllocError>
        requires { IfSome (D.told disk) (IsSure (D.may_leave disk)) }
        ensures disk { IfOk result (λ store. store.disk ≡ disk) }
        ensures kept { IfOk result (λ store. store.is_lost ≡ false) }
    {
        FolderStore::over(alloc, disk, None)
    }

    /// The same, to be read and written. The first call removes what killed writers left beside the objects, and puts all names on the
    /// disk. `writer` names the files beside.
    pub fn writer_of(alloc: Global, disk: D, writer: u64) -> Result<FolderStore<D>, AllocError>
        requires { IfSome (D.told disk) (IsSure (D.may_leave disk)) }
        ensures disk { IfOk result (λ store. store.disk ≡ disk) }
        ensures kept { IfOk result (λ store. store.is_lost ≡ false) }
    {
        FolderStore::over(alloc, disk, Some(Writer::of(writer)))
    }

    /// A crash leaves exactly the objects that the store tells, whenever it comes: the next life begins with these.
    pub fn what_a_crash_leaves(&self)
        ensures { (state : State) → state_in (D.told self.now.disk) self.now.is_lost (D.crashed self.now.disk) ≡ Some state → state ≡ state_of (D.crashed self.now.disk) }
    {}

    /// Why it failed first, if it did.
    pub fn first_reason(&self) -> Option<&Reason> {
        self.faults.first()
    }

    // No page goes on from names among which this key may come or go.
    fn forget(&mut self, key: &Key)
        ensures disk { self.new.disk ≡ self.old.disk }
        ensures lost { self.new.is_lost ≡ self.old.is_lost }
        ensures faults { self.new.faults.count ≡ self.old.faults.count }
        ensures given { self.new.given ≡ self.old.given }
        ensures walk { IfSome self.new.walk (λ walk. is_wanted walk.prefix walk.after key.now ≡ false) }
    {
        self.walk = without(self.walk.take(), key);
    }
}

// The walk, where it doesn't come to a key.
fn without(walk: Option<Walk>, key: &Key) -> Option<Walk>
    ensures unsought { IfSome result (λ walk. is_wanted walk.prefix walk.after key.now ≡ false) }
    ensures kept { (rests : Walk) → result ≡ Some rests → walk ≡ Some rests }
{
    match walk {
        Some(walk) => { if walk.seeks(key) { None } else { Some(walk) } }
        None => None,
    }
}

fn lost() -> Trouble {
    Trouble::of(
        "asking",
        "a change before it may not be on the disk, until the folder is opened anew",
    )
}

// What a create answers. A failure is counted.
fn answer_create(
    faults: &mut Faults,
    path: &str,
    made: Result<(), MakeError>,
) -> Result<(), CreateError>
    ensures answer { result ≡ create_answer made }
    ensures cause { HasCause faults.old.count faults.new.count (IsErrOf result CreateError.Failed) }
{
    match made {
        Ok(()) => Ok(()),
        Err(MakeError::Exists) => Err(CreateError::Exists),
        Err(MakeError::Memory(refused)) => Err(CreateError::Memory(refused)),
        Err(MakeError::Failed(trouble)) => {
            faults.add(path, trouble);
            Err(CreateError::Failed)
        }
    }
}

fn answer_get(
    faults: &mut Faults,
    path: &str,
    found: Result<Option<Piece>, DiskError>,
) -> Result<Piece, GetError>
    ensures answer { result ≡ get_answer found }
    ensures cause { HasCause faults.old.count faults.new.count (IsErrOf result GetError.Failed) }
{
    match found {
        Ok(Some(piece)) => Ok(piece),
        Ok(None) => Err(GetError::Absent),
        Err(DiskError::Memory(refused)) => Err(GetError::Memory(refused)),
        Err(DiskError::Failed(trouble)) => {
            faults.add(path, trouble);
            Err(GetError::Failed)
        }
    }
}

fn answer_delete(faults: &mut Faults, path: &str, taken: Result<(), Trouble>) -> Result<(), Failed>
    ensures answer { result ≡ delete_answer taken }
    ensures cause { HasCause faults.old.count faults.new.count (IsErr result) }
{
    match taken {
        Ok(()) => Ok(()),
        Err(trouble) => {
            faults.add(path, trouble);
            Err(Failed)
        }
    }
}

fn answer_list(faults: &mut Faults, path: &str, fault: DiskError) -> ListError
    ensures { HasCause faults.old.count faults.new.count (result ≡ ListError.Failed) }
{
    match fault {
        DiskError::Memory(refused) => ListError::Memory(refused),
        DiskError::Failed(trouble) => {
            faults.add(path, trouble);
            ListError::Failed
        }
    }
}

impl<'a, F: WriterLock> FolderStore<HostDisk<'a, F>> {
    /// The objects of this folder, to be read: each create and each delete is a failure. Nothing is opened yet.
    pub fn reading(
        alloc: Global,
        files: &'a F,
        folder: &str,
    ) -> Result<FolderStore<HostDisk<'a, F>>, AllocError> {
        Ok(FolderStore {
            alloc,
            disk: HostDisk::reading(alloc, files, folder)?,
            writer: None,
            is_lost: false,
            walk: None,
            faults: Faults::with_room(alloc, FolderPath::room(folder))?,
            given: 0,
        })
    }

    /// The objects of this folder, to be read and written by one program at a time: the first call locks the file `.lock` in it,
    /// and each call that finds it locked by another is a failure. Then it removes what killed writers left beside the objects.
    /// `writer` names the files beside. Nothing is opened yet.
    pub fn writing(
        alloc: Global,
        files: &'a F,
        folder: &str,
        writer: u64,
    ) -> Result<FolderStore<HostDisk<'a, F>>, AllocError> {
        Ok(FolderStore {
            alloc,
            disk: HostDisk::writing(alloc, files, folder)?,
            writer: Some(Writer::of(writer)),
            is_lost: false,
            walk: None,
            faults: Faults::with_room(alloc, FolderPath::room(folder))?,
            given: 0,
        })
    }
}

impl<D: Disk> ObjectStore for FolderStore<D> {
    ghost told = { λ s. state_in (D.told s.disk) s.is_lost (D.crashed s.disk) };

    ghost fault_count = { λ s. s.faults.count };

    ghost given = { λ s. s.given };

    fn create(&mut self, alloc: Global, key: &Key, content: &[u8]) -> Result<(), CreateError>
        ensures step { AfterLanding (state_in (D.told self.old.disk) self.old.is_lost (D.crashed self.old.disk)) (state_in (D.told self.new.disk) self.new.is_lost (D.crashed self.new.disk)) (Creates key.now content.now result) }
        ensures cause { HasCause self.old.faults.count self.new.faults.count (IsErrOf result CreateError.Failed) }
        // Behind an `Ok` no crash takes the object, and no call makes one that was on the disk less safe.
        ensures disk { IfSome (D.told self.old.disk) (λ _. IsPlaced key.now content.now result (D.may_leave self.old.disk) (D.may_leave self.new.disk)) }
    {
        if self.is_lost {
            self.faults.add(self.disk.path(), lost());
            return Err(CreateError::Failed);
        }
        self.forget(key);
        let made = make(
            &mut self.disk,
            alloc,
            &mut self.writer,
            &mut self.is_lost,
            key,
            content,
        );
        answer_create(&mut self.faults, self.disk.path(), made)
    }

    fn get(&mut self, alloc: Global, key: &Key, from: u64, len: u64) -> Result<Piece, GetError>
        ensures step { AfterLanding (state_in (D.told self.old.disk) self.old.is_lost (D.crashed self.old.disk)) (state_in (D.told self.new.disk) self.new.is_lost (D.crashed self.new.disk)) (Gets key.now from len result) }
        ensures bound { IfOk result (λ piece. length piece.bytes ≤ len) }
        ensures given { self.new.given ≡ given_more result self.old.given }
        ensures cause { HasCause self.old.faults.count self.new.faults.count (IsErrOf result GetError.Failed) }
        ensures disk { IfSome (D.told self.old.disk) (λ _. KeepsSafe (D.may_leave self.old.disk) (D.may_leave self.new.disk)) }
    {
        if self.is_lost {
            self.faults.add(self.disk.path(), lost());
            return Err(GetError::Failed);
        }
        let found = piece_of(&mut self.disk, alloc, &mut self.writer, key, from, len);
        let answer = answer_get(&mut self.faults, self.disk.path(), found);
        self.given = given_behind(self.given, &answer);
        answer
    }

    fn delete(&mut self, key: &Key) -> Result<(), Failed>
        ensures step { AfterLanding (state_in (D.told self.old.disk) self.old.is_lost (D.crashed self.old.disk)) (state_in (D.told self.new.disk) self.new.is_lost (D.crashed self.new.disk)) (Deletes key.now result) }
        ensures cause { HasCause self.old.faults.count self.new.faults.count (IsErr result) }
        // Behind an `Ok` no crash brings the object back, and no call makes another that was on the disk less safe.
        ensures disk { IfSome (D.told self.old.disk) (λ _. IsTaken key.now result (D.may_leave self.old.disk) (D.may_leave self.new.disk)) }
    {
        if self.is_lost {
            self.faults.add(self.disk.path(), lost());
            return Err(Failed);
        }
        self.forget(key);
        let taken = take_out(
            &mut self.disk,
            self.alloc,
            self.writer.is_some(),
            &mut self.is_lost,
            key,
        );
        answer_delete(&mut self.faults, self.disk.path(), taken)
    }

    fn list(
        &mut self,
        alloc: Global,
        prefix: &Key,
        after: Option<&Key>,
        max: u32,
    ) -> Result<Keys, ListError>
        requires { 1 ≤ max }
        ensures step { AfterLanding (state_in (D.told self.old.disk) self.old.is_lost (D.crashed self.old.disk)) (state_in (D.told self.new.disk) self.new.is_lost (D.crashed self.new.disk)) (Lists prefix.now (option_copied after.entry) max result) }
        ensures bound { IfOk result (λ keys. length keys ≤ max) }
        ensures cause { HasCause self.old.faults.count self.new.faults.count (IsErrOf result ListError.Failed) }
        ensures disk { IfSome (D.told self.old.disk) (λ _. KeepsSafe (D.may_leave self.old.disk) (D.may_leave self.new.disk)) }
    {
        if self.is_lost {
            self.faults.add(self.disk.path(), lost());
            return Err(ListError::Failed);
        }
        let walk = self.walk.take();
        match keys_of(
            &mut self.disk,
            alloc,
            &mut self.writer,
            walk,
            prefix,
            after,
            max,
        ) {
            Ok(page) => {
                let Page { keys, walk } = page;
                self.walk = walk;
                Ok(keys)
            }
            Err(fault) => Err(answer_list(&mut self.faults, self.disk.path(), fault)),
        }
    }

    fn faults(&self) -> u64 {
        self.faults.count
    }
}

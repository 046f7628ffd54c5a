//! The sequence that makes an object.

ghost use Rattle.std.specs.Prelude.{◌≡◌, ◌≤◌, List, ℕ, false, true, IfOk, IfErr};
ghost use Rattle.real_edge.specs.Disk.{Where, Makes, Leaves};
ghost use Rattle.real_edge.specs.Names.{is_object};
ghost use Rattle.real_edge.specs.Objects.{Places, Made, KeepsObjects, both_of, made_of};

use crate::disk::{Disk, DiskError, MakeError, Standing};
use crate::faults::Trouble;
use crate::object_names::{folder_len, name_beside};
use std::alloc::{AllocError, Global};

/// How many names are tried for a file beside.
const TRIES: u32 = 1_000;

/// Who writes a folder: the number in the names of its files beside, and how many of those it named.
#[derive(Drop)]
pub struct Writer {
    number: u64,
    count: u64,
    /// What killed writers left is gone.
    pub has_cleared: bool,
}

impl Writer {
    pub fn of(number: u64) -> Writer {
        Writer {
            number,
            count: 0,
            has_cleared: false,
        }
    }

    // A name beside in a folder. No other has it of this writer.
    fn next_name(&mut self, alloc: Global, folder: &[u8]) -> Result<Vec<u8>, AllocError>
        ensures { IfOk result (λ beside. is_object beside.items ≡ false) }
    {
        let count = self.count;
        self.count = count.wrapping_add(1);
        name_beside(alloc, folder, self.number, count)
    }
}

// A new file of these bytes beside, under a name that nothing had.
fn make_beside<D: Disk>(
    disk: &mut D,
    alloc: Global,
    writer: &mut Writer,
    folder: &[u8],
    content: &[u8],
) -> Result<Vec<u8>, DiskError>
    ensures name { IfOk result (λ beside. is_object beside.items ≡ false) }
    ensures made { IfOk result (λ beside. Where (D.told disk.old) (D.told disk.new) (Made beside.items content.now (D.may_leave disk.old) (D.may_leave disk.new))) }
    ensures failed { IfErr result (λ _. Where (D.told disk.old) (D.told disk.new) (KeepsObjects (D.may_leave disk.old) (D.may_leave disk.new))) }
    ensures ways { (q : List ℕ) → D.has_way disk.old q → D.has_way disk.new q }
{
    for _ in 0..TRIES {
        let beside = writer.next_name(alloc, folder)?;
        match disk.create_new(alloc, beside.as_slice(), content) {
            Ok(()) => return Ok(beside),
            Err(MakeError::Exists) => {}
            Err(MakeError::Memory(refused)) => return Err(DiskError::Memory(refused)),
            Err(MakeError::Failed(trouble)) => return Err(DiskError::Failed(trouble)),
        }
    }
    let why = Trouble::of("making the file beside", "its names are taken");
    Err(DiskError::Failed(why))
}

// What comes of a link, and of the removal of the name beside, which may be a second name of the object where it stays.
fn both(linked: Result<(), MakeError>, removed: Result<(), Trouble>) -> Result<(), MakeError>
    ensures { result ≡ both_of linked removed }
{
    match (linked, removed) {
        (Ok(()), Ok(())) => Ok(()),
        (Err(MakeError::Exists), Ok(())) => Err(MakeError::Exists),
        (Ok(()) | Err(MakeError::Exists), Err(trouble)) => Err(MakeError::Failed(trouble)),
        (Err(fault), _) => Err(fault),
    }
}

// And of the sync behind them.
fn made(done: Result<(), MakeError>, synced: Result<(), Trouble>) -> Result<(), MakeError>
    ensures { result ≡ made_of done synced }
{
    match (done, synced) {
        (Err(MakeError::Failed(trouble)), _) => Err(MakeError::Failed(trouble)),
        (Ok(()), Ok(())) => Ok(()),
        (Err(MakeError::Exists), Ok(())) => Err(MakeError::Exists),
        (Err(MakeError::Memory(refused)), Ok(())) => Err(MakeError::Memory(refused)),
        (_, Err(trouble)) => Err(MakeError::Failed(trouble)),
    }
}

// The file beside, a link to it under the object's name, the name beside away, and the folder on the disk, whatever failed before.
// Where that fails a crash may leave the object or not: it is lost.
fn place_new<D: Disk>(
    disk: &mut D,
    alloc: Global,
    writer: &mut Writer,
    is_lost: &mut bool,
    name: &[u8],
    content: &[u8],
) -> Result<(), MakeError>
    requires object { is_object name.now ≡ true }
    requires way { D.has_way disk.old name.now }
    requires kept { is_lost.old ≡ false }
    ensures { Where (D.told disk.old) (D.told disk.new) (Places name.now content.now result is_lost.new (D.may_leave disk.old) (D.may_leave disk.new)) }
{
    let beside = match make_beside(disk, alloc, writer, &name[..folder_len(name)], content) {
        Ok(beside) => beside,
        Err(DiskError::Memory(refused)) => return Err(MakeError::Memory(refused)),
        Err(DiskError::Failed(trouble)) => return Err(MakeError::Failed(trouble)),
    };
    let linked = disk.link(alloc, beside.as_slice(), name);
    let removed = disk.remove(beside.as_slice());
    let synced = disk.sync(name);
    *is_lost = synced.is_err();
    made(both(linked, removed), synced)
}

/// Makes an object of these bytes, where nothing stands under its name.
pub fn place<D: Disk>(
    disk: &mut D,
    alloc: Global,
    writer: &mut Writer,
    is_lost: &mut bool,
    name: &[u8],
    content: &[u8],
) -> Result<(), MakeError>
    requires object { is_object name.now ≡ true }
    requires kept { is_lost.old ≡ false }
    ensures { Where (D.told disk.old) (D.told disk.new) (Places name.now content.now result is_lost.new (D.may_leave disk.old) (D.may_leave disk.new)) }
{
    match disk.make_way(alloc, name) {
        Ok(()) => {}
        Err(DiskError::Memory(refused)) => return Err(MakeError::Memory(refused)),
        Err(DiskError::Failed(trouble)) => return Err(MakeError::Failed(trouble)),
    }
    match disk.look(name) {
        Ok(Standing::Nothing) => place_new(disk, alloc, writer, is_lost, name, content),
        Ok(Standing::PlainFile) => Err(MakeError::Exists),
        Ok(_) => {
            let why = Trouble::of("making", "what stands there is no plain file");
            Err(MakeError::Failed(why))
        }
        Err(trouble) => Err(MakeError::Failed(trouble)),
    }
}

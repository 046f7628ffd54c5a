//! The calls of a store of objects, over its disk.

ghost use Rattle.std.specs.Prelude.{◌≡◌, ◌≤◌, true, false, None, IfOk, IfSome, length, take};
ghost use Rattle.std.specs.FinMap.{get};
ghost use Rattle.std.specs.Option.{option_copied};
ghost use Rattle.object_store.specs.Store.{listed};
ghost use Rattle.real_edge.specs.Disk.{Where, Reads, Leaves};
ghost use Rattle.real_edge.specs.Names.{is_object};
ghost use Rattle.real_edge.specs.Objects.{KeepsObjects, Places, Takes, IsSeenAt, objects_of, taken_of};
ghost use Rattle.real_edge.specs.Walk.{IsCovering};

use crate::disk::{Disk, DiskError, MakeError};
use crate::faults::Trouble;
use crate::folder_walk::Walk;
use crate::leftovers::clear;
use crate::object_making::{Writer, place};
use object_store::{Key, Keys, Piece};
use std::alloc::Global;

/// Keys, and what gave them, where the page behind them may go on from there.
#[derive(Drop)]
pub struct Page {
    pub keys: Keys,
    pub walk: Option<Walk>,
}

// What killed writers left is gone, once it was cleared.
fn clear_once<D: Disk>(disk: &mut D, alloc: Global, writer: &mut Writer) -> Result<(), DiskError>
    ensures { Where (D.told disk.old) (D.told disk.new) (KeepsObjects (D.may_leave disk.old) (D.may_leave disk.new)) }
{
    if writer.has_cleared {
        return Ok(());
    }
    clear(disk, alloc)?;
    writer.has_cleared = true;
    Ok(())
}

// A writer's disk is its own, and has no files beside of others.
fn begin<D: Disk>(disk: &mut D, alloc: Global, writer: &mut Option<Writer>) -> Result<(), DiskError>
    ensures { Where (D.told disk.old) (D.told disk.new) (KeepsObjects (D.may_leave disk.old) (D.may_leave disk.new)) }
{
    match disk.claim() {
        Ok(()) => {}
        Err(trouble) => return Err(DiskError::Failed(trouble)),
    }
    match writer {
        Some(writer) => clear_once(disk, alloc, writer),
        None => Ok(()),
    }
}

/// Makes an object where its key is absent.
pub fn make<D: Disk>(
    disk: &mut D,
    alloc: Global,
    writer: &mut Option<Writer>,
    is_lost: &mut bool,
    key: &Key,
    content: &[u8],
) -> Result<(), MakeError>
    requires { is_lost.old ≡ false }
    ensures { Where (D.told disk.old) (D.told disk.new) (Places key.now content.now result is_lost.new (D.may_leave disk.old) (D.may_leave disk.new)) }
{
    match begin(disk, alloc, writer) {
        Ok(()) => {}
        Err(DiskError::Memory(refused)) => return Err(MakeError::Memory(refused)),
        Err(DiskError::Failed(trouble)) => return Err(MakeError::Failed(trouble)),
    }
    match writer {
        Some(writer) => place(disk, alloc, writer, is_lost, key.as_bytes(), content),
        None => Err(MakeError::Failed(Trouble::of("making", "the store is only read"))),
    }
}

/// A piece of an object. None where its key is absent.
pub fn piece_of<D: Disk>(
    disk: &mut D,
    alloc: Global,
    writer: &mut Option<Writer>,
    key: &Key,
    from: u64,
    len: u64,
) -> Result<Option<Piece>, DiskError>
    ensures keeps { Where (D.told disk.old) (D.told disk.new) (KeepsObjects (D.may_leave disk.old) (D.may_leave disk.new)) }
    ensures finds { IfOk result (λ found. IfSome (D.told disk.new) (λ files. Reads key.now from len found files)) }
    ensures bound { IfOk result (λ found. IfSome found (λ piece. length piece.bytes ≤ len)) }
    ensures object { is_object key.now ≡ true }
{
    let name = key.as_bytes();
    begin(disk, alloc, writer)?;
    disk.read(alloc, name, from, len)
}

// Puts on the disk what stands under a name, or that nothing does.
fn settle<D: Disk>(disk: &mut D, alloc: Global, name: &[u8]) -> Result<(), Trouble>
    ensures leaves { Leaves (D.told disk.old) (D.told disk.new) (D.may_leave disk.old) (D.may_leave disk.new) (D.has_way disk.old) (D.has_way disk.new) }
    ensures seen { IfOk result (λ _. IfSome (D.told disk.old) (IsSeenAt name.now (D.may_leave disk.new))) }
{
    match disk.make_way(alloc, name) {
        Ok(()) => disk.sync(name),
        Err(DiskError::Memory(refused)) => Err(Trouble::from(refused)),
        Err(DiskError::Failed(trouble)) => Err(trouble),
    }
}

// Puts on the disk that a name was removed, or what stands there where it may not be.
fn settle_removal<D: Disk>(
    disk: &mut D,
    alloc: Global,
    name: &[u8],
    removed: &Result<(), Trouble>,
) -> Result<(), Trouble>
    requires { IfOk removed.now (λ _. IfSome (D.told disk.old) (λ files. get files name.now ≡ None)) }
    ensures leaves { Leaves (D.told disk.old) (D.told disk.new) (D.may_leave disk.old) (D.may_leave disk.new) (D.has_way disk.old) (D.has_way disk.new) }
    ensures seen { IfOk result (λ _. IfSome (D.told disk.old) (IsSeenAt name.now (D.may_leave disk.new))) }
{
    match removed {
        Ok(()) => disk.sync(name),
        Err(_) => settle(disk, alloc, name),
    }
}

// What comes of a removal, and of the sync behind it.
fn taken(removed: Result<(), Trouble>, synced: Result<(), Trouble>) -> Result<(), Trouble>
    ensures { result ≡ taken_of removed synced }
{
    match removed {
        Ok(()) => synced,
        Err(trouble) => Err(trouble),
    }
}

// The object's name away, and its folder on the disk, whether it is away or not. Where that fails a crash may bring the object back,
// or take it: it is lost.
fn remove_object<D: Disk>(
    disk: &mut D,
    alloc: Global,
    is_lost: &mut bool,
    name: &[u8],
) -> Result<(), Trouble>
    requires { is_lost.old ≡ false }
    ensures { Where (D.told disk.old) (D.told disk.new) (Takes name.now result is_lost.new (D.may_leave disk.old) (D.may_leave disk.new)) }
{
    let removed = disk.remove(name);
    let synced = settle_removal(disk, alloc, name, &removed);
    *is_lost = synced.is_err();
    taken(removed, synced)
}

/// Takes an object out.
pub fn take_out<D: Disk>(
    disk: &mut D,
    alloc: Global,
    is_writer: bool,
    is_lost: &mut bool,
    key: &Key,
) -> Result<(), Trouble>
    requires { is_lost.old ≡ false }
    ensures { Where (D.told disk.old) (D.told disk.new) (Takes key.now result is_lost.new (D.may_leave disk.old) (D.may_leave disk.new)) }
{
    match disk.claim() {
        Ok(()) => {}
        Err(trouble) => return Err(trouble),
    }
    if !is_writer {
        return Err(Trouble::of("removing", "the store is only read"));
    }
    remove_object(disk, alloc, is_lost, key.as_bytes())
}

// A walk that gave the page before, where it can go on, or else a new one.
fn go_on<D: Disk>(
    disk: &mut D,
    alloc: Global,
    walk: Walk,
    prefix: &Key,
    after: Option<&Key>,
) -> Result<Walk, DiskError>
    requires { IfSome (D.told disk.old) (IsCovering walk) }
    ensures leaves { Leaves (D.told disk.old) (D.told disk.new) (D.may_leave disk.old) (D.may_leave disk.new) (D.has_way disk.old) (D.has_way disk.new) }
    ensures prefix { IfOk result (λ walk. walk.prefix ≡ prefix.now) }
    ensures after { IfOk result (λ walk. walk.after ≡ option_copied after.entry) }
    ensures covers { IfOk result (λ walk. IfSome (D.told disk.old) (IsCovering walk)) }
{
    if walk.can_go_on(disk, prefix, after) {
        return Ok(walk);
    }
    Walk::start(disk, alloc, prefix, after)
}

// What gives the page behind a key.
fn walk_to<D: Disk>(
    disk: &mut D,
    alloc: Global,
    walk: Option<Walk>,
    prefix: &Key,
    after: Option<&Key>,
) -> Result<Walk, DiskError>
    requires { IfSome (D.told disk.old) (λ files. IfSome walk (λ walk. IsCovering walk files)) }
    ensures leaves { Leaves (D.told disk.old) (D.told disk.new) (D.may_leave disk.old) (D.may_leave disk.new) (D.has_way disk.old) (D.has_way disk.new) }
    ensures prefix { IfOk result (λ walk. walk.prefix ≡ prefix.now) }
    ensures after { IfOk result (λ walk. walk.after ≡ option_copied after.entry) }
    ensures covers { IfOk result (λ walk. IfSome (D.told disk.old) (IsCovering walk)) }
{
    match walk {
        Some(walk) => go_on(disk, alloc, walk, prefix, after),
        None => Walk::start(disk, alloc, prefix, after),
    }
}

// The walk behind a page, where that is full and the walk may rest behind its last key.
fn rested<D: Disk>(disk: &mut D, walk: Walk, keys: &Keys, max: u32) -> Option<Walk>
    requires { IfSome (D.told disk.old) (IsCovering walk) }
    ensures leaves { Leaves (D.told disk.old) (D.told disk.new) (D.may_leave disk.old) (D.may_leave disk.new) (D.has_way disk.old) (D.has_way disk.new) }
    ensures covers { IfSome (D.told disk.old) (λ files. IfSome result (λ walk. IsCovering walk files)) }
{
    let mut walk = walk;
    if keys.len() < max as usize {
        return None;
    }
    match keys.as_slice().last() {
        Some(last) => {
            if walk.rest(disk, last) {
                Some(walk)
            } else {
                None
            }
        }
        None => None,
    }
}

/// The first `max` keys that begin with the prefix and are greater than `after`.
pub fn page_of<D: Disk>(
    disk: &mut D,
    alloc: Global,
    walk: Option<Walk>,
    prefix: &Key,
    after: Option<&Key>,
    max: u32,
) -> Result<Page, DiskError>
    requires { IfSome (D.told disk.old) (λ files. IfSome walk (λ walk. IsCovering walk files)) }
    ensures leaves { Leaves (D.told disk.old) (D.told disk.new) (D.may_leave disk.old) (D.may_leave disk.new) (D.has_way disk.old) (D.has_way disk.new) }
    ensures bound { IfOk result (λ page. length page.keys ≤ max) }
    ensures keys { IfOk result (λ page. IfSome (D.told disk.old) (λ files. page.keys ≡ take max (listed prefix.now (option_copied after.entry) (objects_of files)))) }
    ensures covers { IfOk result (λ page. IfSome (D.told disk.old) (λ files. IfSome page.walk (λ walk. IsCovering walk files))) }
{
    let mut walk = walk_to(disk, alloc, walk, prefix, after)?;
    let keys = walk.page(disk, alloc, max)?;
    let walk = rested(disk, walk, &keys, max);
    Ok(Page { keys, walk })
}

/// The same of a disk that is not begun yet.
pub fn keys_of<D: Disk>(
    disk: &mut D,
    alloc: Global,
    writer: &mut Option<Writer>,
    walk: Option<Walk>,
    prefix: &Key,
    after: Option<&Key>,
    max: u32,
) -> Result<Page, DiskError>
    requires { IfSome (D.told disk.old) (λ files. IfSome walk (λ walk. IsCovering walk files)) }
    ensures keeps { Where (D.told disk.old) (D.told disk.new) (KeepsObjects (D.may_leave disk.old) (D.may_leave disk.new)) }
    ensures bound { IfOk result (λ page. length page.keys ≤ max) }
    ensures keys { IfOk result (λ page. IfSome (D.told disk.new) (λ files. page.keys ≡ take max (listed prefix.now (option_copied after.entry) (objects_of files)))) }
    ensures covers { IfOk result (λ page. IfSome (D.told disk.new) (λ files. IfSome page.walk (λ walk. IsCovering walk files))) }
{
    begin(disk, alloc, writer)?;
    page_of(disk, alloc, walk, prefix, after, max)
}

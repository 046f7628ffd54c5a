//! What killed writers left beside the objects.

ghost use Rattle.std.specs.Prelude.{◌≡◌, false};
ghost use Rattle.real_edge.specs.Disk.{Where};
ghost use Rattle.real_edge.specs.Names.{is_object};
ghost use Rattle.real_edge.specs.Objects.{KeepsObjects};

use crate::disk::{Disk, DiskError, Standing};
use crate::object_names::{is_object, is_of_beside, joined};
use byte_fields::{Bytes, List};
use std::alloc::{AllocError, Global};

/// A name, which stands for any in a folder.
const NAME: &[u8] = b"x";

// A file beside is removed, where it is one.
fn clear_beside<D: Disk>(disk: &mut D, path: &[u8], name: &[u8])
    requires { is_object path.now ≡ false }
    ensures { Where (D.told disk.old) (D.told disk.new) (KeepsObjects (D.may_leave disk.old) (D.may_leave disk.new)) }
{
    if !is_of_beside(name) {
        return;
    }
    match disk.look(path) {
        Ok(Standing::PlainFile) => {
            let _ = disk.remove(path);
        }
        _ => {}
    }
}

// What a name in a folder is: a folder of keys, which is to be read, or a file beside, which is removed.
fn clear_name<D: Disk>(
    disk: &mut D,
    path: Vec<u8>,
    name: &[u8],
    has_folders: bool,
    folders: &mut Vec<Bytes>,
) -> Result<(), AllocError>
    ensures { Where (D.told disk.old) (D.told disk.new) (KeepsObjects (D.may_leave disk.old) (D.may_leave disk.new)) }
{
    let mut path = path;
    if !is_object(path.as_slice()) {
        clear_beside(disk, path.as_slice(), name);
        return Ok(());
    }
    if !has_folders {
        return Ok(());
    }
    match disk.look(path.as_slice()) {
        Ok(Standing::Folder) => {
            path.push(b'/')?;
            folders.push(Bytes::from_vec(path))?;
            Ok(())
        }
        _ => Ok(()),
    }
}

// The names in a folder. None where it can't be read.
fn names_of<D: Disk>(disk: &mut D, alloc: Global, folder: &[u8]) -> Result<List<Bytes>, AllocError>
    ensures { Where (D.told disk.old) (D.told disk.new) (KeepsObjects (D.may_leave disk.old) (D.may_leave disk.new)) }
{
    match disk.names(alloc, folder) {
        Ok(names) => Ok(names),
        Err(DiskError::Memory(refused)) => Err(refused),
        Err(DiskError::Failed(_)) => Ok(List::vacant(alloc)),
    }
}

// Clears a folder, and puts on the disk what it names then: a writer before may have been killed before it did.
fn clear_folder<D: Disk>(
    disk: &mut D,
    alloc: Global,
    folder: &[u8],
    folders: &mut Vec<Bytes>,
) -> Result<(), DiskError>
    ensures { Where (D.told disk.old) (D.told disk.new) (KeepsObjects (D.may_leave disk.old) (D.may_leave disk.new)) }
{
    let has_folders = disk.may_have_folders(folder);
    let names = names_of(disk, alloc, folder)?;
    for name in names.as_slice() {
        let path = joined(alloc, folder, name.as_slice())?;
        clear_name(disk, path, name.as_slice(), has_folders, folders)?;
    }
    let name = joined(alloc, folder, NAME)?;
    match disk.sync(name.as_slice()) {
        Ok(()) => Ok(()),
        Err(trouble) => Err(DiskError::Failed(trouble)),
    }
}

/// Removes the files beside on a disk and in the folders of its keys, and puts on the disk what these name. What can't be read or
/// removed stays.
pub fn clear<D: Disk>(disk: &mut D, alloc: Global) -> Result<(), DiskError>
    ensures { Where (D.told disk.old) (D.told disk.new) (KeepsObjects (D.may_leave disk.old) (D.may_leave disk.new)) }
{
    let mut folders = Vec::new(alloc);
    folders.push(Bytes::vacant(alloc))?;
    for _ in 0..u64::MAX {
        let Some(folder) = folders.pop() else {
            break;
        };
        clear_folder(disk, alloc, folder.as_slice(), &mut folders)?;
    }
    Ok(())
}

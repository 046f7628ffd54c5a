//! Files in a list, in the order of their names.

ghost use Rattle.std.specs.Prelude.{◌≡◌, ◌≤◌, ◌<◌, ◌+◌, List as Items, ℕ, true, [], length, take, drop, filter, map, None, Some, Result, Contains, IfOk, IfErr, OnOk, MatchOption, vec_len, vec_capacity};
ghost use Rattle.real_edge.specs.Entries.{entries, found, placed, removed, IsInOrder, IsPlaceOf, IsGapOf};
ghost use Rattle.real_edge.specs.declared.shelf_files.Object.{Object};
ghost use Rattle.real_edge.specs.Disk.{Begins, first_part};
ghost use Rattle.std.specs.Ordering.{nat_cmp};
ghost use Rattle.std.specs.Cmp.Lexicographic.{slice_cmp};

use byte_fields::{Bytes, List};
use std::alloc::{AllocError, Global};
use std::cmp::Ordering;

/// A file and its name.
#[derive(Drop)]
pub struct Object {
    pub key: Bytes,
    pub content: Bytes,
}

fn compare(a: &[u8], b: &[u8]) -> Ordering
    ensures { result ≡ slice_cmp nat_cmp a.now b.now }
{
    a.cmp(b)
}

// The place of a key, or the place where it would go.
fn position(objects: &[Object], key: &[u8]) -> Result<usize, usize>
    requires { IsInOrder objects.now }
    ensures ok { IfOk result (IsPlaceOf key.now objects.now) }
    ensures err { IfErr result (IsGapOf key.now objects.now) }
{
    objects.binary_search_by(|object| compare(object.key.as_slice(), key))
}

/// The bytes under a key.
pub fn find<'a>(objects: &'a [Object], key: &[u8]) -> Option<&'a Bytes>
    requires { IsInOrder objects.now }
    ensures { MatchOption result (found key.now (entries objects.now) ≡ None) (λ b. found key.now (entries objects.now) ≡ Some b.now) }
{
    match position(objects, key) {
        Ok(at) => Some(&objects[at].content),
        Err(_) => None,
    }
}

// How many keys stand before a key that does not.
fn place_for(objects: &[Object], key: &[u8]) -> usize
    requires order { IsInOrder objects.now }
    requires absent { found key.now (entries objects.now) ≡ None }
    ensures { IsGapOf key.now objects.now result }
{
    match position(objects, key) {
        Ok(at) | Err(at) => at,
    }
}

/// Puts an object in its place.
pub fn insert(objects: &mut Vec<Object>, object: Object)
    requires order { IsInOrder objects.old.items }
    requires absent { found object.key (entries objects.old.items) ≡ None }
    requires room { vec_len objects.old < vec_capacity objects.old }
    ensures entries { entries objects.new.items ≡ placed object.key object.content (entries objects.old.items) }
    ensures len { vec_len objects.new ≡ vec_len objects.old + 1 }
    ensures capacity { vec_capacity objects.old ≤ vec_capacity objects.new }
{
    let at = place_for(objects, object.key.as_slice());
    objects.insert(at, object).unwrap();
}

/// Removes the object under a key, if it is there.
pub fn remove(objects: &mut Vec<Object>, key: &[u8])
    requires order { IsInOrder objects.old.items }
    ensures entries { entries objects.new.items ≡ removed key.now (entries objects.old.items) }
    ensures len { vec_len objects.new ≤ vec_len objects.old }
    ensures capacity { vec_capacity objects.new ≡ vec_capacity objects.old }
{
    match position(objects, key) {
        Ok(at) => {
            let _object = objects.remove(at);
        }
        Err(_) => {}
    }
}

fn copy_one(alloc: Global, object: &Object) -> Result<Object, AllocError>
    ensures { IfOk result (λ copy. copy ≡ object.now) }
{
    let key = Bytes::from_slice(alloc, object.key.as_slice())?;
    let content = Bytes::from_slice(alloc, object.content.as_slice())?;
    Ok(Object { key, content })
}

/// A copy of files.
pub fn copied(alloc: Global, objects: &[Object]) -> Result<Vec<Object>, AllocError>
    ensures { IfOk result (λ copy. copy.items ≡ objects.now) }
{
    let mut copy = Vec::new(alloc);
    for object in objects {
        let one = copy_one(alloc, object)?;
        copy.push(one)?;
    }
    Ok(copy)
}

// A name up to its first slash.
fn first_part(name: &[u8]) -> &[u8]
    ensures { result.now ≡ first_part name.now }
{
    for at in 0..name.len() {
        if name[at] == b'/' {
            return &name[..at];
        }
    }
    name
}

// Adds the first part of a name that is in a folder.
fn add_part(
    alloc: Global,
    key: &[u8],
    folder: &[u8],
    names: &mut List<Bytes>,
) -> Result<(), AllocError>
    ensures part { OnOk result (Begins folder.now key.now → Contains names.new (first_part (drop (length folder.now) key.now))) }
    ensures rest { OnOk result ((name : Items ℕ) → Contains names.old name → Contains names.new name) }
{
    if !key.starts_with(folder) {
        return Ok(());
    }
    let part = Bytes::from_slice(alloc, first_part(&key[folder.len()..]))?;
    names.push(part)
}

/// The first parts of the names in a folder.
pub fn parts(alloc: Global, objects: &[Object], folder: &[u8]) -> Result<List<Bytes>, AllocError>
    ensures { IfOk result (λ names. (o : Object) → Contains objects.now o → Begins folder.now o.key → Contains names (first_part (drop (length folder.now) o.key))) }
{
    let mut names = List::vacant(alloc);
    for object in objects {
        add_part(alloc, object.key.as_slice(), folder, &mut names)?;
    }
    Ok(names)
}

/// Whether some name begins so.
pub fn has_front(objects: &[Object], front: &[u8]) -> bool
    ensures { (o : Object) → Contains objects.now o → Begins front.now o.key → result ≡ true }
{
    for object in objects {
        if object.key.as_slice().starts_with(front) {
            return true;
        }
    }
    false
}

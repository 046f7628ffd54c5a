// Objects in a list, in the order of their keys.
ghost use Rattle.std.specs.Prelude.{◌≡◌, ◌≤◌, ◌<◌, ◌+◌, List, ℕ, [], length, take, filter, map, None, Some, Result, IfOk, IfErr, MatchOption, slice_index_or, vec_len, vec_capacity};
ghost use Rattle.std.specs.Option.{option_copied};
ghost use Rattle.object_store.specs.Entries.{entries, found, placed, removed, AllBelow, IsInOrder, IsPlaceOf, IsGapOf};
ghost use Rattle.object_store.specs.Store.{is_wanted};

use crate::{Key, Keys};
use byte_fields::Bytes;
use std::alloc::{AllocError, Global};
use std::cmp::Ordering;

/// An object and its key.
#[derive(Drop)]
pub struct Object {
    pub key: Key,
    pub content: Bytes,
}

// The place of a key, or the place where it would go.
fn position(objects: &[Object], key: &Key) -> Result<usize, usize>
    requires { IsInOrder objects.now }
    ensures ok { IfOk result (IsPlaceOf key.now objects.now) }
    ensures err { IfErr result (IsGapOf key.now objects.now) }
{
    objects.binary_search_by(|object| object.key.compare(key))
}

/// The bytes under a key.
pub fn find<'a>(objects: &'a [Object], key: &Key) -> Option<&'a Bytes>
    requires { IsInOrder objects.now }
    ensures { MatchOption result (found key.now (entries objects.now) ≡ None) (λ b. found key.now (entries objects.now) ≡ Some b.now) }
{
    match position(objects, key) {
        Ok(at) => Some(&objects[at].content),
        Err(_) => None,
    }
}

// How many keys stand before a key that does not.
fn place_for(objects: &[Object], key: &Key) -> usize
    requires order { IsInOrder objects.now }
    requires absent { found key.now (entries objects.now) ≡ None }
    ensures { IsGapOf key.now objects.now result }
{
    match position(objects, key) {
        Ok(at) | Err(at) => at,
    }
}

/// Puts an object in its place.
pub fn insert(objects: &mut Vec<Object>, object: Object)
    requires order { IsInOrder objects.old.items }
    requires absent { found object.key (entries objects.old.items) ≡ None }
    requires room { vec_len objects.old < vec_capacity objects.old }
    ensures entries { entries objects.new.items ≡ placed object.key object.content (entries objects.old.items) }
    ensures len { vec_len objects.new ≡ vec_len objects.old + 1 }
    ensures capacity { vec_capacity objects.old ≤ vec_capacity objects.new }
{
    let at = place_for(objects, &object.key);
    objects.insert(at, object).unwrap();
}

/// Removes the object under a key, if it is there.
pub fn remove(objects: &mut Vec<Object>, key: &Key)
    requires order { IsInOrder objects.old.items }
    ensures entries { entries objects.new.items ≡ removed key.now (entries objects.old.items) }
    ensures len { vec_len objects.new ≤ vec_len objects.old }
    ensures capacity { vec_capacity objects.new ≡ vec_capacity objects.old }
{
    match position(objects, key) {
        Ok(at) => {
            let _object = objects.remove(at);
        }
        Err(_) => {}
    }
}

fn is_wanted(key: &Key, prefix: &Key, after: Option<&Key>) -> bool
    ensures { result ≡ is_wanted prefix.now (option_copied after.entry) key.now }
{
    if !key.as_bytes().starts_with(prefix.as_bytes()) {
        return false;
    }
    match after {
        None => true,
        Some(after) => after.compare(key) == Ordering::Less,
    }
}

// How many keys stand before a key.
fn count_before(objects: &[Object], key: &Key) -> usize
    requires { IsInOrder objects.now }
    ensures within { result ≤ length objects.now }
    ensures before { AllBelow key.now (take result objects.now) }
{
    match position(objects, key) {
        Ok(at) | Err(at) => at,
    }
}

/// A place before which no key is wanted.
pub fn start_of(objects: &[Object], prefix: &Key, after: Option<&Key>) -> usize
    requires { IsInOrder objects.now }
    ensures within { result ≤ length objects.now }
    ensures passed { filter (is_wanted prefix.now (option_copied after.entry)) (map (λ e. e.0) (entries (take result objects.now))) ≡ [] }
{
    let prefixed = count_before(objects, prefix);
    match after {
        None => prefixed,
        Some(after) => prefixed.max(count_before(objects, after)),
    }
}

/// The first keys with a prefix and behind a key.
pub fn listed(
    alloc: Global,
    objects: &[Object],
    prefix: &Key,
    after: Option<&Key>,
    max: u32,
) -> Result<Keys, AllocError>
    ensures { IfOk result (λ keys. keys ≡ take max (filter (is_wanted prefix.now (option_copied after.entry)) (map (λ e. e.0) (entries objects.now)))) }
{
    let mut keys = Keys::vacant(alloc);
    for object in objects {
        if keys.len() == max as usize {
            return Ok(keys);
        }
        if is_wanted(&object.key, prefix, after) {
            keys.push(object.key)?;
        }
    }
    Ok(keys)
}

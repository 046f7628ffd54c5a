ghost use Rattle.std.specs.Prelude.{◌≡◌, ◌≤◌, [], OnOk, vec_len, insert};
ghost use Rattle.doc_mapping.specs.Held.{values_at};
ghost use Rattle.doc_mapping.specs.Walk.{RiseFrom, Enters};

use doc_value::{DocField, Values};
use std::alloc::AllocError;

/// Parts of a document in the order of their numbers.
pub type Parts = Vec<DocField>;

/// Puts the values of one more field at its place; where there are none, nothing.
#[inline(always)]
pub fn put(parts: &mut Parts, number: usize, values: Values) -> Result<(), AllocError>
    ensures { OnOk result (RiseFrom 0 parts.old.items → values_at parts.old.items number ≡ [] → Enters number values parts.old.items parts.new.items) }
{
    if values.is_empty() {
        return Ok(());
    }
    let mut place = parts.len();
    while place > 0 && parts[place - 1].number > number {
        place -= 1;
    }
    enter(parts, place, DocField { number, values })
}

/// Puts a part at a place, which is mostly the end.
#[inline(always)]
fn enter(parts: &mut Parts, place: usize, part: DocField) -> Result<(), AllocError>
    requires { place ≤ vec_len parts.old }
    ensures { OnOk result (parts.new.items ≡ insert parts.old.items place part) }
{
    if place == parts.len() {
        parts.push(part)?;
        return Ok(());
    }
    parts.insert(place, part)?;
    Ok(())
}

/// The number behind the last part's, at which the next key's field stands where a record has each field.
pub fn next_number(parts: &Parts) -> usize {
    match parts.last() {
        Some(part) => part.number.saturating_add(1),
        None => 0,
    }
}

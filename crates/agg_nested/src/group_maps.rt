//! Groups under texts, whole numbers and places.

ghost use Rattle.std.specs.Prelude.{◌≡◌, ◌<◌, ℕ, nat_eq, List, ℤ, Some, OnOk, if◌then◌else◌};
ghost use Rattle.std.specs.HashMap.{get, get_by_text};
ghost use Rattle.std.specs.List.{All};
ghost use Rattle.std.specs.Ordering.{int_eq};
ghost use Rattle.std.specs.Str.{bytes_eq};
ghost use Rattle.agg_nested.specs.Checking.{HasStep};
ghost use Rattle.agg_nested.specs.Groups.{IsRaisedAt, IsJoinedAt, AreJoined, CanRaise, CanJoin};

use crate::group::{Group, join, raise, vacant_group};
use crate::request::NamedFlat;
use agg_model::DocValues;
use std::alloc::{AllocError, Global};
use std::collections::HashMap;

/// Groups under texts.
pub type TextGroups = HashMap<String, Group>;

/// Groups under whole numbers.
pub type WholeGroups = HashMap<i128, Group>;

/// Groups under places of ranges.
pub type PlaceGroups = HashMap<u64, Group>;

// Puts a group in at the text.
fn put_text(
    alloc: Global,
    groups: &mut TextGroups,
    text: &str,
    group: Group,
) -> Result<(), AllocError>
    ensures { OnOk result ((t : List ℕ) → get_by_text groups.new t ≡ (if bytes_eq text.now t then Some group else get_by_text groups.old t)) }
{
    let key = String::from_str(alloc, text)?;
    groups.insert(key, group)?;
    Ok(())
}

/// Counts the document of this number in the group of the text, once however often it is called.
pub fn raise_text(
    alloc: Global,
    nested: &[NamedFlat],
    groups: &mut TextGroups,
    text: &str,
    doc: &DocValues,
    number: u64,
) -> Result<(), AllocError>
    requires steps { All (λ named. HasStep named.agg) nested.now }
    requires some { 0 < number }
    requires known { CanRaise nested.now number (get_by_text groups.old text.now) }
    ensures { OnOk result (IsRaisedAt (bytes_eq text.now) nested.now doc.now number (get_by_text groups.old) (get_by_text groups.new)) }
{
    if let Some(group) = groups.get_mut(text) {
        return raise(alloc, nested, group, doc, number);
    }
    let mut group = vacant_group(alloc, nested)?;
    raise(alloc, nested, &mut group, doc, number)?;
    put_text(alloc, groups, text, group)
}

/// Counts the document of this number in the group of the whole number, once however often it is called.
pub fn raise_whole(
    alloc: Global,
    nested: &[NamedFlat],
    groups: &mut WholeGroups,
    whole: i128,
    doc: &DocValues,
    number: u64,
) -> Result<(), AllocError>
    requires steps { All (λ named. HasStep named.agg) nested.now }
    requires some { 0 < number }
    requires known { CanRaise nested.now number (get int_eq groups.old whole) }
    ensures { OnOk result (IsRaisedAt (int_eq whole) nested.now doc.now number (get int_eq groups.old) (get int_eq groups.new)) }
{
    if let Some(group) = groups.get_mut(&whole) {
        return raise(alloc, nested, group, doc, number);
    }
    let mut group = vacant_group(alloc, nested)?;
    raise(alloc, nested, &mut group, doc, number)?;
    groups.insert(whole, group)?;
    Ok(())
}

/// Counts the document of this number in the group of the place, once however often it is called.
pub fn raise_place(
    alloc: Global,
    nested: &[NamedFlat],
    groups: &mut PlaceGroups,
    place: u64,
    doc: &DocValues,
    number: u64,
) -> Result<(), AllocError>
    requires steps { All (λ named. HasStep named.agg) nested.now }
    requires some { 0 < number }
    requires known { CanRaise nested.now number (get nat_eq groups.old place) }
    ensures { OnOk result (IsRaisedAt (nat_eq place) nested.now doc.now number (get nat_eq groups.old) (get nat_eq groups.new)) }
{
    if let Some(group) = groups.get_mut(&place) {
        return raise(alloc, nested, group, doc, number);
    }
    let mut group = vacant_group(alloc, nested)?;
    raise(alloc, nested, &mut group, doc, number)?;
    groups.insert(place, group)?;
    Ok(())
}

// Adds what another group counts to the group of the text.
fn join_text(
    alloc: Global,
    nested: &[NamedFlat],
    groups: &mut TextGroups,
    text: &str,
    other: &Group,
) -> Result<(), AllocError>
    requires { CanJoin nested.now (get_by_text groups.old text.now) (Some other.now) }
    ensures { OnOk result (IsJoinedAt (bytes_eq text.now) nested.now other.now (get_by_text groups.old) (get_by_text groups.new)) }
{
    if let Some(group) = groups.get_mut(text) {
        return join(alloc, nested, group, other);
    }
    let mut group = vacant_group(alloc, nested)?;
    join(alloc, nested, &mut group, other)?;
    put_text(alloc, groups, text, group)
}

// Adds what another group counts to the group of the whole number.
fn join_whole(
    alloc: Global,
    nested: &[NamedFlat],
    groups: &mut WholeGroups,
    whole: i128,
    other: &Group,
) -> Result<(), AllocError>
    requires { CanJoin nested.now (get int_eq groups.old whole) (Some other.now) }
    ensures { OnOk result (IsJoinedAt (int_eq whole) nested.now other.now (get int_eq groups.old) (get int_eq groups.new)) }
{
    if let Some(group) = groups.get_mut(&whole) {
        return join(alloc, nested, group, other);
    }
    let mut group = vacant_group(alloc, nested)?;
    join(alloc, nested, &mut group, other)?;
    groups.insert(whole, group)?;
    Ok(())
}

// Adds what another group counts to the group of the place.
fn join_place(
    alloc: Global,
    nested: &[NamedFlat],
    groups: &mut PlaceGroups,
    place: u64,
    other: &Group,
) -> Result<(), AllocError>
    requires { CanJoin nested.now (get nat_eq groups.old place) (Some other.now) }
    ensures { OnOk result (IsJoinedAt (nat_eq place) nested.now other.now (get nat_eq groups.old) (get nat_eq groups.new)) }
{
    if let Some(group) = groups.get_mut(&place) {
        return join(alloc, nested, group, other);
    }
    let mut group = vacant_group(alloc, nested)?;
    join(alloc, nested, &mut group, other)?;
    groups.insert(place, group)?;
    Ok(())
}

/// Adds what the groups of other documents count, each to the group of its text.
pub fn merge_texts(
    alloc: Global,
    nested: &[NamedFlat],
    groups: &mut TextGroups,
    others: &TextGroups,
) -> Result<(), AllocError>
    requires { (t : List ℕ) → CanJoin nested.now (get_by_text groups.old t) (get_by_text others.now t) }
    ensures { OnOk result (AreJoined nested.now (get_by_text groups.old) (get_by_text others.now) (get_by_text groups.new)) }
{
    for (text, other) in others.iter() {
        join_text(alloc, nested, groups, text.as_str(), other)?;
    }
    Ok(())
}

/// Adds what the groups of other documents count, each to the group of its whole number.
pub fn merge_wholes(
    alloc: Global,
    nested: &[NamedFlat],
    groups: &mut WholeGroups,
    others: &WholeGroups,
) -> Result<(), AllocError>
    requires { (z : ℤ) → CanJoin nested.now (get int_eq groups.old z) (get int_eq others.now z) }
    ensures { OnOk result (AreJoined nested.now (get int_eq groups.old) (get int_eq others.now) (get int_eq groups.new)) }
{
    for (whole, other) in others.iter() {
        join_whole(alloc, nested, groups, *whole, other)?;
    }
    Ok(())
}

/// Adds what the groups of other documents count, each to the group of its place.
pub fn merge_places(
    alloc: Global,
    nested: &[NamedFlat],
    groups: &mut PlaceGroups,
    others: &PlaceGroups,
) -> Result<(), AllocError>
    requires { (n : ℕ) → CanJoin nested.now (get nat_eq groups.old n) (get nat_eq others.now n) }
    ensures { OnOk result (AreJoined nested.now (get nat_eq groups.old) (get nat_eq others.now) (get nat_eq groups.new)) }
{
    for (place, other) in others.iter() {
        join_place(alloc, nested, groups, *place, other)?;
    }
    Ok(())
}

//! The groups of all buckets of one aggregation.

ghost use Rattle.std.specs.Prelude.{◌≡◌, ◌<◌, OnOk};
ghost use Rattle.std.specs.List.{All};
ghost use Rattle.agg_model.specs.Counting.{slot_of};
ghost use Rattle.agg_nested.specs.Checking.{HasStep};
ghost use Rattle.agg_nested.specs.Groups.{IsRaisedAt, AreJoined, CanRaise, CanJoin};
ghost use Rattle.agg_nested.specs.Buckets.{AreVacant, group_at};
ghost use Rattle.agg_nested.specs.Spots.{Spot, value, step, range, same_spot};

use crate::group_maps::{
    PlaceGroups, TextGroups, WholeGroups, merge_places, merge_texts, merge_wholes, raise_place,
    raise_text, raise_whole,
};
use crate::request::NamedFlat;
use agg_model::DocValues;
use doc_value::Value;
use std::alloc::{AllocError, Global};
use std::collections::HashMap;

/// A group for each value, for each step by where it begins, and for each range by its place.
#[derive(Drop)]
pub struct Groups {
    pub(crate) texts: TextGroups,
    pub(crate) signed: WholeGroups,
    pub(crate) unsigned: WholeGroups,
    pub(crate) truths: WholeGroups,
    pub(crate) datetimes: WholeGroups,
    pub(crate) steps: WholeGroups,
    pub(crate) ranges: PlaceGroups,
}

/// No groups.
pub fn vacant_groups(alloc: Global) -> Groups
    ensures { AreVacant result }
{
    Groups {
        texts: HashMap::new(alloc),
        signed: HashMap::new(alloc),
        unsigned: HashMap::new(alloc),
        truths: HashMap::new(alloc),
        datetimes: HashMap::new(alloc),
        steps: HashMap::new(alloc),
        ranges: HashMap::new(alloc),
    }
}

/// Counts the document of this number in the group of a value, once however often it is called.
pub fn raise_value(
    alloc: Global,
    nested: &[NamedFlat],
    groups: &mut Groups,
    found: &Value,
    doc: &DocValues,
    number: u64,
) -> Result<(), AllocError>
    requires steps { All (λ named. HasStep named.agg) nested.now }
    requires some { 0 < number }
    requires known { CanRaise nested.now number (group_at groups.old (value (slot_of found.now))) }
    ensures { OnOk result (IsRaisedAt (same_spot (value (slot_of found.now))) nested.now doc.now number (group_at groups.old) (group_at groups.new)) }
{
    match found {
        Value::Text(text) => {
            raise_text(alloc, nested, &mut groups.texts, text.as_str(), doc, number)
        }
        Value::I64(whole) => raise_whole(
            alloc,
            nested,
            &mut groups.signed,
            i128::from(*whole),
            doc,
            number,
        ),
        Value::U64(whole) => raise_whole(
            alloc,
            nested,
            &mut groups.unsigned,
            i128::from(*whole),
            doc,
            number,
        ),
        Value::Bool(truth) => raise_whole(
            alloc,
            nested,
            &mut groups.truths,
            i128::from(*truth),
            doc,
            number,
        ),
        Value::Datetime(seconds) => raise_whole(
            alloc,
            nested,
            &mut groups.datetimes,
            i128::from(*seconds),
            doc,
            number,
        ),
    }
}

/// Counts the document of this number in the group of the step that begins here.
pub fn raise_step(
    alloc: Global,
    nested: &[NamedFlat],
    groups: &mut Groups,
    begin: i128,
    doc: &DocValues,
    number: u64,
) -> Result<(), AllocError>
    requires steps { All (λ named. HasStep named.agg) nested.now }
    requires some { 0 < number }
    requires known { CanRaise nested.now number (group_at groups.old (step begin)) }
    ensures { OnOk result (IsRaisedAt (same_spot (step begin)) nested.now doc.now number (group_at groups.old) (group_at groups.new)) }
{
    raise_whole(alloc, nested, &mut groups.steps, begin, doc, number)
}

/// Counts the document of this number in the group of the range at this place.
pub fn raise_range(
    alloc: Global,
    nested: &[NamedFlat],
    groups: &mut Groups,
    place: u64,
    doc: &DocValues,
    number: u64,
) -> Result<(), AllocError>
    requires steps { All (λ named. HasStep named.agg) nested.now }
    requires some { 0 < number }
    requires known { CanRaise nested.now number (group_at groups.old (range place)) }
    ensures { OnOk result (IsRaisedAt (same_spot (range place)) nested.now doc.now number (group_at groups.old) (group_at groups.new)) }
{
    raise_place(alloc, nested, &mut groups.ranges, place, doc, number)
}

/// Adds what the groups of other documents count, each to the group of its bucket.
pub fn merge_groups(
    alloc: Global,
    nested: &[NamedFlat],
    groups: &mut Groups,
    others: &Groups,
) -> Result<(), AllocError>
    requires { (spot : Spot) → CanJoin nested.now (group_at groups.old spot) (group_at others.now spot) }
    ensures { OnOk result (AreJoined nested.now (group_at groups.old) (group_at others.now) (group_at groups.new)) }
{
    merge_texts(alloc, nested, &mut groups.texts, &others.texts)?;
    merge_wholes(alloc, nested, &mut groups.signed, &others.signed)?;
    merge_wholes(alloc, nested, &mut groups.unsigned, &others.unsigned)?;
    merge_wholes(alloc, nested, &mut groups.truths, &others.truths)?;
    merge_wholes(alloc, nested, &mut groups.datetimes, &others.datetimes)?;
    merge_wholes(alloc, nested, &mut groups.steps, &others.steps)?;
    merge_places(alloc, nested, &mut groups.ranges, &others.ranges)
}

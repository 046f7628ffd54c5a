//! The buckets of an answer, and the parts of each.

ghost use Rattle.std.specs.Prelude.{◌≡◌, ◌<◌, length};
ghost use Rattle.std.specs.HashMap.{get, get_by_text};
ghost use Rattle.std.specs.List.{slice_index_or};
ghost use Rattle.std.specs.Ordering.{int_eq};
ghost use Rattle.std.specs.Prelude.{nat_eq};
ghost use Rattle.agg_model.specs.Counting.{slot_of};
ghost use Rattle.agg_nested.specs.Buckets.{group_at, parts_of};
ghost use Rattle.agg_nested.specs.Spots.{Spot, value, key_spot, spots_in};

use crate::answer::FlatAnswer;
use crate::flat_part::FlatPart;
use crate::group_maps::{PlaceGroups, TextGroups, WholeGroups};
use crate::groups::Groups;
use agg_model::{AggAnswer, Key};
use doc_value::Value;

/// How many buckets an answer has.
pub fn buckets_in(answer: &FlatAnswer) -> usize
    ensures { result ≡ length (spots_in answer.now) }
{
    match answer {
        FlatAnswer::Counted(AggAnswer::Terms { buckets, .. })
        | FlatAnswer::Counted(AggAnswer::Histogram { buckets }) => buckets.len(),
        FlatAnswer::Metric(_) => 0,
        FlatAnswer::Ranges(buckets) => buckets.len(),
    }
}

fn text_parts<'a>(vacant: &'a [FlatPart], groups: &'a TextGroups, text: &str) -> &'a [FlatPart]
    ensures { result.now ≡ parts_of vacant.now (get_by_text groups.now text.now) }
{
    match groups.get(text) {
        Some(group) => group.parts.as_slice(),
        None => vacant,
    }
}

fn whole_parts<'a>(vacant: &'a [FlatPart], groups: &'a WholeGroups, whole: i128) -> &'a [FlatPart]
    ensures { result.now ≡ parts_of vacant.now (get int_eq groups.now whole) }
{
    match groups.get(&whole) {
        Some(group) => group.parts.as_slice(),
        None => vacant,
    }
}

fn place_parts<'a>(vacant: &'a [FlatPart], groups: &'a PlaceGroups, place: u64) -> &'a [FlatPart]
    ensures { result.now ≡ parts_of vacant.now (get nat_eq groups.now place) }
{
    match groups.get(&place) {
        Some(group) => group.parts.as_slice(),
        None => vacant,
    }
}

// The parts of a value's group.
fn value_parts<'a>(vacant: &'a [FlatPart], groups: &'a Groups, found: &Value) -> &'a [FlatPart]
    ensures { result.now ≡ parts_of vacant.now (group_at groups.now (value (slot_of found.now))) }
{
    match found {
        Value::Text(text) => text_parts(vacant, &groups.texts, text.as_str()),
        Value::I64(whole) => whole_parts(vacant, &groups.signed, i128::from(*whole)),
        Value::U64(whole) => whole_parts(vacant, &groups.unsigned, i128::from(*whole)),
        Value::Bool(truth) => whole_parts(vacant, &groups.truths, i128::from(*truth)),
        Value::Datetime(seconds) => whole_parts(vacant, &groups.datetimes, i128::from(*seconds)),
    }
}

// The parts of the group of a key.
fn key_parts<'a>(vacant: &'a [FlatPart], groups: &'a Groups, key: &Key) -> &'a [FlatPart]
    ensures { result.now ≡ parts_of vacant.now (group_at groups.now (key_spot key.now)) }
{
    match key {
        Key::Value(found) => value_parts(vacant, groups, found),
        Key::Step(begin) => whole_parts(vacant, &groups.steps, *begin),
    }
}

/// The parts of a bucket: those of its group, or the vacant ones where it has none.
pub fn parts_at<'a>(
    vacant: &'a [FlatPart],
    groups: &'a Groups,
    answer: &FlatAnswer,
    place: usize,
) -> &'a [FlatPart]
    requires { place < length (spots_in answer.now) }
    ensures { (other : Spot) → result.now ≡ parts_of vacant.now (group_at groups.now (slice_index_or (spots_in answer.now) place other)) }
{
    match answer {
        FlatAnswer::Counted(AggAnswer::Terms { buckets, .. })
        | FlatAnswer::Counted(AggAnswer::Histogram { buckets }) => {
            key_parts(vacant, groups, &buckets.at(place).key)
        }
        FlatAnswer::Metric(_) => vacant,
        FlatAnswer::Ranges(_) => place_parts(vacant, &groups.ranges, place as u64),
    }
}

//! In which buckets a document counts.

ghost use Rattle.std.specs.Prelude.{◌≡◌, ◌<◌, ◌^◌, ◌&&◌, [], pos, ◌≤ℤ◌, ◌*ℤ◌, OnOk};
ghost use Rattle.std.specs.Int.RustNames.{unsigned_abs};
ghost use Rattle.std.specs.List.{All, list_any};
ghost use Rattle.std.specs.Option.{option_map, option_map_or, option_to_list};
ghost use Rattle.agg_model.specs.Checking.{HasInterval};
ghost use Rattle.agg_model.specs.Counting.{slot_of, step_of, first_whole};
ghost use Rattle.agg_metrics.specs.Metrics.{IsWhole};
ghost use Rattle.agg_nested.specs.Buckets.{group_at};
ghost use Rattle.agg_nested.specs.Checking.{HasStep};
ghost use Rattle.agg_nested.specs.Groups.{IsRaisedAt, CanRaise};
ghost use Rattle.agg_nested.specs.Spots.{Spot, value, step, range, same_spot, begin_of, places, has_spot};
ghost use Rattle.agg_nested.specs.declared.request.FlatAgg.TheVariants.{Counted};

use crate::flat_part::{first_whole, holds, values_of};
use crate::groups::{Groups, raise_range, raise_step, raise_value};
use crate::request::{FlatAgg, NamedFlat, WholeRange};
use agg_model::{Agg, Distance, DocValues};
use doc_value::Value;
use std::alloc::{AllocError, Global};

// The number of the step in which a whole number lies.
fn step_of(interval: Distance, offset: Distance, whole: i128) -> i128
    requires some { pos 1 ≤ℤ interval }
    requires small { IsWhole whole }
    ensures value { result ≡ step_of interval offset whole }
    ensures near { unsigned_abs (result *ℤ interval) < 2 ^ 98 }
{
    let apart = whole - offset.whole();
    apart.div_euclid(interval.whole())
}

// Where the step begins in which a whole number lies.
fn begin_of(interval: Distance, offset: Distance, whole: i128) -> i128
    requires some { pos 1 ≤ℤ interval }
    requires small { IsWhole whole }
    ensures { result ≡ begin_of interval offset whole }
{
    let step = step_of(interval, offset, whole);
    step * interval.whole() + offset.whole()
}

fn raise_values(
    alloc: Global,
    nested: &[NamedFlat],
    groups: &mut Groups,
    values: &[Value],
    doc: &DocValues,
    number: u64,
) -> Result<(), AllocError>
    requires steps { All (λ named. HasStep named.agg) nested.now }
    requires some { 0 < number }
    requires known { (spot : Spot) → CanRaise nested.now number (group_at groups.old spot) }
    ensures { OnOk result (IsRaisedAt (λ spot. list_any (λ v. same_spot (value (slot_of v)) spot) values.now) nested.now doc.now number (group_at groups.old) (group_at groups.new)) }
{
    for found in values {
        raise_value(alloc, nested, groups, found, doc, number)?;
    }
    Ok(())
}

// Counts the document in the group of the range at this place, if it is held there.
fn raise_if(
    alloc: Global,
    nested: &[NamedFlat],
    groups: &mut Groups,
    held: bool,
    place: u64,
    doc: &DocValues,
    number: u64,
) -> Result<(), AllocError>
    requires steps { All (λ named. HasStep named.agg) nested.now }
    requires some { 0 < number }
    requires known { CanRaise nested.now number (group_at groups.old (range place)) }
    ensures { OnOk result (IsRaisedAt (λ spot. held && same_spot (range place) spot) nested.now doc.now number (group_at groups.old) (group_at groups.new)) }
{
    if held {
        return raise_range(alloc, nested, groups, place, doc, number);
    }
    Ok(())
}

fn raise_ranges(
    alloc: Global,
    nested: &[NamedFlat],
    groups: &mut Groups,
    ranges: &[WholeRange],
    whole: i128,
    doc: &DocValues,
    number: u64,
) -> Result<(), AllocError>
    requires steps { All (λ named. HasStep named.agg) nested.now }
    requires some { 0 < number }
    requires known { (spot : Spot) → CanRaise nested.now number (group_at groups.old spot) }
    ensures { OnOk result (IsRaisedAt (λ spot. list_any (λ s. same_spot s spot) (places 0 ranges.now whole)) nested.now doc.now number (group_at groups.old) (group_at groups.new)) }
{
    for (i, asked) in ranges.iter().enumerate() {
        let held = holds(asked, whole);
        raise_if(alloc, nested, groups, held, i as u64, doc, number)?;
    }
    Ok(())
}

// Counts the document in the group of each range in which its first value lies.
fn raise_first(
    alloc: Global,
    nested: &[NamedFlat],
    groups: &mut Groups,
    field: u32,
    ranges: &[WholeRange],
    doc: &DocValues,
    number: u64,
) -> Result<(), AllocError>
    requires steps { All (λ named. HasStep named.agg) nested.now }
    requires some { 0 < number }
    requires known { (spot : Spot) → CanRaise nested.now number (group_at groups.old spot) }
    ensures { OnOk result (IsRaisedAt (λ spot. list_any (λ s. same_spot s spot) (option_map_or (places 0 ranges.now) (first_whole field doc.now) [])) nested.now doc.now number
        (group_at groups.old) (group_at groups.new)) }
{
    match first_whole(doc, field) {
        Some(whole) => raise_ranges(alloc, nested, groups, ranges, whole, doc, number),
        None => Ok(()),
    }
}

// Where the step begins in which the document's first value lies.
fn first_begin(doc: &DocValues, field: u32, interval: Distance, offset: Distance) -> Option<i128>
    requires { pos 1 ≤ℤ interval }
    ensures { result ≡ option_map (begin_of interval offset) (first_whole field doc.now) }
{
    let whole = first_whole(doc, field)?;
    Some(begin_of(interval, offset, whole))
}

// Counts the document in the group of the step that begins here, if there is one.
fn raise_begin(
    alloc: Global,
    nested: &[NamedFlat],
    groups: &mut Groups,
    begin: Option<i128>,
    doc: &DocValues,
    number: u64,
) -> Result<(), AllocError>
    requires steps { All (λ named. HasStep named.agg) nested.now }
    requires some { 0 < number }
    requires known { (spot : Spot) → CanRaise nested.now number (group_at groups.old spot) }
    ensures { OnOk result (IsRaisedAt (λ spot. list_any (λ s. same_spot s spot) (option_to_list (option_map step begin))) nested.now doc.now number
        (group_at groups.old) (group_at groups.new)) }
{
    match begin {
        Some(first) => raise_step(alloc, nested, groups, first, doc, number),
        None => Ok(()),
    }
}

fn raise_counted(
    alloc: Global,
    agg: &Agg,
    nested: &[NamedFlat],
    groups: &mut Groups,
    doc: &DocValues,
    number: u64,
) -> Result<(), AllocError>
    requires interval { HasInterval agg.now }
    requires steps { All (λ named. HasStep named.agg) nested.now }
    requires some { 0 < number }
    requires known { (spot : Spot) → CanRaise nested.now number (group_at groups.old spot) }
    ensures { OnOk result (IsRaisedAt (λ spot. has_spot (Counted agg.now) spot doc.now) nested.now doc.now number (group_at groups.old) (group_at groups.new)) }
{
    match agg {
        Agg::Terms { field, .. } => {
            raise_values(alloc, nested, groups, values_of(doc, *field), doc, number)
        }
        Agg::Histogram {
            field,
            interval,
            offset,
            ..
        } => {
            let begin = first_begin(doc, *field, *interval, *offset);
            raise_begin(alloc, nested, groups, begin, doc, number)
        }
    }
}

/// Counts the document of this number in the group of each bucket in which it counts, once. After want of memory the groups are spent.
pub fn raise_spots(
    alloc: Global,
    agg: &FlatAgg,
    nested: &[NamedFlat],
    groups: &mut Groups,
    doc: &DocValues,
    number: u64,
) -> Result<(), AllocError>
    requires step { HasStep agg.now }
    requires steps { All (λ named. HasStep named.agg) nested.now }
    requires some { 0 < number }
    requires known { (spot : Spot) → CanRaise nested.now number (group_at groups.old spot) }
    ensures { OnOk result (IsRaisedAt (λ spot. has_spot agg.now spot doc.now) nested.now doc.now number (group_at groups.old) (group_at groups.new)) }
{
    match agg {
        FlatAgg::Counted(counted) => { raise_counted(alloc, counted, nested, groups, doc, number) }
        FlatAgg::Metric { .. } => Ok(()),
        FlatAgg::Ranges { field, ranges } => raise_first(
            alloc,
            nested,
            groups,
            *field,
            ranges.as_slice(),
            doc,
            number,
        ),
    }
}

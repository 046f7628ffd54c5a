//! Classes of many documents, of which most are found without a division.

ghost use Rattle.std.specs.Prelude.{◌≡◌, false, ◌<◌, ◌+◌, ◌-◌, ◌/◌, ◌^◌, ◌≤◌, ◌++◌, ℕ, ℤ, List, Some, IfOk, IfSome, length, vec_len};
ghost use Rattle.std.specs.Bool.{OnTrue};
ghost use Rattle.std.specs.List.{All};
ghost use Rattle.std.specs.Option.{option_map};
ghost use Rattle.agg_model.specs.Checking.{HasInterval};
ghost use Rattle.doc_value.specs.declared.schema.Kind.{Kind};
ghost use Rattle.agg_model.specs.declared.request.Agg.{Agg};
ghost use Rattle.fast_fields.specs.Readers.{Holds};
ghost use Rattle.fast_fields.specs.declared.entries.Entry.{Entry};
ghost use Rattle.doc_tallies.specs.Classes.{AreClasses, IsCounted, class_sum};
ghost use Rattle.doc_tallies.specs.Marks.{mark_of};
ghost use Rattle.doc_tallies.specs.Picked.{AllBelow};
ghost use Rattle.doc_tallies.specs.Tables.{IsMarkAt, IsTable, StandsAt};

use crate::classes::{Class, count_one, mark_of, no_classes, regrouped};
use crate::field_column::FieldColumn;
use crate::first_values::FirstValues;
use crate::places::{MOST, places_for, places_of, reach_of};
use crate::span::Span;
use agg_model::Agg;
use doc_value::Kind;
use fast_fields::Column;
use std::alloc::{AllocError, Global};

// By how many bits numbers so far apart share a place, so that half of the places have room for them.
fn shift_of(reach: u64) -> u8
    ensures { result < 64 }
{
    let mut shift = 0;
    let mut left = reach;
    for _bit in 0..50u8 {
        if left < MOST {
            return shift;
        }
        left /= 2;
        shift += 1;
    }
    shift
}

// The span of a table for numbers of a column that reach so far.
fn span_of(column: &Column<'_>, reach: u64) -> Span {
    let least = column.least().unwrap_or(0);
    let shift = shift_of(reach);
    Span { least, shift }
}

// The least and the greatest number at a place.
fn ends_of(span: Span, place: usize) -> Option<(u64, u64)>
    ensures { IfSome result (λ ends. (n : ℕ) → StandsAt span place n → (ends.0 ≤ n) × (n ≤ ends.1)) }
{
    let size = 1u64 << span.shift;
    let first = (place as u64).checked_mul(size)?;
    let low = span.least.checked_add(first)?;
    let high = low.checked_add(size - 1)?;
    Some((low, high))
}

// What each number at a place counts for, if they count for the same.
fn mark_there(agg: &Agg, kind: Kind, span: Span, place: usize) -> Option<i128>
    requires { HasInterval agg.now }
    ensures { IfSome result (IsMarkAt agg.now kind span place) }
{
    let (low, high) = ends_of(span, place)?;
    let mark = mark_of(agg, kind, low);
    if mark_of(agg, kind, high) == mark {
        Some(mark)
    } else {
        None
    }
}

// A table of so many places, without documents.
fn table_of(
    alloc: Global,
    agg: &Agg,
    kind: Kind,
    span: Span,
    places: usize,
) -> Result<Vec<Class>, AllocError>
    requires { HasInterval agg.now }
    ensures none { IfOk result (λ cells. All (λ c. c.count ≡ 0) cells.items) }
    ensures table { IfOk result (λ cells. IsTable agg.now kind span cells.items) }
{
    let mut cells = Vec::with_capacity(alloc, places)?;
    for place in 0..places {
        let mark = mark_there(agg, kind, span, place);
        cells.push(Class {
            mark,
            count: 0,
            sample: 0,
        })?;
    }
    Ok(cells)
}

// Counts a document in the class of its number's place. It answers false where that has no mark.
fn count_there(cells: &mut Vec<Class>, span: Span, number: u64, document: u32) -> bool
    ensures kept { result ≡ false → cells.new.items ≡ cells.old.items }
    ensures counted { (agg : Agg) (kind : Kind) → IsTable agg kind span cells.old.items → OnTrue result (IsCounted (Some (mark_of agg kind number)) 1 document cells.old.items cells.new.items) }
    ensures table { (agg : Agg) (kind : Kind) → IsTable agg kind span cells.old.items → IsTable agg kind span cells.new.items }
{
    if number < span.least {
        return false;
    }
    let place = ((number - span.least) >> span.shift) as usize;
    if place >= cells.len() {
        return false;
    }
    let cell = cells[place];
    let Some(_mark) = cell.mark else {
        return false;
    };
    if cell.count >= u64::MAX {
        return false;
    }
    cells[place] = Class {
        mark: cell.mark,
        count: cell.count + 1,
        sample: document,
    };
    true
}

// What a value counts for, if there is one.
fn marked(agg: &Agg, kind: Kind, value: Option<u64>) -> Option<i128>
    requires { HasInterval agg.now }
    ensures { result ≡ option_map (mark_of agg.now kind) value }
{
    match value {
        Some(number) => Some(mark_of(agg, kind, number)),
        None => None,
    }
}

// Counts a document in a table, or where that has no class for it in classes by marks.
fn count_either(
    agg: &Agg,
    kind: Kind,
    span: Span,
    cells: &mut Vec<Class>,
    classes: &mut Vec<Class>,
    value: Option<u64>,
    document: u32,
) -> bool
    requires interval { HasInterval agg.now }
    requires len { 0 < vec_len classes.old }
    ensures len { vec_len classes.new ≡ vec_len classes.old }
    ensures counted { IsTable agg.now kind span cells.old.items → OnTrue result (IsCounted (option_map (mark_of agg.now kind) value) 1 document (cells.old.items ++ classes.old.items) (cells.new.items ++ classes.new.items)) }
    ensures table { IsTable agg.now kind span cells.old.items → IsTable agg.now kind span cells.new.items }
{
    match value {
        None => count_one(classes, None, document),
        Some(number) => {
            if count_there(cells, span, number, document) {
                return true;
            }
            count_one(classes, marked(agg, kind, value), document)
        }
    }
}

/// Many documents in classes of those that count alike by a column, if there is room for all classes.
pub(crate) fn tabled(
    alloc: Global,
    agg: &Agg,
    field: &FieldColumn<'_>,
    numbers: &[u32],
) -> Result<Option<Vec<Class>>, AllocError>
    requires { HasInterval agg.now }
    ensures only { (texts : List (List ℕ)) (entries : List Entry) (bound : ℕ) → Holds field.now.column texts entries → AllBelow bound numbers.now
        → IfOk result (λ o. IfSome o (λ classes. AreClasses agg.now field.now.kind entries bound numbers.now classes.items)) }
    ensures total { IfOk result (λ o. IfSome o (λ classes. class_sum classes.items ≡ length numbers.now)) }
{
    let reach = reach_of(&field.column, numbers);
    let span = span_of(&field.column, reach);
    let mut cells = table_of(
        alloc,
        agg,
        field.kind,
        span,
        places_for(reach >> span.shift),
    )?;
    let places = places_of(agg, field, reach, numbers.len());
    let mut classes = no_classes(alloc, places)?;
    let mut values = FirstValues::over(field.column);
    for number in numbers {
        let value = values.value_at(*number);
        if !count_either(
            agg,
            field.kind,
            span,
            &mut cells,
            &mut classes,
            value,
            *number,
        ) {
            return Ok(None);
        }
    }
    if !regrouped(&mut classes, cells.as_slice()) {
        return Ok(None);
    }
    Ok(Some(classes))
}

//! How many places tables of classes have.

ghost use Rattle.std.specs.Prelude.{◌<◌};
ghost use Rattle.agg_model.specs.Checking.{HasInterval};

use crate::classes::mark_of;
use crate::field_column::FieldColumn;
use agg_model::Agg;
use fast_fields::Column;

/// For so many marks, or spans of numbers, there are places at most.
pub(crate) const MOST: u64 = 8_192;

// One in so many documents is looked at to see how far the numbers reach.
const APART: usize = 61;

/// How far the numbers of some of the documents stand above the column's least one.
pub(crate) fn reach_of(column: &Column<'_>, numbers: &[u32]) -> u64 {
    let least = column.least().unwrap_or(0);
    let mut reach = 0;
    for step in 0..numbers.len() / APART {
        if let Some(number) = column.value_at(numbers[step * APART]) {
            reach = reach.max(number.saturating_sub(least));
        }
    }
    reach
}

/// So many places that less than half of them are taken by so many marks, as far as there are places for these.
pub(crate) fn places_for(marks: u64) -> usize
    ensures { 0 < result }
{
    (marks.min(MOST) * 2 + 64) as usize
}

// How many marks lie between those of two numbers.
fn marks_between(agg: &Agg, field: &FieldColumn<'_>, low: u64, high: u64) -> u64
    requires { HasInterval agg.now }
{
    let first = mark_of(agg, field.kind, low);
    let last = mark_of(agg, field.kind, high);
    u64::try_from(last.saturating_sub(first)).unwrap_or(u64::MAX)
}

/// How many places the marks of so many documents need, whose numbers reach so far.
pub(crate) fn places_of(agg: &Agg, field: &FieldColumn<'_>, reach: u64, documents: usize) -> usize
    requires { HasInterval agg.now }
    ensures { 0 < result }
{
    let least = field.column.least().unwrap_or(0);
    let marks = marks_between(agg, field, least, least.saturating_add(reach));
    places_for(marks.min(documents as u64))
}

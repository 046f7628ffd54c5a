//! The documents of a range of times, by the column of the timestamp field.

ghost use Rattle.std.specs.Prelude.{◌≡◌, ◌&&◌, ◌++◌, ◌∷◌, [], ℕ, List, Some, false, length, slice_get, IfOk, IsOk, OnOk, MatchResult, if◌then◌else◌};
ghost use Rattle.doc_value.specs.declared.schema.Schema.{Schema};
ghost use Rattle.query_ast.specs.Meaning.{before_end, from_start, is_unlimited, within_times};
ghost use Rattle.fast_fields.specs.Readers.{IsOf};
ghost use Rattle.split_bundle.specs.Columns.{column_rows};
ghost use Rattle.split_bundle.specs.declared.placed.Placed.{Placed};
ghost use Rattle.split_bundle.specs.Files.{Parts, file_bytes};
ghost use Rattle.split_bundle.specs.Lending.{IsPartOf};
ghost use Rattle.split_bundle.specs.Splits.{AreDocumentsOf};
ghost use Rattle.split_bundle.specs.Wholes.{HaveAll, IsThere};
ghost use Rattle.doc_tallies.specs.Causes.{AsksField, LacksPart};
ghost use Rattle.doc_tallies.specs.Picked.{AllBelow};
ghost use Rattle.doc_tallies.specs.Times.{numbers_within};
ghost use Rattle.doc_tallies.specs.Cells.{IsTimeColumn};

use crate::column_values::signed;
use crate::field_column::{FieldColumn, open_column};
use doc_value::{Schema, TimeRange};
use fast_fields::Column;
use split_bundle::{PartView, SplitError};
use std::alloc::{AllocError, Global};

// Whether a second lies in a range.
fn is_within(times: TimeRange, second: i64) -> bool
    ensures { result ≡ from_start times.start second && before_end times.end second }
{
    let begun = match times.start {
        Some(start) => start <= second,
        None => true,
    };
    let open = match times.end {
        Some(end) => second < end,
        None => true,
    };
    begun && open
}

// Whether a range has neither edge.
fn is_unlimited(times: TimeRange) -> bool
    ensures { result ≡ is_unlimited times.start times.end }
{
    times.start.is_none() && times.end.is_none()
}

// Whether a document's first value in a column of seconds lies in a range.
fn lies_in(column: &Column<'_>, times: TimeRange, number: u32) -> bool
    ensures { (s : Schema) (documents : List Placed) (field : ℕ) (d : Placed) → AreDocumentsOf s documents → s.timestamp ≡ Some field → IsOf column.now (column_rows field documents)
        → is_unlimited times.start times.end ≡ false → slice_get documents number ≡ Some d → result ≡ within_times s times d.doc }
{
    match column.value_at(number) {
        Some(turned) => is_within(times, signed(turned)),
        None => false,
    }
}

// Adds a number that is to be kept.
pub(crate) fn push_if(numbers: &mut Vec<u32>, number: u32, kept: bool) -> Result<(), AllocError>
    ensures { OnOk result (numbers.new.items ≡ numbers.old.items ++ (if kept then number ∷ [] else [])) }
{
    if kept {
        numbers.push(number)?;
    }
    Ok(())
}

// Those of some documents whose first values in a column of seconds lie in a range.
fn times_in(
    alloc: Global,
    column: &Column<'_>,
    times: TimeRange,
    numbers: &[u32],
) -> Result<Vec<u32>, AllocError>
    ensures { (s : Schema) (documents : List Placed) (field : ℕ) → AreDocumentsOf s documents → s.timestamp ≡ Some field → IsOf column.now (column_rows field documents)
        → is_unlimited times.start times.end ≡ false → AllBelow (length documents) numbers.now → IfOk result (λ within. within.items ≡ numbers_within s times documents numbers.now) }
{
    let mut within = Vec::new(alloc);
    for number in numbers {
        let kept = lies_in(column, times, *number);
        push_if(&mut within, *number, kept)?;
    }
    Ok(within)
}

// The column of the timestamp field, if there is one.
fn timestamp_column<'a>(
    schema: &Schema,
    view: &PartView<'a>,
) -> Result<Option<FieldColumn<'a>>, SplitError>
    ensures only { (documents : List Placed) (p : Parts) → IsPartOf view.now schema.now documents p
        → MatchResult result (IsTimeColumn schema.now documents) (LacksPart (AsksField view.now p schema.now.timestamp) view.now.pieces) }
    ensures there { (documents : List Placed) (p : Parts) → IsPartOf view.now schema.now documents p → HaveAll (file_bytes p) view.now.pieces → IsOk result }
{
    match schema.timestamp {
        None => Ok(None),
        Some(field) => match u32::try_from(field) {
            Ok(field) => open_column(schema, view, field),
            Err(_) => Ok(None),
        },
    }
}

/// Those of these numbers whose documents lie in a range of times, by the column of the timestamp field, which is read only where the
/// range has an edge. It answers Truncated where no piece has the column.
pub fn within_times(
    alloc: Global,
    schema: &Schema,
    view: &PartView<'_>,
    times: TimeRange,
    numbers: &[u32],
) -> Result<Vec<u32>, SplitError>
    requires { AllBelow view.now.footer.layout.docs numbers.now }
    // Of a split of documents.
    ensures only { (documents : List Placed) (p : Parts) → IsPartOf view.now schema.now documents p
        → MatchResult result (λ within. within.items ≡ numbers_within schema.now times documents numbers.now) (LacksPart (AsksField view.now p schema.now.timestamp) view.now.pieces) }
    // Where the pieces have every part.
    ensures there { (documents : List Placed) (p : Parts) → IsPartOf view.now schema.now documents p → HaveAll (file_bytes p) view.now.pieces → IsThere result }
{
    if is_unlimited(times) {
        return Ok(Vec::from_slice(alloc, numbers)?);
    }
    match timestamp_column(schema, view) {
        Ok(Some(field)) => Ok(times_in(alloc, &field.column, times, numbers)?),
        Ok(None) => Ok(Vec::new(alloc)),
        Err(fault) => Err(fault),
    }
}

//! The values that a column has of a document.

ghost use Rattle.std.specs.Prelude.{◌≡◌, ◌<◌, ◌++◌, ◌∷◌, [], ◌^◌, ℕ, ℤ, List, Some, slice_get, IfOk, OnOk};
ghost use Rattle.std.specs.List.{AllByRecursion};
ghost use Rattle.byte_fields.specs.Spelling.{zigzag};
ghost use Rattle.doc_value.specs.Documents.{AreOfKind, IsOfKind, values_in};
ghost use Rattle.fast_fields.specs.Columns.{IsNumber};
ghost use Rattle.doc_value.specs.Terms.{turned};
ghost use Rattle.fast_fields.specs.Readers.{Holds, IsOf};
ghost use Rattle.fast_fields.specs.declared.entries.Entry.{Entry};
ghost use Rattle.split_bundle.specs.Columns.{column_rows};
ghost use Rattle.split_bundle.specs.Held.{IsHeldValue};
ghost use Rattle.split_bundle.specs.declared.placed.Placed.{Placed};
ghost use Rattle.doc_tallies.specs.Marks.{unturned};

use crate::field_column::FieldColumn;
use doc_value::{Kind, Text, Value, Values};
use fast_fields::Column;
use std::alloc::{AllocError, Global};

// The signed number of which this is the turned one.
pub(crate) fn signed(number: u64) -> i64
    ensures only { (z : ℤ) → number ≡ turned z → zigzag z < 2 ^ 64 → result ≡ z }
    ensures value { result ≡ unturned number }
{
    if number >= 1 << 63 {
        return (number - (1 << 63)) as i64;
    }
    -(((1 << 63) - 1 - number) as i64) - 1
}

// The text with an ordinal.
fn text_of(alloc: Global, column: &Column<'_>, ordinal: u64) -> Result<Option<Value>, AllocError>
    ensures { (texts : List (List ℕ)) (entries : List Entry) (t : List ℕ) → Holds column.now texts entries → slice_get texts ordinal ≡ Some t
        → IfOk result (λ o. o ≡ Some (Value.Text t)) }
{
    match column.text(ordinal) {
        Some(text) => Ok(Some(Value::Text(Text::from_str(alloc, text)?))),
        None => Ok(None),
    }
}

// The value of a kind at a place, which is None only for a text that the column does not have.
fn value_of(
    alloc: Global,
    kind: Kind,
    column: &Column<'_>,
    place: u32,
) -> Result<Option<Value>, AllocError>
    requires { place < column.now.count }
    ensures { (texts : List (List ℕ)) (entries : List Entry) (entry : Entry) (v : Value) → Holds column.now texts entries → slice_get entries place ≡ Some entry
        → IsNumber texts v entry.number → IsOfKind kind v → IsHeldValue v → IfOk result (λ o. o ≡ Some v) }
{
    let number = column.value(place);
    match kind {
        Kind::Text => text_of(alloc, column, number),
        Kind::TextList => text_of(alloc, column, number),
        Kind::I64 => Ok(Some(Value::I64(signed(number)))),
        Kind::U64 => Ok(Some(Value::U64(number))),
        Kind::Bool => Ok(Some(Value::Bool(number != 0))),
        Kind::Datetime => Ok(Some(Value::Datetime(signed(number)))),
    }
}

// Adds the value at a place to others.
fn add_value(
    alloc: Global,
    field: &FieldColumn<'_>,
    place: u32,
    values: &mut Values,
) -> Result<(), AllocError>
    requires { place < field.now.column.count }
    ensures { (texts : List (List ℕ)) (entries : List Entry) (entry : Entry) (v : Value) → Holds field.now.column texts entries → slice_get entries place ≡ Some entry
        → IsNumber texts v entry.number → IsOfKind field.now.kind v → IsHeldValue v → OnOk result (values.new ≡ values.old ++ v ∷ []) }
{
    if let Some(value) = value_of(alloc, field.kind, &field.column, place)? {
        values.push(value)?;
    }
    Ok(())
}

// The values that a document has of the column's field.
pub(crate) fn values_at(
    alloc: Global,
    field: &FieldColumn<'_>,
    document: u32,
) -> Result<Values, AllocError>
    ensures { (documents : List Placed) (d : Placed) → IsOf field.now.column (column_rows field.now.number documents) → slice_get documents document ≡ Some d
        → AreOfKind field.now.kind (values_in d.doc field.now.number) → AllByRecursion IsHeldValue (values_in d.doc field.now.number)
        → IfOk result (λ values. values ≡ values_in d.doc field.now.number) }
{
    let mut values = Values::vacant(alloc);
    let (from, to) = field.column.values_of(document);
    for place in from..to {
        add_value(alloc, field, place, &mut values)?;
    }
    Ok(values)
}

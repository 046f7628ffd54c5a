//! A document in bytes.

ghost use Rattle.std.specs.Prelude.{◌≡◌, ◌++◌, OnOk};
ghost use Rattle.std.specs.List.{AllByRecursion, flat_map};
ghost use Rattle.split_bundle.specs.Documents.{value_bytes, field_bytes, doc_bytes};
ghost use Rattle.split_bundle.specs.Held.{IsHeldValue, AreHeld, IsHeld};
ghost use Rattle.split_build.specs.Bodies.{body_of};

use byte_fields::{put_bytes, put_flag, put_signed, put_varint};
use doc_value::{DocField, Value};
use split_bundle::Placed;
use std::alloc::AllocError;

/// Appends a document without its partition: its offset there, and its fields.
pub fn put_body(out: &mut Vec<u8>, placed: &Placed) -> Result<(), AllocError>
    ensures bytes { OnOk result (out.new.items ≡ out.old.items ++ body_of placed.now) }
    ensures held { OnOk result (IsHeld placed.now) }
{
    put_varint(out, placed.offset)?;
    put_doc(out, placed.doc.as_slice())
}

fn put_doc(out: &mut Vec<u8>, fields: &[DocField]) -> Result<(), AllocError>
    ensures bytes { OnOk result (out.new.items ≡ out.old.items ++ doc_bytes fields.now) }
    ensures held { OnOk result (AreHeld fields.now) }
{
    put_varint(out, fields.len() as u64)?;
    let mut rest = fields;
    while let Some((field, behind)) = rest.split_first() {
        put_field(out, field)?;
        rest = behind;
    }
    Ok(())
}

fn put_field(out: &mut Vec<u8>, field: &DocField) -> Result<(), AllocError>
    ensures bytes { OnOk result (out.new.items ≡ out.old.items ++ field_bytes field.now) }
    ensures held { OnOk result (AllByRecursion IsHeldValue field.now.values) }
{
    put_varint(out, field.number as u64)?;
    put_varint(out, field.values.len() as u64)?;
    put_values(out, field.values.as_slice())
}

fn put_values(out: &mut Vec<u8>, values: &[Value]) -> Result<(), AllocError>
    ensures bytes { OnOk result (out.new.items ≡ out.old.items ++ flat_map value_bytes values.now) }
    ensures held { OnOk result (AllByRecursion IsHeldValue values.now) }
{
    let mut rest = values;
    while let Some((value, behind)) = rest.split_first() {
        put_value(out, value)?;
        rest = behind;
    }
    Ok(())
}

fn put_value(out: &mut Vec<u8>, value: &Value) -> Result<(), AllocError>
    ensures bytes { OnOk result (out.new.items ≡ out.old.items ++ value_bytes value.now) }
    ensures held { OnOk result (IsHeldValue value.now) }
{
    match value {
        Value::Text(text) => put_bytes(out, text.as_str().as_bytes()),
        Value::I64(number) => put_signed(out, *number),
        Value::U64(number) => put_varint(out, *number),
        Value::Bool(truth) => put_flag(out, *truth),
        Value::Datetime(seconds) => put_signed(out, *seconds),
    }
}

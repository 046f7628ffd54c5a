//! One walk over a record, with one path that grows and shrinks, of which only leaf texts are copies.

ghost use Rattle.std.specs.Prelude.{◌≡◌, ◌++◌, Ok, Err, Some, OnOk, MatchResult, string_bytes};
ghost use Rattle.serde_json.specs.View.{view, number_view, items_view, members_view};
ghost use Rattle.doc_value.specs.Documents.{mapped_fields};
ghost use Rattle.dynamic_paths.specs.Leaves as spec;
ghost use Rattle.dynamic_paths.specs.Leaves.{answer, IsMemory};
ghost use Rattle.dynamic_paths.specs.Walk.{noted_all};

use crate::fault::LeafFault;
use crate::gathered::{Gathered, Leaves};
use crate::mapped::{is_field, is_object};
use doc_value::Schema;
use serde_json::{Map, Number, Value};
use std::alloc::{AllocError, Global};
use std::string::ToString;

/// The leaf texts of at most 255 bytes of what stands in a JSON object at paths that no field has, in byte order of the keys
/// at each object, arrays in order. A value that is no object has none. More than 65,536 leaves, those counted that are
/// dropped, are too many.
pub fn leaves(alloc: Global, schema: &Schema, value: &Value) -> Result<Leaves, LeafFault>
    ensures { MatchResult result
        (λ leaves. answer schema.now (view value.now) ≡ Ok leaves)
        (λ fault. ¬ IsMemory fault → answer schema.now (view value.now) ≡ Err fault) }
{
    let mut gathered = Gathered::none(alloc);
    record_leaves(alloc, schema, value, &mut gathered)?;
    gathered.finish()
}

/// Notes the leaves of a record.
fn record_leaves(
    alloc: Global,
    schema: &Schema,
    value: &Value,
    gathered: &mut Gathered,
) -> Result<(), AllocError>
    ensures { OnOk result (gathered.new ≡ noted_all (spec.leaf_list schema.now (view value.now)) gathered.old) }
{
    let Some(members) = value.as_object() else {
        return Ok(());
    };
    let mut path = String::new(alloc);
    members_leaves(alloc, schema, &mut path, members, gathered)
}

/// Notes the leaves of an object; the path is what its keys stand behind.
#[cycle(walk)]
fn members_leaves(
    alloc: Global,
    schema: &Schema,
    path: &mut String,
    members: &Map<String, Value>,
    gathered: &mut Gathered,
) -> Result<(), AllocError>
    ensures path { OnOk result (string_bytes path.new ≡ string_bytes path.old) }
    ensures noted { OnOk result (gathered.new ≡
        noted_all (spec.members_leaves (mapped_fields schema.now) (string_bytes path.old) (members_view members.now.entries)) gathered.old) }
{
    let start = path.len();
    for (key, value) in members {
        path.push_str(key.as_str())?;
        if !is_field(schema, path.as_bytes()) {
            value_leaves(alloc, schema, path, value, gathered)?;
        }
        path.truncate(start);
    }
    Ok(())
}

/// Notes the leaves of a value at this path.
#[cycle(walk)]
fn value_leaves(
    alloc: Global,
    schema: &Schema,
    path: &mut String,
    value: &Value,
    gathered: &mut Gathered,
) -> Result<(), AllocError>
    ensures path { OnOk result (string_bytes path.new ≡ string_bytes path.old) }
    ensures noted { OnOk result (gathered.new ≡
        noted_all (spec.value_leaves (mapped_fields schema.now) (string_bytes path.old) (view value.now)) gathered.old) }
{
    match value {
        Value::Null => Ok(()),
        Value::Bool(truth) => note_at(alloc, schema, path.as_str(), truth_text(*truth), gathered),
        Value::Number(number) => note_number(alloc, schema, path.as_str(), number, gathered),
        Value::String(text) => note_at(alloc, schema, path.as_str(), text.as_str(), gathered),
        Value::Array(items) => items_leaves(alloc, schema, path, items, gathered),
        Value::Object(members) => {
            path.push('.')?;
            members_leaves(alloc, schema, path, members, gathered)?;
            path.pop();
            Ok(())
        }
    }
}

/// Notes the leaves of an array's values, whose path is the array's.
#[cycle(walk)]
fn items_leaves(
    alloc: Global,
    schema: &Schema,
    path: &mut String,
    items: &Vec<Value>,
    gathered: &mut Gathered,
) -> Result<(), AllocError>
    ensures path { OnOk result (string_bytes path.new ≡ string_bytes path.old) }
    ensures noted { OnOk result (gathered.new ≡
        noted_all (spec.items_leaves (mapped_fields schema.now) (string_bytes path.old) (items_view items.now.items)) gathered.old) }
{
    for item in items {
        value_leaves(alloc, schema, path, item, gathered)?;
    }
    Ok(())
}

/// Notes a number that is whole and in 64 bits; another one is no leaf.
fn note_number(
    alloc: Global,
    schema: &Schema,
    path: &str,
    number: &Number,
    gathered: &mut Gathered,
) -> Result<(), AllocError>
    ensures { OnOk result (gathered.new ≡
        noted_all (spec.leaf_at (mapped_fields schema.now) path.now (spec.number_text (number_view number.now))) gathered.old) }
{
    if let Some(signed) = number.as_i64() {
        return note_at(
            alloc,
            schema,
            path,
            signed.to_string(alloc)?.as_str(),
            gathered,
        );
    }
    if let Some(unsigned) = number.as_u64() {
        return note_at(
            alloc,
            schema,
            path,
            unsigned.to_string(alloc)?.as_str(),
            gathered,
        );
    }
    Ok(())
}

/// Notes a leaf at this path, unless mapped fields lie in an object there.
fn note_at(
    alloc: Global,
    schema: &Schema,
    path: &str,
    text: &str,
    gathered: &mut Gathered,
) -> Result<(), AllocError>
    ensures { OnOk result (gathered.new ≡
        noted_all (spec.leaf_at (mapped_fields schema.now) path.now (Some text.now)) gathered.old) }
{
    if is_object(schema, path.as_bytes()) {
        return Ok(());
    }
    gathered.note(alloc, path, text)
}

fn truth_text(truth: bool) -> &'static str
    ensures { result.now ≡ spec.truth_text truth }
{
    if truth { "true" } else { "false" }
}

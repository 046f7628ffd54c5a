ghost use Rattle.std.specs.Prelude.{◌≡◌, ◌++◌, ◌∷◌, [], IfOk, OnOk, option_map};
ghost use Rattle.serde_json.specs.Find.{as_str, as_array};
ghost use Rattle.serde_json.specs.View.{view, items_view};
ghost use Rattle.doc_value.specs.Printed.{names_of};
ghost use Rattle.doc_mapping.specs.Faults.{i64_of};
ghost use Rattle.clock_time.specs.Datetimes.{rfc3339_seconds, unix_seconds};
ghost use Rattle.doc_mapping.specs.Documents as spec;

use clock_time::{read_rfc3339, read_unix};
use doc_value::{Doc, DocField, Field, Kind, Schema, Text, Value as DocValue, Values};
use dynamic_paths::is_dynamic;
use serde_json::Value;
use std::alloc::{AllocError, Global};
use std::mem;

/// The values that stand at the paths of the mapped fields, each looked for by itself.
pub fn doc_of(alloc: Global, schema: &Schema, root: &Value) -> Result<Doc, AllocError>
    ensures { IfOk result (λ doc. doc ≡ spec.doc_from schema.now.dynamic [] 0 schema.now.fields (view root.now)) }
{
    let mut doc = Doc::vacant(alloc);
    for (number, field) in schema.fields.as_slice().iter().enumerate() {
        if let Err(error) = push_part(alloc, &mut doc, schema, number, field, root) {
            mem::drop(doc);
            return Err(error);
        }
    }
    Ok(doc)
}

/// The values of a field, if it is mapped and has any.
fn push_part(
    alloc: Global,
    doc: &mut Doc,
    schema: &Schema,
    number: usize,
    field: &Field,
    root: &Value,
) -> Result<(), AllocError>
    ensures { OnOk result (doc.new ≡ doc.old
        ++ spec.part_of number (spec.values_from schema.now.dynamic [] number field.now (view root.now))) }
{
    push_values(
        doc,
        number,
        mapped_values(alloc, schema, number, field, root)?,
    )
}

/// The values that stand at a field's path; none where the field is the one for what is not mapped.
fn mapped_values(
    alloc: Global,
    schema: &Schema,
    number: usize,
    field: &Field,
    root: &Value,
) -> Result<Values, AllocError>
    ensures { IfOk result (λ values. values ≡ spec.values_from schema.now.dynamic [] number field.now (view root.now)) }
{
    if is_dynamic(schema, number) {
        return Ok(Values::vacant(alloc));
    }
    match value_at(root, field.path.as_str()) {
        Some(value) => values_of(alloc, field.kind, value),
        None => Ok(Values::vacant(alloc)),
    }
}

fn push_values(doc: &mut Doc, number: usize, values: Values) -> Result<(), AllocError>
    ensures { OnOk result (doc.new ≡ doc.old ++ spec.part_of number values) }
{
    if values.len() == 0 {
        return Ok(());
    }
    doc.push(DocField { number, values })
}

/// What stands at a path.
fn value_at<'a>(root: &'a Value, path: &str) -> Option<&'a Value>
    ensures { option_map (λ v. view v.now) result ≡ spec.value_at (names_of path.now) (view root.now) }
{
    match path.split_once('.') {
        None => root.get(path),
        Some((name, rest)) => match root.get(name) {
            Some(inner) => value_at(inner, rest),
            None => None,
        },
    }
}

/// One value, in a list with room for no other.
#[inline(always)]
pub fn one_value(alloc: Global, value: DocValue) -> Result<Values, AllocError>
    ensures { IfOk result (λ values. values ≡ value ∷ []) }
{
    let mut held = Vec::with_capacity(alloc, 1)?;
    held.push_reserved(value);
    Ok(Values::from_vec(held))
}

/// The values of a field of this kind.
pub fn values_of(alloc: Global, kind: Kind, value: &Value) -> Result<Values, AllocError>
    ensures { IfOk result (λ values. values ≡ spec.values_of kind (view value.now)) }
{
    match kind {
        Kind::Text => text_values(alloc, value),
        Kind::I64 => match value.as_i64() {
            Some(number) => one_value(alloc, DocValue::I64(number)),
            None => Ok(Values::vacant(alloc)),
        },
        Kind::U64 => match value.as_u64() {
            Some(number) => one_value(alloc, DocValue::U64(number)),
            None => Ok(Values::vacant(alloc)),
        },
        Kind::Bool => match value.as_bool() {
            Some(truth) => one_value(alloc, DocValue::Bool(truth)),
            None => Ok(Values::vacant(alloc)),
        },
        Kind::Datetime => match second_of(value) {
            Some(second) => one_value(alloc, DocValue::Datetime(second)),
            None => Ok(Values::vacant(alloc)),
        },
        Kind::TextList => list_values(alloc, value),
    }
}

fn text_values(alloc: Global, value: &Value) -> Result<Values, AllocError>
    ensures { IfOk result (λ values. values ≡ spec.text_values (as_str (view value.now))) }
{
    match value.as_str() {
        Some(text) => one_value(alloc, DocValue::Text(Text::from_str(alloc, text)?)),
        None => Ok(Values::vacant(alloc)),
    }
}

/// The second of a text or of a whole number.
fn second_of(value: &Value) -> Option<i64>
    ensures { result ≡ spec.second_of (as_str (view value.now)) (i64_of (view value.now)) }
{
    if let Some(text) = value.as_str() {
        return second_of_text(text);
    }
    match value.as_i64() {
        Some(number) => second_of_number(number),
        None => None,
    }
}

pub fn second_of_text(text: &str) -> Option<i64>
    ensures { result ≡ rfc3339_seconds text.now }
{
    read_rfc3339(text).ok()
}

pub fn second_of_number(number: i64) -> Option<i64>
    ensures { result ≡ unix_seconds number }
{
    read_unix(number).ok()
}

/// An array of strings, or one string, which is a list of one.
fn list_values(alloc: Global, value: &Value) -> Result<Values, AllocError>
    ensures { IfOk result (λ values. values ≡ spec.list_values (as_str (view value.now)) (as_array (view value.now))) }
{
    if value.is_string() {
        return text_values(alloc, value);
    }
    match value.as_array() {
        Some(items) => texts_in(alloc, items.as_slice()),
        None => Ok(Values::vacant(alloc)),
    }
}

fn texts_in(alloc: Global, items: &[Value]) -> Result<Values, AllocError>
    ensures { IfOk result (λ values. values ≡ spec.texts_in (items_view items.now)) }
{
    let mut values = Values::vacant(alloc);
    for item in items {
        if let Err(error) = push_text(alloc, &mut values, item) {
            mem::drop(values);
            return Err(error);
        }
    }
    Ok(values)
}

fn push_text(alloc: Global, values: &mut Values, item: &Value) -> Result<(), AllocError>
    ensures { OnOk result (values.new ≡ values.old ++ spec.text_values (as_str (view item.now))) }
{
    match item.as_str() {
        Some(text) => values.push(DocValue::Text(Text::from_str(alloc, text)?)),
        None => Ok(()),
    }
}

//! A value taken apart: its text, items or members are moved out of it.

ghost use Rattle.std.specs.Prelude.{◌≡◌, Some, None, MatchResult};
ghost use Rattle.serde_json.specs.Data.{array, object};
ghost use Rattle.serde_json.specs.Find.{as_str, as_array, as_object};
ghost use Rattle.serde_json.specs.View.{view, items_view, members_view};

use doc_value::Text;
use serde_json::{Map, Value};

/// The text of a string, or else the value.
#[inline(always)]
pub fn into_text(value: Value) -> Result<Text, Value>
    ensures { MatchResult result
        (λ text. as_str (view value) ≡ Some text)
        (λ other. (other ≡ value) × (as_str (view other) ≡ None)) }
{
    match value {
        Value::String(text) => Ok(Text::from_string(text)),
        other => Err(other),
    }
}

/// The items of an array, or else the value.
pub fn into_items(value: Value) -> Result<Vec<Value>, Value>
    ensures { MatchResult result
        (λ items. view value ≡ array (items_view items.items))
        (λ other. (other ≡ value) × (as_array (view other) ≡ None)) }
{
    match value {
        Value::Array(items) => Ok(items),
        other => Err(other),
    }
}

/// The members of an object, or else the value.
pub fn into_members(value: Value) -> Result<Map<String, Value>, Value>
    ensures { MatchResult result
        (λ map. view value ≡ object (members_view map.entries))
        (λ other. (other ≡ value) × (as_object (view other) ≡ None)) }
{
    match value {
        Value::Object(map) => Ok(map),
        other => Err(other),
    }
}

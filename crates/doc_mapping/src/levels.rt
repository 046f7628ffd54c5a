ghost use Rattle.std.specs.Prelude.{◌≡◌, nat_le, IsTrue};
ghost use Rattle.serde_json.specs.Data.{depth, items_depth, members_depth};
ghost use Rattle.serde_json.specs.View.{view, items_view, members_view};

use serde_json::{Map, Value};

/// Whether arrays and objects nest to at most so many levels.
#[cycle(levels)]
pub fn is_within(value: &Value, levels: usize) -> bool
    ensures { result ≡ nat_le (depth (view value.now)) levels }
{
    if let Some(items) = value.as_array() {
        return levels > 0 && are_within(items.as_slice(), levels - 1);
    }
    if let Some(map) = value.as_object() {
        return levels > 0 && are_members_within(map, levels - 1);
    }
    true
}

#[cycle(levels)]
fn are_within(items: &[Value], levels: usize) -> bool
    ensures { result ≡ nat_le (items_depth (items_view items.now)) levels }
{
    for item in items {
        if !is_flat(item) && !is_within(item, levels) {
            return false;
        }
    }
    true
}

#[cycle(levels)]
fn are_members_within(map: &Map<String, Value>, levels: usize) -> bool
    ensures { result ≡ nat_le (members_depth (members_view map.now.entries)) levels }
{
    for (_, value) in map {
        if !is_flat(value) && !is_within(value, levels) {
            return false;
        }
    }
    true
}

/// Whether a value is neither an array nor an object, as most are.
#[inline(always)]
fn is_flat(value: &Value) -> bool
    ensures { IsTrue result → depth (view value.now) ≡ 0 }
{
    !value.is_array() && !value.is_object()
}

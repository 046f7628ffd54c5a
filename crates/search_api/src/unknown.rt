//! The first key of a request that doesn't stand at its place.

ghost use Rattle.std.specs.Prelude.{◌≡◌, option_map};
ghost use Rattle.serde_json.specs.Find.{get};
ghost use Rattle.serde_json.specs.View.{view, items_view, members_view};
ghost use Rattle.search_api.specs.Keys as spec;

use crate::keys::{ALL_KINDS, AggKind, KeyPlace, is_known, key_of};
use serde_json::{Map, Value};

fn first_unknown<'a>(place: KeyPlace, members: &'a Map<String, Value>) -> Option<&'a str>
    ensures { option_map (λ key. key.now) result ≡ spec.first_unknown place (members_view members.now.entries) }
{
    for (key, _) in members {
        if !is_known(place, key.as_bytes()) {
            return Some(key.as_str());
        }
    }
    None
}

/// In an object; no other value has keys.
fn unknown_in(place: KeyPlace, value: &Value) -> Option<&str>
    ensures { option_map (λ key. key.now) result ≡ spec.unknown_in place (view value.now) }
{
    match value.as_object() {
        Some(members) => first_unknown(place, members),
        None => None,
    }
}

fn unknown_in_items(items: &[Value]) -> Option<&str>
    ensures { option_map (λ key. key.now) result ≡ spec.unknown_in_items (items_view items.now) }
{
    for item in items {
        if let Some(key) = unknown_in(KeyPlace::Edges, item) {
            return Some(key);
        }
    }
    None
}

/// In the members of a list; no other value has ranges.
fn unknown_in_ranges(value: &Value) -> Option<&str>
    ensures { option_map (λ key. key.now) result ≡ spec.unknown_in_ranges (view value.now) }
{
    match value.as_array() {
        Some(items) => unknown_in_items(items.as_slice()),
        None => None,
    }
}

/// A kind's own keys, then those of each of its ranges.
#[tactic(auto, unfolding(crate::specs::Keys::unknown_of))]
fn unknown_of(kind: AggKind, value: &Value) -> Option<&str>
    ensures { option_map (λ key. key.now) result ≡ spec.unknown_of kind (view value.now) }
{
    if let Some(key) = unknown_in(KeyPlace::Kind(kind), value) {
        return Some(key);
    }
    match value.get("ranges") {
        Some(ranges) => unknown_in_ranges(ranges),
        None => None,
    }
}

/// What stands at a kind's key.
fn at_kind(kind: AggKind, value: &Value) -> Option<&Value>
    ensures { option_map (λ inner. view inner.now) result ≡ get (spec.key_of kind) (view value.now) }
{
    value.get(key_of(kind))
}

fn unknown_in_kinds<'a>(kinds: &[AggKind], value: &'a Value) -> Option<&'a str>
    ensures { option_map (λ key. key.now) result ≡ spec.unknown_in_kinds kinds.now (view value.now) }
{
    for kind in kinds {
        if let Some(inner) = at_kind(*kind, value)
            && let Some(key) = unknown_of(*kind, inner)
        {
            return Some(key);
        }
    }
    None
}

/// An aggregation's own keys, then those of its kinds in byte order of the kinds.
#[tactic(auto, unfolding(crate::specs::Keys::unknown_in_flat))]
fn unknown_in_flat(place: KeyPlace, value: &Value) -> Option<&str>
    ensures { option_map (λ key. key.now) result ≡ spec.unknown_in_flat place (view value.now) }
{
    if let Some(key) = unknown_in(place, value) {
        return Some(key);
    }
    unknown_in_kinds(&ALL_KINDS, value)
}

fn has(key: &str, value: &Value) -> bool
    ensures { result ≡ spec.has key.now (view value.now) }
{
    value.get(key).is_some()
}

/// Whether a kind of buckets stands there and no metric, so that others may be nested.
#[tactic(auto, unfolding(crate::specs::Keys::is_nesting))]
fn is_nesting(value: &Value) -> bool
    ensures { result ≡ spec.is_nesting (view value.now) }
{
    let buckets = has("terms", value)
        || has("histogram", value)
        || has("date_histogram", value)
        || has("range", value);
    let metric = has("min", value)
        || has("max", value)
        || has("sum", value)
        || has("value_count", value);
    buckets && !metric
}

fn place_of(value: &Value) -> KeyPlace
    ensures { result ≡ spec.place_of (view value.now) }
{
    if is_nesting(value) {
        KeyPlace::Nesting
    } else {
        KeyPlace::Aggregation
    }
}

fn unknown_in_nested(members: &Map<String, Value>) -> Option<&str>
    ensures { option_map (λ key. key.now) result ≡ spec.unknown_in_nested (members_view members.now.entries) }
{
    for (_, value) in members {
        if let Some(key) = unknown_in_flat(KeyPlace::Aggregation, value) {
            return Some(key);
        }
    }
    None
}

fn unknown_in_inner(value: &Value) -> Option<&str>
    ensures { option_map (λ key. key.now) result ≡ spec.unknown_in_inner (view value.now) }
{
    match value.as_object() {
        Some(members) => unknown_in_nested(members),
        None => None,
    }
}

/// An aggregation's own keys and those of its kinds, then those of its nested ones by their names.
#[tactic(auto, unfolding(crate::specs::Keys::unknown_in_agg))]
fn unknown_in_agg(value: &Value) -> Option<&str>
    ensures { option_map (λ key. key.now) result ≡ spec.unknown_in_agg (view value.now) }
{
    if let Some(key) = unknown_in_flat(place_of(value), value) {
        return Some(key);
    }
    match value.get("aggs") {
        Some(aggs) => unknown_in_inner(aggs),
        None => None,
    }
}

fn unknown_in_each(members: &Map<String, Value>) -> Option<&str>
    ensures { option_map (λ key. key.now) result ≡ spec.unknown_in_each (members_view members.now.entries) }
{
    for (_, value) in members {
        if let Some(key) = unknown_in_agg(value) {
            return Some(key);
        }
    }
    None
}

#[tactic(auto, unfolding(crate::specs::Keys::unknown_in_aggs))]
fn unknown_in_aggs(value: &Value) -> Option<&str>
    ensures { option_map (λ key. key.now) result ≡ spec.unknown_in_aggs (view value.now) }
{
    match value.as_object() {
        Some(members) => unknown_in_each(members),
        None => None,
    }
}

/// A search's own keys, then those of its aggregations.
#[tactic(auto, unfolding(crate::specs::Keys::unknown_in_search))]
fn unknown_in_search(value: &Value) -> Option<&str>
    ensures { option_map (λ key. key.now) result ≡ spec.unknown_in_search (view value.now) }
{
    if let Some(key) = unknown_in(KeyPlace::Search, value) {
        return Some(key);
    }
    match value.get("aggs") {
        Some(aggs) => unknown_in_aggs(aggs),
        None => None,
    }
}

/// The outer object's keys, then those within. Where a delete stands, a search beside it is an unknown key.
#[tactic(auto, unfolding(crate::specs::Keys::unknown_key))]
pub fn unknown_key(value: &Value) -> Option<&str>
    ensures { option_map (λ key. key.now) result ≡ spec.unknown_key (view value.now) }
{
    if let Some(delete) = value.get("delete") {
        if let Some(key) = unknown_in(KeyPlace::AroundDelete, value) {
            return Some(key);
        }
        return unknown_in(KeyPlace::Delete, delete);
    }
    if let Some(key) = unknown_in(KeyPlace::AroundSearch, value) {
        return Some(key);
    }
    match value.get("search") {
        Some(search) => unknown_in_search(search),
        None => None,
    }
}

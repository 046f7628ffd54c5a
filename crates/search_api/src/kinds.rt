//! What stands at a key of a request: nothing, a value of the key's kind, or a refusal.

ghost use Rattle.std.specs.Prelude.{◌≡◌, ◌++◌, IfOk, length, Some};
ghost use Rattle.serde_json.specs.Find.{as_str};
ghost use Rattle.serde_json.specs.View.{view, items_view};
ghost use Rattle.search_api.specs.declared.request_error.RequestError.TheVariants as errors;
ghost use Rattle.search_api.specs.Answers.{IsMemory, Gives};
ghost use Rattle.search_api.specs.Kinds as spec;

use crate::request::Paths;
use crate::request_error::RequestError;
use agg_model::Distance;
use doc_value::Text;
use serde_json::Value;
use std::alloc::{AllocError, Global};

/// The refusal of a value of another kind than its key's.
pub fn wrong_kind(alloc: Global, name: &str) -> RequestError
    ensures { ¬ IsMemory result → result ≡ errors.WrongKind name.now }
{
    match Text::from_str(alloc, name) {
        Ok(name) => RequestError::WrongKind { name },
        Err(error) => RequestError::Memory(error),
    }
}

/// The refusal of an absent key.
pub fn missing_key(alloc: Global, name: &str) -> RequestError
    ensures { ¬ IsMemory result → result ≡ errors.MissingKey name.now }
{
    match Text::from_str(alloc, name) {
        Ok(name) => RequestError::MissingKey { name },
        Err(error) => RequestError::Memory(error),
    }
}

/// The refusal of a key that doesn't stand at its place.
pub fn unknown_key(alloc: Global, name: &str) -> RequestError
    ensures { ¬ IsMemory result → result ≡ errors.UnknownKey name.now }
{
    match Text::from_str(alloc, name) {
        Ok(name) => RequestError::UnknownKey { name },
        Err(error) => RequestError::Memory(error),
    }
}

pub fn text_at(alloc: Global, object: &Value, key: &str) -> Result<Option<Text>, RequestError>
    ensures { Gives (spec.at key.now as_str (view object.now)) result }
{
    let Some(value) = object.get(key) else {
        return Ok(None);
    };
    match value.as_str() {
        Some(text) => Ok(Some(Text::from_str(alloc, text)?)),
        None => Err(wrong_kind(alloc, key)),
    }
}

pub fn needed_text(alloc: Global, object: &Value, key: &str) -> Result<Text, RequestError>
    ensures { Gives (spec.needed key.now as_str (view object.now)) result }
{
    match text_at(alloc, object, key)? {
        Some(text) => Ok(text),
        None => Err(missing_key(alloc, key)),
    }
}

/// Whole seconds.
pub fn second_at(alloc: Global, object: &Value, key: &str) -> Result<Option<i64>, RequestError>
    ensures { Gives (spec.at key.now spec.second_of (view object.now)) result }
{
    let Some(value) = object.get(key) else {
        return Ok(None);
    };
    match value.as_i64() {
        Some(second) => Ok(Some(second)),
        None => Err(wrong_kind(alloc, key)),
    }
}

fn count_of(value: &Value, low: u32, high: u32) -> Option<u32>
    ensures { result ≡ spec.count_of low high (view value.now) }
{
    match value.as_u64() {
        Some(number) => {
            if u64::from(low) <= number && number <= u64::from(high) {
                Some(number as u32)
            } else {
                None
            }
        }
        None => None,
    }
}

/// A whole number between two.
pub fn count_at(
    alloc: Global,
    object: &Value,
    key: &str,
    low: u32,
    high: u32,
) -> Result<Option<u32>, RequestError>
    ensures { Gives (spec.at key.now (spec.count_of low high) (view object.now)) result }
{
    let Some(value) = object.get(key) else {
        return Ok(None);
    };
    match count_of(value, low, high) {
        Some(count) => Ok(Some(count)),
        None => Err(wrong_kind(alloc, key)),
    }
}

fn whole_of(value: &Value) -> Option<Distance>
    ensures { result ≡ spec.whole_of (view value.now) }
{
    if let Some(number) = value.as_i64() {
        return Some(Distance::from(number));
    }
    match value.as_u64() {
        Some(number) => Some(Distance::from(number)),
        None => None,
    }
}

/// A whole number of 64 bits, with a sign or without.
pub fn whole_at(alloc: Global, object: &Value, key: &str) -> Result<Option<Distance>, RequestError>
    ensures { Gives (spec.at key.now spec.whole_of (view object.now)) result }
{
    let Some(value) = object.get(key) else {
        return Ok(None);
    };
    match whole_of(value) {
        Some(number) => Ok(Some(number)),
        None => Err(wrong_kind(alloc, key)),
    }
}

pub fn needed_whole(alloc: Global, object: &Value, key: &str) -> Result<Distance, RequestError>
    ensures { Gives (spec.needed key.now spec.whole_of (view object.now)) result }
{
    match whole_at(alloc, object, key)? {
        Some(number) => Ok(number),
        None => Err(missing_key(alloc, key)),
    }
}

/// What lies between commas.
fn cut(alloc: Global, text: &str) -> Result<Paths, AllocError>
    ensures { IfOk result (λ paths. paths ≡ spec.cut text.now) }
{
    let mut paths = Paths::vacant(alloc);
    let mut left = text;
    while let Some((path, rest)) = left.split_once(',') {
        paths.push(Text::from_str(alloc, path)?)?;
        left = rest;
    }
    paths.push(Text::from_str(alloc, left)?)?;
    Ok(paths)
}

/// A list of texts, or none where some member is no text.
#[tactic(auto, using(crate::proofs::Joined::joined_step, crate::proofs::Joined::joined_none))]
fn texts_of(alloc: Global, items: &[Value]) -> Result<Option<Paths>, AllocError>
    ensures { IfOk result (λ paths. paths ≡ spec.texts_of (items_view items.now)) }
{
    let mut paths = Paths::vacant(alloc);
    for item in items {
        let Some(text) = item.as_str() else {
            return Ok(None);
        };
        paths.push(Text::from_str(alloc, text)?)?;
    }
    Ok(Some(paths))
}

fn paths_of(alloc: Global, value: &Value) -> Result<Option<Paths>, AllocError>
    ensures { IfOk result (λ paths. paths ≡ spec.paths_of (view value.now)) }
{
    if let Some(text) = value.as_str() {
        return Ok(Some(cut(alloc, text)?));
    }
    match value.as_array() {
        Some(items) => texts_of(alloc, items.as_slice()),
        None => Ok(None),
    }
}

/// A text of paths between commas, or a list of paths.
pub fn paths_at(alloc: Global, object: &Value, key: &str) -> Result<Option<Paths>, RequestError>
    ensures { Gives (spec.at key.now spec.paths_of (view object.now)) result }
{
    let Some(value) = object.get(key) else {
        return Ok(None);
    };
    match paths_of(alloc, value)? {
        Some(paths) => Ok(Some(paths)),
        None => Err(wrong_kind(alloc, key)),
    }
}

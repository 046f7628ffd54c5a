//! The values of a value that fits a field, or why it doesn't fit.

ghost use Rattle.std.specs.Prelude.{◌≡◌, ◌∷◌, [], ◌++◌, None, Ok, IfOk, OnOk, IfSome, MatchResult, is_some};
ghost use Rattle.serde_json.specs.Find.{as_null, as_str};
ghost use Rattle.serde_json.specs.View.{view, items_view};
ghost use Rattle.doc_mapping.specs.Documents.{text_values};
ghost use Rattle.doc_mapping.specs.Walk.{Fits, FitsSecond, FitsTexts, IsPlain, refusal_at};

use crate::documents::{one_value, second_of_number, second_of_text, values_of};
use crate::reject::Reject;
use crate::taking::{into_items, into_text};
use doc_value::{Kind, Text, Value as DocValue, Values};
use index_config::Formats;
use serde_json::Value;
use std::alloc::{AllocError, Global};
use std::mem;

/// Why a value doesn't fit a field.
#[derive(Clone, Copy)]
pub enum Misfit {
    WrongType,
    BadDate,
}

impl Misfit {
    /// The refusal of a value at this path.
    pub fn refusal(self, path: Text) -> Reject
        ensures { result ≡ refusal_at path self }
    {
        match self {
            Misfit::WrongType => Reject::WrongType { path },
            Misfit::BadDate => Reject::BadDate { path },
        }
    }
}

/// The values of a value that fits a field, or why it doesn't; texts are moved, and a date is read once.
#[inline(always)]
pub fn fitting_values(
    alloc: Global,
    kind: Kind,
    formats: Formats,
    value: Value,
) -> Result<Result<Values, Misfit>, AllocError>
    ensures { IfOk result (Fits kind formats (view value)) }
{
    if value.is_null() {
        mem::drop(value);
        return Ok(Ok(Values::vacant(alloc)));
    }
    match kind {
        Kind::Text => fitting_text(alloc, formats, value),
        Kind::TextList => fitting_list(alloc, formats, value),
        Kind::Datetime => fitting_date(alloc, formats, value),
        Kind::I64 => fitting_plain(alloc, Kind::I64, formats, value),
        Kind::U64 => fitting_plain(alloc, Kind::U64, formats, value),
        Kind::Bool => fitting_plain(alloc, Kind::Bool, formats, value),
    }
}

/// The one value of a value that fits a field of a kind with one value, or else the value, which may fit as well.
#[inline(always)]
pub fn single_value(kind: Kind, formats: Formats, value: Value) -> Result<DocValue, Value>
    ensures { MatchResult result (λ single. Fits kind formats (view value) (Ok (single ∷ []))) (λ other. other ≡ value) }
{
    if value.is_null() {
        return Err(value);
    }
    if let Kind::Text = kind {
        return single_text(formats, value);
    }
    match single_plain(kind, formats, &value) {
        Some(single) => {
            mem::drop(value);
            Ok(single)
        }
        None => Err(value),
    }
}

/// The same of a value that is only read.
#[inline(always)]
fn single_plain(kind: Kind, formats: Formats, value: &Value) -> Option<DocValue>
    requires { as_null (view value.now) ≡ None }
    ensures { IfSome result (λ single. Fits kind formats (view value.now) (Ok (single ∷ []))) }
{
    match kind {
        Kind::I64 => Some(DocValue::I64(value.as_i64()?)),
        Kind::U64 => Some(DocValue::U64(value.as_u64()?)),
        Kind::Bool => Some(DocValue::Bool(value.as_bool()?)),
        Kind::Datetime => Some(DocValue::Datetime(fitting_second(formats, value).ok()?)),
        Kind::Text => None,
        Kind::TextList => None,
    }
}

#[inline(always)]
fn single_text(formats: Formats, value: Value) -> Result<DocValue, Value>
    requires { as_null (view value) ≡ None }
    ensures { MatchResult result (λ single. Fits Kind.Text formats (view value) (Ok (single ∷ []))) (λ other. other ≡ value) }
{
    match into_text(value) {
        Ok(text) => Ok(DocValue::Text(text)),
        Err(other) => Err(other),
    }
}

#[inline(always)]
fn fitting_text(
    alloc: Global,
    formats: Formats,
    value: Value,
) -> Result<Result<Values, Misfit>, AllocError>
    requires { as_null (view value) ≡ None }
    ensures { IfOk result (Fits Kind.Text formats (view value)) }
{
    match into_text(value) {
        Ok(text) => Ok(Ok(one_value(alloc, DocValue::Text(text))?)),
        Err(_) => Ok(Err(Misfit::WrongType)),
    }
}

/// An array of strings, or one string, which is a list of one.
fn fitting_list(
    alloc: Global,
    formats: Formats,
    value: Value,
) -> Result<Result<Values, Misfit>, AllocError>
    requires { as_null (view value) ≡ None }
    ensures { IfOk result (Fits Kind.TextList formats (view value)) }
{
    match into_items(value) {
        Ok(items) => fitting_texts(alloc, items),
        Err(other) => fitting_text(alloc, formats, other),
    }
}

fn fitting_texts(alloc: Global, items: Vec<Value>) -> Result<Result<Values, Misfit>, AllocError>
    ensures { IfOk result (FitsTexts (items_view items.items)) }
{
    let mut texts = Vec::with_capacity(alloc, items.len())?;
    for item in items {
        match put_text(&mut texts, item) {
            Ok(true) => {}
            Ok(false) => {
                mem::drop(texts);
                return Ok(Err(Misfit::WrongType));
            }
            Err(error) => {
                mem::drop(texts);
                return Err(error);
            }
        }
    }
    Ok(Ok(Values::from_vec(texts)))
}

/// Puts the text of a string, and says whether it is one.
fn put_text(texts: &mut Vec<DocValue>, item: Value) -> Result<bool, AllocError>
    ensures texts { IfOk result (λ is_text. is_text ≡ is_some (as_str (view item))) }
    ensures puts { OnOk result (texts.new.items ≡ texts.old.items ++ text_values (as_str (view item))) }
{
    match into_text(item) {
        Ok(text) => {
            texts.push(DocValue::Text(text))?;
            Ok(true)
        }
        Err(other) => {
            mem::drop(other);
            Ok(false)
        }
    }
}

/// A whole number or a truth value.
fn fitting_plain(
    alloc: Global,
    kind: Kind,
    formats: Formats,
    value: Value,
) -> Result<Result<Values, Misfit>, AllocError>
    requires plain { IsPlain kind }
    requires some { as_null (view value) ≡ None }
    ensures { IfOk result (Fits kind formats (view value)) }
{
    let values = values_of(alloc, kind, &value);
    mem::drop(value);
    let values = values?;
    if values.is_empty() {
        return Ok(Err(Misfit::WrongType));
    }
    Ok(Ok(values))
}

fn fitting_date(
    alloc: Global,
    formats: Formats,
    value: Value,
) -> Result<Result<Values, Misfit>, AllocError>
    requires { as_null (view value) ≡ None }
    ensures { IfOk result (Fits Kind.Datetime formats (view value)) }
{
    let second = fitting_second(formats, &value);
    mem::drop(value);
    match second {
        Ok(second) => Ok(Ok(one_value(alloc, DocValue::Datetime(second))?)),
        Err(misfit) => Ok(Err(misfit)),
    }
}

/// The second of a text or of a whole number, spelled as the formats take it.
fn fitting_second(formats: Formats, value: &Value) -> Result<i64, Misfit>
    ensures { FitsSecond formats (view value.now) result }
{
    if let Some(text) = value.as_str() {
        if !formats.rfc3339 {
            return Err(Misfit::WrongType);
        }
        return second_of_text(text).ok_or(Misfit::BadDate);
    }
    if !formats.unix {
        return Err(Misfit::WrongType);
    }
    if let Some(number) = value.as_i64() {
        return second_of_number(number).ok_or(Misfit::BadDate);
    }
    Err(if value.is_u64() {
        Misfit::BadDate
    } else {
        Misfit::WrongType
    })
}

ghost use Rattle.std.specs.Prelude.{◌≡◌, ◌++◌, OnOk, IfOk, codes};
ghost use Rattle.toml.specs.View.{view, items_view};
ghost use Rattle.toml.specs.Data.{get, as_str};
ghost use Rattle.index_config.specs.Tables.{text_at as text_at_key};
ghost use Rattle.index_config.specs.Fields as spec;

use crate::config::{Formats, Mode};
use crate::names::{is_same, member_path, tokenizer_named, under};
use crate::raw::{RawField, RawFields};
use crate::rule::FieldType;
use crate::tables::{is_object, items_at, items_of, text_at, type_of};
use doc_value::{Kind, Text, Tokenizer};
use std::alloc::{AllocError, Global};
use std::mem;
use toml::Value;

fn truth_at(table: &Value, key: &str, default: bool) -> bool
    ensures { result ≡ spec.truth_at key.now default (view table.now) }
{
    match table.get(key) {
        Some(value) => value.as_bool().unwrap_or(default),
        None => default,
    }
}

/// What a type is as a kind of values; an object is none.
fn kind_of(field_type: Option<FieldType>) -> Option<Kind>
    ensures { result ≡ spec.kind_of field_type }
{
    match field_type {
        Some(FieldType::Text) => Some(Kind::Text),
        Some(FieldType::I64) => Some(Kind::I64),
        Some(FieldType::U64) => Some(Kind::U64),
        Some(FieldType::Bool) => Some(Kind::Bool),
        Some(FieldType::Datetime) => Some(Kind::Datetime),
        Some(FieldType::TextList) => Some(Kind::TextList),
        Some(FieldType::Object) => None,
        None => None,
    }
}

fn tokenizer_of(table: &Value) -> Tokenizer
    ensures { result ≡ spec.tokenizer_of (text_at_key (codes "tokenizer") (view table.now)) }
{
    match text_at(table, "tokenizer") {
        Some(word) => tokenizer_named(word.as_bytes()),
        None => Tokenizer::Default,
    }
}

fn keeps_positions(table: &Value) -> bool
    ensures { result ≡ spec.keeps_positions (text_at_key (codes "record") (view table.now)) }
{
    match text_at(table, "record") {
        Some(word) => is_same(word.as_bytes(), b"position"),
        None => false,
    }
}

/// Whether a list of texts has this one.
pub fn has_text(items: &[Value], word: &[u8]) -> bool
    ensures { result ≡ spec.has_text word.now (items_view items.now) }
{
    for item in items {
        if is_word(item, word) {
            return true;
        }
    }
    false
}

fn is_word(item: &Value, word: &[u8]) -> bool
    ensures { result ≡ spec.is_word word.now (as_str (view item.now)) }
{
    match item.as_str() {
        Some(text) => is_same(text.as_bytes(), word),
        None => false,
    }
}

fn formats_of(table: &Value) -> Formats
    ensures { result ≡ spec.formats_in (get (codes "input_formats") (view table.now)) }
{
    match table.get("input_formats") {
        Some(list) => {
            let items = items_of(list);
            Formats {
                rfc3339: has_text(items, b"rfc3339"),
                unix: has_text(items, b"unix_timestamp"),
            }
        }
        None => Formats {
            rfc3339: true,
            unix: true,
        },
    }
}

fn name_of(table: &Value) -> &str
    ensures { result.now ≡ spec.name_of (view table.now) }
{
    match text_at(table, "name") {
        Some(name) => name,
        None => "",
    }
}

fn raw_field(
    alloc: Global,
    place: &Text,
    path: &Text,
    table: &Value,
) -> Result<RawField, AllocError>
    ensures { IfOk result (λ raw. raw ≡ spec.raw_field place.now path.now (view table.now)) }
{
    Ok(RawField {
        place: under(alloc, place, "name")?,
        path: under(alloc, path, name_of(table))?,
        kind: kind_of(type_of(table)),
        fast: truth_at(table, "fast", false),
        indexed: truth_at(table, "indexed", true),
        tokenizer: tokenizer_of(table),
        positions: keeps_positions(table),
        formats: formats_of(table),
    })
}

/// The path of the field that holds what is not mapped.
pub const DYNAMIC_PATH: &str = "_dynamic";

/// The field that holds what is not mapped.
fn dynamic_raw(alloc: Global) -> Result<RawField, AllocError>
    ensures { IfOk result (λ raw. raw ≡ spec.dynamic_raw) }
{
    Ok(RawField {
        place: Text::from_str(alloc, "doc_mapping.mode")?,
        path: Text::from_str(alloc, DYNAMIC_PATH)?,
        kind: Some(Kind::TextList),
        fast: false,
        indexed: true,
        tokenizer: Tokenizer::Raw,
        positions: false,
        formats: Formats {
            rfc3339: true,
            unix: true,
        },
    })
}

/// The fields that a mode adds before those of the configuration.
pub fn dynamic_raws(alloc: Global, mode: Mode) -> Result<RawFields, AllocError>
    ensures { IfOk result (λ raws. raws ≡ spec.dynamic_raws mode) }
{
    let mut raws = RawFields::vacant(alloc);
    match mode {
        Mode::Strict => Ok(raws),
        Mode::Lenient => Ok(raws),
        Mode::Dynamic => {
            raws.push(dynamic_raw(alloc)?)?;
            Ok(raws)
        }
    }
}

/// The fields and objects of a list in reading order, each object's own behind it.
#[cycle(raws)]
pub fn push_fields(
    alloc: Global,
    raws: &mut RawFields,
    levels: usize,
    list_place: &Text,
    path: &Text,
    items: &[Value],
) -> Result<(), AllocError>
    ensures { OnOk result (raws.new ≡ raws.old ++ spec.raw_fields levels list_place.now path.now (items_view items.now)) }
{
    for (number, item) in items.iter().enumerate() {
        let place = member_path(alloc, list_place, number)?;
        let pushed = push_member(alloc, raws, levels, &place, path, item);
        mem::drop(place);
        pushed?;
    }
    Ok(())
}

#[cycle(raws)]
fn push_member(
    alloc: Global,
    raws: &mut RawFields,
    levels: usize,
    place: &Text,
    path: &Text,
    table: &Value,
) -> Result<(), AllocError>
    ensures { OnOk result (raws.new ≡ raws.old ++ spec.raw_member levels place.now path.now (view table.now)) }
{
    raws.push(raw_field(alloc, place, path, table)?)?;
    if levels == 0 || !is_object(type_of(table)) {
        return Ok(());
    }
    let inner_place = under(alloc, place, "field_mappings")?;
    match under(alloc, path, name_of(table)) {
        Ok(inner_path) => {
            let items = items_at(table, "field_mappings");
            let pushed = push_fields(alloc, raws, levels - 1, &inner_place, &inner_path, items);
            mem::drop(inner_place);
            mem::drop(inner_path);
            pushed
        }
        Err(error) => {
            mem::drop(inner_place);
            Err(error)
        }
    }
}

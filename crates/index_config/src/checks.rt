ghost use Rattle.std.specs.Prelude.{◌≡◌, ◌++◌, OnOk};
ghost use Rattle.toml.specs.View.{view, items_view};
ghost use Rattle.toml.specs.Data.{as_str, as_integer, as_array};
ghost use Rattle.index_config.specs.Rules as rules;
ghost use Rattle.index_config.specs.Tables as tables;

use crate::config_error::ConfigError;
use crate::durations::{MAX_SECONDS, duration_of};
use crate::names::{
    is_field_name, is_field_type, is_format, is_index_id, is_mode, is_policy, is_record,
    is_tokenizer, member_path, under,
};
use crate::raw::Faults;
use crate::rule::{Ask, Rule};
use doc_value::Text;
use std::alloc::{AllocError, Global};
use toml::Value;

/// A value is of the wrong kind unless a test passes.
pub fn wrong_unless(faults: &mut Faults, passes: bool, path: Text) -> Result<(), AllocError>
    ensures { OnOk result (faults.new ≡ faults.old ++ rules.wrong_unless passes path) }
{
    if passes {
        return Ok(());
    }
    faults.push(ConfigError::WrongKind { path })
}

/// A number is bad unless it lies in its range.
fn bad_unless(faults: &mut Faults, passes: bool, path: Text) -> Result<(), AllocError>
    ensures { OnOk result (faults.new ≡ faults.old ++ rules.range_faults passes path) }
{
    if passes {
        return Ok(());
    }
    faults.push(ConfigError::BadNumber { path })
}

/// Whether a text has the form of its rule. Rules that ask for no text pass none.
fn has_form(rule: Rule, text: &[u8]) -> bool
    ensures { result ≡ rules.has_form rule text.now }
{
    match rule {
        Rule::IndexId => is_index_id(text),
        Rule::FieldName => is_field_name(text),
        Rule::ModeName => is_mode(text),
        Rule::TypeName => is_field_type(text),
        Rule::TokenizerName => is_tokenizer(text),
        Rule::RecordName => is_record(text),
        Rule::FormatName => is_format(text),
        Rule::PolicyName => is_policy(text),
        Rule::AnyText => true,
        Rule::Truth => false,
        Rule::AnyTable => false,
        Rule::Whole { least: _, most: _ } => false,
        Rule::Duration { least: _ } => false,
    }
}

/// A text that has to have the form of its rule.
fn check_form(faults: &mut Faults, rule: Rule, path: Text, value: &Value) -> Result<(), AllocError>
    ensures { OnOk result (faults.new ≡ faults.old ++ rules.text_faults rule path (as_str (view value.now))) }
{
    match value.as_str() {
        Some(text) => wrong_unless(faults, has_form(rule, text.as_bytes()), path),
        None => wrong_unless(faults, false, path),
    }
}

fn is_in(least: u64, most: u64, number: i64) -> bool
    ensures { result ≡ rules.is_in least most number }
{
    if number < 0 {
        return false;
    }
    let size = number as u64;
    least <= size && size <= most
}

fn check_whole(
    faults: &mut Faults,
    least: u64,
    most: u64,
    path: Text,
    value: &Value,
) -> Result<(), AllocError>
    ensures { OnOk result (faults.new ≡ faults.old ++ rules.whole_faults least most path (as_integer (view value.now))) }
{
    match value.as_integer() {
        Some(number) => bad_unless(faults, is_in(least, most, number), path),
        None => wrong_unless(faults, false, path),
    }
}

fn check_duration(
    faults: &mut Faults,
    least: u64,
    path: Text,
    value: &Value,
) -> Result<(), AllocError>
    ensures { OnOk result (faults.new ≡ faults.old ++ rules.duration_faults least path (as_str (view value.now))) }
{
    match value.as_str() {
        Some(text) => check_seconds(faults, least, path, duration_of(text.as_bytes())),
        None => wrong_unless(faults, false, path),
    }
}

fn check_seconds(
    faults: &mut Faults,
    least: u64,
    path: Text,
    seconds: Option<u64>,
) -> Result<(), AllocError>
    ensures { OnOk result (faults.new ≡ faults.old ++ rules.seconds_faults least path seconds) }
{
    match seconds {
        Some(seconds) => bad_unless(faults, least <= seconds && seconds <= MAX_SECONDS, path),
        None => wrong_unless(faults, false, path),
    }
}

/// A value that is no list.
fn check_scalar(
    faults: &mut Faults,
    rule: Rule,
    path: Text,
    value: &Value,
) -> Result<(), AllocError>
    ensures { OnOk result (faults.new ≡ faults.old ++ rules.scalar_faults rule path (view value.now)) }
{
    match rule {
        Rule::Truth => wrong_unless(faults, value.is_bool(), path),
        Rule::AnyTable => wrong_unless(faults, value.is_table(), path),
        Rule::Whole { least, most } => check_whole(faults, least, most, path, value),
        Rule::Duration { least } => check_duration(faults, least, path, value),
        Rule::AnyText => check_form(faults, rule, path, value),
        Rule::IndexId => check_form(faults, rule, path, value),
        Rule::FieldName => check_form(faults, rule, path, value),
        Rule::ModeName => check_form(faults, rule, path, value),
        Rule::TypeName => check_form(faults, rule, path, value),
        Rule::TokenizerName => check_form(faults, rule, path, value),
        Rule::RecordName => check_form(faults, rule, path, value),
        Rule::FormatName => check_form(faults, rule, path, value),
        Rule::PolicyName => check_form(faults, rule, path, value),
    }
}

/// The members of a list.
fn check_items(
    alloc: Global,
    faults: &mut Faults,
    rule: Rule,
    path: &Text,
    items: &[Value],
) -> Result<(), AllocError>
    ensures { OnOk result (faults.new ≡ faults.old ++ rules.items_faults rule path.now 0 (items_view items.now)) }
{
    for (number, item) in items.iter().enumerate() {
        let place = member_path(alloc, path, number)?;
        check_scalar(faults, rule, place, item)?;
    }
    Ok(())
}

fn check_list(
    alloc: Global,
    faults: &mut Faults,
    rule: Rule,
    path: Text,
    value: &Value,
) -> Result<(), AllocError>
    ensures { OnOk result (faults.new ≡ faults.old ++ rules.list_faults rule path (as_array (view value.now))) }
{
    match value.as_array() {
        Some(items) => check_items(alloc, faults, rule, &path, items.as_slice()),
        None => wrong_unless(faults, false, path),
    }
}

fn check_value(
    alloc: Global,
    faults: &mut Faults,
    ask: Ask,
    path: Text,
    value: &Value,
) -> Result<(), AllocError>
    ensures { OnOk result (faults.new ≡ faults.old ++ rules.value_faults ask.list ask.rule path (view value.now)) }
{
    if ask.list {
        check_list(alloc, faults, ask.rule, path, value)
    } else {
        check_scalar(faults, ask.rule, path, value)
    }
}

fn missing_if(faults: &mut Faults, required: bool, path: Text) -> Result<(), AllocError>
    ensures { OnOk result (faults.new ≡ faults.old ++ tables.missing_faults required path) }
{
    if required {
        return faults.push(ConfigError::MissingKey { path });
    }
    Ok(())
}

/// A table that is checked, and its path.
#[derive(Drop)]
pub struct Here<'a> {
    pub alloc: Global,
    pub path: Text,
    pub table: &'a Value,
}

/// A key of a table.
#[tactic(auto, unfolding(crate::specs::Tables::asked))]
pub fn check_key(here: &Here, faults: &mut Faults, ask: Ask, key: &str) -> Result<(), AllocError>
    ensures { OnOk result (faults.new ≡ faults.old ++ tables.asked ask here.now.path key.now (view here.now.table.now)) }
{
    let path = under(here.alloc, &here.path, key)?;
    match here.table.get(key) {
        Some(value) => check_value(here.alloc, faults, ask, path, value),
        None => missing_if(faults, ask.required, path),
    }
}

ghost use Rattle.std.specs.Prelude.{◌≡◌, ℕ, List, ◌++◌, ◌&&◌, [], true, not, is_some, OnOk, flat_map, option_map, codes};
ghost use Rattle.toml.specs.View.{view, items_view};
ghost use Rattle.toml.specs.Data.{get, as_table};
ghost use Rattle.index_config.specs.Rules as rules;
ghost use Rattle.index_config.specs.Tables as spec;
ghost use Rattle.index_config.specs.Fields.{in_option};
ghost use Rattle.index_config.specs.Sections as sections;

use crate::checks::{Here, check_key, wrong_unless};
use crate::config_error::ConfigError;
use crate::keys::is_known;
use crate::names::{member_path, policy_named, type_named, under};
use crate::raw::Faults;
use crate::rule::{Ask, FieldType, PolicyType, Rule, RulePlace, Section};
use doc_value::Text;
use std::alloc::{AllocError, Global};
use std::mem;
use toml::Value;

/// What is asked of a key that may be absent.
macro_rules! optional {
    ($rule:expr) => {
        Ask {
            required: false,
            list: false,
            rule: $rule,
        }
    };
}

/// What is asked of a key that has to be there.
macro_rules! required {
    ($rule:expr) => {
        Ask {
            required: true,
            list: false,
            rule: $rule,
        }
    };
}

/// What is asked of a list that may be absent.
macro_rules! list_of {
    ($rule:expr) => {
        Ask {
            required: false,
            list: true,
            rule: $rule,
        }
    };
}

/// What is asked of a number that may be absent.
macro_rules! whole {
    ($least:expr, $most:expr) => {
        optional!(Rule::Whole {
            least: $least,
            most: $most,
        })
    };
}

/// How deep objects of fields nest.
pub const MAX_LEVELS: usize = 16;

/// What is asked of some keys, in the order of the list.
fn check_keys(here: &Here, faults: &mut Faults, keys: &[(Ask, &str)]) -> Result<(), AllocError>
    ensures { OnOk result (faults.new ≡ faults.old
        ++ flat_map (λ key. spec.asked key.0 here.now.path key.1.now (view here.now.table.now)) keys.now) }
{
    for key in keys {
        check_key(here, faults, key.0, key.1)?;
    }
    Ok(())
}

/// The keys that a table doesn't know, and behind them what is asked of some.
fn check_table(
    here: &Here,
    faults: &mut Faults,
    place: RulePlace,
    keys: &[(Ask, &str)],
) -> Result<(), AllocError>
    ensures { OnOk result (faults.new ≡ faults.old ++ (spec.unknown_faults place here.now.path (spec.members_in (view here.now.table.now))
        ++ flat_map (λ key. spec.asked key.0 here.now.path key.1.now (view here.now.table.now)) keys.now)) }
{
    check_known(here, faults, place)?;
    check_keys(here, faults, keys)
}

/// The keys that a table doesn't know, in byte order.
fn check_known(here: &Here, faults: &mut Faults, place: RulePlace) -> Result<(), AllocError>
    ensures { OnOk result (faults.new ≡ faults.old ++ spec.unknown_faults place here.now.path (spec.members_in (view here.now.table.now))) }
{
    let Some(map) = here.table.as_table() else {
        return Ok(());
    };
    for (key, _) in map {
        check_known_key(here, faults, place, key.as_str())?;
    }
    Ok(())
}

fn check_known_key(
    here: &Here,
    faults: &mut Faults,
    place: RulePlace,
    key: &str,
) -> Result<(), AllocError>
    ensures { OnOk result (faults.new ≡ faults.old ++ spec.unknown_unless (spec.is_known place key.now) (rules.under here.now.path key.now)) }
{
    if is_known(place, key.as_bytes()) {
        return Ok(());
    }
    faults.push(ConfigError::UnknownKey {
        path: under(here.alloc, &here.path, key)?,
    })
}

/// The type of a field, if its table names one.
pub fn type_of(table: &Value) -> Option<FieldType>
    ensures { result ≡ spec.type_of (view table.now) }
{
    match text_at(table, "type") {
        Some(word) => type_named(word.as_bytes()),
        None => None,
    }
}

/// The text at a key.
pub fn text_at<'a>(table: &'a Value, key: &str) -> Option<&'a str>
    ensures { option_map (λ t. t.now) result ≡ spec.text_at key.now (view table.now) }
{
    match table.get(key) {
        Some(value) => value.as_str(),
        None => None,
    }
}

pub fn is_object(field_type: Option<FieldType>) -> bool
    ensures { result ≡ spec.is_object field_type }
{
    match field_type {
        Some(FieldType::Object) => true,
        Some(FieldType::Text) => false,
        Some(FieldType::I64) => false,
        Some(FieldType::U64) => false,
        Some(FieldType::Bool) => false,
        Some(FieldType::Datetime) => false,
        Some(FieldType::TextList) => false,
        None => false,
    }
}

/// The keys of a field of this type. An object that lies too deep is of the wrong kind by its type.
fn check_field(
    here: &Here,
    faults: &mut Faults,
    deepest: bool,
    field_type: Option<FieldType>,
) -> Result<(), AllocError>
    ensures { OnOk result (faults.new ≡ faults.old ++ spec.field_faults deepest here.now.path (view here.now.table.now) field_type) }
{
    let keys = [
        (required!(Rule::FieldName), "name"),
        (required!(Rule::TypeName), "type"),
    ];
    check_table(here, faults, RulePlace::OfField(field_type), &keys)?;
    check_depth(here, faults, deepest, field_type)?;
    check_field_values(here, faults, field_type)?;
    check_field_notes(here, faults)
}

fn check_depth(
    here: &Here,
    faults: &mut Faults,
    deepest: bool,
    field_type: Option<FieldType>,
) -> Result<(), AllocError>
    ensures { OnOk result (faults.new ≡ faults.old
        ++ rules.wrong_unless (not (deepest && spec.is_object field_type)) (rules.under here.now.path (codes "type"))) }
{
    let path = under(here.alloc, &here.path, "type")?;
    wrong_unless(faults, !(deepest && is_object(field_type)), path)
}

/// The keys of a field behind its type. An object has to have the list of its fields.
fn check_field_values(
    here: &Here,
    faults: &mut Faults,
    field_type: Option<FieldType>,
) -> Result<(), AllocError>
    ensures { OnOk result (faults.new ≡ faults.old
        ++ spec.field_value_faults (spec.is_object field_type) here.now.path (view here.now.table.now)) }
{
    let object = is_object(field_type);
    let fields = Ask {
        required: object,
        list: true,
        rule: Rule::AnyTable,
    };
    let keys = [
        (optional!(Rule::Truth), "fast"),
        (optional!(Rule::Truth), "indexed"),
        (optional!(Rule::TokenizerName), "tokenizer"),
        (optional!(Rule::RecordName), "record"),
        (list_of!(Rule::FormatName), "input_formats"),
        (fields, "field_mappings"),
    ];
    check_keys(here, faults, &keys)
}

/// The keys of a field that have no effect.
fn check_field_notes(here: &Here, faults: &mut Faults) -> Result<(), AllocError>
    ensures { OnOk result (faults.new ≡ faults.old ++ spec.field_note_faults here.now.path (view here.now.table.now)) }
{
    let keys = [
        (optional!(Rule::Truth), "stored"),
        (optional!(Rule::Truth), "fieldnorms"),
        (optional!(Rule::AnyText), "description"),
        (optional!(Rule::AnyText), "output_format"),
        (optional!(Rule::AnyText), "fast_precision"),
    ];
    check_keys(here, faults, &keys)
}

/// The fields in the list of the mapping or an object, in which objects may nest to so many levels.
#[cycle(fields)]
fn check_fields(here: &Here, faults: &mut Faults, levels: usize) -> Result<(), AllocError>
    ensures { OnOk result (faults.new ≡ faults.old ++ spec.fields_faults levels
        (rules.under here.now.path (codes "field_mappings")) (spec.items_in (get (codes "field_mappings") (view here.now.table.now)))) }
{
    let list_path = under(here.alloc, &here.path, "field_mappings")?;
    let items = items_at(here.table, "field_mappings");
    for (number, item) in items.iter().enumerate() {
        if let Err(error) = check_member(here.alloc, faults, levels, &list_path, number, item) {
            mem::drop(list_path);
            return Err(error);
        }
    }
    mem::drop(list_path);
    Ok(())
}

/// A member of a list of fields, and behind it the fields of an object.
#[cycle(fields)]
fn check_member(
    alloc: Global,
    faults: &mut Faults,
    levels: usize,
    path: &Text,
    number: usize,
    table: &Value,
) -> Result<(), AllocError>
    ensures { OnOk result (faults.new ≡ faults.old ++ spec.member_at levels path.now number (view table.now)) }
{
    if !table.is_table() {
        return Ok(());
    }
    let path = member_path(alloc, path, number)?;
    let here = Here { alloc, path, table };
    let checked = check_levels(&here, faults, levels);
    mem::drop(here);
    checked
}

/// A table in a list of fields, and behind it the fields of an object.
#[cycle(fields)]
fn check_levels(here: &Here, faults: &mut Faults, levels: usize) -> Result<(), AllocError>
    ensures { (path : List ℕ) (number : ℕ) → here.now.path ≡ rules.member_path path number → is_some (as_table (view here.now.table.now)) ≡ true
        → OnOk result (faults.new ≡ faults.old ++ spec.member_at levels path number (view here.now.table.now)) }
{
    let field_type = type_of(here.table);
    if levels == 0 {
        return check_field(here, faults, true, field_type);
    }
    check_field(here, faults, false, field_type)?;
    if !is_object(field_type) {
        return Ok(());
    }
    check_fields(here, faults, levels - 1)
}

fn check_mapping(here: &Here, faults: &mut Faults) -> Result<(), AllocError>
    ensures { OnOk result (faults.new ≡ faults.old ++ spec.mapping_faults here.now.path (view here.now.table.now)) }
{
    let keys = [
        (optional!(Rule::ModeName), "mode"),
        (list_of!(Rule::AnyTable), "field_mappings"),
        (optional!(Rule::AnyText), "timestamp_field"),
        (list_of!(Rule::AnyText), "tag_fields"),
        (optional!(Rule::Truth), "store_source"),
        (optional!(Rule::Truth), "index_field_presence"),
    ];
    check_table(here, faults, RulePlace::Mapping, &keys)?;
    check_fields(here, faults, MAX_LEVELS)
}

/// The number at a key, if it is one and not below 0.
pub fn number_at(table: &Value, key: &str) -> Option<u64>
    ensures { result ≡ spec.number_at key.now (view table.now) }
{
    match table.get(key) {
        Some(value) => natural(value.as_integer()),
        None => None,
    }
}

fn natural(number: Option<i64>) -> Option<u64>
    ensures { result ≡ spec.natural_in number }
{
    match number {
        Some(number) => {
            if number < 0 {
                None
            } else {
                Some(number as u64)
            }
        }
        None => None,
    }
}

pub fn merge_factor(table: &Value) -> u64
    ensures { result ≡ spec.merge_factor (view table.now) }
{
    number_at(table, "merge_factor").unwrap_or(10)
}

/// The policy's type, which is `stable_log` where it is absent.
pub fn policy_type(table: &Value) -> Option<PolicyType>
    ensures { result ≡ spec.policy_type (view table.now) }
{
    match table.get("type") {
        Some(value) => policy_of(value),
        None => Some(PolicyType::StableLog),
    }
}

fn policy_of(value: &Value) -> Option<PolicyType>
    ensures { result ≡ spec.policy_of (view value.now) }
{
    match value.as_str() {
        Some(word) => policy_named(word.as_bytes()),
        None => None,
    }
}

/// The keys of the merge policy, whose greatest factor is no less than the factor in force.
fn check_policy(here: &Here, faults: &mut Faults) -> Result<(), AllocError>
    ensures { OnOk result (faults.new ≡ faults.old ++ spec.policy_faults here.now.path (view here.now.table.now)) }
{
    let kind = policy_type(here.table);
    let least = merge_factor(here.table);
    let keys = [
        (optional!(Rule::PolicyName), "type"),
        (whole!(1, 16_777_216), "min_level_num_docs"),
        (whole!(2, 100), "merge_factor"),
        (whole!(least, 100), "max_merge_factor"),
        (whole!(1, 100), "max_merge_ops"),
        (optional!(Rule::Duration { least: 0 }), "maturation_period"),
    ];
    check_table(here, faults, RulePlace::OfPolicy(kind), &keys)
}

/// The keys of the indexing settings, without those of the policy in them.
fn check_indexing(here: &Here, faults: &mut Faults) -> Result<(), AllocError>
    ensures { OnOk result (faults.new ≡ faults.old ++ spec.indexing_key_faults here.now.path (view here.now.table.now)) }
{
    let keys = [
        (whole!(1, 86_400), "commit_timeout_secs"),
        (whole!(1, 16_777_216), "split_num_docs_target"),
        (optional!(Rule::AnyTable), "resources"),
    ];
    check_table(here, faults, RulePlace::Indexing, &keys)
}

fn check_search(here: &Here, faults: &mut Faults) -> Result<(), AllocError>
    ensures { OnOk result (faults.new ≡ faults.old ++ spec.search_faults here.now.path (view here.now.table.now)) }
{
    let keys = [(list_of!(Rule::AnyText), "default_search_fields")];
    check_table(here, faults, RulePlace::Search, &keys)
}

fn check_retention(here: &Here, faults: &mut Faults) -> Result<(), AllocError>
    ensures { OnOk result (faults.new ≡ faults.old ++ spec.retention_faults here.now.path (view here.now.table.now)) }
{
    let keys = [
        (required!(Rule::Duration { least: 1 }), "period"),
        (optional!(Rule::AnyText), "schedule"),
    ];
    check_table(here, faults, RulePlace::Retention, &keys)
}

fn check_upkeep(here: &Here, faults: &mut Faults) -> Result<(), AllocError>
    ensures { OnOk result (faults.new ≡ faults.old ++ spec.upkeep_faults here.now.path (view here.now.table.now)) }
{
    let keys = [
        (whole!(1, 2_147_483_647), "staged_grace_secs"),
        (whole!(1, 2_147_483_647), "deletion_grace_secs"),
    ];
    check_table(here, faults, RulePlace::Upkeep, &keys)
}

fn check_top(here: &Here, faults: &mut Faults) -> Result<(), AllocError>
    ensures { OnOk result (faults.new ≡ faults.old ++ spec.top_faults here.now.path (view here.now.table.now)) }
{
    let keys = [
        (optional!(Rule::AnyText), "version"),
        (required!(Rule::IndexId), "index_id"),
        (optional!(Rule::AnyText), "index_uri"),
        (required!(Rule::AnyTable), "doc_mapping"),
    ];
    check_table(here, faults, RulePlace::Top, &keys)
}

fn check_top_at(alloc: Global, faults: &mut Faults, table: &Value) -> Result<(), AllocError>
    ensures { OnOk result (faults.new ≡ faults.old ++ spec.top_faults [] (view table.now)) }
{
    let path = Text::vacant(alloc);
    check_top(&Here { alloc, path, table }, faults)
}

/// The mapping, where it is a table.
fn check_mapping_at(alloc: Global, faults: &mut Faults, root: &Value) -> Result<(), AllocError>
    ensures { OnOk result (faults.new ≡ faults.old ++ spec.where_table (spec.mapping_faults spec.mapping_path) (get spec.mapping_path (view root.now))) }
{
    match root.get("doc_mapping") {
        Some(table) => {
            if !table.is_table() {
                return Ok(());
            }
            let path = Text::from_str(alloc, "doc_mapping")?;
            check_mapping(&Here { alloc, path, table }, faults)
        }
        None => Ok(()),
    }
}

/// The table of the policy, which stands in that of the indexing settings.
pub fn policy_table(root: &Value) -> Option<&Value>
    ensures { option_map (λ v. view v.now) result ≡ in_option (codes "merge_policy") (get (codes "indexing_settings") (view root.now)) }
{
    match root.get("indexing_settings") {
        Some(table) => table.get("merge_policy"),
        None => None,
    }
}

/// The value where the table of a section stands.
fn section_in(root: &Value, section: Section) -> Option<&Value>
    ensures { option_map (λ v. view v.now) result ≡ sections.section_in section (view root.now) }
{
    match section {
        Section::Indexing => root.get("indexing_settings"),
        Section::Policy => policy_table(root),
        Section::Search => root.get("search_settings"),
        Section::Retention => root.get("retention"),
        Section::Upkeep => root.get("upkeep"),
    }
}

fn section_path(section: Section) -> &'static str
    ensures { result.now ≡ sections.section_path section }
{
    match section {
        Section::Indexing => "indexing_settings",
        Section::Policy => "indexing_settings.merge_policy",
        Section::Search => "search_settings",
        Section::Retention => "retention",
        Section::Upkeep => "upkeep",
    }
}

/// The keys of a section.
fn check_section(here: &Here, faults: &mut Faults, section: Section) -> Result<(), AllocError>
    ensures { OnOk result (faults.new ≡ faults.old ++ sections.key_faults section here.now.path (view here.now.table.now)) }
{
    match section {
        Section::Indexing => check_indexing(here, faults),
        Section::Policy => check_policy(here, faults),
        Section::Search => check_search(here, faults),
        Section::Retention => check_retention(here, faults),
        Section::Upkeep => check_upkeep(here, faults),
    }
}

/// A section, which is of the wrong kind where it is no table.
fn check_section_at(
    alloc: Global,
    faults: &mut Faults,
    section: Section,
    root: &Value,
) -> Result<(), AllocError>
    ensures { OnOk result (faults.new ≡ faults.old ++ sections.section_faults section (view root.now)) }
{
    match section_in(root, section) {
        Some(table) => {
            let path = Text::from_str(alloc, section_path(section))?;
            if table.is_table() {
                check_section(&Here { alloc, path, table }, faults, section)
            } else {
                wrong_unless(faults, false, path)
            }
        }
        None => Ok(()),
    }
}

/// All that is wrong with the tables, in the order in which they are visited.
pub fn check_tables(alloc: Global, faults: &mut Faults, root: &Value) -> Result<(), AllocError>
    ensures { OnOk result (faults.new ≡ faults.old ++ spec.table_faults (view root.now)) }
{
    check_top_at(alloc, faults, root)?;
    check_mapping_at(alloc, faults, root)?;
    check_section_at(alloc, faults, Section::Indexing, root)?;
    check_section_at(alloc, faults, Section::Policy, root)?;
    check_section_at(alloc, faults, Section::Search, root)?;
    check_section_at(alloc, faults, Section::Retention, root)?;
    check_section_at(alloc, faults, Section::Upkeep, root)
}

/// The members of the list at a key; none where no list stands there.
pub fn items_at<'a>(table: &'a Value, key: &str) -> &'a [Value]
    ensures { items_view result.now ≡ spec.items_in (get key.now (view table.now)) }
{
    match table.get(key) {
        Some(value) => items_of(value),
        None => &[],
    }
}

pub fn items_of(value: &Value) -> &[Value]
    ensures { items_view result.now ≡ spec.list_items (view value.now) }
{
    match value.as_array() {
        Some(items) => items.as_slice(),
        None => &[],
    }
}

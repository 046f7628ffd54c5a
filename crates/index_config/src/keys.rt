ghost use Rattle.std.specs.Prelude.{◌≡◌};
ghost use Rattle.index_config.specs.Tables as spec;

use crate::names::is_same;
use crate::rule::{FieldType, PolicyType, RulePlace};

/// Whether a table knows a key.
pub fn is_known(place: RulePlace, key: &[u8]) -> bool
    ensures { result ≡ spec.is_known place key.now }
{
    match place {
        RulePlace::Top => is_top_key(key),
        RulePlace::Mapping => is_mapping_key(key),
        RulePlace::Indexing => is_indexing_key(key),
        RulePlace::Search => is_search_key(key),
        RulePlace::Retention => is_retention_key(key),
        RulePlace::Upkeep => is_upkeep_key(key),
        RulePlace::OfField(field_type) => is_field_key(field_type, key),
        RulePlace::OfPolicy(policy_type) => is_policy_key(policy_type, key),
    }
}

fn is_top_key(key: &[u8]) -> bool
    ensures { result ≡ spec.is_top_key key.now }
{
    is_same(key, b"version")
        || is_same(key, b"index_id")
        || is_same(key, b"index_uri")
        || is_same(key, b"doc_mapping")
        || is_same(key, b"indexing_settings")
        || is_same(key, b"search_settings")
        || is_same(key, b"retention")
        || is_same(key, b"upkeep")
}

fn is_mapping_key(key: &[u8]) -> bool
    ensures { result ≡ spec.is_mapping_key key.now }
{
    is_same(key, b"mode")
        || is_same(key, b"field_mappings")
        || is_same(key, b"timestamp_field")
        || is_same(key, b"tag_fields")
        || is_same(key, b"store_source")
        || is_same(key, b"index_field_presence")
}

fn is_indexing_key(key: &[u8]) -> bool
    ensures { result ≡ spec.is_indexing_key key.now }
{
    is_same(key, b"commit_timeout_secs")
        || is_same(key, b"split_num_docs_target")
        || is_same(key, b"resources")
        || is_same(key, b"merge_policy")
}

fn is_search_key(key: &[u8]) -> bool
    ensures { result ≡ spec.is_search_key key.now }
{
    is_same(key, b"default_search_fields")
}

fn is_retention_key(key: &[u8]) -> bool
    ensures { result ≡ spec.is_retention_key key.now }
{
    is_same(key, b"period") || is_same(key, b"schedule")
}

fn is_upkeep_key(key: &[u8]) -> bool
    ensures { result ≡ spec.is_upkeep_key key.now }
{
    is_same(key, b"staged_grace_secs") || is_same(key, b"deletion_grace_secs")
}

fn is_shared_key(key: &[u8]) -> bool
    ensures { result ≡ spec.is_shared_key key.now }
{
    is_same(key, b"name") || is_same(key, b"type") || is_same(key, b"description")
}

fn is_value_key(key: &[u8]) -> bool
    ensures { result ≡ spec.is_value_key key.now }
{
    is_same(key, b"fast")
        || is_same(key, b"indexed")
        || is_same(key, b"stored")
        || is_same(key, b"fieldnorms")
        || is_same(key, b"output_format")
        || is_same(key, b"fast_precision")
}

fn is_text_key(key: &[u8]) -> bool
    ensures { result ≡ spec.is_text_key key.now }
{
    is_same(key, b"tokenizer") || is_same(key, b"record")
}

fn is_date_key(key: &[u8]) -> bool
    ensures { result ≡ spec.is_date_key key.now }
{
    is_same(key, b"input_formats")
}

fn is_object_key(key: &[u8]) -> bool
    ensures { result ≡ spec.is_object_key key.now }
{
    is_same(key, b"field_mappings")
}

fn is_merging_key(key: &[u8]) -> bool
    ensures { result ≡ spec.is_merging_key key.now }
{
    is_same(key, b"merge_factor")
        || is_same(key, b"max_merge_factor")
        || is_same(key, b"maturation_period")
}

/// The keys of a field by its type; where that is none of the list, all of them.
fn is_field_key(field_type: Option<FieldType>, key: &[u8]) -> bool
    ensures { result ≡ spec.is_field_key field_type key.now }
{
    match field_type {
        Some(FieldType::Text) => is_shared_key(key) || is_value_key(key) || is_text_key(key),
        Some(FieldType::TextList) => is_shared_key(key) || is_value_key(key) || is_text_key(key),
        Some(FieldType::I64) => is_shared_key(key) || is_value_key(key),
        Some(FieldType::U64) => is_shared_key(key) || is_value_key(key),
        Some(FieldType::Bool) => is_shared_key(key) || is_value_key(key),
        Some(FieldType::Datetime) => is_shared_key(key) || is_value_key(key) || is_date_key(key),
        Some(FieldType::Object) => is_shared_key(key) || is_object_key(key),
        None => {
            is_shared_key(key)
                || is_value_key(key)
                || is_text_key(key)
                || is_date_key(key)
                || is_object_key(key)
        }
    }
}

/// The keys of a merge policy by its type; where that is none of the list, all of them.
fn is_policy_key(policy_type: Option<PolicyType>, key: &[u8]) -> bool
    ensures { result ≡ spec.is_policy_key policy_type key.now }
{
    match policy_type {
        Some(PolicyType::StableLog) => {
            is_same(key, b"type") || is_merging_key(key) || is_same(key, b"min_level_num_docs")
        }
        Some(PolicyType::LimitMerge) => {
            is_same(key, b"type") || is_merging_key(key) || is_same(key, b"max_merge_ops")
        }
        Some(PolicyType::NoMerge) => is_same(key, b"type"),
        None => {
            is_same(key, b"type")
                || is_merging_key(key)
                || is_same(key, b"min_level_num_docs")
                || is_same(key, b"max_merge_ops")
        }
    }
}

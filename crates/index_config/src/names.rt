ghost use Rattle.std.specs.Prelude.{◌≡◌, ◌∷◌, ◌++◌, OnOk, IfOk};
ghost use Rattle.std.specs.Str.{bytes_eq};
ghost use Rattle.std.specs.List.{list_all};
ghost use Rattle.index_config.specs.Rules as rules;
ghost use Rattle.index_config.specs.Tables as tables;
ghost use Rattle.index_config.specs.Fields as fields;

use crate::config::Mode;
use crate::rule::{FieldType, PolicyType};
use doc_value::{Replica, Text, Tokenizer};
use std::alloc::{AllocError, Global};
use std::mem;
use std::string::ToString;

/// Whether two texts have the same bytes.
pub fn is_same(text: &[u8], word: &[u8]) -> bool
    ensures { result ≡ bytes_eq text.now word.now }
{
    text == word
}

fn is_letter(byte: u8) -> bool
    ensures { result ≡ rules.is_letter byte }
{
    (65 <= byte && byte <= 90) || (97 <= byte && byte <= 122)
}

pub fn is_digit(byte: u8) -> bool
    ensures { result ≡ rules.is_digit byte }
{
    48 <= byte && byte <= 57
}

fn is_id_byte(byte: u8) -> bool
    ensures { result ≡ rules.is_id_byte byte }
{
    is_letter(byte) || is_digit(byte) || byte == b'-' || byte == b'_'
}

fn are_id_bytes(text: &[u8]) -> bool
    ensures { result ≡ list_all rules.is_id_byte text.now }
{
    for byte in text {
        if !is_id_byte(*byte) {
            return false;
        }
    }
    true
}

fn begins_with_letter(text: &[u8]) -> bool
    ensures { result ≡ rules.begins_with_letter text.now }
{
    match text {
        [] => false,
        [first, ..] => is_letter(*first),
    }
}

/// A letter, then letters, digits, `-` and `_`; 3 to 255.
pub fn is_index_id(text: &[u8]) -> bool
    ensures { result ≡ rules.is_index_id text.now }
{
    begins_with_letter(text) && are_id_bytes(text) && 3 <= text.len() && text.len() <= 255
}

fn is_name_start(byte: u8) -> bool
    ensures { result ≡ rules.is_name_start byte }
{
    is_letter(byte) || byte == b'_' || byte == b'@' || byte == b'$'
}

fn is_name_byte(byte: u8) -> bool
    ensures { result ≡ rules.is_name_byte byte }
{
    is_name_start(byte) || is_digit(byte) || byte == b'-'
}

fn are_name_bytes(text: &[u8]) -> bool
    ensures { result ≡ list_all rules.is_name_byte text.now }
{
    for byte in text {
        if !is_name_byte(*byte) {
            return false;
        }
    }
    true
}

fn begins_as_name(text: &[u8]) -> bool
    ensures { result ≡ rules.begins_as_name text.now }
{
    match text {
        [] => false,
        [first, ..] => is_name_start(*first),
    }
}

/// A letter, `_`, `@` or `$`, then these, digits and `-`; 1 to 255.
pub fn is_field_name(text: &[u8]) -> bool
    ensures { result ≡ rules.is_field_name text.now }
{
    begins_as_name(text) && are_name_bytes(text) && text.len() <= 255
}

pub fn is_mode(word: &[u8]) -> bool
    ensures { result ≡ rules.is_mode word.now }
{
    is_same(word, b"strict") || is_same(word, b"lenient") || is_same(word, b"dynamic")
}

pub fn is_tokenizer(word: &[u8]) -> bool
    ensures { result ≡ rules.is_tokenizer word.now }
{
    is_same(word, b"raw") || is_same(word, b"whitespace") || is_same(word, b"default")
}

pub fn is_record(word: &[u8]) -> bool
    ensures { result ≡ rules.is_record word.now }
{
    is_same(word, b"basic") || is_same(word, b"freq") || is_same(word, b"position")
}

pub fn is_format(word: &[u8]) -> bool
    ensures { result ≡ rules.is_format word.now }
{
    is_same(word, b"rfc3339") || is_same(word, b"unix_timestamp")
}

pub fn is_policy(word: &[u8]) -> bool
    ensures { result ≡ rules.is_policy word.now }
{
    is_same(word, b"stable_log") || is_same(word, b"limit_merge") || is_same(word, b"no_merge")
}

pub fn is_field_type(word: &[u8]) -> bool
    ensures { result ≡ rules.is_field_type word.now }
{
    is_same(word, b"text")
        || is_same(word, b"i64")
        || is_same(word, b"u64")
        || is_same(word, b"bool")
        || is_same(word, b"datetime")
        || is_same(word, b"object")
        || is_same(word, b"array<text>")
}

/// The type with this name.
pub fn type_named(word: &[u8]) -> Option<FieldType>
    ensures { result ≡ tables.type_named word.now }
{
    if is_same(word, b"text") {
        Some(FieldType::Text)
    } else if is_same(word, b"i64") {
        Some(FieldType::I64)
    } else if is_same(word, b"u64") {
        Some(FieldType::U64)
    } else if is_same(word, b"bool") {
        Some(FieldType::Bool)
    } else if is_same(word, b"datetime") {
        Some(FieldType::Datetime)
    } else if is_same(word, b"object") {
        Some(FieldType::Object)
    } else if is_same(word, b"array<text>") {
        Some(FieldType::TextList)
    } else {
        None
    }
}

/// The policy with this name.
pub fn policy_named(word: &[u8]) -> Option<PolicyType>
    ensures { result ≡ tables.policy_named word.now }
{
    if is_same(word, b"stable_log") {
        Some(PolicyType::StableLog)
    } else if is_same(word, b"limit_merge") {
        Some(PolicyType::LimitMerge)
    } else if is_same(word, b"no_merge") {
        Some(PolicyType::NoMerge)
    } else {
        None
    }
}

pub fn tokenizer_named(word: &[u8]) -> Tokenizer
    ensures { result ≡ fields.tokenizer_named word.now }
{
    if is_same(word, b"raw") {
        Tokenizer::Raw
    } else if is_same(word, b"whitespace") {
        Tokenizer::Whitespace
    } else {
        Tokenizer::Default
    }
}

pub fn mode_named(word: &[u8]) -> Mode
    ensures { result ≡ fields.mode_named word.now }
{
    if is_same(word, b"strict") {
        Mode::Strict
    } else if is_same(word, b"lenient") {
        Mode::Lenient
    } else {
        Mode::Dynamic
    }
}

/// The path of a key in a table with this path; the whole configuration has the empty path.
pub fn under(alloc: Global, path: &Text, key: &str) -> Result<Text, AllocError>
    ensures { IfOk result (λ text. text ≡ rules.under path.now key.now) }
{
    if path.len() == 0 {
        return Text::from_str(alloc, key);
    }
    joined(alloc, path, key)
}

/// A path with one more word behind a dot.
fn joined(alloc: Global, path: &Text, word: &str) -> Result<Text, AllocError>
    ensures { IfOk result (λ text. text ≡ path.now ++ 46 ∷ word.now) }
{
    let mut text = path.copy(alloc)?;
    match put_word(&mut text, word) {
        Ok(()) => Ok(text),
        Err(error) => {
            mem::drop(text);
            Err(error)
        }
    }
}

fn put_word(text: &mut Text, word: &str) -> Result<(), AllocError>
    ensures { OnOk result (text.new ≡ text.old ++ 46 ∷ word.now) }
{
    text.push('.')?;
    text.extend(word)
}

/// The path of a member of a list.
pub fn member_path(alloc: Global, path: &Text, number: usize) -> Result<Text, AllocError>
    ensures { IfOk result (λ text. text ≡ rules.member_path path.now number) }
{
    let digits = number.to_string(alloc)?;
    joined(alloc, path, digits.as_str())
}

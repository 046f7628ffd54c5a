// The value that a text spells.

ghost use Rattle.std.specs.Prelude.{◌≡◌, ◌^◌, IfOk, option_and_then};
ghost use Rattle.query_ast.specs.Spelled.{below, number_from, unsigned_of, signed_of, truth_of, datetime_of, spelled, are_digits, negative};

use clock_time::{read_rfc3339, read_unix};
use doc_value::{Kind, Text, Value};
use std::alloc::{AllocError, Global};

/// The number that decimal digits spell, if it fits 64 bits; no digits spell 0.
fn digits(text: &[u8]) -> Option<u64>
    ensures { result ≡ option_and_then (below (2 ^ 64)) (number_from 0 text.now) }
{
    let mut number: u128 = 0;
    for byte in text {
        if !byte.is_ascii_digit() {
            return None;
        }
        number = number * 10 + (*byte - b'0') as u128;
        if number > u64::MAX as u128 {
            return None;
        }
    }
    Some(number as u64)
}

pub(crate) fn unsigned(text: &[u8]) -> Option<u64>
    ensures { result ≡ unsigned_of text.now }
{
    match text {
        [] => None,
        _ => digits(text),
    }
}

/// The number below zero of this size.
fn negated(size: u64) -> Option<i64>
    ensures { result ≡ negative size }
{
    if size > 1 << 63 {
        None
    } else if size == 0 {
        Some(0)
    } else {
        Some(-((size - 1) as i64) - 1)
    }
}

/// The number that decimal digits spell, maybe behind a `-`, if it fits.
pub(crate) fn signed(text: &[u8]) -> Option<i64>
    ensures { result ≡ signed_of text.now }
{
    match text {
        [b'-', rest @ ..] => match unsigned(rest) {
            Some(size) => negated(size),
            None => None,
        },
        _ => match unsigned(text) {
            Some(size) => {
                if size <= i64::MAX as u64 {
                    Some(size as i64)
                } else {
                    None
                }
            }
            None => None,
        },
    }
}

fn is_digits(text: &[u8]) -> bool
    ensures { result ≡ are_digits text.now }
{
    for byte in text {
        if !byte.is_ascii_digit() {
            return false;
        }
    }
    true
}

pub(crate) fn truth(text: &[u8]) -> Option<bool>
    ensures { result ≡ truth_of text.now }
{
    if text == b"true".as_slice() {
        Some(true)
    } else if text == b"false".as_slice() {
        Some(false)
    } else {
        None
    }
}

/// The second of a datetime: of digits by their size, of any other text as RFC 3339 has it.
pub(crate) fn datetime(text: &str) -> Option<i64>
    ensures { result ≡ datetime_of text.now }
{
    if is_digits(text.as_bytes()) {
        match signed(text.as_bytes()) {
            Some(number) => match read_unix(number) {
                Ok(seconds) => Some(seconds),
                Err(_) => None,
            },
            None => None,
        }
    } else {
        match read_rfc3339(text) {
            Ok(seconds) => Some(seconds),
            Err(_) => None,
        }
    }
}

/// The value of this kind that a text spells: digits with an optional `-` for I64, digits for U64, `true` or `false`,
/// for a datetime digits or an RFC 3339 text; any text is a value of a text field.
pub fn value_of(alloc: Global, kind: Kind, text: &str) -> Result<Option<Value>, AllocError>
    ensures { IfOk result (λ v. v ≡ spelled kind text.now) }
{
    match kind {
        Kind::Text | Kind::TextList => Ok(Some(Value::Text(Text::from_str(alloc, text)?))),
        Kind::I64 => match signed(text.as_bytes()) {
            Some(number) => Ok(Some(Value::I64(number))),
            None => Ok(None),
        },
        Kind::U64 => match unsigned(text.as_bytes()) {
            Some(number) => Ok(Some(Value::U64(number))),
            None => Ok(None),
        },
        Kind::Bool => match truth(text.as_bytes()) {
            Some(truth) => Ok(Some(Value::Bool(truth))),
            None => Ok(None),
        },
        Kind::Datetime => match datetime(text) {
            Some(seconds) => Ok(Some(Value::Datetime(seconds))),
            None => Ok(None),
        },
    }
}

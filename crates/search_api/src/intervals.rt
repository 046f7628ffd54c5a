//! Lengths of time as they are spelled.

ghost use Rattle.std.specs.Prelude.{◌≡◌, ◌^◌, ◌<◌, IfSome, nat_lt, if◌then◌else◌, Some, None, option_map, pos, neg_ℤ};
ghost use Rattle.search_api.specs.Intervals as spec;

use agg_model::Distance;

fn is_digit(byte: u8) -> bool
    ensures { result ≡ spec.is_digit byte }
{
    byte >= b'0' && byte <= b'9'
}

fn begins_with_digit(text: &[u8]) -> bool
    ensures { result ≡ spec.begins_with_digit text.now }
{
    match text {
        [] => false,
        [first, ..] => is_digit(*first),
    }
}

/// The number that the digits at the front make, where it is below 2^64.
#[tactic(auto, using(crate::proofs::Digits::leading_grows))]
fn leading_number(text: &[u8]) -> Option<u64>
    ensures { result ≡ (if nat_lt (spec.leading_number 0 text.now) (2 ^ 64) then Some (spec.leading_number 0 text.now) else None) }
{
    let mut number: u128 = 0;
    for byte in text {
        if !is_digit(*byte) {
            return Some(number as u64);
        }
        number = number * 10 + (*byte as u128 - 48);
        if number > u64::MAX as u128 {
            return None;
        }
    }
    Some(number as u64)
}

fn after_digits(text: &[u8]) -> &[u8]
    ensures { result.now ≡ spec.after_digits text.now }
{
    let mut rest = text;
    while let [first, more @ ..] = rest {
        if !is_digit(*first) {
            return rest;
        }
        rest = more;
    }
    rest
}

/// So many of a unit in seconds.
fn in_seconds(number: u64, unit: &[u8]) -> Option<u128>
    ensures value { result ≡ spec.in_seconds number unit.now }
    ensures small { IfSome result (λ seconds. seconds < 2 ^ 82) }
{
    let number = number as u128;
    if unit == b"ms".as_slice() {
        if number % 1000 == 0 {
            Some(number / 1000)
        } else {
            None
        }
    } else if unit == b"s".as_slice() {
        Some(number)
    } else if unit == b"m".as_slice() {
        Some(number * 60)
    } else if unit == b"h".as_slice() {
        Some(number * 3600)
    } else if unit == b"d".as_slice() {
        Some(number * 86400)
    } else {
        None
    }
}

/// The seconds of digits below 2^64 and a unit.
#[tactic(auto, unfolding(crate::specs::Intervals::seconds_of))]
pub fn seconds_of(text: &[u8]) -> Option<u128>
    ensures value { result ≡ spec.seconds_of text.now }
    ensures small { IfSome result (λ seconds. seconds < 2 ^ 82) }
{
    if !begins_with_digit(text) {
        return None;
    }
    match leading_number(text) {
        Some(number) => in_seconds(number, after_digits(text)),
        None => None,
    }
}

fn positive(text: &[u8]) -> Option<Distance>
    ensures { result ≡ option_map pos (spec.seconds_of text.now) }
{
    match seconds_of(text) {
        Some(seconds) => Some(Distance::new(seconds as i128)),
        None => None,
    }
}

fn negative(text: &[u8]) -> Option<Distance>
    ensures { result ≡ option_map (λ n. neg_ℤ (pos n)) (spec.seconds_of text.now) }
{
    match seconds_of(text) {
        Some(seconds) => Some(Distance::new(-(seconds as i128))),
        None => None,
    }
}

/// The same with a sign before it, or none.
pub fn signed_seconds(text: &[u8]) -> Option<Distance>
    ensures { result ≡ spec.signed_seconds text.now }
{
    match text {
        [] => None,
        [b'-', rest @ ..] => negative(rest),
        [b'+', rest @ ..] => positive(rest),
        _ => positive(text),
    }
}

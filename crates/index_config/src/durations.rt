ghost use Rattle.std.specs.Prelude.{◌≡◌, ◌≤◌, ◌^◌, ◌<◌, IfSome};
ghost use Rattle.index_config.specs.Rules as spec;

use crate::names::{is_digit, is_same};

/// The greatest duration in seconds.
pub const MAX_SECONDS: u64 = 2_147_483_647;

/// The seconds of digits, optional blanks and a unit. A number that is too large anyway counts as one above the greatest.
pub fn duration_of(text: &[u8]) -> Option<u64>
    ensures { result ≡ spec.duration_of text.now }
{
    if !begins_with_digit(text) {
        return None;
    }
    let number = leading_number(text);
    match unit_seconds(after_blanks(after_digits(text))) {
        Some(unit) => Some(number * unit),
        None => None,
    }
}

fn begins_with_digit(text: &[u8]) -> bool
    ensures { result ≡ spec.begins_with_digit text.now }
{
    match text {
        [] => false,
        [first, ..] => is_digit(*first),
    }
}

fn capped(number: u64) -> u64
    ensures { result ≡ spec.capped number }
{
    if number <= MAX_SECONDS {
        number
    } else {
        MAX_SECONDS + 1
    }
}

fn leading_number(text: &[u8]) -> u64
    ensures value { result ≡ spec.leading_number 0 text.now }
    ensures small { result ≤ 2 ^ 31 }
{
    let mut number = 0;
    for byte in text {
        if !is_digit(*byte) {
            return number;
        }
        number = capped(number * 10 + (*byte as u64 - 48));
    }
    number
}

fn after_digits(text: &[u8]) -> &[u8]
    ensures { result.now ≡ spec.after_digits text.now }
{
    let mut rest = text;
    while let [first, more @ ..] = rest {
        if !is_digit(*first) {
            return rest;
        }
        rest = more;
    }
    rest
}

fn after_blanks(text: &[u8]) -> &[u8]
    ensures { result.now ≡ spec.after_blanks text.now }
{
    let mut rest = text;
    while let [first, more @ ..] = rest {
        if *first != b' ' {
            return rest;
        }
        rest = more;
    }
    rest
}

fn is_second(unit: &[u8]) -> bool
    ensures { result ≡ spec.is_second unit.now }
{
    is_same(unit, b"s")
        || is_same(unit, b"sec")
        || is_same(unit, b"secs")
        || is_same(unit, b"second")
        || is_same(unit, b"seconds")
}

fn is_minute(unit: &[u8]) -> bool
    ensures { result ≡ spec.is_minute unit.now }
{
    is_same(unit, b"m")
        || is_same(unit, b"min")
        || is_same(unit, b"mins")
        || is_same(unit, b"minute")
        || is_same(unit, b"minutes")
}

fn is_hour(unit: &[u8]) -> bool
    ensures { result ≡ spec.is_hour unit.now }
{
    is_same(unit, b"h")
        || is_same(unit, b"hr")
        || is_same(unit, b"hrs")
        || is_same(unit, b"hour")
        || is_same(unit, b"hours")
}

fn is_day(unit: &[u8]) -> bool
    ensures { result ≡ spec.is_day unit.now }
{
    is_same(unit, b"d") || is_same(unit, b"day") || is_same(unit, b"days")
}

fn is_week(unit: &[u8]) -> bool
    ensures { result ≡ spec.is_week unit.now }
{
    is_same(unit, b"w") || is_same(unit, b"week") || is_same(unit, b"weeks")
}

/// The seconds of a unit.
fn unit_seconds(unit: &[u8]) -> Option<u64>
    ensures value { result ≡ spec.unit_seconds unit.now }
    ensures small { IfSome result (λ seconds. seconds ≤ 604800) }
{
    if is_second(unit) {
        Some(1)
    } else if is_minute(unit) {
        Some(60)
    } else if is_hour(unit) {
        Some(3_600)
    } else if is_day(unit) {
        Some(86_400)
    } else if is_week(unit) {
        Some(604_800)
    } else {
        None
    }
}

ghost use Rattle.std.specs.Prelude.{◌≡◌, ◌<◌, ◌++◌, Some, IfOk, OnOk, string_bytes};
ghost use Rattle.std.specs.Option.{ok_or};
ghost use Rattle.jiff.specs.Types.{DateTime as Shown};
ghost use Rattle.clock_time.specs.Datetimes.{rfc3339_seconds, unix_seconds, IsTimestampSecond, IsShownAt, rounded_down, date_text, time_text, civil_text, two_digits, four_digits, year_digits};

use jiff::Timestamp;
use jiff::civil::DateTime;
use jiff::tz::Offset;
use std::alloc::{AllocError, Global};
use thiserror::Error;

/// Why a text or a number is no datetime.
#[derive(Clone, Copy, Debug, Error)]
pub enum DateError {
    #[error("not a date")]
    NotADate,
    #[error("out of range: {number}")]
    OutOfRange { number: i64 },
}

/// The second that a text names, rounded down. The text is one that `jiff` reads as a Timestamp, else NotADate.
pub fn read_rfc3339(text: &str) -> Result<i64, DateError>
    ensures { result ≡ ok_or (rfc3339_seconds text.now) DateError.NotADate }
{
    match text.parse::<Timestamp>() {
        Ok(instant) => Ok(seconds_of(instant)),
        Err(_) => Err(DateError::NotADate),
    }
}

/// The second that a whole number names. Its size tells whether it counts seconds, milliseconds, microseconds or
/// nanoseconds; numbers between and beyond these ranges are OutOfRange.
pub fn read_unix(number: i64) -> Result<i64, DateError>
    ensures { result ≡ ok_or (unix_seconds number) (DateError.OutOfRange number) }
{
    match number {
        0..=8_589_934_591 => Ok(number),
        72_057_595_000..=8_589_934_591_000 => Ok(number / 1_000),
        72_057_595_000_000..=8_589_934_591_000_000 => Ok(number / 1_000_000),
        72_057_595_000_000_000..=8_589_934_591_000_000_000 => Ok(number / 1_000_000_000),
        _ => Err(DateError::OutOfRange { number }),
    }
}

/// The whole seconds of an instant, rounded down.
fn seconds_of(instant: Timestamp) -> i64
    ensures { result ≡ rounded_down instant.nanosecond }
{
    let seconds = instant.as_second();
    if instant.subsec_nanosecond() < 0 {
        seconds - 1
    } else {
        seconds
    }
}

/// The text of a second, as `2023-11-14T22:13:20Z`: the year in four digits, or below 0 as `-` and six digits.
pub fn print_rfc3339(alloc: Global, seconds: i64) -> Result<String, AllocError>
    requires { IsTimestampSecond seconds }
    ensures text { IfOk result (λ t. (shown : Shown) × IsShownAt seconds shown × (string_bytes t ≡ civil_text shown)) }
    ensures back { IfOk result (λ t. rfc3339_seconds (string_bytes t) ≡ Some seconds) }
{
    let instant = Timestamp::from_second(seconds).unwrap();
    let shown = Offset::UTC.to_datetime(instant);
    let mut text = String::new(alloc);
    push_civil(&mut text, shown)?;
    Ok(text)
}

/// `2023-11-14T22:13:20Z`
fn push_civil(text: &mut String, shown: DateTime) -> Result<(), AllocError>
    ensures { OnOk result (string_bytes text.new ≡ string_bytes text.old ++ civil_text shown) }
{
    push_date(text, shown)?;
    text.push('T')?;
    push_time(text, shown)?;
    text.push('Z')?;
    Ok(())
}

/// `2023-11-14`
fn push_date(text: &mut String, shown: DateTime) -> Result<(), AllocError>
    ensures { OnOk result (string_bytes text.new ≡ string_bytes text.old ++ date_text shown) }
{
    push_year(text, shown)?;
    text.push('-')?;
    push_two(text, shown.month() as u8)?;
    text.push('-')?;
    push_two(text, shown.day() as u8)
}

/// `22:13:20`
fn push_time(text: &mut String, shown: DateTime) -> Result<(), AllocError>
    ensures { OnOk result (string_bytes text.new ≡ string_bytes text.old ++ time_text shown) }
{
    push_two(text, shown.hour() as u8)?;
    text.push(':')?;
    push_two(text, shown.minute() as u8)?;
    text.push(':')?;
    push_two(text, shown.second() as u8)
}

/// A year in four digits, or below 0 as `-` and six digits.
fn push_year(text: &mut String, shown: DateTime) -> Result<(), AllocError>
    ensures { OnOk result (string_bytes text.new ≡ string_bytes text.old ++ year_digits shown.date.year) }
{
    let year = shown.year();
    if year < 0 {
        text.push_str("-00")?;
    }
    push_four(text, year.unsigned_abs())
}

fn push_four(text: &mut String, number: u16) -> Result<(), AllocError>
    requires { number < 10000 }
    ensures { OnOk result (string_bytes text.new ≡ string_bytes text.old ++ four_digits number) }
{
    push_two(text, (number / 100) as u8)?;
    push_two(text, (number % 100) as u8)
}

fn push_two(text: &mut String, number: u8) -> Result<(), AllocError>
    requires { number < 100 }
    ensures { OnOk result (string_bytes text.new ≡ string_bytes text.old ++ two_digits number) }
{
    text.push((b'0' + number / 10) as char)?;
    text.push((b'0' + number % 10) as char)
}

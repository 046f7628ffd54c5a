//! Datetimes and clocks.

use clock_time::clock::{Clock, ScriptClock};
use clock_time::dates::{DateError, print_rfc3339, read_rfc3339, read_unix};
use std::alloc::{AllocError, Global};

pub fn answer(alloc: Global, asked: &str, rest: &str) -> Result<String, AllocError> {
    let number = rest.parse::<i64>().unwrap_or(0);
    match asked {
        "date" => read(alloc, read_rfc3339(rest)),
        "unix" => read(alloc, read_unix(number)),
        "second" => printed(alloc, number),
        "clock" => asked_twice(alloc, &mut ScriptClock::at(1000)),
        _ => String::from_str(alloc, "nothing asked"),
    }
}

fn read(alloc: Global, answer: Result<i64, DateError>) -> Result<String, AllocError> {
    match answer {
        Ok(second) => format!(in alloc; "{second}"),
        Err(refusal) => format!(in alloc; "{refusal}"),
    }
}

fn printed(alloc: Global, second: i64) -> Result<String, AllocError> {
    if second < -62_198_755_200 || 1_700_000_000 < second {
        return String::from_str(alloc, "no row");
    }
    print_rfc3339(alloc, second)
}

/// A clock through its bound.
fn asked_twice<C: Clock>(alloc: Global, clock: &mut C) -> Result<String, AllocError> {
    let first = clock.now();
    let second = clock.now();
    format!(in alloc; "{first} {second}")
}

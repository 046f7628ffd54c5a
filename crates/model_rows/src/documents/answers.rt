//! What a line asks.

use crate::documents::{dates, records, tokens};
use std::alloc::{AllocError, Global};

/// `config T` reads a configuration, `fields M N` one of mode M with N fields, `first R`, `strict R` and `timed R` take in a record, `default T`, `whitespace T` and `raw T` cut a text
/// into tokens, `date T` and `unix N` read a datetime, `second N` prints one, and `clock N` asks a clock.
pub fn answer(alloc: Global, line: &str) -> Result<String, AllocError> {
    let Some((asked, rest)) = line.split_once(' ') else {
        return String::from_str(alloc, "nothing asked");
    };
    match asked {
        "config" => records::configured(alloc, rest),
        "fields" => records::of_fields(alloc, rest),
        "first" => records::taken_in(alloc, records::FIRST, rest),
        "strict" => records::taken_in(alloc, records::STRICT, rest),
        "timed" => records::taken_in(alloc, records::TIMED, rest),
        "default" | "whitespace" | "raw" => tokens::cut(alloc, asked, rest),
        _ => dates::answer(alloc, asked, rest),
    }
}

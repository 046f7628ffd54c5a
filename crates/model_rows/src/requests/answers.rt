//! What a line asks.

use super::{asked, refusals, replies};
use std::alloc::{AllocError, Global};

/// `request T` answers the refusal of the request T over the schema, or `ok`, `nested N` that of N brackets, `read T` and `resolve T`
/// what is read and resolved of T, and `reply N` prints the reply of this name.
pub fn answer(alloc: Global, line: &str) -> Result<String, AllocError> {
    let Some((asked, rest)) = line.split_once(' ') else {
        return String::from_str(alloc, "nothing asked");
    };
    match asked {
        "request" => refusals::answered(alloc, rest.as_bytes()),
        "nested" => refusals::nested(alloc, rest),
        "read" => asked::read(alloc, rest),
        "resolve" => asked::resolved(alloc, rest),
        "reply" => replies::printed(alloc, rest),
        _ => String::from_str(alloc, "nothing asked"),
    }
}

//! Bytes in digits.

use doc_value::Bytes;
use std::alloc::{AllocError, Global};

fn digit(byte: u8) -> u8 {
    match byte {
        b'0'..=b'9' => byte - b'0',
        b'a'..=b'f' => byte - b'a' + 10,
        _ => 0,
    }
}

/// The bytes of these pairs of digits; a blank parts them for the reader.
pub fn bytes_of(alloc: Global, text: &str) -> Result<Bytes, AllocError> {
    let mut bytes = Bytes::vacant(alloc);
    let mut high = None;
    for sign in text.as_bytes() {
        if *sign == b' ' {
            continue;
        }
        match high {
            None => high = Some(digit(*sign)),
            Some(value) => {
                let value: u8 = value;
                bytes.push((value << 4) | digit(*sign))?;
                high = None;
            }
        }
    }
    Ok(bytes)
}

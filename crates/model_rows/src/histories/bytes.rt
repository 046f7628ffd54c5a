//! The bytes of entries.

ghost use Rattle.meta_journal.specs.Spelling.{CanSpell};

use meta_journal::{Entry, decode_entry, encode_entry};
use std::alloc::{AllocError, Global};

/// The bytes of an entry that was read from these, each in two digits, or why they are none.
pub fn spelled_again(alloc: Global, digits: &str) -> Result<String, AllocError> {
    let mut bytes = Vec::new(alloc);
    for pair in digits.as_bytes().chunks(2) {
        bytes.push(byte_of(pair))?;
    }
    match decode_entry(alloc, bytes.as_slice()) {
        Ok(entry) => spelled(alloc, &entry),
        Err(fault) => format!(in alloc; "{fault}"),
    }
}

fn spelled(alloc: Global, entry: &Entry) -> Result<String, AllocError>
    requires { CanSpell entry.now }
{
    let bytes = encode_entry(alloc, entry)?;
    hexadecimal(alloc, bytes.as_slice())
}

fn digit(byte: u8) -> u8 {
    match byte {
        b'0'..=b'9' => byte - b'0',
        b'a'..=b'f' => byte - b'a' + 10,
        _ => 0,
    }
}

fn byte_of(pair: &[u8]) -> u8 {
    let mut byte = 0u8;
    for sign in pair {
        byte = (byte << 4) | digit(*sign);
    }
    byte
}

fn hexadecimal(alloc: Global, bytes: &[u8]) -> Result<String, AllocError> {
    let mut text = String::new(alloc);
    for byte in bytes {
        text.push_str(format!(in alloc; "{byte:02x}")?.as_str())?;
    }
    Ok(text)
}

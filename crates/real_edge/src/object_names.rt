//! Which names are objects, and the names beside.

ghost use Rattle.std.specs.Prelude.{◌≡◌, ◌≤◌, ◌<◌, ◌-◌, ◌++◌, false, IfOk, length, slice_index};
ghost use Rattle.object_store.specs.Key as KeySpec;
ghost use Rattle.real_edge.specs.Names.{is_object};

use std::alloc::{AllocError, Global};

/// How the name of a file beside ends.
const HALF: &[u8] = b".half";

fn is_key_byte(byte: u8) -> bool
    ensures { result ≡ KeySpec.is_key_byte byte }
{
    matches!(byte, b'a'..=b'z' | b'0'..=b'9' | b'/' | b'-')
}

/// Whether the file of a name is an object.
pub fn is_object(name: &[u8]) -> bool
    ensures { result ≡ is_object name.now }
{
    if name.is_empty() || 128 < name.len() {
        return false;
    }
    for byte in name {
        if !is_key_byte(*byte) {
            return false;
        }
    }
    true
}

/// How many bytes of a name are its folder, with the slash that ends it.
pub fn folder_len(name: &[u8]) -> usize
    ensures within { result ≤ length name.now }
    ensures slash { 0 < result → slice_index name.now (result - 1) ≡ 47 }
{
    for at in (0..name.len()).rev() {
        if name[at] == b'/' {
            return at + 1;
        }
    }
    0
}

/// A name in a folder.
pub fn joined(alloc: Global, folder: &[u8], name: &[u8]) -> Result<Vec<u8>, AllocError>
    ensures { IfOk result (λ path. path.items ≡ folder.now ++ name.now) }
{
    let mut path = Vec::new(alloc);
    path.extend_from_slice(folder)?;
    path.extend_from_slice(name)?;
    Ok(path)
}

/// The name of a file beside in a folder, `.NUMBER-COUNT.half`, which is no key.
pub fn name_beside(
    alloc: Global,
    folder: &[u8],
    number: u64,
    count: u64,
) -> Result<Vec<u8>, AllocError>
    ensures { IfOk result (λ beside. is_object beside.items ≡ false) }
{
    let numbers = format!(in alloc; "{number}-{count}")?;
    let mut beside = Vec::new(alloc);
    beside.extend_from_slice(folder)?;
    beside.push(b'.')?;
    beside.extend_from_slice(numbers.as_bytes())?;
    beside.extend_from_slice(HALF)?;
    Ok(beside)
}

fn is_number(text: &[u8]) -> bool {
    !text.is_empty() && text.iter().all(|byte| byte.is_ascii_digit())
}

/// Whether a name is of the form of a file beside: `.7-12.half`, and `.7.half` as it was before.
pub fn is_of_beside(name: &[u8]) -> bool {
    let Some(rest) = name.strip_prefix(b".") else {
        return false;
    };
    let Some(numbers) = rest.strip_suffix(HALF) else {
        return false;
    };
    match numbers.iter().position(|byte| *byte == b'-') {
        Some(at) => match (numbers.get(..at), numbers.get(at.saturating_add(1)..)) {
            (Some(number), Some(count)) => is_number(number) && is_number(count),
            _ => false,
        },
        None => is_number(numbers),
    }
}

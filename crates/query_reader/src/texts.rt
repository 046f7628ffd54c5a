// The texts that parts of a query text stand for.

ghost use Rattle.std.specs.Prelude.{◌≡◌, IfOk, IsUtf8, drop, take, slice_range};
ghost use Rattle.std.specs.Str.Lossy.{utf8_lossy};
ghost use Rattle.query_reader.specs.Texts.{unescaped, text_at, run_at};

use crate::tree::Span;
use doc_value::Text;
use std::alloc::{AllocError, Global};

fn rest_from(text: &[u8], from: usize) -> &[u8]
    ensures { result.now ≡ drop from text.now }
{
    if from <= text.len() {
        &text[from..]
    } else {
        &[]
    }
}

fn first_bytes(text: &[u8], count: usize) -> &[u8]
    ensures { result.now ≡ take count text.now }
{
    if count <= text.len() {
        &text[..count]
    } else {
        text
    }
}

/// The part of a text, as far as the text goes.
fn piece(text: &[u8], span: Span) -> &[u8]
    ensures { result.now ≡ slice_range text.now span.from span.to }
{
    first_bytes(
        rest_from(text, span.from),
        span.to.saturating_sub(span.from),
    )
}

/// The bytes without the backslashes that hide a byte.
fn unescape(alloc: Global, bytes: &[u8]) -> Result<Vec<u8>, AllocError>
    ensures { IfOk result (λ v. v.items ≡ unescaped bytes.now) }
{
    let mut out = Vec::new(alloc);
    let mut hidden = false;
    for byte in bytes {
        if !hidden && *byte == b'\\' {
            hidden = true;
        } else {
            out.push(*byte)?;
            hidden = false;
        }
    }
    Ok(out)
}

/// The text that the bytes are.
pub fn as_text(alloc: Global, bytes: &[u8]) -> Result<Text, AllocError>
    ensures text { IfOk result (λ t. t ≡ utf8_lossy bytes.now) }
    ensures same { IfOk result (λ t. IsUtf8 bytes.now → t ≡ bytes.now) }
{
    match String::from_utf8_lossy(alloc, bytes) {
        Ok(string) => Ok(Text::from_string(string)),
        Err(error) => Err(error),
    }
}

/// The text of a word or of what stands between quotation marks.
pub fn text_of(alloc: Global, text: &[u8], span: Span) -> Result<Text, AllocError>
    ensures { IfOk result (λ t. t ≡ text_at text.now span) }
{
    let bytes = unescape(alloc, piece(text, span))?;
    as_text(alloc, bytes.as_slice())
}

/// The text of a run of an edge.
pub fn run_of(alloc: Global, text: &[u8], span: Span) -> Result<Text, AllocError>
    ensures { IfOk result (λ t. t ≡ run_at text.now span) }
{
    as_text(alloc, piece(text, span))
}

ghost use Rattle.std.specs.Prelude.{◌≡◌, ◌<◌, ◌++◌, true, IfOk, OnOk};
ghost use Rattle.doc_value.specs.Printed.{hex_digit, escaped, quoted, value_text, items_text, field_text};

use crate::bytes::Bytes;
use crate::doc::Value;
use crate::schema::Kind;
use std::alloc::{AllocError, Global};
use std::string::ToString;

/// The text of a field's values.
pub fn text_of_values(alloc: Global, kind: Kind, values: &[Value]) -> Result<Bytes, AllocError>
    ensures { IfOk result (λ text. text ≡ field_text kind values.now) }
{
    let mut out = Bytes::vacant(alloc);
    if kind == Kind::TextList {
        out.push(b'[')?;
        push_items(alloc, &mut out, values)?;
        out.push(b']')?;
    } else {
        push_items(alloc, &mut out, values)?;
    }
    Ok(out)
}

/// Values with commas between.
fn push_items(alloc: Global, out: &mut Bytes, values: &[Value]) -> Result<(), AllocError>
    ensures { OnOk result (out.new ≡ out.old ++ items_text true values.now) }
{
    let mut first = true;
    for value in values {
        if !first {
            out.push(b',')?;
        }
        push_value(alloc, out, value)?;
        first = false;
    }
    Ok(())
}

fn push_value(alloc: Global, out: &mut Bytes, value: &Value) -> Result<(), AllocError>
    ensures { OnOk result (out.new ≡ out.old ++ value_text value.now) }
{
    match value {
        Value::Text(text) => push_quoted(out, text.as_slice()),
        Value::I64(number) => out.extend(number.to_string(alloc)?.as_bytes()),
        Value::U64(number) => out.extend(number.to_string(alloc)?.as_bytes()),
        Value::Bool(true) => out.extend(b"true"),
        Value::Bool(false) => out.extend(b"false"),
        Value::Datetime(seconds) => out.extend(seconds.to_string(alloc)?.as_bytes()),
    }
}

/// A string between its quotes.
pub fn push_quoted(out: &mut Bytes, text: &[u8]) -> Result<(), AllocError>
    ensures { OnOk result (out.new ≡ out.old ++ quoted text.now) }
{
    out.push(b'"')?;
    for byte in text {
        push_escaped(out, *byte)?;
    }
    out.push(b'"')
}

fn push_escaped(out: &mut Bytes, byte: u8) -> Result<(), AllocError>
    ensures { OnOk result (out.new ≡ out.old ++ escaped byte) }
{
    match byte {
        b'"' => out.extend(b"\\\""),
        b'\\' => out.extend(b"\\\\"),
        8 => out.extend(b"\\b"),
        b'\t' => out.extend(b"\\t"),
        b'\n' => out.extend(b"\\n"),
        12 => out.extend(b"\\f"),
        b'\r' => out.extend(b"\\r"),
        0..32 => {
            out.extend(b"\\u00")?;
            out.push(digit(byte / 16))?;
            out.push(digit(byte % 16))
        }
        _ => out.push(byte),
    }
}

/// A hexadecimal digit in lower case.
fn digit(value: u8) -> u8
    requires { value < 16 }
    ensures { result ≡ hex_digit value }
{
    if value < 10 {
        b'0' + value
    } else {
        b'a' + (value - 10)
    }
}

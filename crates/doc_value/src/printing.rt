ghost use Rattle.std.specs.Prelude.{◌≡◌, ◌++◌, IfOk, OnOk};
ghost use Rattle.std.specs.Str.{bytes_eq};
ghost use Rattle.doc_value.specs.Printed.{comma, members_of, printed_doc};
ghost use Rattle.doc_value.specs.Writing.{begun, closings, row_text, remaining};

use crate::bytes::Bytes;
use crate::doc::Doc;
use crate::rows::{Row, rows_in_order};
use crate::schema::Schema;
use crate::values::push_quoted;
use std::alloc::{AllocError, Global};

/// The compact JSON of a document: its values at their paths as nested objects, keys in byte order, datetimes as whole
/// seconds, a list of texts always as an array. The document is meant to be of the schema; a field that the schema
/// doesn't have is left out.
pub fn print_doc(alloc: Global, schema: &Schema, doc: &Doc) -> Result<Bytes, AllocError>
    ensures { IfOk result (λ text. text ≡ printed_doc schema.now doc.now) }
{
    let rows = rows_in_order(alloc, schema, doc)?;
    let mut out = Bytes::vacant(alloc);
    out.push(b'{')?;
    push_rows(&mut out, true, &[], &rows)?;
    out.push(b'}')?;
    Ok(out)
}

/// What is left to write from a place at which these objects are open.
fn push_rows(out: &mut Bytes, first: bool, opened: &[Bytes], rows: &[Row]) -> Result<(), AllocError>
    ensures { OnOk result (out.new ≡ out.old ++ remaining first opened.now (members_of rows.now)) }
{
    match rows {
        [] => push_closings(out, opened),
        [row, more @ ..] => match row.names.as_slice() {
            [] => push_rows(out, first, opened, more),
            [way @ .., _] => {
                push_row(out, first, opened, row.names.as_slice(), &row.text)?;
                push_rows(out, false, way, more)
            }
        },
    }
}

/// A row, where these objects are open: those that it doesn't lie in end before, and those on the way to it begin.
fn push_row(
    out: &mut Bytes,
    first: bool,
    opened: &[Bytes],
    names: &[Bytes],
    text: &Bytes,
) -> Result<(), AllocError>
    ensures { OnOk result (out.new ≡ out.old ++ row_text first opened.now names.now text.now) }
{
    match names {
        [] => Ok(()),
        [name, deeper @ ..] => match opened {
            [] => push_begun(out, first, names, text),
            [object, objects @ ..] => {
                if !deeper.is_empty() && is_named(object, name) {
                    return push_row(out, false, objects, deeper, text);
                }
                push_closings(out, opened)?;
                push_begun(out, false, names, text)
            }
        },
    }
}

fn is_named(object: &Bytes, name: &Bytes) -> bool
    ensures { result ≡ bytes_eq object.now name.now }
{
    object.as_slice() == name.as_slice()
}

/// A text at a path, with the objects that begin on the way.
fn push_begun(out: &mut Bytes, first: bool, names: &[Bytes], text: &Bytes) -> Result<(), AllocError>
    ensures { OnOk result (out.new ≡ out.old ++ begun first names.now text.now) }
{
    match names {
        [] => Ok(()),
        [name] => {
            push_comma(out, first)?;
            push_quoted(out, name.as_slice())?;
            out.push(b':')?;
            out.extend(text.as_slice())
        }
        [name, deeper @ ..] => {
            push_comma(out, first)?;
            push_quoted(out, name.as_slice())?;
            out.extend(b":{")?;
            push_begun(out, true, deeper, text)
        }
    }
}

/// The ends of these objects.
fn push_closings(out: &mut Bytes, opened: &[Bytes]) -> Result<(), AllocError>
    ensures { OnOk result (out.new ≡ out.old ++ closings opened.now) }
{
    match opened {
        [] => Ok(()),
        [_, objects @ ..] => {
            push_closings(out, objects)?;
            out.push(b'}')
        }
    }
}

fn push_comma(out: &mut Bytes, first: bool) -> Result<(), AllocError>
    ensures { OnOk result (out.new ≡ out.old ++ comma first) }
{
    if first { Ok(()) } else { out.push(b',') }
}

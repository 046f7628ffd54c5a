ghost use Rattle.std.specs.Prelude.{◌≡◌, ◌≤◌, ◌<◌, ◌+◌, ◌-◌, ◌*◌, ◌^◌, ◌++◌, List, ℕ, IfOk, OnOk, length, map};
ghost use Rattle.std.specs.List.{AllByRecursion};
ghost use Rattle.fast_fields.specs.Columns.{AreRows, Fits, IsColumn, IsSpelled, has_texts, numbers, least_of, greatest_of, texts_bytes, documents_bytes};
ghost use Rattle.fast_fields.specs.Packed.{AreNarrow, IsWidth, IsPacked};
ghost use Rattle.fast_fields.specs.Texts.{texts_in};

use crate::ColumnList;
use crate::column::has_texts;
use crate::entries::{Entry, entries_of};
use crate::packed::{Held, put_last, put_number};
use crate::texts::texts_of;
use byte_fields::{Bytes, put_bytes, put_eight, put_four, put_varint};
use doc_value::Field;
use std::alloc::{AllocError, Global};

/// The bytes of a column of these documents and their values.
pub fn encode_column(alloc: Global, field: &Field, values: &ColumnList) -> Result<Bytes, AllocError>
    requires { AreRows field.now.kind values.now }
    ensures { IfOk result (λ bytes. IsColumn field.now.kind bytes values.now) }
{
    let rows = values.as_slice();
    let texts = texts_of(alloc, rows)?;
    let entries = entries_of(alloc, rows, &texts)?;
    let mut bytes = Vec::new(alloc);
    put_parts(&mut bytes, has_texts(field.kind), &texts, &entries)?;
    Ok(Bytes::from_vec(bytes))
}

/// Appends a column of these values to an area. For a text field they are ordinals among its distinct texts, which rise.
pub fn put_column(
    area: &mut Vec<u8>,
    field: &Field,
    texts: &[&str],
    entries: &[Entry],
) -> Result<(), AllocError>
    requires { Fits entries.now }
    ensures { OnOk result ((column : List ℕ) × (area.new.items ≡ area.old.items ++ column) × IsSpelled (has_texts field.now.kind) (texts_in texts.now) entries.now column) }
{
    put_parts(area, has_texts(field.kind), texts, entries)
}

// Appends the parts of a column of these texts and entries.
fn put_parts(
    out: &mut Vec<u8>,
    texted: bool,
    texts: &[&str],
    entries: &[Entry],
) -> Result<(), AllocError>
    requires { Fits entries.now }
    ensures { OnOk result ((column : List ℕ) × (out.new.items ≡ out.old.items ++ column) × IsSpelled texted (texts_in texts.now) entries.now column) }
{
    let least = least(entries);
    let width = width_of(greatest(entries) - least);
    put_varint(out, entries.len() as u64)?;
    put_texts(out, texted, texts)?;
    put_documents(out, entries)?;
    put_eight(out, least)?;
    out.push(width)?;
    put_packed(out, entries, least, width)?;
    Ok(())
}

fn put_texts(out: &mut Vec<u8>, texted: bool, texts: &[&str]) -> Result<(), AllocError>
    ensures { OnOk result (out.new.items ≡ out.old.items ++ texts_bytes texted (texts_in texts.now)) }
{
    if !texted {
        return Ok(());
    }
    put_varint(out, texts.len() as u64)?;
    for text in texts {
        put_bytes(out, text.as_bytes())?;
    }
    Ok(())
}

fn put_documents(out: &mut Vec<u8>, entries: &[Entry]) -> Result<(), AllocError>
    ensures { OnOk result (out.new.items ≡ out.old.items ++ documents_bytes entries.now) }
{
    for entry in entries {
        put_four(out, entry.document)?;
    }
    Ok(())
}

// The least of the numbers, and 0 where there are none.
fn least(entries: &[Entry]) -> u64
    ensures { result ≡ least_of (numbers entries.now) }
{
    let Some((first, behind)) = entries.split_first() else {
        return 0;
    };
    let mut least = first.number;
    for entry in behind {
        least = entry.number.min(least);
    }
    least
}

// The greatest of the numbers, and 0 where there are none.
fn greatest(entries: &[Entry]) -> u64
    ensures { result ≡ greatest_of (numbers entries.now) }
{
    let mut greatest = 0;
    for entry in entries {
        greatest = entry.number.max(greatest);
    }
    greatest
}

// How many bits a number has.
fn width_of(number: u64) -> u8
    ensures width { IsWidth number result }
    ensures within { result ≤ 64 }
{
    (64 - number.leading_zeros()) as u8
}

// Puts the numbers less the least one, each in so many bits.
fn put_packed(out: &mut Vec<u8>, entries: &[Entry], least: u64, width: u8) -> Result<(), AllocError>
    requires width { width ≤ 64 }
    requires narrow { AreNarrow width (map (λ n. n - least) (numbers entries.now)) }
    ensures { OnOk result ((packed : List ℕ) × (out.new.items ≡ out.old.items ++ packed) × IsPacked width (map (λ n. n - least) (numbers entries.now)) packed) }
{
    let mut held = Held { bits: 0, count: 0 };
    for entry in entries {
        held = put_number(out, held, number_less(entry, least), width)?;
    }
    put_last(out, held)
}

fn number_less(entry: &Entry, least: u64) -> u64
    ensures { result ≡ entry.now.number - least }
{
    entry.number.saturating_sub(least)
}

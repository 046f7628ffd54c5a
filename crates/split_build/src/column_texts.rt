//! The column of what was taken of a fast field.

ghost use Rattle.std.specs.Prelude.{◌≡◌, ◌<◌, ◌^◌, ℕ, List, true, false, length, map, Contains, IfOk, OnOk, IsUtf8};
ghost use Rattle.std.specs.List.{AllByRecursion, AllZip};
ghost use Rattle.fast_fields.specs.Columns.{AreTexts, Cell, SomeText, TextsRise, has_texts};
ghost use Rattle.fast_fields.specs.Texts.{texts_in};
ghost use Rattle.split_build.specs.HeldColumns.{CanWrite, IsPlaceOf, IsPut, renumbered, texts_of};

use crate::columns::ColumnLog;
use doc_value::{Field, Kind};
use fast_fields::{Entry, distinct, ordinal, put_column};
use std::alloc::{AllocError, Global};

// The texts, rising.
fn rising<'a>(alloc: Global, names: &'a [String]) -> Result<Vec<&'a str>, AllocError>
    ensures texts { (cs : List Cell) → AllByRecursion (SomeText cs) (texts_of names.now) → AllByRecursion IsUtf8 (texts_of names.now) → IfOk result (λ v. AreTexts cs (texts_in v.items)) }
    ensures each { (t : List ℕ) → Contains (texts_of names.now) t → IfOk result (λ v. Contains (texts_in v.items) t) }
{
    let mut all = Vec::new(alloc);
    let mut rest = names;
    while let Some((name, behind)) = rest.split_first() {
        all.push(name.as_str())?;
        rest = behind;
    }
    all.sort()?;
    distinct(alloc, &all)
}

// The place of each text among the rising ones.
fn ordinals_of(alloc: Global, names: &[String], texts: &[&str]) -> Result<Vec<u64>, AllocError>
    requires rise { TextsRise (texts_in texts.now) }
    requires among { (t : List ℕ) → Contains (texts_of names.now) t → Contains (texts_in texts.now) t }
    ensures { IfOk result (λ v. AllZip (IsPlaceOf (texts_in texts.now)) (texts_of names.now) v.items) }
{
    let mut ordinals = Vec::new(alloc);
    let mut rest = names;
    while let Some((name, behind)) = rest.split_first() {
        ordinals.push(ordinal(texts, name.as_str()))?;
        rest = behind;
    }
    Ok(ordinals)
}

// The entries with the ordinal of each text in the place of its number.
fn renumbered_of(
    alloc: Global,
    entries: &[Entry],
    ordinals: &[u64],
) -> Result<Vec<Entry>, AllocError>
    requires { AllByRecursion (λ e. e.number < length ordinals.now) entries.now }
    ensures again { IfOk result (λ v. v.items ≡ map (renumbered ordinals.now) entries.now) }
    ensures small { IfOk result (λ v. AllByRecursion (λ e. e.number < 2 ^ 64) v.items) }
{
    let mut again = Vec::with_capacity(alloc, entries.len())?;
    let mut rest = entries;
    while let Some((entry, behind)) = rest.split_first() {
        again.push(Entry {
            document: entry.document,
            number: ordinals[entry.number as usize],
        })?;
        rest = behind;
    }
    Ok(again)
}

// Appends the column of a field of texts.
fn put_texts(
    alloc: Global,
    out: &mut Vec<u8>,
    field: &Field,
    log: &ColumnLog,
) -> Result<(), AllocError>
    requires can { ∥ ((cs : List Cell) × CanWrite field.now.kind log.now cs) ∥₁ }
    requires texted { has_texts field.now.kind ≡ true }
    ensures { (cs : List Cell) → CanWrite field.now.kind log.now cs → OnOk result (IsPut field.now.kind cs out.old.items out.new.items) }
{
    let names = log.texts.as_slice();
    let texts = rising(alloc, names)?;
    let ordinals = ordinals_of(alloc, names, &texts)?;
    let entries = renumbered_of(alloc, &log.entries, &ordinals)?;
    put_column(out, field, &texts, &entries)?;
    Ok(())
}

// Appends the column of a field of numbers, datetimes or truth values.
fn put_numbers(out: &mut Vec<u8>, field: &Field, log: &ColumnLog) -> Result<(), AllocError>
    requires can { ∥ ((cs : List Cell) × CanWrite field.now.kind log.now cs) ∥₁ }
    requires plain { has_texts field.now.kind ≡ false }
    ensures { (cs : List Cell) → CanWrite field.now.kind log.now cs → OnOk result (IsPut field.now.kind cs out.old.items out.new.items) }
{
    put_column(out, field, &[], &log.entries)?;
    Ok(())
}

fn has_texts(kind: Kind) -> bool
    ensures { result ≡ has_texts kind }
{
    match kind {
        Kind::Text | Kind::TextList => true,
        Kind::I64 | Kind::U64 | Kind::Bool | Kind::Datetime => false,
    }
}

/// Appends the column of a field.
pub(crate) fn put_log(
    alloc: Global,
    out: &mut Vec<u8>,
    field: &Field,
    log: &ColumnLog,
) -> Result<(), AllocError>
    requires { ∥ ((cs : List Cell) × CanWrite field.now.kind log.now cs) ∥₁ }
    ensures { (cs : List Cell) → CanWrite field.now.kind log.now cs → OnOk result (IsPut field.now.kind cs out.old.items out.new.items) }
{
    if has_texts(field.kind) {
        return put_texts(alloc, out, field, log);
    }
    put_numbers(out, field, log)
}

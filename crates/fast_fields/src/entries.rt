ghost use Rattle.std.specs.Prelude.{◌≡◌, ◌<◌, ◌≤◌, ◌^◌, ◌+◌, List, ℕ, length, slice_get, Some, IfOk, ◌++◌, [], ◌∷◌, Contains, vec_len, vec_capacity};
ghost use Rattle.std.specs.List.{AllByRecursion};
ghost use Rattle.fast_fields.specs.Columns.{AreEntries, IsNumber, RowsRise, DocumentsRise, TextsRise, Fits, Cell, cells, cells_of, AreGrown};
ghost use Rattle.fast_fields.specs.Texts.{EachIsAmong, texts_in};

use crate::ColumnRow;
use crate::texts::ordinal;
use doc_value::{Value, turned};
use std::alloc::{AllocError, Global};

/// A value of a column: its document and a number. A U64 is itself, a signed value is `turned`, a truth is 0 or 1, a text is its ordinal.
#[derive(Clone, Copy)]
pub struct Entry {
    pub document: u32,
    pub number: u64,
}

// The entries of these rows, whose texts these are. What takes memory is given their count alone.
pub(crate) fn entries_of(
    alloc: Global,
    rows: &[ColumnRow],
    texts: &[&str],
) -> Result<Vec<Entry>, AllocError>
    requires rise { RowsRise rows.now }
    requires few { length (cells rows.now) < 2 ^ 32 }
    requires texts_rise { TextsRise (texts_in texts.now) }
    requires among { EachIsAmong (cells rows.now) (texts_in texts.now) }
    ensures { IfOk result (λ v. AreEntries (texts_in texts.now) (cells rows.now) v.items × Fits v.items) }
{
    let mut entries = Vec::with_capacity(alloc, cell_count(rows))?;
    add_rows(&mut entries, rows, texts);
    Ok(entries)
}

// How many values these rows have.
fn cell_count(rows: &[ColumnRow]) -> usize
    requires { length (cells rows.now) < 2 ^ 32 }
    ensures { result ≡ length (cells rows.now) }
{
    let mut count = 0;
    let mut rest = rows;
    while let Some((row, behind)) = rest.split_first() {
        count += row.values.len();
        rest = behind;
    }
    count
}

// Adds the entries of these rows to none, where there is room for all.
fn add_rows(entries: &mut Vec<Entry>, rows: &[ColumnRow], texts: &[&str])
    requires none { entries.old.items ≡ [] }
    requires room { vec_len entries.old + length (cells rows.now) ≤ vec_capacity entries.old }
    requires rise { RowsRise rows.now }
    requires few { length (cells rows.now) < 2 ^ 32 }
    requires texts_rise { TextsRise (texts_in texts.now) }
    requires among { EachIsAmong (cells rows.now) (texts_in texts.now) }
    ensures { AreEntries (texts_in texts.now) (cells rows.now) entries.new.items × Fits entries.new.items }
{
    let mut rest = rows;
    while let Some((row, behind)) = rest.split_first() {
        add_row(entries, row.document, row.values.as_slice(), texts);
        rest = behind;
    }
}

// Adds the entries of one document, for which there is room.
fn add_row(entries: &mut Vec<Entry>, document: u32, values: &[Value], texts: &[&str])
    requires room { vec_len entries.old + length values.now ≤ vec_capacity entries.old }
    requires texts_rise { TextsRise (texts_in texts.now) }
    requires among { EachIsAmong (cells_of document values.now) (texts_in texts.now) }
    ensures grown { (done : List Cell) → AreGrown (texts_in texts.now) document done entries.old.items
        → AreGrown (texts_in texts.now) document (done ++ cells_of document values.now) entries.new.items }
    ensures len { vec_len entries.new ≡ vec_len entries.old + length values.now }
    ensures capacity { vec_capacity entries.new ≡ vec_capacity entries.old }
{
    let mut rest = values;
    while let Some((value, behind)) = rest.split_first() {
        let number = number_of(value, texts);
        add_entry(entries, document, number);
        rest = behind;
    }
}

// Adds an entry, for which there is room.
fn add_entry(entries: &mut Vec<Entry>, document: u32, number: u64)
    requires { vec_len entries.old < vec_capacity entries.old }
    ensures added { entries.new.items ≡ entries.old.items ++ record { document = document; number = number } ∷ [] }
    ensures len { vec_len entries.new ≡ vec_len entries.old + 1 }
    ensures capacity { vec_capacity entries.new ≡ vec_capacity entries.old }
    ensures document { document < 2 ^ 32 }
    ensures number { number < 2 ^ 64 }
{
    entries.push_reserved(Entry { document, number });
}

// The number that a value stands for.
fn number_of(value: &Value, texts: &[&str]) -> u64
    requires texts_rise { TextsRise (texts_in texts.now) }
    requires among { (t : List ℕ) → value.now ≡ Value.Text t → Contains (texts_in texts.now) t }
    ensures { IsNumber (texts_in texts.now) value.now result }
{
    match value {
        Value::Text(text) => ordinal(texts, text.as_str()),
        Value::I64(number) => turned(*number),
        Value::U64(number) => *number,
        Value::Bool(truth) => u64::from(*truth),
        Value::Datetime(seconds) => turned(*seconds),
    }
}

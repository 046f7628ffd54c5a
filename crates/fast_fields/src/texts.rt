ghost use Rattle.std.specs.Prelude.{◌≡◌, List, ℕ, slice_get, Some, IfOk, OnOk, All, Contains, ◌⊎◌};
ghost use Rattle.std.specs.List.Sorted.{IsSorted};
ghost use Rattle.std.specs.Ordering.{nat_cmp};
ghost use Rattle.std.specs.Cmp.Lexicographic.{slice_cmp};
ghost use Rattle.fast_fields.specs.Columns.{AreTexts, Cell, SomeText, TextsRise, cells, cells_of, is_below};
ghost use Rattle.fast_fields.specs.Texts.{EachIsAmong, IsCellText, texts_in, is_behind};

use crate::ColumnRow;
use doc_value::Value;
use std::alloc::{AllocError, Global};
use std::cmp::Ordering;

// The distinct texts of these rows, rising.
pub(crate) fn texts_of(alloc: Global, rows: &[ColumnRow]) -> Result<Vec<&str>, AllocError>
    ensures texts { IfOk result (λ v. AreTexts (cells rows.now) (texts_in v.items)) }
    ensures each { IfOk result (λ v. EachIsAmong (cells rows.now) (texts_in v.items)) }
{
    let mut all = gathered(alloc, rows)?;
    all.sort()?;
    distinct(alloc, &all)
}

// The texts of these rows, in their order.
fn gathered(alloc: Global, rows: &[ColumnRow]) -> Result<Vec<&str>, AllocError>
    ensures texts { IfOk result (λ v. All (IsCellText (cells rows.now)) v.items) }
    ensures each { IfOk result (λ v. EachIsAmong (cells rows.now) (texts_in v.items)) }
{
    let mut all = Vec::new(alloc);
    let mut rest = rows;
    while let Some((row, behind)) = rest.split_first() {
        gather_row(&mut all, row.values.as_slice())?;
        rest = behind;
    }
    Ok(all)
}

// Adds the texts of one document.
fn gather_row<'a>(all: &mut Vec<&'a str>, values: &'a [Value]) -> Result<(), AllocError>
    ensures texts { (cs : List Cell) (document : ℕ) → All (IsCellText cs) all.old.items
        → ((t : List ℕ) → SomeText (cells_of document values.now) t → SomeText cs t) → OnOk result (All (IsCellText cs) all.new.items) }
    ensures each { (document : ℕ) (t : List ℕ) → SomeText (cells_of document values.now) t ⊎ Contains (texts_in all.old.items) t → OnOk result (Contains (texts_in all.new.items) t) }
{
    let mut rest = values;
    while let Some((value, behind)) = rest.split_first() {
        if let Value::Text(text) = value {
            all.push(text.as_str())?;
        }
        rest = behind;
    }
    Ok(())
}

/// The distinct ones of sorted texts.
pub fn distinct<'a>(alloc: Global, sorted: &[&'a str]) -> Result<Vec<&'a str>, AllocError>
    requires { IsSorted (λ x y. slice_cmp nat_cmp x.now y.now) sorted.now }
    ensures texts { (cs : List Cell) → All (IsCellText cs) sorted.now → IfOk result (λ v. AreTexts cs (texts_in v.items)) }
    ensures each { (t : List ℕ) → Contains (texts_in sorted.now) t → IfOk result (λ v. Contains (texts_in v.items) t) }
{
    let mut texts = Vec::new(alloc);
    for text in sorted {
        if stands_behind(&texts, text) {
            texts.push(*text)?;
        }
    }
    Ok(texts)
}

// Whether a text stands behind the last one, if there is one.
fn stands_behind(texts: &[&str], text: &str) -> bool
    ensures { result ≡ is_behind (texts_in texts.now) text.now }
{
    match texts.last() {
        None => true,
        Some(last) => is_below(last, text),
    }
}

fn is_below(text: &str, other: &str) -> bool
    ensures { result ≡ is_below text.now other.now }
{
    text.as_bytes().cmp(other.as_bytes()) == Ordering::Less
}

/// The place of a text among rising ones, of which it is one.
pub fn ordinal(texts: &[&str], text: &str) -> u64
    requires rise { TextsRise (texts_in texts.now) }
    requires among { Contains (texts_in texts.now) text.now }
    ensures { slice_get (texts_in texts.now) result ≡ Some text.now }
{
    let mut low = 0;
    let mut high = texts.len();
    while low < high {
        let middle = low + (high - low) / 2;
        if is_below(texts[middle], text) {
            low = middle + 1;
        } else {
            high = middle;
        }
    }
    low as u64
}

//! The values of fast fields, as documents are read in place.

ghost use Rattle.std.specs.Prelude.{◌≡◌, ◌++◌, ◌∷◌, [], ℕ, List, length, IfOk, OnOk};
ghost use Rattle.fast_fields.specs.Columns.{Cell};
ghost use Rattle.split_bundle.specs.declared.placed.Placed.{Placed};
ghost use Rattle.split_bundle.specs.Columns.{FastField};
ghost use Rattle.split_build.specs.HeldColumns.{HasCells, IsNumbered, texts_of};
ghost use Rattle.split_merge.specs.Facts.{HaveColumns};
ghost use Rattle.split_merge.specs.Lent.{Gains, value_of};

use crate::lent::LentValue;
use doc_value::turned;
use fast_fields::Entry;
use indexmap::IndexSet;
use split_build::{ColumnLog, text_place};
use std::alloc::{AllocError, Global};

// The number of a value. A text is put among the others.
fn number_of(
    alloc: Global,
    texts: &mut IndexSet<String>,
    value: LentValue<'_>,
) -> Result<u64, AllocError>
    ensures { IfOk result (IsNumbered (texts_of texts.old.keys) (texts_of texts.new.keys) (value_of value.entry)) }
{
    match value {
        LentValue::Text(text) => {
            let place = text_place(alloc, texts, text)?;
            Ok(place as u64)
        }
        LentValue::I64(number) => Ok(turned(number)),
        LentValue::U64(number) => Ok(number),
        LentValue::Bool(truth) => Ok(u64::from(truth)),
        LentValue::Datetime(seconds) => Ok(turned(seconds)),
    }
}

// Adds a value of the document with a number.
fn add_cell(
    alloc: Global,
    log: &mut ColumnLog,
    document: u32,
    value: LentValue<'_>,
) -> Result<(), AllocError>
    ensures number { log.new.number ≡ log.old.number }
    ensures cells { (cs : List Cell) → HasCells (texts_of log.old.texts.keys) document cs log.old.entries.items
        → OnOk result (HasCells (texts_of log.new.texts.keys) document (cs ++ record { document = document; value = value_of value.entry } ∷ []) log.new.entries.items) }
{
    let number = number_of(alloc, &mut log.texts, value)?;
    log.entries.push(Entry { document, number })?;
    Ok(())
}

/// Adds a value of a field of the last document, which has a number, to its log, if it has one.
pub(crate) fn add_column(
    alloc: Global,
    logs: &mut Vec<ColumnLog>,
    document: u32,
    number: usize,
    value: LentValue<'_>,
) -> Result<(), AllocError>
    ensures { (fields : List FastField) (documents : List Placed) (d e : Placed) → document ≡ length documents → Gains number (value_of value.entry) d.doc e.doc → HaveColumns (documents ++ d ∷ []) fields logs.old.items
        → OnOk result (HaveColumns (documents ++ e ∷ []) fields logs.new.items) }
{
    for i in 0..logs.len() {
        let log = &mut logs[i];
        if log.number == number {
            add_cell(alloc, log, document, value)?;
        }
    }
    Ok(())
}

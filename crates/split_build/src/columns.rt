//! The values of a fast field as documents come.

ghost use Rattle.std.specs.Prelude.{◌≡◌, ◌++◌, ◌∷◌, [], ℕ, List, IfOk, OnOk, Some, slice_get};
ghost use Rattle.std.specs.List.{AllByRecursion};
ghost use Rattle.doc_value.specs.Documents.{values_in};
ghost use Rattle.fast_fields.specs.Columns.{Cell, cells_of};
ghost use Rattle.split_build.specs.HeldColumns.{HasCells, IsNumbered, texts_of};

use crate::occurrences::values_in;
use doc_value::{DocField, Value, turned};
use fast_fields::Entry;
use indexmap::IndexSet;
use std::alloc::{AllocError, Global};

/// The values of a fast field so far: a document and a number for each. The number of a text is its place among the
/// distinct ones in the order of first sight.
#[derive(Drop)]
pub struct ColumnLog {
    pub number: usize,
    pub texts: IndexSet<String>,
    pub entries: Vec<Entry>,
}

/// The place of a text among these, behind which it is put where it is none of them.
pub fn text_place(
    alloc: Global,
    texts: &mut IndexSet<String>,
    text: &str,
) -> Result<usize, AllocError>
    ensures grown { OnOk result ((more : List (List ℕ)) × (texts_of texts.new.keys ≡ texts_of texts.old.keys ++ more) × AllByRecursion (λ t. t ≡ text.now) more) }
    ensures place { IfOk result (λ n. slice_get (texts_of texts.new.keys) n ≡ Some text.now) }
{
    if let Some(place) = texts.get_index_of(text) {
        return Ok(place);
    }
    let (place, _added) = texts.insert_full(String::from_str(alloc, text)?)?;
    Ok(place)
}

// The number of a value. A text is put among the others.
fn number_of(alloc: Global, texts: &mut IndexSet<String>, value: &Value) -> Result<u64, AllocError>
    ensures { IfOk result (IsNumbered (texts_of texts.old.keys) (texts_of texts.new.keys) value.now) }
{
    match value {
        Value::Text(text) => {
            let place = text_place(alloc, texts, text.as_str())?;
            Ok(place as u64)
        }
        Value::I64(number) => Ok(turned(*number)),
        Value::U64(number) => Ok(*number),
        Value::Bool(truth) => Ok(u64::from(*truth)),
        Value::Datetime(seconds) => Ok(turned(*seconds)),
    }
}

impl ColumnLog {
    pub(crate) fn vacant(alloc: Global, number: usize) -> ColumnLog
        ensures number { result.number ≡ number }
        ensures cells { HasCells (texts_of result.texts.keys) 0 [] result.entries.items }
    {
        ColumnLog {
            number,
            texts: IndexSet::new(alloc),
            entries: Vec::new(alloc),
        }
    }

    fn add_value(&mut self, alloc: Global, document: u32, value: &Value) -> Result<(), AllocError>
        ensures number { self.new.number ≡ self.old.number }
        ensures cells { (cs : List Cell) → HasCells (texts_of self.old.texts.keys) document cs self.old.entries.items
            → OnOk result (HasCells (texts_of self.new.texts.keys) document (cs ++ record { document = document; value = value.now } ∷ []) self.new.entries.items) }
    {
        let number = number_of(alloc, &mut self.texts, value)?;
        self.entries.push(Entry { document, number })?;
        Ok(())
    }

    /// Adds a document's values of the field. After an `Err` nothing is said of what is held.
    pub(crate) fn add(
        &mut self,
        alloc: Global,
        document: u32,
        doc: &[DocField],
    ) -> Result<(), AllocError>
        ensures number { self.new.number ≡ self.old.number }
        ensures cells { (cs : List Cell) → HasCells (texts_of self.old.texts.keys) document cs self.old.entries.items
            → OnOk result (HasCells (texts_of self.new.texts.keys) document (cs ++ cells_of document (values_in doc.now self.old.number)) self.new.entries.items) }
    {
        let mut rest = values_in(doc, self.number);
        while let Some((value, behind)) = rest.split_first() {
            self.add_value(alloc, document, value)?;
            rest = behind;
        }
        Ok(())
    }
}

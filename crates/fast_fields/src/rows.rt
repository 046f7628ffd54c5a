ghost use Rattle.std.specs.Prelude.{◌≡◌, ◌<◌, ◌++◌, [], ◌∷◌, length, OnOk, OnErr, Some, slice_get, IsTrue, ◌↔◌};

use doc_value::Values;
use std::alloc::{AllocError, Global};
use std::marker::Model;

/// A document and its values of a field.
#[derive(Drop)]
pub struct ColumnRow {
    pub document: u32,
    pub values: Values,
}

/// The documents that have values of a field, which contracts see as a list.
#[derive(Drop)]
pub struct ColumnList {
    rows: Vec<ColumnRow>,
}

impl Model for ColumnList {
    ghost use Rattle.std.specs.Prelude.{List};
    ghost use Rattle.fast_fields.specs.declared.rows.ColumnRow.{ColumnRow};

    ghost Value = { List ColumnRow };

    ghost view = { λ l. l.rows.items };
}

impl ColumnList {
    /// No documents.
    pub fn vacant(alloc: Global) -> ColumnList
        ensures { result ≡ [] }
    {
        ColumnList {
            rows: Vec::new(alloc),
        }
    }

    pub fn len(&self) -> usize
        ensures { result ≡ length self.now }
    {
        self.rows.len()
    }

    pub fn is_empty(&self) -> bool
        ensures { IsTrue result ↔ (self.now ≡ []) }
    {
        self.rows.is_empty()
    }

    pub fn at(&self, index: usize) -> &ColumnRow
        requires { index < length self.now }
        ensures { slice_get self.now index ≡ Some result.now }
    {
        &self.rows[index]
    }

    /// Adds a document at the end. An `Err` changes nothing.
    pub fn push(&mut self, row: ColumnRow) -> Result<(), AllocError>
        ensures ok { OnOk result (self.new ≡ self.old ++ row ∷ []) }
        ensures err { OnErr result (self.new ≡ self.old) }
    {
        self.rows.push(row)?;
        Ok(())
    }

    pub fn as_slice(&self) -> &[ColumnRow]
        ensures { result.now ≡ self.now }
    {
        &self.rows
    }
}

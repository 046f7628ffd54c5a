//! The fast fields of a schema, and the section of columns.

ghost use Rattle.std.specs.Prelude.{◌≡◌, ◌∷◌, ◌++◌, [], List, IfOk, OnOk, length};
ghost use Rattle.doc_value.specs.declared.schema.Schema.{Schema};
ghost use Rattle.doc_value.specs.Documents.{IsSchema};
ghost use Rattle.split_bundle.specs.declared.placed.Placed.{Placed};
ghost use Rattle.split_bundle.specs.Columns.{AreColumns, fast_fields};
ghost use Rattle.split_bundle.specs.Splits.{AreDocumentsOf};
ghost use Rattle.split_build.specs.HeldColumns.{HasColumns};

use crate::column_texts::put_log;
use crate::columns::ColumnLog;
use doc_value::Schema;
use split_bundle::{ColumnStart, Placed};
use std::alloc::{AllocError, Global};

/// The section of columns, and where each column starts in it.
#[derive(Drop)]
pub struct ColumnSection {
    pub bytes: Vec<u8>,
    pub starts: Vec<ColumnStart>,
}

/// A log for each fast field.
pub fn column_logs(alloc: Global, schema: &Schema) -> Result<Vec<ColumnLog>, AllocError>
    requires { IsSchema schema.now }
    ensures { IfOk result (λ logs. HasColumns [] (fast_fields schema.now) logs.items) }
{
    let mut logs = Vec::new(alloc);
    let mut number = 0;
    let mut rest = schema.fields.as_slice();
    while let Some((field, behind)) = rest.split_first() {
        if field.fast {
            logs.push(ColumnLog::vacant(alloc, number))?;
        }
        number += 1;
        rest = behind;
    }
    Ok(logs)
}

/// Adds a document to each log. After an `Err` nothing is said of them.
pub(crate) fn add_columns(
    alloc: Global,
    logs: &mut Vec<ColumnLog>,
    document: u32,
    placed: &Placed,
) -> Result<(), AllocError>
    ensures { (s : Schema) (documents : List Placed) → document ≡ length documents → HasColumns documents (fast_fields s) logs.old.items
        → OnOk result (HasColumns (documents ++ placed.now ∷ []) (fast_fields s) logs.new.items) }
{
    for i in 0..logs.len() {
        logs[i].add(alloc, document, placed.doc.as_slice())?;
    }
    Ok(())
}

/// The columns of the fast fields, one behind the other.
pub fn write_columns(
    alloc: Global,
    schema: &Schema,
    logs: &[ColumnLog],
) -> Result<ColumnSection, AllocError>
    requires { ∥ ((documents : List Placed) × AreDocumentsOf schema.now documents × HasColumns documents (fast_fields schema.now) logs.now) ∥₁ }
    ensures { (documents : List Placed) → AreDocumentsOf schema.now documents → HasColumns documents (fast_fields schema.now) logs.now
        → IfOk result (λ c. AreColumns documents 0 (fast_fields schema.now) c.starts.items c.bytes.items) }
{
    let mut bytes = Vec::new(alloc);
    let mut starts = Vec::new(alloc);
    let mut rest = logs;
    while let Some((log, behind)) = rest.split_first() {
        starts.push(ColumnStart {
            number: log.number as u64,
            start: bytes.len() as u64,
        })?;
        put_log(alloc, &mut bytes, schema.fields.at(log.number), log)?;
        rest = behind;
    }
    Ok(ColumnSection { bytes, starts })
}

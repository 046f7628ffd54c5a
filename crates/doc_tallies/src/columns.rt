//! The columns of some fields, and the values that documents have by them.

ghost use Rattle.std.specs.Prelude.{◌≡◌, ◌++◌, ℕ, List, Some, slice_get, IfOk, OnOk, MatchResult};
ghost use Rattle.std.specs.List.{All};
ghost use Rattle.std.specs.Option.{option_to_list};
ghost use Rattle.doc_value.specs.declared.schema.Schema.{Schema};
ghost use Rattle.doc_value.specs.Documents.{IsOfSchema};
ghost use Rattle.split_bundle.specs.declared.placed.Placed.{Placed};
ghost use Rattle.split_bundle.specs.Held.{IsHeld};
ghost use Rattle.split_bundle.specs.Files.{Parts, file_bytes};
ghost use Rattle.split_bundle.specs.Lending.{IsPartOf};
ghost use Rattle.split_bundle.specs.Wholes.{HaveAll, IsThere};
ghost use Rattle.doc_tallies.specs.AggColumns.{AreColumnsFor, AsksColumns, HasValuesOf};
ghost use Rattle.doc_tallies.specs.Causes.{LacksPart};
ghost use Rattle.doc_tallies.specs.Cells.{IsFast};

use crate::column_values::values_at;
use crate::field_column::{FieldColumn, open_column};
use agg_model::DocValues;
use doc_value::{DocField, Schema};
use split_bundle::{PartView, SplitError};
use std::alloc::{AllocError, Global};

// Adds a column, if there is one.
fn push_some<'a>(
    columns: &mut Vec<FieldColumn<'a>>,
    column: Option<FieldColumn<'a>>,
) -> Result<(), AllocError>
    ensures { OnOk result (columns.new.items ≡ columns.old.items ++ option_to_list column.entry) }
{
    if let Some(column) = column {
        columns.push(column)?;
    }
    Ok(())
}

/// The columns of these fields, one by one.
pub(crate) fn open_columns<'a>(
    alloc: Global,
    schema: &Schema,
    view: &PartView<'a>,
    fields: &[u32],
) -> Result<Vec<FieldColumn<'a>>, SplitError>
    ensures only { (documents : List Placed) (p : Parts) → IsPartOf view.now schema.now documents p → All (IsFast schema.now) fields.now
        → MatchResult result (λ columns. AreColumnsFor schema.now documents fields.now columns.items) (LacksPart (AsksColumns view.now p fields.now) view.now.pieces) }
    ensures there { (documents : List Placed) (p : Parts) → IsPartOf view.now schema.now documents p → HaveAll (file_bytes p) view.now.pieces → IsThere result }
{
    let mut columns = Vec::new(alloc);
    for number in fields {
        match open_column(schema, view, *number) {
            Ok(column) => push_some(&mut columns, column)?,
            Err(fault) => return Err(fault),
        }
    }
    Ok(columns)
}

/// A document's values of the fields of some columns.
pub(crate) fn values_of(
    alloc: Global,
    columns: &[FieldColumn<'_>],
    document: u32,
) -> Result<DocValues, AllocError>
    ensures { (s : Schema) (documents : List Placed) (fields : List ℕ) (d : Placed) → AreColumnsFor s documents fields columns.now → slice_get documents document ≡ Some d
        → IsOfSchema s d.doc → IsHeld d → IfOk result (HasValuesOf fields d.doc) }
{
    let mut doc = DocValues::vacant(alloc);
    for field in columns {
        let values = values_at(alloc, field, document)?;
        let number = field.number as usize;
        doc.push(DocField { number, values })?;
    }
    Ok(doc)
}

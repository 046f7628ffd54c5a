//! The columns of fields.

ghost use Rattle.std.specs.Prelude.{◌≡◌, List, IsOk, MatchResult, IsSomeAnd};
ghost use Rattle.split_bundle.specs.declared.placed.Placed.{Placed};
ghost use Rattle.split_bundle.specs.Files.{Parts, file_bytes};
ghost use Rattle.split_bundle.specs.Lending.{IsPartOf};
ghost use Rattle.split_bundle.specs.Wholes.{HaveAll};
ghost use Rattle.doc_tallies.specs.Causes.{AsksColumn, LacksPart};
ghost use Rattle.doc_tallies.specs.Cells.{IsColumnFor, IsFast};

use doc_value::{Kind, Schema};
use fast_fields::Column;
use split_bundle::{PartView, SplitError};

/// The column of a field, with the field's number and kind.
#[derive(Clone, Copy)]
pub(crate) struct FieldColumn<'a> {
    pub number: u32,
    pub kind: Kind,
    pub column: Column<'a>,
}

// The column of a field, if it is a fast one.
pub(crate) fn open_column<'a>(
    schema: &Schema,
    view: &PartView<'a>,
    number: u32,
) -> Result<Option<FieldColumn<'a>>, SplitError>
    ensures only { (documents : List Placed) (p : Parts) → IsPartOf view.now schema.now documents p → IsFast schema.now number
        → MatchResult result (λ o. IsSomeAnd o (IsColumnFor schema.now documents number)) (LacksPart (AsksColumn view.now p number) view.now.pieces) }
    ensures there { (documents : List Placed) (p : Parts) → IsPartOf view.now schema.now documents p → HaveAll (file_bytes p) view.now.pieces → IsOk result }
{
    if number as usize >= schema.fields.len() {
        return Ok(None);
    }
    match view.column(schema, number) {
        Ok(Some(column)) => {
            let kind = schema.fields.at(number as usize).kind;
            Ok(Some(FieldColumn {
                number,
                kind,
                column,
            }))
        }
        Ok(None) => Ok(None),
        Err(fault) => Err(fault),
    }
}

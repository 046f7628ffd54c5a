//! What some documents count for aggregations, by the columns of their fields.

ghost use Rattle.std.specs.Prelude.{◌≡◌, ◌^◌, ◌<◌, [], ◌∷◌, ◌++◌, List, length, MatchResult, IfOk, OnOk};
ghost use Rattle.std.specs.List.{All, AllZip};
ghost use Rattle.doc_value.specs.declared.doc.DocField.{DocField};
ghost use Rattle.doc_value.specs.declared.schema.Schema.{Schema};
ghost use Rattle.agg_nested.specs.Buckets.{PartStands, NestedStands, IsPartFor, ArePartsFor, IsNestedPartial, documents_counted};
ghost use Rattle.agg_nested.specs.Checking.{HasStep, HaveSteps};
ghost use Rattle.split_bundle.specs.declared.placed.Placed.{Placed};
ghost use Rattle.split_bundle.specs.Files.{Parts, file_bytes};
ghost use Rattle.split_bundle.specs.Lending.{IsPartOf};
ghost use Rattle.split_bundle.specs.Splits.{AreDocumentsOf};
ghost use Rattle.split_bundle.specs.Wholes.{HaveAll, IsThere};
ghost use Rattle.doc_tallies.specs.AggColumns.{AreColumnsFor, AreOverFast, AsksColumns, AsksFields, fields_of, fields_asked};
ghost use Rattle.doc_tallies.specs.Causes.{LacksPart};
ghost use Rattle.doc_tallies.specs.Cells.{IsFast};
ghost use Rattle.doc_tallies.specs.Picked.{AllBelow, docs_of, picked};

use crate::by_column::counted_part;
use crate::columns::open_columns;
use crate::each::part_each;
use crate::field_column::FieldColumn;
use crate::fields::fields_of;
use crate::metric::metric_part;
use agg_nested::{
    FlatAgg, NestedAgg, NestedPart, NestedPartial, NestedRequest, part_alone, parts_together,
};
use doc_value::Schema;
use split_bundle::{PartView, SplitError};
use std::alloc::{AllocError, Global};

// What some documents count for one aggregation, by the columns of its field and of those of its nested ones.
fn part_by_columns(
    alloc: Global,
    asked: &NestedAgg,
    columns: &[FieldColumn<'_>],
    numbers: &[u32],
) -> Result<NestedPart, AllocError>
    requires step { HasStep asked.now.agg }
    requires steps { All (λ named. HasStep named.agg) asked.now.nested }
    ensures only { (s : Schema) (documents : List Placed) → AreDocumentsOf s documents → AreColumnsFor s documents (fields_of asked.now) columns.now → AllBelow (length documents) numbers.now
        → IfOk result (λ part. PartStands asked.now part (docs_of (picked numbers.now documents))) }
    ensures known { IfOk result (IsPartFor asked.now (length numbers.now)) }
{
    if !asked.nested.is_empty() {
        return part_each(alloc, asked, columns, numbers);
    }
    match &asked.agg {
        FlatAgg::Counted(agg) => {
            let flat = counted_part(alloc, agg, columns, numbers)?;
            Ok(part_alone(alloc, flat))
        }
        FlatAgg::Metric { .. } => match metric_part(columns, numbers) {
            Some(flat) => Ok(part_alone(alloc, flat)),
            None => part_each(alloc, asked, columns, numbers),
        },
        FlatAgg::Ranges { .. } => part_each(alloc, asked, columns, numbers),
    }
}

// The same over a view.
fn part_of(
    alloc: Global,
    schema: &Schema,
    view: &PartView<'_>,
    asked: &NestedAgg,
    numbers: &[u32],
) -> Result<NestedPart, SplitError>
    requires step { HasStep asked.now.agg }
    requires steps { All (λ named. HasStep named.agg) asked.now.nested }
    requires below { AllBelow view.now.footer.layout.docs numbers.now }
    ensures only { (documents : List Placed) (p : Parts) → IsPartOf view.now schema.now documents p → All (IsFast schema.now) (fields_of asked.now)
        → MatchResult result (λ part. PartStands asked.now part (docs_of (picked numbers.now documents))) (LacksPart (AsksColumns view.now p (fields_of asked.now)) view.now.pieces) }
    ensures there { (documents : List Placed) (p : Parts) → IsPartOf view.now schema.now documents p → HaveAll (file_bytes p) view.now.pieces → IsThere result }
    ensures known { IfOk result (IsPartFor asked.now (length numbers.now)) }
{
    let fields = fields_of(alloc, asked)?;
    let columns = open_columns(alloc, schema, view, fields.as_slice())?;
    Ok(part_by_columns(alloc, asked, columns.as_slice(), numbers)?)
}

// Adds a part.
fn push_part(parts: &mut Vec<NestedPart>, part: NestedPart) -> Result<(), AllocError>
    ensures { OnOk result (parts.new.items ≡ parts.old.items ++ part ∷ []) }
{
    parts.push(part)?;
    Ok(())
}

// The same of each aggregation of a request.
fn parts_of(
    alloc: Global,
    schema: &Schema,
    view: &PartView<'_>,
    request: &[NestedAgg],
    numbers: &[u32],
) -> Result<Vec<NestedPart>, SplitError>
    requires intervals { HaveSteps request.now }
    requires below { AllBelow view.now.footer.layout.docs numbers.now }
    ensures only { (documents : List Placed) (p : Parts) → IsPartOf view.now schema.now documents p → AreOverFast schema.now request.now
        → MatchResult result (λ parts. AllZip (λ asked part. PartStands asked part (docs_of (picked numbers.now documents))) request.now parts.items)
        (LacksPart (AsksFields view.now p request.now) view.now.pieces) }
    ensures there { (documents : List Placed) (p : Parts) → IsPartOf view.now schema.now documents p → HaveAll (file_bytes p) view.now.pieces → IsThere result }
    ensures known { IfOk result (λ parts. ArePartsFor request.now (length numbers.now) parts.items) }
{
    let mut parts = Vec::new(alloc);
    for asked in request {
        match part_of(alloc, schema, view, asked, numbers) {
            Ok(part) => push_part(&mut parts, part)?,
            Err(fault) => return Err(fault),
        }
    }
    Ok(parts)
}

/// What the documents of these numbers count, by the columns of the fields that are counted alone. It answers Truncated where no
/// piece has such a column.
pub fn partial_of(
    alloc: Global,
    schema: &Schema,
    view: &PartView<'_>,
    request: &NestedRequest,
    numbers: &[u32],
) -> Result<NestedPartial, SplitError>
    requires intervals { HaveSteps request.now }
    requires below { AllBelow view.now.footer.layout.docs numbers.now }
    // Of a split of documents.
    ensures only { (documents : List Placed) (p : Parts) → IsPartOf view.now schema.now documents p → AreOverFast schema.now request.now
        → MatchResult result (λ partial. NestedStands request.now partial (docs_of (picked numbers.now documents))) (LacksPart (AsksFields view.now p request.now) view.now.pieces) }
    // Where the pieces have every part.
    ensures there { (documents : List Placed) (p : Parts) → IsPartOf view.now schema.now documents p → HaveAll (file_bytes p) view.now.pieces → IsThere result }
    // Over any bytes.
    ensures partial { IfOk result (IsNestedPartial request.now) }
    ensures many { IfOk result (λ partial. documents_counted partial ≡ length numbers.now) }
{
    let parts = parts_of(alloc, schema, view, request.as_slice(), numbers)?;
    Ok(parts_together(numbers.len() as u64, parts))
}

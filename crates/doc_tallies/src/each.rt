//! What some documents count for one aggregation and its nested ones, one document after the other.

ghost use Rattle.std.specs.Prelude.{IfOk, List, length};
ghost use Rattle.std.specs.List.{All};
ghost use Rattle.agg_nested.specs.Checking.{HasStep};
ghost use Rattle.doc_value.specs.declared.schema.Schema.{Schema};
ghost use Rattle.agg_nested.specs.Buckets.{PartStands, IsPartFor};
ghost use Rattle.split_bundle.specs.declared.placed.Placed.{Placed};
ghost use Rattle.split_bundle.specs.Splits.{AreDocumentsOf};
ghost use Rattle.doc_tallies.specs.AggColumns.{AreColumnsFor, fields_of};
ghost use Rattle.doc_tallies.specs.Picked.{AllBelow, docs_of, picked};

use crate::columns::values_of;
use crate::field_column::FieldColumn;
use agg_nested::{NestedAgg, NestedPart, collect_part, vacant_part};
use std::alloc::{AllocError, Global};

/// What the documents of these numbers count, by the columns of the fields of an aggregation and of its nested ones.
pub(crate) fn part_each(
    alloc: Global,
    asked: &NestedAgg,
    columns: &[FieldColumn<'_>],
    numbers: &[u32],
) -> Result<NestedPart, AllocError>
    requires step { HasStep asked.now.agg }
    requires steps { All (λ named. HasStep named.agg) asked.now.nested }
    ensures only { (s : Schema) (documents : List Placed) → AreDocumentsOf s documents → AreColumnsFor s documents (fields_of asked.now) columns.now → AllBelow (length documents) numbers.now
        → IfOk result (λ part. PartStands asked.now part (docs_of (picked numbers.now documents))) }
    ensures known { IfOk result (IsPartFor asked.now (length numbers.now)) }
{
    let mut part = vacant_part(alloc, asked)?;
    for (i, number) in numbers.iter().enumerate() {
        let doc = values_of(alloc, columns, *number)?;
        collect_part(alloc, asked, &mut part, &doc, i as u64)?;
    }
    Ok(part)
}

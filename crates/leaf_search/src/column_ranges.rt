// The columns that are asked for.

ghost use Rattle.std.specs.Prelude.{◌≡◌, ◌+◌, ◌<◌, ◌≤◌, [], ℕ, List, Some, false, length, slice_get, OnOk};
ghost use Rattle.std.specs.List.{All};
ghost use Rattle.doc_value.specs.declared.schema.Field.{Field};
ghost use Rattle.split_bundle.specs.declared.placed.Placed.{Placed};
ghost use Rattle.split_bundle.specs.declared.split_error.SplitError.TheVariants.{Truncated};
ghost use Rattle.split_bundle.specs.Files.{Parts};
ghost use Rattle.split_bundle.specs.Lending.{IsPartOf, length_of_column, start_of_column};
ghost use Rattle.agg_nested.specs.Checking as checking;
ghost use Rattle.doc_tallies.specs.AggColumns.{AreOverFast, AsksColumns, AsksFields};
ghost use Rattle.doc_tallies.specs.Causes.{AsksColumn, columns_start};
ghost use Rattle.doc_tallies.specs.Cells.{IsFast};
ghost use Rattle.doc_tallies.specs.Orders.{IsSortable};
ghost use Rattle.leaf_search.specs.Answers.{AsksTimes, IsAsked};
ghost use Rattle.leaf_search.specs.FileRanges.{AddsParts};
ghost use Rattle.leaf_search.specs.Needs.{NeedsColumns, NeedsOrder, fields_nested};

use crate::file_ranges::Ranges;
use crate::joining::name_part;
use crate::request::LeafRequest;
use crate::timed::is_unlimited;
use agg_model::Agg;
use agg_nested::{FlatAgg, NamedFlat, NestedAgg};
use doc_value::{Schema, TimeRange};
use split_bundle::{PartView, Pieces, SplitError};
use std::alloc::{AllocError, Global};

// Where the bytes start that a reader did not find.
fn missing_start(fault: &SplitError) -> u64
    ensures { (at : ℕ) → fault.now ≡ Truncated at → result ≡ at }
{
    match fault {
        SplitError::Truncated { at } => *at,
        SplitError::Memory(_) => 0,
        SplitError::BadMagic => 0,
        SplitError::BadSection { .. } => 0,
        SplitError::BadVersion { .. } => 0,
    }
}

// Where the column of a fast field starts in the file: there a view without pieces lacks it.
fn column_start(bare: &PartView, schema: &Schema, number: u32) -> u64
    requires { bare.now.pieces ≡ [] }
    ensures { (documents : List Placed) (p : Parts) → IsPartOf bare.now schema.now documents p → IsFast schema.now number
        → result ≡ columns_start bare.now.footer.layout.sections + start_of_column number p.column_starts }
{
    match bare.column(schema, number) {
        Ok(Some(_column)) => 0,
        Ok(None) => 0,
        Err(fault) => missing_start(&fault),
    }
}

// The first fast field behind a field, or how many fields there are.
fn next_fast(schema: &Schema, number: usize) -> usize
    requires few { length schema.now.fields ≤ 256 }
    requires field { number < length schema.now.fields }
    ensures behind { number < result }
    ensures within { result ≤ length schema.now.fields }
    ensures between { (k : ℕ) (f : Field) → number < k → k < result → slice_get schema.now.fields k ≡ Some f → f.fast ≡ false }
    ensures fast { result < length schema.now.fields → IsFast schema.now result }
{
    for next in number + 1..schema.fields.len() {
        if schema.fields.at(next).fast {
            return next;
        }
    }
    schema.fields.len()
}

// Where the column of a fast field ends.
fn column_end(bare: &PartView, schema: &Schema, number: u32) -> u64
    requires bare { bare.now.pieces ≡ [] }
    requires few { length schema.now.fields ≤ 256 }
    requires field { number < length schema.now.fields }
    ensures { (documents : List Placed) (p : Parts) → IsPartOf bare.now schema.now documents p → IsFast schema.now number
        → result ≡ columns_start bare.now.footer.layout.sections + start_of_column number p.column_starts + length_of_column number (length p.columns) p.column_starts }
{
    let next = next_fast(schema, number as usize);
    if next < schema.fields.len() {
        return column_start(bare, schema, next as u32);
    }
    let sections = bare.footer().sections();
    sections
        .documents
        .saturating_add(sections.dictionary)
        .saturating_add(sections.postings)
        .saturating_add(sections.positions)
        .saturating_add(sections.columns)
        .saturating_add(4)
}

// Names the column of a fast field.
pub(crate) fn name_column(
    bare: &PartView,
    schema: &Schema,
    ranges: &mut Ranges,
    number: usize,
) -> Result<(), AllocError>
    requires bare { bare.now.pieces ≡ [] }
    requires few { length schema.now.fields ≤ 256 }
    ensures { (documents : List Placed) (p : Parts) → IsPartOf bare.now schema.now documents p → IsFast schema.now number
        → OnOk result (AddsParts (AsksColumn bare.now p number) ranges.old ranges.new) }
{
    if number >= schema.fields.len() {
        return Ok(());
    }
    let start = column_start(bare, schema, number as u32);
    let end = column_end(bare, schema, number as u32);
    name_part(ranges, start, end.saturating_sub(start))
}

// Names the column of the timestamp where the times have an edge.
fn name_times(
    bare: &PartView,
    schema: &Schema,
    times: TimeRange,
    ranges: &mut Ranges,
) -> Result<(), AllocError>
    requires bare { bare.now.pieces ≡ [] }
    requires few { length schema.now.fields ≤ 256 }
    ensures { (documents : List Placed) (p : Parts) → IsPartOf bare.now schema.now documents p
        → OnOk result (AddsParts (AsksTimes bare.now p schema.now times) ranges.old ranges.new) }
{
    if is_unlimited(times) {
        return Ok(());
    }
    match schema.timestamp {
        Some(number) => name_column(bare, schema, ranges, number),
        None => Ok(()),
    }
}

fn field_of(agg: &FlatAgg) -> u32
    ensures { result ≡ checking.field_of agg.now }
{
    match agg {
        FlatAgg::Counted(Agg::Terms { field, .. })
        | FlatAgg::Counted(Agg::Histogram { field, .. })
        | FlatAgg::Metric { field, .. }
        | FlatAgg::Ranges { field, .. } => *field,
    }
}

// Names the columns of the fields of nested aggregations.
fn name_nested(
    bare: &PartView,
    schema: &Schema,
    nested: &[NamedFlat],
    ranges: &mut Ranges,
) -> Result<(), AllocError>
    requires bare { bare.now.pieces ≡ [] }
    requires few { length schema.now.fields ≤ 256 }
    ensures { (documents : List Placed) (p : Parts) → IsPartOf bare.now schema.now documents p → All (IsFast schema.now) (fields_nested nested.now)
        → OnOk result (AddsParts (AsksColumns bare.now p (fields_nested nested.now)) ranges.old ranges.new) }
{
    for named in nested {
        name_column(bare, schema, ranges, field_of(&named.agg) as usize)?;
    }
    Ok(())
}

// Names the columns of the fields of aggregations, and of the nested ones.
fn name_fields(
    bare: &PartView,
    schema: &Schema,
    aggs: &[NestedAgg],
    ranges: &mut Ranges,
) -> Result<(), AllocError>
    requires bare { bare.now.pieces ≡ [] }
    requires few { length schema.now.fields ≤ 256 }
    ensures { (documents : List Placed) (p : Parts) → IsPartOf bare.now schema.now documents p → AreOverFast schema.now aggs.now
        → OnOk result (AddsParts (AsksFields bare.now p aggs.now) ranges.old ranges.new) }
{
    for asked in aggs {
        name_column(bare, schema, ranges, field_of(&asked.agg) as usize)?;
        name_nested(bare, schema, asked.nested.as_slice(), ranges)?;
    }
    Ok(())
}

// Names the column by which hits are sorted, where some are wanted.
fn name_order(
    bare: &PartView,
    schema: &Schema,
    request: &LeafRequest,
    ranges: &mut Ranges,
) -> Result<(), AllocError>
    requires bare { bare.now.pieces ≡ [] }
    requires few { length schema.now.fields ≤ 256 }
    ensures { (documents : List Placed) (p : Parts) → IsPartOf bare.now schema.now documents p → IsSortable schema.now request.now.order
        → OnOk result (AddsParts (NeedsOrder bare.now p request.now) ranges.old ranges.new) }
{
    if request.wanted == 0 {
        return Ok(());
    }
    match request.order {
        Some(order) => name_column(bare, schema, ranges, order.field as usize),
        None => Ok(()),
    }
}

// Names the columns that a request asks for.
pub(crate) fn name_columns(
    alloc: Global,
    part: &PartView,
    schema: &Schema,
    request: &LeafRequest,
    ranges: &mut Ranges,
) -> Result<(), AllocError>
    requires { length schema.now.fields ≤ 256 }
    ensures { (documents : List Placed) (p : Parts) → IsPartOf part.now schema.now documents p → IsAsked schema.now request.now
        → OnOk result (AddsParts (NeedsColumns part.now schema.now p request.now) ranges.old ranges.new) }
{
    let bare = PartView::gather(part.footer().copy(alloc)?, Pieces::vacant(alloc));
    name_times(&bare, schema, request.times, ranges)?;
    name_fields(&bare, schema, request.aggs.as_slice(), ranges)?;
    name_order(&bare, schema, request, ranges)
}

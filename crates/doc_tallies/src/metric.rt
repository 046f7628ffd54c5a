//! What some documents count for a metric, by the column of its field.

ghost use Rattle.std.specs.Prelude.{◌≡◌, ◌+◌, ◌^◌, ◌<◌, ◌≤◌, ◌++◌, ◌∷◌, [], ℕ, ℤ, List, length, IfSome};
ghost use Rattle.std.specs.Option.{option_map_or, option_to_list};
ghost use Rattle.doc_value.specs.declared.doc.DocField.{DocField};
ghost use Rattle.doc_value.specs.declared.schema.Schema.{Schema};
ghost use Rattle.agg_metrics.specs.Metrics.{HasRoom, IsMetricOf, IsWhole};
ghost use Rattle.agg_nested.specs.Partials.{FlatStands, MetricStands};
ghost use Rattle.agg_nested.specs.declared.request.FlatAgg.TheVariants.{Metric};
ghost use Rattle.agg_nested.specs.declared.request.MetricKind.{MetricKind};
ghost use Rattle.split_bundle.specs.Splits.{AreDocumentsOf};
ghost use Rattle.split_bundle.specs.declared.placed.Placed.{Placed};
ghost use Rattle.doc_tallies.specs.AggColumns.{AreColumnsFor};
ghost use Rattle.doc_tallies.specs.Cells.{IsColumnFor};
ghost use Rattle.doc_tallies.specs.Marks as marks;
ghost use Rattle.doc_tallies.specs.Marks.{HasFirst, IsSingle};
ghost use Rattle.doc_tallies.specs.Picked.{AllBelow, docs_of, picked};

use crate::by_column::has_one_value;
use crate::column_values::signed;
use crate::field_column::FieldColumn;
use crate::first_values::FirstValues;
use agg_metrics::MetricPart;
use agg_nested::FlatPart;
use doc_value::Kind;

// The whole number of a first value of a kind, by its number in the column.
fn whole_there(kind: Kind, value: Option<u64>) -> Option<i128>
    ensures value { result ≡ marks.whole_there kind value }
    ensures small { IfSome result IsWhole }
{
    let number = value?;
    match kind {
        Kind::I64 | Kind::Datetime => Some(i128::from(signed(number))),
        Kind::U64 => Some(i128::from(number)),
        Kind::Text | Kind::TextList | Kind::Bool => None,
    }
}

// How many values a document has of which this is the only one, if there is one.
fn values_there(value: Option<u64>) -> u64
    ensures value { result ≡ option_map_or (λ n. 1) value 0 }
    ensures few { result ≤ 1 }
{
    match value {
        Some(_number) => 1,
        None => 0,
    }
}

// Adds the number, if there is one.
fn add_first(part: &mut MetricPart, first: Option<i128>)
    requires whole { IfSome first IsWhole }
    requires room { HasRoom part.old }
    ensures { (counted : ℕ) (values : List ℤ) → IsMetricOf counted values part.old → IsMetricOf counted (values ++ option_to_list first) part.new }
{
    if let Some(whole) = first {
        part.add(whole);
    }
}

// Counts one document, by the number of its only value, if it has one.
fn add_value(part: &mut MetricPart, kind: Kind, value: Option<u64>)
    requires { (field : ℕ) × (docs : List (List DocField)) × MetricStands field part.old docs × (length docs + 1 < 2 ^ 62) }
    ensures { (field : ℕ) (docs : List (List DocField)) (doc : List DocField) → MetricStands field part.old docs → HasFirst field kind value doc → MetricStands field part.new (docs ++ doc ∷ []) }
{
    part.count(values_there(value));
    add_first(part, whole_there(kind, value));
}

// What the documents of these numbers count for a metric over the column's field.
fn metric_of(field: &FieldColumn<'_>, numbers: &[u32]) -> MetricPart
    ensures only { (s : Schema) (documents : List Placed) (number : ℕ) → IsSingle field.now.kind → AreDocumentsOf s documents → IsColumnFor s documents number field.now
        → AllBelow (length documents) numbers.now → MetricStands number result (docs_of (picked numbers.now documents)) }
    ensures known { (number : ℕ) → (shown : List (List DocField)) × MetricStands number result shown × (length shown ≡ length numbers.now) }
{
    let mut part = MetricPart::vacant();
    let mut values = FirstValues::over(field.column);
    for number in numbers {
        let value = values.value_at(*number);
        add_value(&mut part, field.kind, value);
    }
    part
}

/// What some documents count for a metric, by the column of its field, if each has at most one value of it.
pub(crate) fn metric_part(columns: &[FieldColumn<'_>], numbers: &[u32]) -> Option<FlatPart>
    ensures only { (s : Schema) (documents : List Placed) (kind : MetricKind) (field : ℕ) → AreDocumentsOf s documents → AreColumnsFor s documents (field ∷ []) columns.now
        → AllBelow (length documents) numbers.now → IfSome result (λ part. FlatStands (Metric kind field) part (docs_of (picked numbers.now documents))) }
    ensures known { (kind : MetricKind) (field : ℕ) → IfSome result (λ part. (shown : List (List DocField)) × FlatStands (Metric kind field) part shown × (length shown ≡ length numbers.now)) }
{
    if columns.is_empty() {
        return None;
    }
    let field = columns[0];
    if !has_one_value(field.kind) {
        return None;
    }
    Some(FlatPart::Metric(metric_of(&field, numbers)))
}

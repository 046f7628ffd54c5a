//! What one more document counts.

ghost use Rattle.std.specs.Prelude.{◌≡◌, ◌+◌, ◌^◌, ◌<◌, ◌≤◌, IfSome, OnOk, pos, ◌≤ℤ◌};
ghost use Rattle.std.specs.Int.RustNames.{unsigned_abs};
ghost use Rattle.std.specs.Option.{option_map};
ghost use Rattle.agg_model.specs.Checking.{HasInterval};
ghost use Rattle.agg_model.specs.Counting.{whole, step_of, first_whole};
ghost use Rattle.doc_value.specs.Documents.{values_in};
ghost use Rattle.agg_model.specs.Partials.{IsNear, IsPart, IsCollected};

use crate::counts::Counts;
use crate::distance::Distance;
use crate::request::{Agg, DocValues};
use doc_value::Value;
use std::alloc::{AllocError, Global};

// The document's values of a field.
fn values_of(doc: &DocValues, field: u32) -> &[Value]
    ensures { result.now ≡ values_in doc.now field }
{
    for part in doc.as_slice() {
        if part.number == field as usize {
            return part.values.as_slice();
        }
    }
    &[]
}

// A number, or a datetime's whole seconds.
fn whole(value: &Value) -> Option<i128>
    ensures value { result ≡ whole value.now }
    ensures small { IfSome result (λ z. unsigned_abs z ≤ 2 ^ 64) }
{
    match value {
        Value::I64(whole) => Some(i128::from(*whole)),
        Value::U64(whole) => Some(i128::from(*whole)),
        Value::Datetime(seconds) => Some(i128::from(*seconds)),
        Value::Text(_) | Value::Bool(_) => None,
    }
}

// The number of the step in which a whole number lies.
fn step_of(interval: Distance, offset: Distance, whole: i128) -> i128
    requires some { pos 1 ≤ℤ interval }
    requires small { unsigned_abs whole ≤ 2 ^ 64 }
    ensures value { result ≡ step_of interval offset whole }
    ensures near { IsNear interval offset result }
{
    let apart = whole - offset.whole();
    apart.div_euclid(interval.whole())
}

// The step of the document's first value of the field.
fn first_step(doc: &DocValues, field: u32, interval: Distance, offset: Distance) -> Option<i128>
    requires { pos 1 ≤ℤ interval }
    ensures value { result ≡ option_map (step_of interval offset) (first_whole field doc.now) }
    ensures near { IfSome result (IsNear interval offset) }
{
    let first = values_of(doc, field).first()?;
    let whole = whole(first)?;
    Some(step_of(interval, offset, whole))
}

/// Counts one more document, behind so many, for one aggregation.
pub fn collect_part(
    alloc: Global,
    agg: &Agg,
    counts: &mut Counts,
    doc: &DocValues,
    documents: u64,
) -> Result<(), AllocError>
    requires interval { HasInterval agg.now }
    requires few { documents + 1 < 2 ^ 62 }
    requires part { IsPart documents agg.now counts.old }
    ensures { OnOk result (IsCollected documents doc.now agg.now counts.old counts.new) }
{
    match agg {
        Agg::Terms { field, .. } => {
            counts.raise_all(alloc, values_of(doc, *field), documents + 1)?;
        }
        Agg::Histogram {
            field,
            interval,
            offset,
            ..
        } => {
            if let Some(step) = first_step(doc, *field, *interval, *offset) {
                counts.raise_step(step)?;
            }
        }
    }
    Ok(())
}

//! Which aggregations are refused.

ghost use Rattle.std.specs.Prelude.{◌≡◌, ◌<◌, length, None, IfErr, OnOk};
ghost use Rattle.std.specs.List.{All};
ghost use Rattle.agg_model.specs.Checking.{field_of, has_steps, takes, has_interval, HaveIntervals, refusal_of, first_refusal, IsGiven};

use crate::agg_error::AggError;
use crate::request::{Agg, AggRequest, NamedAgg};
use doc_value::{Field, Kind, Replica, Schema};
use std::alloc::Global;

// Whether a histogram has steps over this kind of values.
fn has_steps(dated: bool, kind: Kind) -> bool
    ensures { result ≡ has_steps dated kind }
{
    match kind {
        Kind::Datetime => true,
        Kind::I64 | Kind::U64 => !dated,
        Kind::Text | Kind::Bool | Kind::TextList => false,
    }
}

// Whether the aggregation takes the field.
fn takes(agg: &Agg, field: &Field) -> bool
    ensures { result ≡ takes agg.now field.now }
{
    match agg {
        Agg::Terms { .. } => field.fast,
        Agg::Histogram { dated, .. } => field.fast && has_steps(*dated, field.kind),
    }
}

// Whether the interval, if any, is at least 1.
fn has_interval(agg: &Agg) -> bool
    ensures { result ≡ has_interval agg.now }
{
    match agg {
        Agg::Terms { .. } => true,
        Agg::Histogram { interval, .. } => interval.whole() >= 1,
    }
}

fn check_one(alloc: Global, schema: &Schema, named: &NamedAgg) -> Result<(), AggError>
    requires { field_of named.now.agg < length schema.now.fields }
    ensures ok { OnOk result (refusal_of schema.now.fields named.now ≡ None) }
    ensures err { IfErr result (IsGiven (refusal_of schema.now.fields named.now)) }
{
    let field = match named.agg {
        Agg::Terms { field, .. } => field,
        Agg::Histogram { field, .. } => field,
    };
    let field = schema.fields.at(field as usize);
    if !takes(&named.agg, field) {
        return Err(AggError::NotFast {
            field: field.path.copy(alloc).map_err(AggError::Memory)?,
        });
    }
    if !has_interval(&named.agg) {
        return Err(AggError::BadInterval {
            name: named.name.copy(alloc).map_err(AggError::Memory)?,
        });
    }
    Ok(())
}

/// Tests the aggregations in the order of the request, which is that of their names. The first that is refused answers: NotFast for
/// a field that is not fast or not of a kind that the aggregation takes, then BadInterval for an interval below 1.
pub fn check_aggs(alloc: Global, schema: &Schema, request: &AggRequest) -> Result<(), AggError>
    requires { All (λ named. field_of named.agg < length schema.now.fields) request.now }
    ensures ok { OnOk result (first_refusal schema.now.fields request.now ≡ None) }
    ensures err { IfErr result (IsGiven (first_refusal schema.now.fields request.now)) }
    ensures intervals { OnOk result (HaveIntervals request.now) }
{
    for named in request.as_slice() {
        check_one(alloc, schema, named)?;
    }
    Ok(())
}

//! What all documents of a file count.

ghost use Rattle.std.specs.Prelude.{◌<◌, IfOk, length};
ghost use Rattle.agg_nested.specs.Checking.{HaveFields, HaveSteps};

use super::answers::all_numbers;
use agg_model::{Agg, AggAnswer, Bucket, Key};
use agg_nested::{
    FlatAgg, FlatAnswer, NestedAgg, NestedRequest, NestedResult, check_nested, finish_nested,
};
use doc_tallies::partial_of;
use doc_value::{List, Schema, Text, Value};
use split_bundle::{PartView, SplitError};
use std::alloc::{AllocError, Global};

fn request(alloc: Global, schema: &Schema, field: u32) -> Result<NestedRequest, AllocError>
    requires { field < length schema.now.fields }
    ensures { IfOk result (HaveFields (length schema.now.fields)) }
{
    let name = Text::from_str(alloc, "a")?;
    let agg = FlatAgg::Counted(Agg::Terms { field, size: 10 });
    let nested = List::vacant(alloc);
    NestedRequest::one(alloc, NestedAgg { name, agg, nested })
}

// How many documents have each value.
fn counted(
    alloc: Global,
    schema: &Schema,
    view: &PartView<'_>,
    asked: &NestedRequest,
) -> Result<String, SplitError>
    requires { HaveSteps asked.now }
{
    let numbers = all_numbers(alloc, view)?;
    let partial = partial_of(alloc, schema, view, asked, numbers.as_slice())?;
    match finish_nested(alloc, asked, &partial) {
        Ok(results) => Ok(results_shown(alloc, &results)?),
        Err(_) => Ok(String::new(alloc)),
    }
}

fn results_shown(alloc: Global, results: &NestedResult) -> Result<String, AllocError> {
    let mut text = String::new(alloc);
    for one in results.as_slice() {
        text.push_str(printed(alloc, &one.answer)?.as_str())?;
    }
    Ok(text)
}

fn bucket(alloc: Global, bucket: &Bucket) -> Result<String, AllocError> {
    let count = bucket.count;
    match &bucket.key {
        Key::Value(Value::Text(text)) => format!(in alloc; "{}={count} ", text.as_str()),
        Key::Value(Value::I64(number)) => format!(in alloc; "{number}={count} "),
        _ => String::from_str(alloc, "other "),
    }
}

fn printed(alloc: Global, answer: &FlatAnswer) -> Result<String, AllocError> {
    let mut text = String::new(alloc);
    if let FlatAnswer::Counted(AggAnswer::Terms { buckets, others }) = answer {
        for one in buckets.as_slice() {
            text.push_str(bucket(alloc, one)?.as_str())?;
        }
        text.push_str(format!(in alloc; "others={others}")?.as_str())?;
    }
    Ok(text)
}

/// How many documents have each text or number of a field.
pub fn terms(
    alloc: Global,
    schema: &Schema,
    file: &[u8],
    field: u32,
) -> Result<String, SplitError> {
    if field as usize >= schema.fields.len() {
        return Ok(String::from_str(alloc, "no field")?);
    }
    let view = PartView::whole(alloc, file)?;
    let asked = request(alloc, schema, field)?;
    match check_nested(alloc, schema, &asked) {
        Ok(()) => counted(alloc, schema, &view, &asked),
        Err(_) => Ok(String::from_str(alloc, "refused")?),
    }
}

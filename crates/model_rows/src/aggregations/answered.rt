//! Requests with aggregations, from their texts to the lines of their replies.

ghost use Rattle.std.specs.Prelude.{◌≡◌, ◌<◌, ◌^◌, IfOk, length};
ghost use Rattle.agg_nested.specs.Buckets.{IsNestedPartial, documents_counted};
ghost use Rattle.agg_nested.specs.Checking.{HaveSteps};

use crate::requests::refusals::{over_logs, refused};
use crate::requests::replies::line_of;
use agg_model::{AggError, DocValues};
use agg_nested::{
    NestedPartial, NestedRequest, NestedResult, collect_nested, finish_nested, merge_nested,
    vacant_nested,
};
use doc_value::{DocField, Text, Value, Values};
use search_api::{Hits, Resolved, Said, Unanswered};
use std::alloc::{AllocError, Global};

/// How many documents a row has at most.
const MOST_ROWS: usize = 1000;

/// A document of a level and a size, either of which may be absent.
fn document(alloc: Global, row: &str) -> Result<DocValues, AllocError> {
    let (level, size) = row.split_once('=').unwrap_or((row, ""));
    let mut doc = DocValues::vacant(alloc);
    if !level.is_empty() {
        let value = Value::Text(Text::from_str(alloc, level)?);
        let values = Values::one(alloc, value)?;
        doc.push(DocField { number: 1, values })?;
    }
    if let Ok(size) = size.parse::<i64>() {
        let values = Values::one(alloc, Value::I64(size))?;
        doc.push(DocField { number: 2, values })?;
    }
    Ok(doc)
}

// What documents count.
fn collected(
    alloc: Global,
    asked: &NestedRequest,
    rows: &[&str],
) -> Result<NestedPartial, AllocError>
    requires steps { HaveSteps asked.now }
    requires few { length rows.now < 2 ^ 60 }
    ensures partial { IfOk result (IsNestedPartial asked.now) }
    ensures many { IfOk result (λ p. documents_counted p ≡ length rows.now) }
{
    let mut partial = vacant_nested(alloc, asked)?;
    for row in rows {
        let doc = document(alloc, row)?;
        collect_nested(alloc, asked, &mut partial, &doc)?;
    }
    Ok(partial)
}

// What the first documents and the other ones answer together.
fn merged(
    alloc: Global,
    asked: &NestedRequest,
    first: &[&str],
    second: &[&str],
) -> Result<NestedResult, AggError>
    requires steps { HaveSteps asked.now }
    requires few { length first.now < 2 ^ 60 }
    requires more { length second.now < 2 ^ 60 }
{
    let mut partial = collected(alloc, asked, first)?;
    let other = collected(alloc, asked, second)?;
    merge_nested(alloc, asked, &mut partial, &other)?;
    finish_nested(alloc, asked, &partial)
}

fn said(
    alloc: Global,
    asked: &NestedRequest,
    first: &[&str],
    second: &[&str],
) -> Result<Said, AllocError>
    requires steps { HaveSteps asked.now }
    requires few { length first.now < 2 ^ 60 }
    requires more { length second.now < 2 ^ 60 }
{
    match merged(alloc, asked, first, second) {
        Ok(aggregations) => Ok(Said::Found {
            count: first.len() as u64 + second.len() as u64,
            hits: Hits::vacant(alloc),
            aggregations,
        }),
        Err(error) => match Unanswered::from(error) {
            Unanswered::Refused(refusal) => Ok(Said::Refused(refusal)),
            Unanswered::Memory(error) => Err(error),
        },
    }
}

fn replied(alloc: Global, asked: &NestedRequest, words: &str) -> Result<String, AllocError>
    requires { HaveSteps asked.now }
{
    let (first, second) = words.split_once('+').unwrap_or((words, ""));
    let first: Vec<&str> = first.split_whitespace().collect(alloc)?;
    let second: Vec<&str> = second.split_whitespace().collect(alloc)?;
    if first.len() > MOST_ROWS || second.len() > MOST_ROWS {
        return String::from_str(alloc, "too many documents");
    }
    line_of(
        alloc,
        said(alloc, asked, first.as_slice(), second.as_slice())?,
    )
}

/// The line of the reply to a request over documents, those before the plus sign and those behind it collected apart and merged.
pub fn answered(alloc: Global, words: &str) -> Result<String, AllocError> {
    let (rows, text) = words.split_once('/').unwrap_or((words, ""));
    match over_logs(alloc, text.as_bytes()) {
        Ok(Resolved::Search(search)) => replied(alloc, &search.aggs, rows),
        Ok(Resolved::Delete(_)) => String::from_str(alloc, "a delete"),
        Err(reason) => refused(alloc, reason),
    }
}

//! What a line asks, and its answer.

use super::fields::schema;
use super::leaves;
use doc_value::{
    Bytes, Doc, DocField, FieldTags, Schema, TagFacts, Tags, Terms, Text, TimeRange, Value, Values,
    term_bytes,
};
use query_ast::{Query, copy_query, lies_in, matches, possible};
use query_reader::{FieldNumbers, QueryError, print_query, read_query};
use std::alloc::{AllocError, Global};

/// `read Q` and `bare Q` print a query that is read with the default field body or with none; `found D/Q` says whether a document
/// whose body is D matches, `tagged T/Q` whether one may whose levels are all T, `sized N/Q` whether one may whose sizes are all N,
/// and `from N/M` whether one of the second M lies in the times from N on and before 6. `leaf Q` says whether a document of values
/// at paths that no field has matches, and `path Q` prints a query over its schema.
pub fn answer(alloc: Global, line: &str) -> Result<String, AllocError> {
    let schema = schema(alloc)?;
    answered(alloc, &schema, line)
}

fn answered(alloc: Global, schema: &Schema, line: &str) -> Result<String, AllocError> {
    let Some((asked, rest)) = line.split_once(' ') else {
        return String::from_str(alloc, "nothing asked");
    };
    let (first, second) = rest.split_once('/').unwrap_or((rest, ""));
    match asked {
        "read" => printed(alloc, schema, &[0], rest),
        "bare" => printed(alloc, schema, &[], rest),
        "found" => found(alloc, schema, first, second),
        "tagged" => tagged(alloc, schema, first, second),
        "sized" => sized(alloc, schema, first, second),
        "from" => timed(alloc, schema, first, second),
        "leaf" => leaves::found(alloc, rest),
        "path" => leaves::read(alloc, rest),
        _ => String::from_str(alloc, "nothing asked"),
    }
}

pub fn printed(
    alloc: Global,
    schema: &Schema,
    defaults: &[usize],
    text: &str,
) -> Result<String, AllocError> {
    let defaults = FieldNumbers::from_slice(alloc, defaults)?;
    match read_query(alloc, schema, &defaults, text) {
        Ok(query) => shown(alloc, schema, &query),
        Err(refusal) => refused(alloc, &refusal),
    }
}

fn shown(alloc: Global, schema: &Schema, query: &Query) -> Result<String, AllocError> {
    let printed = print_query(alloc, schema, query)?;
    String::from_str(alloc, printed.as_str())
}

pub fn refused(alloc: Global, refusal: &QueryError) -> Result<String, AllocError> {
    match refusal {
        QueryError::UnknownField { name } => {
            let name = name.as_str();
            format!(in alloc; "no field {name}")
        }
        other => format!(in alloc; "{other}"),
    }
}

fn found(alloc: Global, schema: &Schema, body: &str, text: &str) -> Result<String, AllocError> {
    let doc = one_value(alloc, 0, Value::Text(Text::from_str(alloc, body)?))?;
    found_in(alloc, schema, &doc, text)
}

fn found_in(alloc: Global, schema: &Schema, doc: &Doc, text: &str) -> Result<String, AllocError> {
    let defaults = FieldNumbers::from_slice(alloc, &[0])?;
    match read_query(alloc, schema, &defaults, text) {
        Ok(query) => matched(alloc, schema, doc, &query),
        Err(refusal) => refused(alloc, &refusal),
    }
}

/// Whether a copy of the query matches.
pub fn matched(
    alloc: Global,
    schema: &Schema,
    doc: &Doc,
    query: &Query,
) -> Result<String, AllocError> {
    let query = copy_query(alloc, query)?;
    said(alloc, matches(alloc, schema, &query, doc)?)
}

fn one_value(alloc: Global, number: usize, value: Value) -> Result<Doc, AllocError> {
    let mut doc = Doc::vacant(alloc);
    doc.push(DocField {
        number,
        values: Values::one(alloc, value)?,
    })?;
    Ok(doc)
}

fn said(alloc: Global, holds: bool) -> Result<String, AllocError> {
    String::from_str(alloc, if holds { "yes" } else { "no" })
}

fn tagged(alloc: Global, schema: &Schema, level: &str, text: &str) -> Result<String, AllocError> {
    may_match(
        alloc,
        schema,
        1,
        Bytes::from_slice(alloc, level.as_bytes())?,
        text,
    )
}

fn sized(alloc: Global, schema: &Schema, size: &str, text: &str) -> Result<String, AllocError> {
    let size = size.parse::<i64>().unwrap_or(0);
    may_match(
        alloc,
        schema,
        5,
        term_bytes(alloc, &Value::I64(size))?,
        text,
    )
}

/// Whether a document may match that has this one term in a tag field.
fn may_match(
    alloc: Global,
    schema: &Schema,
    number: usize,
    term: Bytes,
    text: &str,
) -> Result<String, AllocError> {
    let tags = Tags::Listed(Terms::one(alloc, term)?);
    let facts = TagFacts::one(alloc, FieldTags { number, tags })?;
    may_match_with(alloc, schema, &facts, text)
}

fn may_match_with(
    alloc: Global,
    schema: &Schema,
    facts: &TagFacts,
    text: &str,
) -> Result<String, AllocError> {
    let defaults = FieldNumbers::from_slice(alloc, &[0])?;
    match read_query(alloc, schema, &defaults, text) {
        Ok(query) => said(alloc, possible(schema, &query, facts)),
        Err(refusal) => refused(alloc, &refusal),
    }
}

fn timed(alloc: Global, schema: &Schema, start: &str, second: &str) -> Result<String, AllocError> {
    let times = TimeRange {
        start: start.parse::<i64>().ok(),
        end: Some(6),
    };
    let second = second.parse::<i64>().unwrap_or(0);
    let doc = one_value(alloc, 6, Value::Datetime(second))?;
    said(alloc, lies_in(schema, &times, &doc))
}

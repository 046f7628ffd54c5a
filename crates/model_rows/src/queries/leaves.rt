//! Queries on paths that no field has, over a document of four values at such paths.

use super::answers::{matched, printed, refused};
use doc_value::{Doc, DocField, Field, Fields, Kind, Schema, Text, Tokenizer, Value, Values};
use query_reader::{FieldNumbers, read_query};
use std::alloc::{AllocError, Global};

/// The leaf texts of `{"body":"red","tags":["x","y"],"user":{"id":7,"ok":true}}`, but of body.
const LEAF_TEXTS: [&str; 4] = ["4:tags:x", "4:tags:y", "7:user.id:7", "7:user.ok:true"];

fn field(alloc: Global, path: &str, kind: Kind, tokenizer: Tokenizer) -> Result<Field, AllocError> {
    Ok(Field {
        path: Text::from_str(alloc, path)?,
        kind,
        fast: false,
        indexed: true,
        tag: false,
        tokenizer,
        positions: false,
    })
}

/// Field 0 holds what is not mapped, field 1 is body.
fn schema(alloc: Global) -> Result<Schema, AllocError> {
    let mut fields = Fields::vacant(alloc);
    fields.push(field(alloc, "_dynamic", Kind::TextList, Tokenizer::Raw)?)?;
    fields.push(field(alloc, "body", Kind::Text, Tokenizer::Default)?)?;
    Ok(Schema {
        fields,
        timestamp: None,
        dynamic: Some(0),
    })
}

fn document(alloc: Global) -> Result<Doc, AllocError> {
    let mut values = Values::vacant(alloc);
    for text in LEAF_TEXTS {
        values.push(Value::Text(Text::from_str(alloc, text)?))?;
    }
    let mut doc = Doc::vacant(alloc);
    doc.push(DocField { number: 0, values })?;
    Ok(doc)
}

/// Whether that document matches.
pub fn found(alloc: Global, text: &str) -> Result<String, AllocError> {
    let schema = schema(alloc)?;
    let doc = document(alloc)?;
    let defaults = FieldNumbers::from_slice(alloc, &[1])?;
    match read_query(alloc, &schema, &defaults, text) {
        Ok(query) => matched(alloc, &schema, &doc, &query),
        Err(refusal) => refused(alloc, &refusal),
    }
}

/// The query as it is printed.
pub fn read(alloc: Global, text: &str) -> Result<String, AllocError> {
    let schema = schema(alloc)?;
    printed(alloc, &schema, &[1], text)
}

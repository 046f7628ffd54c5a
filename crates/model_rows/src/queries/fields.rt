//! The schema of the rows.

use doc_value::{Field, Fields, Kind, Schema, Text, Tokenizer};
use std::alloc::{AllocError, Global};

fn field(
    alloc: Global,
    path: &str,
    kind: Kind,
    tokenizer: Tokenizer,
    positions: bool,
) -> Result<Field, AllocError> {
    let tagged = matches!(tokenizer, Tokenizer::Raw);
    Ok(Field {
        path: Text::from_str(alloc, path)?,
        kind,
        fast: false,
        indexed: path != "off",
        tag: tagged,
        tokenizer,
        positions,
    })
}

/// body, a text with positions; level, a raw text, and a tag as each field behind it; note, a text without positions; off, which
/// is not indexed; ok, size and ts of the other kinds.
const ROWS: [(&str, Kind, Tokenizer, bool); 7] = [
    ("body", Kind::Text, Tokenizer::Default, true),
    ("level", Kind::Text, Tokenizer::Raw, false),
    ("note", Kind::Text, Tokenizer::Default, false),
    ("off", Kind::I64, Tokenizer::Raw, false),
    ("ok", Kind::Bool, Tokenizer::Raw, false),
    ("size", Kind::I64, Tokenizer::Raw, false),
    ("ts", Kind::Datetime, Tokenizer::Raw, false),
];

/// The fields above, by their places; the last is the timestamp.
pub fn schema(alloc: Global) -> Result<Schema, AllocError> {
    let mut fields = Fields::vacant(alloc);
    for (path, kind, tokenizer, positions) in ROWS {
        fields.push(field(alloc, path, kind, tokenizer, positions)?)?;
    }
    Ok(Schema {
        fields,
        timestamp: Some(6),
        dynamic: None,
    })
}

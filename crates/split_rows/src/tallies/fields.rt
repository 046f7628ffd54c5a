//! The schema of the rows.

use doc_value::{Field, Fields, Kind, Schema, Text, Tokenizer};
use std::alloc::{AllocError, Global};

fn fast(alloc: Global, path: &str, kind: Kind) -> Result<Field, AllocError> {
    Ok(Field {
        path: Text::from_str(alloc, path)?,
        kind,
        fast: true,
        indexed: false,
        tag: false,
        tokenizer: Tokenizer::Raw,
        positions: false,
    })
}

/// level, a text, size, a signed number, and time, the timestamp; all are fast.
pub fn schema(alloc: Global) -> Result<Schema, AllocError> {
    let mut fields = Fields::vacant(alloc);
    for (path, kind) in [
        ("level", Kind::Text),
        ("size", Kind::I64),
        ("time", Kind::Datetime),
    ] {
        fields.push(fast(alloc, path, kind)?)?;
    }
    Ok(Schema {
        fields,
        timestamp: Some(2),
        dynamic: None,
    })
}

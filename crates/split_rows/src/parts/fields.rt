//! The schema of the rows.

use doc_value::{Field, Fields, Kind, Schema, Text, Tokenizer};
use std::alloc::{AllocError, Global};

/// body, a text with positions, and level, a fast raw text.
pub fn schema(alloc: Global) -> Result<Schema, AllocError> {
    let mut fields = Fields::vacant(alloc);
    fields.push(text_field(alloc, "body", Tokenizer::Default)?)?;
    fields.push(text_field(alloc, "level", Tokenizer::Raw)?)?;
    Ok(Schema {
        fields,
        timestamp: None,
        dynamic: None,
    })
}

fn text_field(alloc: Global, path: &str, tokenizer: Tokenizer) -> Result<Field, AllocError> {
    let is_raw = matches!(tokenizer, Tokenizer::Raw);
    Ok(Field {
        path: Text::from_str(alloc, path)?,
        kind: Kind::Text,
        fast: is_raw,
        indexed: true,
        tag: is_raw,
        tokenizer,
        positions: !is_raw,
    })
}

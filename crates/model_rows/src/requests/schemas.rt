ghost use Rattle.std.specs.Prelude.{◌≡◌, None, IfOk};

use doc_value::{Field, Fields, Kind, Schema, Text, Tokenizer};
use std::alloc::{AllocError, Global};

fn field(
    alloc: Global,
    path: &str,
    kind: Kind,
    fast: bool,
    tokenizer: Tokenizer,
) -> Result<Field, AllocError> {
    Ok(Field {
        path: Text::from_str(alloc, path)?,
        kind,
        fast,
        indexed: true,
        tag: false,
        tokenizer,
        positions: !fast,
    })
}

/// A text, a fast raw text, a fast number and a fast datetime, which is no timestamp field.
const ROWS: [(&str, Kind, bool, Tokenizer); 4] = [
    ("body", Kind::Text, false, Tokenizer::Default),
    ("level", Kind::Text, true, Tokenizer::Raw),
    ("size", Kind::I64, true, Tokenizer::Raw),
    ("ts", Kind::Datetime, true, Tokenizer::Raw),
];

/// The fields above, by their places.
pub fn logs(alloc: Global) -> Result<Schema, AllocError>
    ensures { IfOk result (λ schema. schema.dynamic ≡ None) }
{
    let mut fields = Fields::vacant(alloc);
    for (path, kind, fast, tokenizer) in ROWS {
        fields.push(field(alloc, path, kind, fast, tokenizer)?)?;
    }
    Ok(Schema {
        fields,
        timestamp: None,
        dynamic: None,
    })
}

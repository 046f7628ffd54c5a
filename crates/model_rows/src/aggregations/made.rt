//! Requests, documents and schemas.

ghost use Rattle.std.specs.Prelude.{◌≡◌, ◌<◌, IfOk, length};
ghost use Rattle.std.specs.List.{All};
ghost use Rattle.agg_model.specs.Checking.{field_of};

use agg_model::{Agg, AggRequest, DocValues, NamedAgg};
use doc_value::{DocField, Field, Fields, Kind, Schema, Text, Tokenizer, Value, Values};
use std::alloc::{AllocError, Global};

/// A request of one aggregation of field 0, which may be refused.
pub fn request(alloc: Global, agg: Agg) -> Result<AggRequest, AllocError>
    requires { field_of agg < 1 }
    ensures { IfOk result (λ r. All (λ named. field_of named.agg < 1) r) }
{
    let name = Text::from_str(alloc, "a")?;
    AggRequest::one(alloc, NamedAgg { name, agg })
}

/// A document with one value of field 0.
pub fn document(alloc: Global, value: Value) -> Result<DocValues, AllocError> {
    let values = Values::one(alloc, value)?;
    DocValues::one(alloc, DocField { number: 0, values })
}

/// A schema of one field.
pub fn schema(alloc: Global, kind: Kind, fast: bool) -> Result<Schema, AllocError>
    ensures { IfOk result (λ s. length s.fields ≡ 1) }
{
    let field = Field {
        path: Text::from_str(alloc, "size")?,
        kind,
        fast,
        indexed: true,
        tag: false,
        tokenizer: Tokenizer::Raw,
        positions: false,
    };
    Ok(Schema {
        fields: Fields::one(alloc, field)?,
        timestamp: None,
        dynamic: None,
    })
}

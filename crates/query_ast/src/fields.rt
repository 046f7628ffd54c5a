//! The field of a number in a schema.

ghost use Rattle.std.specs.Prelude.{◌≡◌, slice_get, option_copied};

use doc_value::{Field, Schema};

pub(crate) fn field_at(schema: &Schema, number: usize) -> Option<&Field>
    ensures { option_copied result ≡ slice_get schema.now.fields number }
{
    schema.fields.as_slice().get(number)
}

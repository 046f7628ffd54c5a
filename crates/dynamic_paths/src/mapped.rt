//! What the schema has at a path. Both are one pass over the fields, most of which differ in length.

ghost use Rattle.std.specs.Prelude.{◌≡◌, ◌∷◌, ◌++◌, [], nat_eq};
ghost use Rattle.std.specs.List.{starts_with};
ghost use Rattle.doc_value.specs.Documents.{mapped_fields};
ghost use Rattle.dynamic_paths.specs.Leaves as spec;

use doc_value::Schema;

/// Whether a number is that of the field that holds what is not mapped.
pub fn is_dynamic(schema: &Schema, number: usize) -> bool
    ensures { result ≡ spec.is_number schema.now.dynamic number }
{
    match schema.dynamic {
        Some(dynamic) => dynamic == number,
        None => false,
    }
}

/// Whether a mapped field has this path.
pub fn is_field(schema: &Schema, path: &[u8]) -> bool
    ensures { result ≡ spec.is_field (mapped_fields schema.now) path.now }
{
    for (number, field) in schema.fields.as_slice().iter().enumerate() {
        if !is_dynamic(schema, number) && field.path.as_slice() == path {
            return true;
        }
    }
    false
}

/// Whether some mapped field lies in an object at this path.
pub fn is_object(schema: &Schema, path: &[u8]) -> bool
    ensures { result ≡ spec.is_object (mapped_fields schema.now) (path.now ++ 46 ∷ []) }
{
    for (number, field) in schema.fields.as_slice().iter().enumerate() {
        if !is_dynamic(schema, number) && lies_below(field.path.as_slice(), path) {
            return true;
        }
    }
    false
}

/// Whether a path begins with another one and a dot.
fn lies_below(path: &[u8], above: &[u8]) -> bool
    ensures { result ≡ starts_with nat_eq path.now (above.now ++ 46 ∷ []) }
{
    path.starts_with(above) && path[above.len()..].starts_with(b".")
}

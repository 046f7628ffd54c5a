//! The texts of a record's leaves, which no field takes, where the schema has a field for them.

ghost use Rattle.std.specs.Prelude.{◌≡◌, [], map, slice_get, IfOk, OnOk};
ghost use Rattle.serde_json.specs.View.{view};
ghost use Rattle.doc_value.specs.declared.doc.Value.TheVariants as values;
ghost use Rattle.doc_mapping.specs.Held.{values_at};
ghost use Rattle.doc_mapping.specs.Leaves as spec;
ghost use Rattle.doc_mapping.specs.Walk.{RiseFrom, Enters};

use crate::parts::put;
use doc_value::{Doc, Kind, Schema, Value as DocValue, Values};
use dynamic_paths::{LeafFault, Leaves, leaves};
use serde_json::Value;
use std::alloc::{AllocError, Global};
use std::mem;

/// What a document gets of the leaves of its record.
#[derive(Drop)]
pub enum LeafTexts {
    /// The schema has no field for them.
    Dropped,
    /// The field of this number has those that are kept.
    Kept { number: usize, values: Values },
    /// So many leaves are too many.
    TooMany { count: usize },
}

/// The texts of a record's leaves. They are copies: the walk over the record's keys moves what the fields take.
pub fn leaf_texts(alloc: Global, schema: &Schema, value: &Value) -> Result<LeafTexts, AllocError>
    ensures { IfOk result (spec.AreOf schema.now (view value.now)) }
{
    let Some(number) = schema.dynamic else {
        return Ok(LeafTexts::Dropped);
    };
    match leaves(alloc, schema, value) {
        Ok(texts) => {
            let values = as_values(alloc, texts)?;
            Ok(LeafTexts::Kept { number, values })
        }
        Err(LeafFault::TooManyLeaves { count }) => Ok(LeafTexts::TooMany { count }),
        Err(LeafFault::Memory(error)) => Err(error),
    }
}

/// Texts as values, moved.
fn as_values(alloc: Global, texts: Leaves) -> Result<Values, AllocError>
    ensures { IfOk result (λ held. held ≡ map values.Text texts) }
{
    let texts = texts.into_vec();
    let mut held = Vec::with_capacity(alloc, texts.len())?;
    for text in texts {
        held.push(DocValue::Text(text))?;
    }
    Ok(Values::from_vec(held))
}

/// A document with these leaf texts at the field of a number, if that is a list of texts.
pub fn with_leaves(
    schema: &Schema,
    doc: Doc,
    number: usize,
    values: Values,
) -> Result<Doc, AllocError>
    ensures { IfOk result (λ whole. RiseFrom 0 doc → values_at doc number ≡ [] →
        Enters number (spec.leaves_at (slice_get schema.now.fields number) values) doc whole) }
{
    if !takes_leaves(schema, number) {
        mem::drop(values);
        return Ok(doc);
    }
    let mut parts = doc.into_vec();
    if let Err(error) = put(&mut parts, number, values) {
        mem::drop(parts);
        return Err(error);
    }
    Ok(Doc::from_vec(parts))
}

/// Whether the field of a number is a list of texts.
fn takes_leaves(schema: &Schema, number: usize) -> bool
    ensures { result ≡ spec.takes_leaves (slice_get schema.now.fields number) }
{
    if number >= schema.fields.len() {
        return false;
    }
    match schema.fields.at(number).kind {
        Kind::TextList => true,
        _ => false,
    }
}

//! The tag fields of a schema, and what is known of them.

ghost use Rattle.std.specs.Prelude.{◌≡◌, ◌∷◌, ◌++◌, [], ℕ, List, IfOk, OnOk};
ghost use Rattle.doc_value.specs.declared.schema.Schema.{Schema};
ghost use Rattle.doc_value.specs.Documents.{IsSchema};
ghost use Rattle.split_bundle.specs.declared.placed.Placed.{Placed};
ghost use Rattle.split_build.specs.HeldTags.{HasTags};
ghost use Rattle.split_build.specs.Tags.{AreTagsOf};
ghost use Rattle.split_bundle.specs.Tagged.{tag_numbers};

use crate::occurrences::values_in;
use crate::tags::TagLog;
use doc_value::{Schema, TagFacts};
use split_bundle::Placed;
use std::alloc::{AllocError, Global};

/// A log for each tag field.
pub fn tag_logs(alloc: Global, schema: &Schema) -> Result<Vec<TagLog>, AllocError>
    requires { IsSchema schema.now }
    ensures { IfOk result (λ logs. HasTags [] (tag_numbers 0 schema.now.fields) logs.items) }
{
    let mut logs = Vec::new(alloc);
    let mut number = 0;
    let mut rest = schema.fields.as_slice();
    while let Some((field, behind)) = rest.split_first() {
        if field.tag {
            logs.push(TagLog::vacant(alloc, number))?;
        }
        number += 1;
        rest = behind;
    }
    Ok(logs)
}

/// Adds a document to each log. After an `Err` nothing is said of them.
pub(crate) fn add_tags(
    alloc: Global,
    logs: &mut Vec<TagLog>,
    placed: &Placed,
) -> Result<(), AllocError>
    ensures { (numbers : List ℕ) (documents : List Placed) → HasTags documents numbers logs.old.items
        → OnOk result (HasTags (documents ++ placed.now ∷ []) numbers logs.new.items) }
{
    for i in 0..logs.len() {
        let log = &mut logs[i];
        let values = values_in(placed.doc.as_slice(), log.number);
        log.add_values(alloc, values)?;
    }
    Ok(())
}

/// What is known of the tag fields.
pub fn tag_facts(alloc: Global, logs: Vec<TagLog>) -> Result<TagFacts, AllocError>
    ensures { (numbers : List ℕ) (documents : List Placed) → HasTags documents numbers logs.items → IfOk result (AreTagsOf documents numbers) }
{
    let mut facts = TagFacts::vacant(alloc);
    for log in logs.into_iter() {
        facts.push(log.finish())?;
    }
    Ok(facts)
}

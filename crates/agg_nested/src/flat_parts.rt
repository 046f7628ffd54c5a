//! What some documents count for each of the nested aggregations.

ghost use Rattle.std.specs.Prelude.{◌≡◌, ◌+◌, ◌^◌, ◌<◌, ◌∷◌, [], ◌++◌, List, length, IfOk, OnOk};
ghost use Rattle.std.specs.List.{All};
ghost use Rattle.doc_value.specs.declared.doc.DocField.{DocField};
ghost use Rattle.agg_nested.specs.Checking.{HasStep};
ghost use Rattle.agg_nested.specs.Partials.{AreStanding};

use crate::flat_part::{FlatPart, collect_flat, merge_flat, vacant_flat};
use crate::request::NamedFlat;
use agg_model::DocValues;
use std::alloc::{AllocError, Global};

/// The parts of no documents.
pub fn vacant_flats(alloc: Global, nested: &[NamedFlat]) -> Result<Vec<FlatPart>, AllocError>
    ensures { IfOk result (λ parts. AreStanding nested.now parts.items []) }
{
    let mut parts = Vec::new(alloc);
    for named in nested {
        parts.push(vacant_flat(alloc, &named.agg)?)?;
    }
    Ok(parts)
}

/// Counts one more document in each part. After want of memory the parts are spent.
pub fn collect_flats(
    alloc: Global,
    nested: &[NamedFlat],
    parts: &mut Vec<FlatPart>,
    doc: &DocValues,
) -> Result<(), AllocError>
    requires steps { All (λ named. HasStep named.agg) nested.now }
    requires known { (documents : List (List DocField)) × AreStanding nested.now parts.old.items documents × (length documents + 1 < 2 ^ 62) }
    ensures { OnOk result ((documents : List (List DocField)) → AreStanding nested.now parts.old.items documents
        → AreStanding nested.now parts.new.items (documents ++ doc.now ∷ [])) }
{
    for (i, named) in nested.iter().enumerate() {
        collect_flat(alloc, &named.agg, &mut parts[i], doc)?;
    }
    Ok(())
}

/// Adds what other parts of the same aggregations count. After want of memory the parts are spent.
pub fn merge_flats(
    alloc: Global,
    nested: &[NamedFlat],
    parts: &mut Vec<FlatPart>,
    others: &[FlatPart],
) -> Result<(), AllocError>
    requires known { (mine : List (List DocField)) × (yours : List (List DocField)) × AreStanding nested.now parts.old.items mine
        × AreStanding nested.now others.now yours × (length mine + length yours < 2 ^ 62) }
    ensures { OnOk result ((mine : List (List DocField)) (yours : List (List DocField)) → AreStanding nested.now parts.old.items mine
        → AreStanding nested.now others.now yours → AreStanding nested.now parts.new.items (mine ++ yours)) }
{
    for (i, named) in nested.iter().enumerate() {
        merge_flat(alloc, &named.agg, &mut parts[i], &others[i])?;
    }
    Ok(())
}

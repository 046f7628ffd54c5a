//! What some documents count for each aggregation of a request, and for each of its buckets.

ghost use Rattle.std.specs.Prelude.{◌≡◌, ◌≢◌, ℕ, ◌+◌, ◌^◌, ◌<◌, ◌∷◌, [], ◌++◌, List, length, IfOk, OnOk};
ghost use Rattle.std.specs.List.{All, AllZip};
ghost use Rattle.doc_value.specs.declared.doc.DocField.{DocField};
ghost use Rattle.agg_nested.specs.Buckets.{PartStands, NestedStands, IsPartFor, ArePartsFor, IsNestedPartial, documents_counted, group_at};
ghost use Rattle.agg_nested.specs.Checking.{HasStep, HaveSteps};
ghost use Rattle.agg_nested.specs.Groups.{IsRaisedAt, AreJoined, CanRaise, CanJoin};
ghost use Rattle.agg_nested.specs.Partials.{FlatStands};
ghost use Rattle.agg_nested.specs.Spots.{Spot, has_spot};
ghost use Rattle.agg_nested.specs.declared.request.NestedAgg.{NestedAgg};

use crate::flat_part::{FlatPart, collect_flat, merge_flat, vacant_flat};
use crate::groups::{Groups, merge_groups, vacant_groups};
use crate::request::{NestedAgg, NestedRequest};
use crate::spotting::raise_spots;
use agg_model::DocValues;
use std::alloc::{AllocError, Global};

/// What some documents count for one aggregation, and for its nested ones in each of its buckets. Where nothing is nested, no groups are kept.
#[derive(Drop)]
pub struct NestedPart {
    pub(crate) flat: FlatPart,
    pub(crate) groups: Groups,
}

/// What some documents count for each aggregation of a request.
#[derive(Drop)]
pub struct NestedPartial {
    pub(crate) documents: u64,
    pub(crate) parts: Vec<NestedPart>,
}

/// The part of one aggregation over no documents.
pub fn vacant_part(alloc: Global, asked: &NestedAgg) -> Result<NestedPart, AllocError>
    ensures { IfOk result (λ part. PartStands asked.now part []) }
{
    let flat = vacant_flat(alloc, &asked.agg)?;
    Ok(NestedPart {
        flat,
        groups: vacant_groups(alloc),
    })
}

/// The part of an aggregation in which nothing is nested, of what is counted for the aggregation itself.
pub fn part_alone(alloc: Global, flat: FlatPart) -> NestedPart
    ensures { (asked : NestedAgg) (documents : List (List DocField)) → asked.nested ≡ [] → FlatStands asked.agg flat documents → PartStands asked result documents }
{
    NestedPart {
        flat,
        groups: vacant_groups(alloc),
    }
}

/// The partial of so many documents, of the parts of the aggregations of a request in its order.
pub fn parts_together(documents: u64, parts: Vec<NestedPart>) -> NestedPartial
    ensures stands { (request : List NestedAgg) (docs : List (List DocField)) → length docs ≡ documents → AllZip (λ asked part. PartStands asked part docs) request parts.items
        → NestedStands request result docs }
    ensures partial { (request : List NestedAgg) → documents < 2 ^ 62 → ArePartsFor request documents parts.items → IsNestedPartial request result }
    ensures many { documents_counted result ≡ documents }
{
    NestedPartial { documents, parts }
}

/// The partial of no documents.
pub fn vacant_nested(alloc: Global, request: &NestedRequest) -> Result<NestedPartial, AllocError>
    ensures stands { IfOk result (λ partial. NestedStands request.now partial []) }
    ensures partial { IfOk result (IsNestedPartial request.now) }
    ensures many { IfOk result (λ partial. documents_counted partial ≡ 0) }
{
    let mut parts = Vec::new(alloc);
    for asked in request.as_slice() {
        parts.push(vacant_part(alloc, asked)?)?;
    }
    Ok(NestedPartial {
        documents: 0,
        parts,
    })
}

// Counts the document of this number in the group of each bucket in which it counts, where anything is nested.
fn collect_groups(
    alloc: Global,
    asked: &NestedAgg,
    groups: &mut Groups,
    doc: &DocValues,
    number: u64,
) -> Result<(), AllocError>
    requires step { HasStep asked.now.agg }
    requires steps { All (λ named. HasStep named.agg) asked.now.nested }
    requires some { 0 < number }
    requires known { asked.now.nested ≢ [] → (spot : Spot) → CanRaise asked.now.nested number (group_at groups.old spot) }
    ensures { OnOk result (asked.now.nested ≢ [] → IsRaisedAt (λ spot. has_spot asked.now.agg spot doc.now) asked.now.nested doc.now number (group_at groups.old) (group_at groups.new)) }
{
    if asked.nested.is_empty() {
        return Ok(());
    }
    raise_spots(
        alloc,
        &asked.agg,
        asked.nested.as_slice(),
        groups,
        doc,
        number,
    )
}

/// Counts one more document, behind so many. After want of memory the part is spent.
pub fn collect_part(
    alloc: Global,
    asked: &NestedAgg,
    part: &mut NestedPart,
    doc: &DocValues,
    documents: u64,
) -> Result<(), AllocError>
    requires step { HasStep asked.now.agg }
    requires steps { All (λ named. HasStep named.agg) asked.now.nested }
    requires few { documents + 1 < 2 ^ 62 }
    requires known { IsPartFor asked.now documents part.old }
    ensures { OnOk result ((docs : List (List DocField)) → length docs ≡ documents → PartStands asked.now part.old docs → PartStands asked.now part.new (docs ++ doc.now ∷ [])) }
{
    collect_flat(alloc, &asked.agg, &mut part.flat, doc)?;
    collect_groups(alloc, asked, &mut part.groups, doc, documents + 1)
}

fn collect_parts(
    alloc: Global,
    request: &[NestedAgg],
    parts: &mut Vec<NestedPart>,
    doc: &DocValues,
    documents: u64,
) -> Result<(), AllocError>
    requires steps { HaveSteps request.now }
    requires few { documents + 1 < 2 ^ 62 }
    requires known { ArePartsFor request.now documents parts.old.items }
    ensures known { OnOk result (ArePartsFor request.now (documents + 1) parts.new.items) }
    ensures stands { OnOk result ((docs : List (List DocField)) → length docs ≡ documents → AllZip (λ asked part. PartStands asked part docs) request.now parts.old.items
        → AllZip (λ asked part. PartStands asked part (docs ++ doc.now ∷ [])) request.now parts.new.items) }
{
    for (i, asked) in request.iter().enumerate() {
        collect_part(alloc, asked, &mut parts[i], doc, documents)?;
    }
    Ok(())
}

/// Counts one more document. After want of memory the partial is spent.
pub fn collect_nested(
    alloc: Global,
    request: &NestedRequest,
    partial: &mut NestedPartial,
    doc: &DocValues,
) -> Result<(), AllocError>
    requires steps { HaveSteps request.now }
    requires partial { IsNestedPartial request.now partial.old }
    requires room { documents_counted partial.old + 1 < 2 ^ 62 }
    ensures partial { OnOk result (IsNestedPartial request.now partial.new) }
    ensures many { OnOk result (documents_counted partial.new ≡ documents_counted partial.old + 1) }
    ensures stands { OnOk result ((documents : List (List DocField)) → NestedStands request.now partial.old documents → NestedStands request.now partial.new (documents ++ doc.now ∷ [])) }
{
    collect_parts(
        alloc,
        request.as_slice(),
        &mut partial.parts,
        doc,
        partial.documents,
    )?;
    partial.documents += 1;
    Ok(())
}

// Adds what the groups of other documents count, where anything is nested.
fn join_groups(
    alloc: Global,
    asked: &NestedAgg,
    groups: &mut Groups,
    others: &Groups,
) -> Result<(), AllocError>
    requires { asked.now.nested ≢ [] → (spot : Spot) → CanJoin asked.now.nested (group_at groups.old spot) (group_at others.now spot) }
    ensures { OnOk result (asked.now.nested ≢ [] → AreJoined asked.now.nested (group_at groups.old) (group_at others.now) (group_at groups.new)) }
{
    if asked.nested.is_empty() {
        return Ok(());
    }
    merge_groups(alloc, asked.nested.as_slice(), groups, others)
}

fn merge_part(
    alloc: Global,
    asked: &NestedAgg,
    into: &mut NestedPart,
    other: &NestedPart,
) -> Result<(), AllocError>
    requires known { (mine : List (List DocField)) × (yours : List (List DocField)) × PartStands asked.now into.old mine × PartStands asked.now other.now yours
        × (length mine + length yours < 2 ^ 62) }
    ensures { OnOk result ((mine : List (List DocField)) (yours : List (List DocField)) → PartStands asked.now into.old mine → PartStands asked.now other.now yours
        → PartStands asked.now into.new (mine ++ yours)) }
{
    merge_flat(alloc, &asked.agg, &mut into.flat, &other.flat)?;
    join_groups(alloc, asked, &mut into.groups, &other.groups)
}

fn merge_parts(
    alloc: Global,
    request: &[NestedAgg],
    parts: &mut Vec<NestedPart>,
    others: &Vec<NestedPart>,
) -> Result<(), AllocError>
    requires known { (mine : ℕ) × (yours : ℕ) × ArePartsFor request.now mine parts.old.items × ArePartsFor request.now yours others.now.items × (mine + yours < 2 ^ 62) }
    ensures known { OnOk result ((mine : ℕ) (yours : ℕ) → ArePartsFor request.now mine parts.old.items → ArePartsFor request.now yours others.now.items
        → ArePartsFor request.now (mine + yours) parts.new.items) }
    ensures stands { OnOk result ((mine : List (List DocField)) (yours : List (List DocField)) → AllZip (λ asked part. PartStands asked part mine) request.now parts.old.items
        → AllZip (λ asked part. PartStands asked part yours) request.now others.now.items → AllZip (λ asked part. PartStands asked part (mine ++ yours)) request.now parts.new.items) }
{
    for (i, asked) in request.iter().enumerate() {
        merge_part(alloc, asked, &mut parts[i], &others[i])?;
    }
    Ok(())
}

/// Adds what another partial of the same request counts. After want of memory the partial is spent.
pub fn merge_nested(
    alloc: Global,
    request: &NestedRequest,
    into: &mut NestedPartial,
    other: &NestedPartial,
) -> Result<(), AllocError>
    requires partial { IsNestedPartial request.now into.old }
    requires other { IsNestedPartial request.now other.now }
    requires room { documents_counted into.old + documents_counted other.now < 2 ^ 62 }
    ensures partial { OnOk result (IsNestedPartial request.now into.new) }
    ensures many { OnOk result (documents_counted into.new ≡ documents_counted into.old + documents_counted other.now) }
    ensures stands { OnOk result ((mine : List (List DocField)) (yours : List (List DocField)) → NestedStands request.now into.old mine → NestedStands request.now other.now yours
        → NestedStands request.now into.new (mine ++ yours)) }
{
    merge_parts(alloc, request.as_slice(), &mut into.parts, &other.parts)?;
    into.documents += other.documents;
    Ok(())
}

//! What the documents of one bucket count for the nested aggregations.

ghost use Rattle.std.specs.Prelude.{◌≡◌, ◌≢◌, ◌<◌, [], Some, IfOk, OnOk};
ghost use Rattle.std.specs.List.{All};
ghost use Rattle.agg_nested.specs.Checking.{HasStep};
ghost use Rattle.agg_nested.specs.Groups.{IsRaised, IsJoined, CanRaise, CanJoin};
ghost use Rattle.agg_nested.specs.Partials.{AreStanding};

use crate::flat_part::FlatPart;
use crate::flat_parts::{collect_flats, merge_flats, vacant_flats};
use crate::request::NamedFlat;
use agg_model::DocValues;
use std::alloc::{AllocError, Global};

/// The parts of the nested aggregations, and the number of the last document that was counted, from 1 on.
#[derive(Drop)]
pub struct Group {
    pub last: u64,
    pub parts: Vec<FlatPart>,
}

/// The group of no documents.
pub fn vacant_group(alloc: Global, nested: &[NamedFlat]) -> Result<Group, AllocError>
    ensures stands { IfOk result (λ group. AreStanding nested.now group.parts.items []) }
    ensures last { IfOk result (λ group. group.last ≡ 0) }
{
    let parts = vacant_flats(alloc, nested)?;
    Ok(Group { last: 0, parts })
}

/// Counts the document of this number, once however often it is called. After want of memory the group is spent.
pub fn raise(
    alloc: Global,
    nested: &[NamedFlat],
    group: &mut Group,
    doc: &DocValues,
    number: u64,
) -> Result<(), AllocError>
    requires steps { All (λ named. HasStep named.agg) nested.now }
    requires known { CanRaise nested.now number (Some group.old) }
    ensures { OnOk result (IsRaised nested.now doc.now number (Some group.old) (Some group.new)) }
{
    if group.last != number {
        collect_flats(alloc, nested, &mut group.parts, doc)?;
        group.last = number;
    }
    Ok(())
}

/// Adds what another group counts. After want of memory the group is spent.
pub fn join(
    alloc: Global,
    nested: &[NamedFlat],
    group: &mut Group,
    other: &Group,
) -> Result<(), AllocError>
    requires { CanJoin nested.now (Some group.old) (Some other.now) }
    ensures { OnOk result (IsJoined nested.now (Some group.old) (Some other.now) (Some group.new)) }
{
    merge_flats(alloc, nested, &mut group.parts, other.parts.as_slice())
}

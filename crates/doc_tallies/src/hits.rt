//! The first hits of some documents in order.

ghost use Rattle.std.specs.Prelude.{◌≡◌, ◌≤◌, ◌++◌, ◌∷◌, ◌<◌, [], List, ℕ, None, Some, Ok, slice_get, IfOk, IsOk, OnOk, MatchResult};
ghost use Rattle.std.specs.Bool.{OnTrue};
ghost use Rattle.doc_value.specs.declared.schema.Schema.{Schema};
ghost use Rattle.split_bundle.specs.declared.placed.Placed.{Placed};
ghost use Rattle.split_bundle.specs.Files.{Parts, file_bytes};
ghost use Rattle.split_bundle.specs.Lending.{IsPartOf};
ghost use Rattle.split_bundle.specs.Wholes.{HaveAll, IsThere};
ghost use Rattle.doc_tallies.specs.Bars.{HasBar};
ghost use Rattle.doc_tallies.specs.Causes.{AsksDocuments, AsksHits, LacksPart, LacksDocument};
ghost use Rattle.doc_tallies.specs.Near.{shown};
ghost use Rattle.doc_tallies.specs.Orders.{IsSortable, firsts};
ghost use Rattle.doc_tallies.specs.Orders as orders;
ghost use Rattle.doc_tallies.specs.Picked.{AllBelow, picked};
ghost use Rattle.doc_tallies.specs.Ranks.{IsSortOf};

use crate::HitOrder;
use crate::near::{SortColumn, near_numbers, open_sort};
use crate::order::{comes_before, order_of_hits, stands_before};
use doc_value::Schema;
use split_bundle::{Address, PartView, Placed, PlacedList, SplitError};
use std::alloc::{AllocError, Global};

// Whether a hit does not come before the last of the first so many, behind which none is among them.
fn is_late(order: Option<HitOrder>, wanted: usize, kept: &[Placed], hit: &Placed) -> bool
    ensures { HasBar (orders.comes_before order) wanted kept.now → OnTrue result (firsts wanted order (kept.now ++ hit.now ∷ []) ≡ firsts wanted order kept.now) }
{
    let last = wanted.saturating_sub(1);
    if last >= kept.len() {
        return false;
    }
    !comes_before(order, hit, &kept[last])
}

// The same without an order, by the address of the hit alone.
fn is_late_by_address(wanted: usize, kept: &[Placed], address: &Address) -> bool
    ensures { (d : Placed) → address.now.partition ≡ d.partition → address.now.offset ≡ d.offset → HasBar (orders.comes_before None) wanted kept.now
        → OnTrue result (firsts wanted None (kept.now ++ d ∷ []) ≡ firsts wanted None kept.now) }
{
    let last = wanted.saturating_sub(1);
    if last >= kept.len() {
        return false;
    }
    !stands_before(address, &kept[last])
}

// Drops all hits but the first so many, which are put in order.
fn cut(order: Option<HitOrder>, wanted: usize, kept: &mut Vec<Placed>) -> Result<(), AllocError>
    ensures { OnOk result (kept.new.items ≡ firsts wanted order kept.old.items) }
{
    kept.sort_by(|a, b| order_of_hits(order, a, b))?;
    kept.truncate(wanted);
    Ok(())
}

// Whether there are as many as are wanted, and any.
fn is_full(wanted: usize, count: usize) -> bool
    ensures { OnTrue result ((1 ≤ wanted) × (count ≡ wanted)) }
{
    count == wanted && wanted >= 1
}

// How many hits more than are wanted are kept before they are cut, at least.
const SPARE: usize = 64;

// How many hits more than are wanted are kept before they are cut. Before the first cut by addresses there are none: of documents that
// come in the order of their addresses no more than are wanted are then read.
fn spare_by_address(wanted: usize, full: bool) -> usize {
    if full { wanted.max(SPARE) } else { 0 }
}

// Adds a hit to some among which the first so many of all are, unless it is late. It says whether so many are known not to stand
// behind the last of these, as it is told of the hits before.
fn keep(
    order: Option<HitOrder>,
    wanted: usize,
    spare: usize,
    full: bool,
    kept: &mut Vec<Placed>,
    hit: Placed,
) -> Result<bool, AllocError>
    requires { OnTrue full (HasBar (orders.comes_before order) wanted kept.old.items) }
    ensures firsts { OnOk result (firsts wanted order kept.new.items ≡ firsts wanted order (kept.old.items ++ hit ∷ [])) }
    ensures bar { IfOk result (λ full. OnTrue full (HasBar (orders.comes_before order) wanted kept.new.items)) }
{
    if full && is_late(order, wanted, kept.as_slice(), &hit) {
        return Ok(true);
    }
    kept.push(hit)?;
    if kept.len() < wanted.saturating_add(spare) {
        return Ok(full);
    }
    cut(order, wanted, kept)?;
    let count = kept.len();
    Ok(is_full(wanted, count))
}

// The first so many of the documents of these numbers, each of which is read.
fn hits_among(
    alloc: Global,
    schema: &Schema,
    view: &PartView<'_>,
    order: Option<HitOrder>,
    wanted: usize,
    numbers: &[u32],
) -> Result<PlacedList, SplitError>
    requires { AllBelow view.now.footer.layout.docs numbers.now }
    ensures only { (documents : List Placed) (p : Parts) → IsPartOf view.now schema.now documents p
        → MatchResult result (λ hits. hits ≡ firsts wanted order (picked numbers.now documents)) (LacksPart (AsksDocuments p documents numbers.now) view.now.pieces) }
    ensures there { (documents : List Placed) (p : Parts) → IsPartOf view.now schema.now documents p → HaveAll (file_bytes p) view.now.pieces → IsThere result }
{
    let mut kept = Vec::new(alloc);
    let mut full = false;
    let spare = wanted.max(SPARE);
    for number in numbers {
        match view.placed(alloc, schema, *number) {
            Ok(hit) => full = keep(order, wanted, spare, full, &mut kept, hit)?,
            Err(fault) => return Err(fault),
        }
    }
    cut(order, wanted, &mut kept)?;
    Ok(PlacedList::from_vec(kept))
}

// Whether the document with a number is late by its address, of which nothing else is read; not yet, where no bar is known.
fn is_late_there(
    view: &PartView<'_>,
    wanted: usize,
    full: bool,
    kept: &[Placed],
    number: u32,
) -> Result<bool, SplitError>
    requires below { number < view.now.footer.layout.docs }
    requires bar { OnTrue full (HasBar (orders.comes_before None) wanted kept.now) }
    ensures only { (s : Schema) (documents : List Placed) (p : Parts) (d : Placed) → IsPartOf view.now s documents p → slice_get documents number ≡ Some d
        → MatchResult result (λ late. OnTrue late (firsts wanted None (kept.now ++ d ∷ []) ≡ firsts wanted None kept.now))
        (LacksDocument view.now.pieces p documents number d) }
    ensures there { (s : Schema) (documents : List Placed) (p : Parts) (d : Placed) → IsPartOf view.now s documents p → HaveAll (file_bytes p) view.now.pieces
        → slice_get documents number ≡ Some d → IsOk result }
{
    if !full {
        return Ok(false);
    }
    match view.address(number) {
        Ok(address) => Ok(is_late_by_address(wanted, kept, &address)),
        Err(fault) => Err(fault),
    }
}

// Adds a document to some among which the first so many by address are, unless it is late; then only its address is read. It says
// whether so many are known not to stand behind the last of these, as it is told of the documents before.
fn keep_there(
    alloc: Global,
    schema: &Schema,
    view: &PartView<'_>,
    wanted: usize,
    full: bool,
    kept: &mut Vec<Placed>,
    number: u32,
) -> Result<bool, SplitError>
    requires below { number < view.now.footer.layout.docs }
    requires bar { OnTrue full (HasBar (orders.comes_before None) wanted kept.old.items) }
    ensures only { (documents : List Placed) (p : Parts) (d : Placed) → IsPartOf view.now schema.now documents p → slice_get documents number ≡ Some d
        → MatchResult result (λ full. firsts wanted None kept.new.items ≡ firsts wanted None (kept.old.items ++ d ∷ [])) (LacksPart (AsksDocuments p documents (number ∷ [])) view.now.pieces) }
    ensures bar { IfOk result (λ full. OnTrue full (HasBar (orders.comes_before None) wanted kept.new.items)) }
    ensures there { (documents : List Placed) (p : Parts) (d : Placed) → IsPartOf view.now schema.now documents p → HaveAll (file_bytes p) view.now.pieces
        → slice_get documents number ≡ Some d → IsThere result }
{
    match is_late_there(view, wanted, full, kept.as_slice(), number) {
        Ok(true) => Ok(full),
        Ok(false) => match view.placed(alloc, schema, number) {
            Ok(hit) => {
                let spare = spare_by_address(wanted, full);
                Ok(keep(None, wanted, spare, full, kept, hit)?)
            }
            Err(fault) => Err(fault),
        },
        Err(fault) => Err(fault),
    }
}

// The first so many of the documents of these numbers without an order. Of one that is late only the address is read.
fn hits_by_address(
    alloc: Global,
    schema: &Schema,
    view: &PartView<'_>,
    wanted: usize,
    numbers: &[u32],
) -> Result<PlacedList, SplitError>
    requires { AllBelow view.now.footer.layout.docs numbers.now }
    ensures only { (documents : List Placed) (p : Parts) → IsPartOf view.now schema.now documents p
        → MatchResult result (λ hits. hits ≡ firsts wanted None (picked numbers.now documents)) (LacksPart (AsksDocuments p documents numbers.now) view.now.pieces) }
    ensures there { (documents : List Placed) (p : Parts) → IsPartOf view.now schema.now documents p → HaveAll (file_bytes p) view.now.pieces → IsThere result }
{
    let mut kept = Vec::new(alloc);
    let mut full = false;
    for number in numbers {
        match keep_there(alloc, schema, view, wanted, full, &mut kept, *number) {
            Ok(known) => full = known,
            Err(fault) => return Err(fault),
        }
    }
    cut(None, wanted, &mut kept)?;
    Ok(PlacedList::from_vec(kept))
}

// The same of those that may be shown.
fn sorted_hits(
    alloc: Global,
    schema: &Schema,
    view: &PartView<'_>,
    order: Option<HitOrder>,
    sort: &Option<SortColumn<'_>>,
    wanted: usize,
    numbers: &[u32],
) -> Result<PlacedList, SplitError>
    requires below { AllBelow view.now.footer.layout.docs numbers.now }
    requires some { 1 ≤ wanted }
    ensures only { (documents : List Placed) (p : Parts) → IsPartOf view.now schema.now documents p → IsSortOf schema.now documents order sort.now
        → MatchResult result (λ hits. hits ≡ firsts wanted order (picked numbers.now documents)) (LacksPart (AsksDocuments p documents (shown order wanted documents numbers.now)) view.now.pieces) }
    ensures there { (documents : List Placed) (p : Parts) → IsPartOf view.now schema.now documents p → HaveAll (file_bytes p) view.now.pieces → IsThere result }
{
    match sort {
        None => hits_by_address(alloc, schema, view, wanted, numbers),
        Some(sort) => match near_numbers(alloc, sort, wanted, numbers) {
            Ok(near) => hits_among(alloc, schema, view, order, wanted, near.as_slice()),
            Err(refused) => Err(SplitError::Memory(refused)),
        },
    }
}

/// The first so many of the documents of these numbers, in order. Where none are wanted nothing is read. It answers Truncated where no
/// piece has the column by which they are sorted, or a document that may be shown: without an order one of any of the numbers, else of
/// a near one (`near_of`).
pub fn first_hits(
    alloc: Global,
    schema: &Schema,
    view: &PartView<'_>,
    order: Option<HitOrder>,
    wanted: usize,
    numbers: &[u32],
) -> Result<PlacedList, SplitError>
    requires { AllBelow view.now.footer.layout.docs numbers.now }
    // Of a split of documents.
    ensures only { (documents : List Placed) (p : Parts) → IsPartOf view.now schema.now documents p → IsSortable schema.now order
        → MatchResult result (λ hits. hits ≡ firsts wanted order (picked numbers.now documents)) (LacksPart (AsksHits view.now p documents order wanted numbers.now) view.now.pieces) }
    // Where the pieces have every part.
    ensures there { (documents : List Placed) (p : Parts) → IsPartOf view.now schema.now documents p → HaveAll (file_bytes p) view.now.pieces → IsThere result }
    // Where none are wanted.
    ensures none { wanted ≡ 0 → result ≡ Ok [] }
{
    if wanted == 0 {
        return Ok(PlacedList::vacant(alloc));
    }
    match open_sort(schema, view, order) {
        Ok(sort) => match sorted_hits(alloc, schema, view, order, &sort, wanted, numbers) {
            Ok(hits) => Ok(hits),
            Err(fault) => Err(fault),
        },
        Err(fault) => Err(fault),
    }
}

//! The order of hits.

ghost use Rattle.std.specs.Prelude.{◌≡◌, None};
ghost use Rattle.std.specs.Ordering.{is_lt};
ghost use Rattle.doc_value.specs.Documents.{values_in};
ghost use Rattle.split_bundle.specs.declared.placed.Placed.{Placed};
ghost use Rattle.doc_tallies.specs.Orders as orders;

use crate::HitOrder;
use doc_value::{Doc, Value};
use split_bundle::{Address, Placed};
use std::cmp::Ordering;

// The document's values of a field.
fn values_of(doc: &Doc, field: u32) -> &[Value]
    ensures { result.now ≡ values_in doc.now field }
{
    for part in doc.as_slice() {
        if part.number == field as usize {
            return part.values.as_slice();
        }
    }
    &[]
}

// The order of two documents by their first values.
fn order_of_values(order: HitOrder, a: &Doc, b: &Doc) -> Ordering
    ensures { result ≡ orders.first_cmp order.descending (orders.first_value order.field a.now) (orders.first_value order.field b.now) }
{
    match (
        values_of(a, order.field).first(),
        values_of(b, order.field).first(),
    ) {
        (None, None) => Ordering::Equal,
        (None, Some(_)) => Ordering::Greater,
        (Some(_), None) => Ordering::Less,
        (Some(a), Some(b)) => {
            if order.descending {
                b.compare(a)
            } else {
                a.compare(b)
            }
        }
    }
}

// The order of two documents by partition and offset.
fn order_of_places(a: &Placed, b: &Placed) -> Ordering
    ensures { result ≡ orders.place_cmp a.now b.now }
{
    match a.partition.compare(&b.partition) {
        Ordering::Less => Ordering::Less,
        Ordering::Equal => a.offset.cmp(&b.offset),
        Ordering::Greater => Ordering::Greater,
    }
}

/// Whether a document with an address comes before another by partition and offset.
pub(crate) fn stands_before(a: &Address, b: &Placed) -> bool
    ensures { (d : Placed) → a.now.partition ≡ d.partition → a.now.offset ≡ d.offset → result ≡ orders.comes_before None d b.now }
{
    match a.partition.compare(&b.partition) {
        Ordering::Less => true,
        Ordering::Equal => a.offset < b.offset,
        Ordering::Greater => false,
    }
}

// The order of two hits.
pub(crate) fn order_of_hits(order: Option<HitOrder>, a: &Placed, b: &Placed) -> Ordering
    ensures { is_lt result ≡ orders.comes_before order a.now b.now }
{
    match order {
        None => order_of_places(a, b),
        Some(order) => match order_of_values(order, &a.doc, &b.doc) {
            Ordering::Less => Ordering::Less,
            Ordering::Equal => order_of_places(a, b),
            Ordering::Greater => Ordering::Greater,
        },
    }
}

/// Whether one hit comes before another: by the first value of the order's field, if there is an order, and where that does not tell
/// them apart by partition and offset.
pub fn comes_before(order: Option<HitOrder>, a: &Placed, b: &Placed) -> bool
    ensures { result ≡ orders.comes_before order a.now b.now }
{
    order_of_hits(order, a, b).is_lt()
}

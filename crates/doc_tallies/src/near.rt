//! Which documents may be among the first, by the column by which they are sorted.

ghost use Rattle.std.specs.Prelude.{◌≡◌, ◌≤◌, ◌++◌, [], List, ℕ, Option, Contains, length, IfOk, IsOk, IsOkAnd, OnOk, MatchResult};
ghost use Rattle.std.specs.BinaryHeap.{heap_items};
ghost use Rattle.std.specs.List.{filter};
ghost use Rattle.std.specs.Option.{option_map, option_to_list};
ghost use Rattle.doc_value.specs.declared.schema.Schema.{Schema};
ghost use Rattle.fast_fields.specs.Readers.{Holds};
ghost use Rattle.fast_fields.specs.declared.entries.Entry.{Entry};
ghost use Rattle.split_bundle.specs.declared.placed.Placed.{Placed};
ghost use Rattle.split_bundle.specs.Files.{Parts, file_bytes};
ghost use Rattle.split_bundle.specs.Lending.{IsPartOf};
ghost use Rattle.split_bundle.specs.Splits.{AreDocumentsOf};
ghost use Rattle.split_bundle.specs.Wholes.{HaveAll, IsThere};
ghost use Rattle.doc_tallies.specs.declared.hit_order.HitOrder.{HitOrder};
ghost use Rattle.doc_tallies.specs.Causes.{AsksField, LacksPart};
ghost use Rattle.doc_tallies.specs.Least as least;
ghost use Rattle.doc_tallies.specs.Least.{AreLeast, IsBar};
ghost use Rattle.doc_tallies.specs.Near.{shown};
ghost use Rattle.doc_tallies.specs.Orders.{IsSortable, sort_field};
ghost use Rattle.doc_tallies.specs.Picked.{AllBelow};
ghost use Rattle.doc_tallies.specs.Ranks as ranks;
ghost use Rattle.doc_tallies.specs.Ranks.{IsSortFor, IsSortOf, key_at, keys_of, near_keys};

use crate::HitOrder;
use crate::field_column::{FieldColumn, open_column};
use crate::first_values::FirstValues;
use crate::least::{keep_least, last_of};
use crate::times::push_if;
use doc_value::Schema;
use fast_fields::Column;
use split_bundle::{PartView, SplitError};
use std::alloc::{AllocError, Global};
use std::collections::BinaryHeap;

/// The column by which hits are sorted.
#[derive(Clone, Copy)]
pub(crate) struct SortColumn<'a> {
    pub descending: bool,
    pub field: FieldColumn<'a>,
}

// The column of an order's field, if there is an order.
pub(crate) fn open_sort<'a>(
    schema: &Schema,
    view: &PartView<'a>,
    order: Option<HitOrder>,
) -> Result<Option<SortColumn<'a>>, SplitError>
    ensures only { (documents : List Placed) (p : Parts) → IsPartOf view.now schema.now documents p → IsSortable schema.now order
        → MatchResult result (IsSortOf schema.now documents order) (LacksPart (AsksField view.now p (sort_field order)) view.now.pieces) }
    ensures there { (documents : List Placed) (p : Parts) → IsPartOf view.now schema.now documents p → HaveAll (file_bytes p) view.now.pieces → IsOk result }
{
    match order {
        None => Ok(None),
        Some(order) => match open_column(schema, view, order.field) {
            Ok(Some(field)) => Ok(Some(SortColumn {
                descending: order.descending,
                field,
            })),
            Ok(None) => Ok(None),
            Err(fault) => Err(fault),
        },
    }
}

// A number of the column as a key that rises along the order.
fn key_of(descending: bool, number: u64) -> u64
    ensures { result ≡ ranks.key_of descending number }
{
    if descending {
        u64::MAX - number
    } else {
        number
    }
}

// Whether a document's key does not stand behind a bar.
fn is_near(descending: bool, bar: u64, number: Option<u64>) -> bool
    ensures { result ≡ least.is_near bar (option_map (ranks.key_of descending) number) }
{
    match number {
        None => false,
        Some(number) => key_of(descending, number) <= bar,
    }
}

// Keeps a document's key where it is one of the least so many.
fn keep_key(
    best: &mut BinaryHeap<u64>,
    wanted: usize,
    descending: bool,
    number: Option<u64>,
) -> Result<(), AllocError>
    ensures { (seen : List ℕ) → AreLeast wanted seen (heap_items best.old)
        → OnOk result (AreLeast wanted (seen ++ option_to_list (option_map (ranks.key_of descending) number)) (heap_items best.new)) }
{
    match number {
        None => Ok(()),
        Some(number) => keep_least(best, wanted, key_of(descending, number)),
    }
}

// The key of the last of the first so many, if so many have one.
fn bar_of(
    alloc: Global,
    sort: &SortColumn<'_>,
    wanted: usize,
    numbers: &[u32],
) -> Result<Option<u64>, AllocError>
    requires { 1 ≤ wanted }
    ensures { (texts : List (List ℕ)) (entries : List Entry) → Holds sort.now.field.column texts entries
        → IfOk result (IsBar wanted (keys_of sort.now.descending entries numbers.now)) }
{
    let mut best: BinaryHeap<u64> = BinaryHeap::new(alloc);
    for number in numbers {
        let value = sort.field.column.value_at(*number);
        keep_key(&mut best, wanted, sort.descending, value)?;
    }
    Ok(last_of(&best, wanted))
}

// One in so many documents is looked at for a first bar. It is a prime, so that of documents that come by turns all are met.
const APART: usize = 61;

// One in so many numbers.
fn some_of(alloc: Global, numbers: &[u32]) -> Result<Vec<u32>, AllocError> {
    let mut some = Vec::new(alloc);
    for step in 0..numbers.len() / APART {
        some.push(numbers[step * APART])?;
    }
    Ok(some)
}

// The place of the first bar among the keys of one in so many documents: the share of the first so many, and some more, so that this
// bar mostly has so many documents before it and few others.
fn first_place(wanted: usize) -> usize
    requires { 1 ≤ wanted }
    ensures { 1 ≤ result }
{
    let share = wanted / APART;
    wanted.min(share + share / 4 + 16)
}

// Those of some documents whose keys do not stand behind a bar.
fn near_in(
    alloc: Global,
    column: &Column<'_>,
    descending: bool,
    bar: u64,
    numbers: &[u32],
) -> Result<Vec<u32>, AllocError>
    ensures only { (texts : List (List ℕ)) (entries : List Entry) → Holds column.now texts entries
        → IfOk result (λ near. near.items ≡ filter (λ n. least.is_near bar (key_at descending entries n)) numbers.now) }
    ensures among { IfOk result (λ near. (n : ℕ) → Contains near.items n → Contains numbers.now n) }
{
    let mut near = Vec::new(alloc);
    let mut values = FirstValues::over(*column);
    for number in numbers {
        let kept = is_near(descending, bar, values.value_at(*number));
        push_if(&mut near, *number, kept)?;
    }
    Ok(near)
}

// Those of some documents before which fewer than so many stand, by the last bar; all of them where fewer than so many have a value.
fn near_by(
    alloc: Global,
    sort: &SortColumn<'_>,
    wanted: usize,
    numbers: &[u32],
) -> Result<Vec<u32>, AllocError>
    requires { 1 ≤ wanted }
    ensures only { (texts : List (List ℕ)) (entries : List Entry) → Holds sort.now.field.column texts entries
        → IfOk result (λ near. near.items ≡ near_keys sort.now.descending entries wanted numbers.now) }
    ensures among { IfOk result (λ near. (n : ℕ) → Contains near.items n → Contains numbers.now n) }
{
    match bar_of(alloc, sort, wanted, numbers)? {
        Some(bar) => near_in(alloc, &sort.field.column, sort.descending, bar, numbers),
        None => Vec::from_slice(alloc, numbers),
    }
}

// The same by two bars: one of some documents, behind which most of them stand, and the last one.
fn near_twice(
    alloc: Global,
    sort: &SortColumn<'_>,
    wanted: usize,
    numbers: &[u32],
) -> Result<Vec<u32>, AllocError>
    requires { 1 ≤ wanted }
    ensures only { (texts : List (List ℕ)) (entries : List Entry) → Holds sort.now.field.column texts entries
        → IfOk result (λ near. near.items ≡ near_keys sort.now.descending entries wanted numbers.now) }
    ensures among { IfOk result (λ near. (n : ℕ) → Contains near.items n → Contains numbers.now n) }
{
    let some = some_of(alloc, numbers)?;
    if let Some(bar) = bar_of(alloc, sort, first_place(wanted), some.as_slice())? {
        let near = near_in(alloc, &sort.field.column, sort.descending, bar, numbers)?;
        if near.len() >= wanted {
            return near_by(alloc, sort, wanted, near.as_slice());
        }
    }
    near_by(alloc, sort, wanted, numbers)
}

/// The near ones of some numbers, by the column of the order.
pub(crate) fn near_numbers(
    alloc: Global,
    sort: &SortColumn<'_>,
    wanted: usize,
    numbers: &[u32],
) -> Result<Vec<u32>, AllocError>
    requires { 1 ≤ wanted }
    ensures only { (s : Schema) (documents : List Placed) (order : Option HitOrder) → AreDocumentsOf s documents → IsSortFor s documents order sort.now → AllBelow (length documents) numbers.now
        → IfOk result (λ near. near.items ≡ shown order wanted documents numbers.now) }
    ensures among { IfOk result (λ near. (n : ℕ) → Contains near.items n → Contains numbers.now n) }
{
    near_twice(alloc, sort, wanted, numbers)
}

// The same where there may be no order.
fn shown_numbers(
    alloc: Global,
    sort: &Option<SortColumn<'_>>,
    wanted: usize,
    numbers: &[u32],
) -> Result<Vec<u32>, AllocError>
    requires { 1 ≤ wanted }
    ensures only { (s : Schema) (documents : List Placed) (order : Option HitOrder) → AreDocumentsOf s documents → IsSortOf s documents order sort.now → AllBelow (length documents) numbers.now
        → IfOk result (λ near. near.items ≡ shown order wanted documents numbers.now) }
    ensures among { IfOk result (λ near. (n : ℕ) → Contains near.items n → Contains numbers.now n) }
{
    match sort {
        None => Vec::from_slice(alloc, numbers),
        Some(sort) => near_numbers(alloc, sort, wanted, numbers),
    }
}

/// Those of some numbers whose documents may be among the first so many, and those that tie with the last of these, in their order,
/// by the column by which they are sorted: all of them where there is no order. No document is read, and where none are wanted nothing.
/// It answers Truncated where no piece has the column.
pub fn near_of(
    alloc: Global,
    schema: &Schema,
    view: &PartView<'_>,
    order: Option<HitOrder>,
    wanted: usize,
    numbers: &[u32],
) -> Result<Vec<u32>, SplitError>
    requires { AllBelow view.now.footer.layout.docs numbers.now }
    // Of a split of documents.
    ensures only { (documents : List Placed) (p : Parts) → IsPartOf view.now schema.now documents p → IsSortable schema.now order
        → MatchResult result (λ near. near.items ≡ shown order wanted documents numbers.now) (LacksPart (AsksField view.now p (sort_field order)) view.now.pieces) }
    // Where the pieces have every part.
    ensures there { (documents : List Placed) (p : Parts) → IsPartOf view.now schema.now documents p → HaveAll (file_bytes p) view.now.pieces → IsThere result }
    // Of any bytes.
    ensures among { IfOk result (λ near. (n : ℕ) → Contains near.items n → Contains numbers.now n) }
    // Where none are wanted.
    ensures none { wanted ≡ 0 → IsOkAnd result (λ near. near.items ≡ []) }
{
    if wanted == 0 {
        return Ok(Vec::new(alloc));
    }
    match open_sort(schema, view, order) {
        Ok(sort) => Ok(shown_numbers(alloc, &sort, wanted, numbers)?),
        Err(fault) => Err(fault),
    }
}

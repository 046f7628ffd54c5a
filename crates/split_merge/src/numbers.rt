//! The numbers of documents among those that are kept.

ghost use Rattle.std.specs.Prelude.{◌≡◌, ◌↔◌, ◌+◌, ◌<◌, ◌≤◌, ◌^◌, ℕ, IfOk, IsTrue, OnOk, if◌then◌else◌};
ghost use Rattle.split_merge.specs.Keeping.{is_named, RiseFrom};
ghost use Rattle.split_merge.specs.HeldNumbers.{rising};
ghost use Rattle.split_merge.specs.Numbering.{kept_count, kept_in, no_number, number_in, table_of, tables_of};

use crate::keeping::passed;
use split_bundle::SplitView;
use std::alloc::{AllocError, Global};
use std::marker::Model;

// What stands in place of a number where a document is dropped.
const NO_NUMBER: u32 = u32::MAX;

// How the numbers of a split's documents are held.
#[derive(Drop)]
enum HeldNumbers {
    // So many that rise by one from the first: no document is dropped.
    Rising { first: u32, docs: u32 },
    // One for each document.
    Table(Vec<u32>),
}

/// The number of each document of a split among those that are kept, which contracts see as a list.
#[derive(Drop)]
pub(crate) struct Numbers {
    held: HeldNumbers,
}

impl Model for Numbers {
    ghost use Rattle.std.specs.Prelude.{List, ℕ};
    ghost use Rattle.split_merge.specs.HeldNumbers.{AreBelow, numbers_in};

    ghost Value = { List ℕ };

    ghost view = { λ n. numbers_in n.held };

    ghost invariant = { λ n. AreBelow n.held };
}

// The number of a document by numbers that rise.
#[inline]
fn number_from(first: u32, docs: u32, doc: u32) -> Option<u32>
    requires { first + docs ≤ no_number }
    ensures { result ≡ number_in (rising first docs) doc }
{
    if doc < docs { Some(first + doc) } else { None }
}

// The number of a document by a table.
#[inline]
fn number_at(table: &[u32], doc: u32) -> Option<u32>
    ensures { result ≡ number_in table.now doc }
{
    match table.get(doc as usize) {
        Some(number) if *number != NO_NUMBER => Some(*number),
        _ => None,
    }
}

impl Numbers {
    /// The number of a document; none of one that is dropped, or that there is not.
    #[inline]
    pub(crate) fn get(&self, doc: u32) -> Option<u32>
        ensures { result ≡ number_in self.now doc }
    {
        match &self.held {
            HeldNumbers::Rising { first, docs } => number_from(*first, *docs, doc),
            HeldNumbers::Table(table) => number_at(table, doc),
        }
    }
}

// What stands in a table for a document, and the number of the next one that is kept. There is no room for 2^32 numbers.
fn entry_of(dropped: bool, number: u32) -> Result<(u32, u32), AllocError>
    ensures entry { IfOk result (λ x. x.0 ≡ (if dropped then no_number else number)) }
    ensures next { IfOk result (λ x. x.1 ≡ (if dropped then number else number + 1)) }
    ensures small { IfOk result (λ x. x.1 ≤ no_number) }
{
    if dropped {
        return Ok((NO_NUMBER, number));
    }
    match number.checked_add(1) {
        Some(next) => Ok((number, next)),
        None => Err(AllocError),
    }
}

// The numbers of a split's documents, the places behind them, and the number of the next document that is kept.
struct ViewNumbers<'a> {
    numbers: Numbers,
    places: &'a [u64],
    next: u32,
}

// Whether places that rise do so from one on.
fn rise_from(places: &[u64], place: u128) -> bool
    requires { (least : ℕ) × RiseFrom least places.now }
    ensures { IsTrue result ↔ RiseFrom place places.now }
{
    match places.first() {
        Some(first) => place <= u128::from(*first),
        None => true,
    }
}

// The numbers of so many documents of which none is dropped, from this number on. There is no room for 2^32 numbers.
fn all_numbered(docs: u32, places: &[u64], next: u32) -> Result<ViewNumbers<'_>, AllocError>
    ensures numbers { IfOk result (λ n. n.numbers ≡ rising next docs) }
    ensures places { IfOk result (λ n. n.places.now ≡ places.now) }
    ensures next { IfOk result (λ n. n.next ≡ next + docs) }
    ensures small { IfOk result (λ n. n.next ≤ no_number) }
{
    match next.checked_add(docs) {
        Some(above) => Ok(ViewNumbers {
            numbers: Numbers {
                held: HeldNumbers::Rising { first: next, docs },
            },
            places,
            next: above,
        }),
        None => Err(AllocError),
    }
}

// The numbers of so many documents, of which the first has this place and the first that is kept this number.
fn numbered<'a>(
    alloc: Global,
    docs: u32,
    places: &'a [u64],
    first: u128,
    next: u32,
) -> Result<ViewNumbers<'a>, AllocError>
    requires rise { RiseFrom first places.now }
    requires room { first + 2 ^ 32 < 2 ^ 128 }
    ensures numbers { IfOk result (λ n. n.numbers ≡ table_of places.now first next docs) }
    ensures rise { IfOk result (λ n. RiseFrom (first + docs) n.places.now) }
    ensures same { IfOk result (λ n. (m : ℕ) → first + docs < m + 1 → is_named m n.places.now ≡ is_named m places.now) }
    ensures next { IfOk result (λ n. n.next ≡ next + kept_count places.now first docs) }
    ensures small { IfOk result (λ n. n.next ≤ no_number) }
{
    if rise_from(places, first + u128::from(docs)) {
        return all_numbered(docs, places, next);
    }
    let mut table = Vec::with_capacity(alloc, docs as usize)?;
    let mut rest = places;
    let mut place = first;
    let mut number = next;
    for doc in 0..docs {
        let (dropped, behind) = passed(rest, place);
        let (entry, above) = entry_of(dropped, number)?;
        table.push(entry)?;
        number = above;
        rest = behind;
        place += 1;
    }
    Ok(ViewNumbers {
        numbers: Numbers {
            held: HeldNumbers::Table(table),
        },
        places: rest,
        next: number,
    })
}

/// The numbers of the documents of splits one behind another, without those whose places are dropped. There is no room for
/// 2^32 numbers.
pub(crate) fn numbers_of(
    alloc: Global,
    views: &[SplitView<'_>],
    dropped: &[u64],
) -> Result<Vec<Numbers>, AllocError>
    requires { RiseFrom 0 dropped.now }
    ensures tables { IfOk result (λ tables. tables.items ≡ tables_of dropped.now 0 0 views.now) }
    ensures few { OnOk result (kept_in dropped.now 0 views.now ≤ no_number) }
{
    let mut tables = Vec::new(alloc);
    let mut places = dropped;
    let mut first = 0;
    let mut next = 0;
    for view in views {
        let docs = view.doc_count();
        let ViewNumbers {
            numbers,
            places: behind,
            next: above,
        } = numbered(alloc, docs, places, first, next)?;
        tables.push(numbers)?;
        places = behind;
        next = above;
        first += u128::from(docs);
    }
    Ok(tables)
}

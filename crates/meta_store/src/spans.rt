//! Spans and ranges that an entry makes, in lists that have room.

ghost use Rattle.std.specs.Prelude.{◌≡◌, ◌+◌, ◌-◌, ◌<◌, ◌≤◌, ◌++◌, ◌∷◌, [], length, map, take, drop, option_copied, vec_len, vec_capacity, IfOk};
ghost use Rattle.source_checkpoint.specs.Deltas.{spans_of, range_of};
ghost use Rattle.source_checkpoint.specs.Checkpoints.{move_all};
ghost use Rattle.split_states.specs.Rows.{row_spans, joined_spans};
ghost use Rattle.meta_store.specs.Retired.{with_range, with_ranges};
ghost use Rattle.meta_store.specs.Lying.{LiesSo};

use source_checkpoint::{Ledger, Part, Span};
use split_states::{Row, Rows};
use std::alloc::AllocError;
use std::cmp::Ordering;

/// The spans of a delta that is staged behind a task.
pub fn fill_spans(spans: &mut Vec<Span>, opstamp: u64, parts: &[Part])
    requires { vec_len spans.old + length parts.now ≤ vec_capacity spans.old }
    ensures { spans.new.items ≡ spans.old.items ++ spans_of opstamp parts.now }
{
    for part in parts {
        spans.push_reserved(Span::behind(opstamp, part));
    }
}

/// The number of a row's spans.
pub fn span_count(row: Option<&Row>) -> usize
    ensures { result ≡ length (map range_of (row_spans (option_copied row.entry))) }
{
    match row {
        None => 0,
        Some(row) => row.spans.len(),
    }
}

/// The checkpoints of a row's spans move to their ends.
pub fn admit_row(checkpoints: &mut Ledger, row: Option<&Row>)
    requires { length (map range_of (row_spans (option_copied row))) ≤ checkpoints.old.spare }
    ensures { checkpoints.new.list ≡ move_all (map range_of (row_spans (option_copied row.entry))) checkpoints.old.list }
{
    if let Some(row) = row {
        checkpoints.admit_spans(&row.spans);
    }
}

/// How a range that is kept lies to one that comes in.
#[derive(Clone, Copy)]
enum Lies {
    Before,
    /// The kept one ends where the other begins.
    EndsThere,
    /// The kept one begins where the other ends.
    BeginsThere,
    Behind,
}

fn lie_of(kept: &Part, range: &Part) -> Lies
    ensures { LiesSo result kept.now range.now }
{
    match kept.partition.compare(&range.partition) {
        Ordering::Less => Lies::Before,
        Ordering::Greater => Lies::Behind,
        Ordering::Equal => {
            if kept.to < range.from {
                return Lies::Before;
            }
            if kept.to == range.from {
                return Lies::EndsThere;
            }
            if range.to == kept.from {
                return Lies::BeginsThere;
            }
            Lies::Behind
        }
    }
}

/// At its place in a list that has room.
fn insert_within(ranges: &mut Vec<Part>, place: usize, range: Part)
    requires within { place ≤ vec_len ranges.old }
    requires room { vec_len ranges.old < vec_capacity ranges.old }
    ensures items { ranges.new.items ≡ take place ranges.old.items ++ range ∷ drop place ranges.old.items }
    ensures len { vec_len ranges.new ≡ vec_len ranges.old + 1 }
    ensures room { vec_capacity ranges.old ≤ vec_capacity ranges.new }
{
    match ranges.insert(place, range) {
        Ok(()) => {}
        Err(_) => unreachable!(),
    }
}

/// A range at its place, joined with those that it touches.
fn join_range(ranges: &mut Vec<Part>, range: Part)
    requires { vec_len ranges.old < vec_capacity ranges.old }
    ensures items { ranges.new.items ≡ with_range range ranges.old.items }
    ensures len { vec_len ranges.new ≤ vec_len ranges.old + 1 }
    ensures room { vec_capacity ranges.old ≤ vec_capacity ranges.new }
{
    let mut range = range;
    let mut place = 0;
    'places: while place < ranges.len() {
        match lie_of(&ranges[place], &range) {
            Lies::Before => place += 1,
            Lies::EndsThere => range.from = ranges.remove(place).from,
            Lies::BeginsThere => {
                ranges[place].from = range.from;
                return;
            }
            Lies::Behind => break 'places,
        }
    }
    insert_within(ranges, place, range);
}

/// The ranges of these spans, each at its place.
fn join_ranges(ranges: &mut Vec<Part>, spans: &[Span])
    requires { vec_len ranges.old + length spans.now ≤ vec_capacity ranges.old }
    ensures items { ranges.new.items ≡ with_ranges (map range_of spans.now) ranges.old.items }
    ensures len { vec_len ranges.new ≤ vec_len ranges.old + length spans.now }
    ensures room { vec_capacity ranges.old ≤ vec_capacity ranges.new }
{
    for span in spans {
        join_range(ranges, span.range());
    }
}

/// The ranges of a row, each at its place.
fn join_row(ranges: &mut Vec<Part>, row: Option<&Row>)
    requires { vec_len ranges.old + length (row_spans (option_copied row)) ≤ vec_capacity ranges.old }
    ensures items { ranges.new.items ≡ with_ranges (map range_of (row_spans (option_copied row.entry))) ranges.old.items }
    ensures len { vec_len ranges.new ≤ vec_len ranges.old + length (row_spans (option_copied row.entry)) }
    ensures room { vec_capacity ranges.old ≤ vec_capacity ranges.new }
{
    if let Some(row) = row {
        join_ranges(ranges, row.spans.as_slice());
    }
}

/// The ranges of the rows of these numbers, each at its place.
pub fn join_retired(ranges: &mut Vec<Part>, rows: &Rows, numbers: &[u64])
    requires { vec_len ranges.old + length (joined_spans rows.now.list numbers.now) ≤ vec_capacity ranges.old }
    ensures { ranges.new.items ≡ with_ranges (map range_of (joined_spans rows.now.list numbers.now)) ranges.old.items }
{
    for number in numbers {
        join_row(ranges, rows.get(*number));
    }
}

/// A count without the spans of the rows of these numbers.
pub fn count_left(count: usize, rows: &Rows, numbers: &[u64]) -> usize
    ensures { result ≡ count - length (joined_spans rows.now.list numbers.now) }
{
    let mut left = count;
    for number in numbers {
        left = left.saturating_sub(span_count(rows.get(*number)));
    }
    left
}

/// Makes the room for the ranges of the rows of these numbers.
pub fn reserve_retired(
    ranges: &mut Vec<Part>,
    rows: &Rows,
    numbers: &[u64],
) -> Result<(), AllocError>
    ensures same { ranges.new.items ≡ ranges.old.items }
    ensures room { IfOk result (λ u. vec_len ranges.new + length (joined_spans rows.now.list numbers.now) ≤ vec_capacity ranges.new) }
{
    let count = joined_count(rows, numbers)?;
    ranges.reserve(count)
}

/// The number of the spans of the rows of these numbers.
fn joined_count(rows: &Rows, numbers: &[u64]) -> Result<usize, AllocError>
    ensures { IfOk result (λ count. count ≡ length (joined_spans rows.now.list numbers.now)) }
{
    let mut count: usize = 0;
    for number in numbers {
        match count.checked_add(span_count(rows.get(*number))) {
            None => return Err(AllocError),
            Some(more) => count = more,
        }
    }
    Ok(count)
}

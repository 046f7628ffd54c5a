//! The rows and how each stands.

ghost use Rattle.std.specs.Prelude.{◌≡◌, ◌+◌, ◌<◌, ◌≤◌, ◌^◌, ◌++◌, ◌∷◌, [], List, length, max, fold, map, option_copied, option_map, slice_get, Some, OnOk, OnErr, IfOk, IfNone, IfSome, vec_len, vec_capacity};
ghost use Rattle.source_checkpoint.specs.Deltas.{raised};
ghost use Rattle.split_states.specs.Rows.{row_at, row_spans, row_ranges, change, change_each, without_each, joined_spans, published, marked, raised_row, replacing, ops_of, merged_ops, Row, RowsRise, IsAbove, IsPlace, IsAbsent};
ghost use Rattle.split_states.specs.Due.{stamp_of, stale_rows, next_marked, next_due};

use crate::facts::RowFacts;
use crate::numbers::{Numbers, is_among, rise};
use crate::stamps::{
    Stamp, first_due, first_marked, push_stamp, restamp, stale_numbers, stamps_from,
};
use source_checkpoint::{Span, Spans};
use std::alloc::{AllocError, Global};
use std::marker::Model;

/// How a row stands: its file may be on its way, it is shown by searches, or it is to be removed.
#[derive(Clone, Copy, Drop)]
pub enum RowState {
    Staged,
    Published,
    Marked,
}

/// A split file that was staged. `staged_at` is the moment of its Stage, `marked_at` that of the entry that
/// marked it, and 0 before. `merge_ops` says how often its records were merged.
#[derive(Drop)]
pub struct Row {
    pub number: u64,
    pub state: RowState,
    pub spans: Spans,
    pub facts: RowFacts,
    pub staged_at: u64,
    pub marked_at: u64,
    pub merge_ops: u64,
}

/// The rows, in the order in which they were staged: their numbers rise.
#[derive(Drop)]
pub struct Rows {
    list: Vec<Row>,
    stamps: Vec<Stamp>,
}

impl Model for Rows {
    ghost use Rattle.std.specs.Prelude.{◌≡◌, ◌-◌, map, min, vec_len, vec_capacity};
    ghost use Rattle.split_states.specs.Due.{stamp_of};
    ghost use Rattle.split_states.specs.Rows.{RowList, RowsRise};

    ghost Value = { RowList };

    ghost view = { λ r. record { list = r.list.items; spare = min (vec_capacity r.list - vec_len r.list) (vec_capacity r.stamps - vec_len r.stamps) } };

    ghost invariant = { λ r. RowsRise r.list.items × (r.stamps.items ≡ map stamp_of r.list.items) };
}

/// The place of a number's row.
fn place_of(rows: &[Row], number: u64) -> Option<usize>
    requires { RowsRise rows.now }
    ensures none { IfNone result (IsAbsent rows.now number) }
    ensures some { IfSome result (IsPlace rows.now number) }
{
    match rows.binary_search_by(|row| row.number.cmp(&number)) {
        Ok(i) => Some(i),
        Err(_) => None,
    }
}

/// The row of a number.
fn find_row(rows: &[Row], number: u64) -> Option<&Row>
    requires { RowsRise rows.now }
    ensures { option_copied result ≡ row_at rows.now number }
{
    match place_of(rows, number) {
        None => None,
        Some(i) => Some(&rows[i]),
    }
}

fn publish_row(rows: &mut [Row], stamps: &mut [Stamp], number: u64)
    requires order { RowsRise rows.old }
    requires stamps { stamps.old ≡ map stamp_of rows.old }
    ensures rows { rows.new ≡ change number published rows.old }
    ensures order { RowsRise rows.new }
    ensures stamps { stamps.new ≡ map stamp_of rows.new }
{
    if let Some(i) = place_of(rows, number) {
        let row = &mut rows[i];
        row.state = RowState::Published;
        restamp(stamps, i, row);
    }
}

fn mark_row(rows: &mut [Row], stamps: &mut [Stamp], number: u64, moment: u64)
    requires order { RowsRise rows.old }
    requires stamps { stamps.old ≡ map stamp_of rows.old }
    ensures rows { rows.new ≡ change number (marked moment) rows.old }
    ensures order { RowsRise rows.new }
    ensures stamps { stamps.new ≡ map stamp_of rows.new }
{
    if let Some(i) = place_of(rows, number) {
        let row = &mut rows[i];
        row.state = RowState::Marked;
        row.marked_at = moment;
        restamp(stamps, i, row);
    }
}

fn mark_rows(rows: &mut [Row], stamps: &mut [Stamp], numbers: &[u64], moment: u64)
    requires order { RowsRise rows.old }
    requires stamps { stamps.old ≡ map stamp_of rows.old }
    ensures rows { rows.new ≡ change_each numbers.now (marked moment) rows.old }
    ensures order { RowsRise rows.new }
    ensures stamps { stamps.new ≡ map stamp_of rows.new }
{
    for number in numbers {
        mark_row(rows, stamps, *number, moment);
    }
}

/// It changes no stamp.
fn raise_row(rows: &mut [Row], number: u64, upto: u64)
    requires { RowsRise rows.old }
    ensures rows { rows.new ≡ change number (raised_row upto) rows.old }
    ensures order { RowsRise rows.new }
    ensures stamps { map stamp_of rows.new ≡ map stamp_of rows.old }
{
    if let Some(i) = place_of(rows, number) {
        rows[i].spans.raise(upto);
    }
}

fn replace_row(rows: &mut [Row], stamps: &mut [Stamp], number: u64, spans: Spans, merge_ops: u64)
    requires order { RowsRise rows.old }
    requires stamps { stamps.old ≡ map stamp_of rows.old }
    ensures rows { rows.new ≡ change number (replacing spans merge_ops) rows.old }
    ensures order { RowsRise rows.new }
    ensures stamps { stamps.new ≡ map stamp_of rows.new }
{
    if let Some(i) = place_of(rows, number) {
        let row = &mut rows[i];
        row.state = RowState::Published;
        row.spans = spans;
        row.merge_ops = merge_ops;
        restamp(stamps, i, row);
    }
}

fn ops(row: Option<&Row>) -> u64
    ensures { result ≡ ops_of (option_copied row.entry) }
{
    match row {
        None => 0,
        Some(row) => row.merge_ops,
    }
}

fn greatest_ops(rows: &[Row], numbers: &[u64]) -> u64
    requires { RowsRise rows.now }
    ensures { result ≡ fold (λ most k. max most (ops_of (row_at rows.now k))) 0 numbers.now }
{
    let mut most = 0;
    for number in numbers {
        most = ops(find_row(rows, *number)).max(most);
    }
    most
}

fn merged(rows: &[Row], numbers: &[u64]) -> u64
    requires order { RowsRise rows.now }
    requires fits { merged_ops rows.now numbers.now < 2 ^ 64 }
    ensures { result ≡ merged_ops rows.now numbers.now }
{
    match numbers {
        [] => 0,
        [only] => ops(find_row(rows, *only)),
        _ => greatest_ops(rows, numbers) + 1,
    }
}

/// In one pass over the rows.
fn drop_rows(rows: &mut Vec<Row>, numbers: &[u64])
    requires { RowsRise rows.old.items }
    ensures rows { rows.new.items ≡ without_each numbers.now rows.old.items }
    ensures order { RowsRise rows.new.items }
{
    let in_order = rise(numbers);
    rows.retain(|row| !is_among(numbers, in_order, row.number));
}

/// In one pass over the stamps.
fn drop_stamps(stamps: &mut Vec<Stamp>, numbers: &[u64])
    ensures { (rows : List Row) → stamps.old.items ≡ map stamp_of rows → stamps.new.items ≡ map stamp_of (without_each numbers.now rows) }
{
    let in_order = rise(numbers);
    stamps.retain(|stamp| !is_among(numbers, in_order, stamp.number));
}

/// Copies of these spans at the end.
fn copy_spans(into: &mut Vec<Span>, spans: &[Span]) -> Result<(), AllocError>
    ensures { OnOk result (into.new.items ≡ into.old.items ++ spans.now) }
{
    for span in spans {
        into.push(span.copy())?;
    }
    Ok(())
}

fn joined(alloc: Global, rows: &[Row], numbers: &[u64]) -> Result<Vec<Span>, AllocError>
    requires { RowsRise rows.now }
    ensures { IfOk result (λ spans. spans.items ≡ joined_spans rows.now numbers.now) }
{
    let mut spans = Vec::new(alloc);
    for number in numbers {
        if let Some(row) = find_row(rows, *number) {
            copy_spans(&mut spans, row.spans.as_slice())?;
        }
    }
    Ok(spans)
}

impl Rows {
    pub fn vacant(alloc: Global) -> Rows
        ensures { result.list ≡ [] }
    {
        Rows {
            list: Vec::new(alloc),
            stamps: Vec::new(alloc),
        }
    }

    pub fn len(&self) -> usize
        ensures { result ≡ length self.now.list }
    {
        self.list.len()
    }

    pub fn at(&self, index: usize) -> &Row
        requires { index < length self.now.list }
        ensures { slice_get self.now.list index ≡ Some result.now }
    {
        &self.list[index]
    }

    /// The rows in the order in which they were staged, in which their numbers rise.
    pub fn as_slice(&self) -> &[Row]
        ensures rows { result.now ≡ self.now.list }
        ensures order { RowsRise result.now }
    {
        self.list.as_slice()
    }

    /// The row of a number.
    pub fn get(&self, number: u64) -> Option<&Row>
        ensures { option_copied result ≡ row_at self.now.list number }
    {
        find_row(self.list.as_slice(), number)
    }

    /// The numbers of the stale rows, in the order of the rows: those that are staged, where `grace` has passed since
    /// their Stage.
    pub fn stale(&self, alloc: Global, now: u64, grace: u64) -> Result<Numbers, AllocError>
        ensures { IfOk result (λ numbers. numbers ≡ stale_rows now grace self.now.list) }
    {
        stale_numbers(alloc, self.stamps.as_slice(), now, grace)
    }

    /// The least number from `from` on of a row that is due: it is marked, and `grace` has passed since it was.
    pub fn next_due(&self, from: u64, now: u64, grace: u64) -> Option<u64>
        ensures { result ≡ option_map (λ row. row.number) (next_due from now grace self.now.list) }
    {
        first_due(stamps_from(self.stamps.as_slice(), from), now, grace)
    }

    /// The least number from `from` on of a marked row.
    pub fn next_marked(&self, from: u64) -> Option<u64>
        ensures { result ≡ option_map (λ row. row.number) (next_marked from self.now.list) }
    {
        first_marked(stamps_from(self.stamps.as_slice(), from))
    }

    /// Makes the room for one more row.
    pub fn reserve(&mut self) -> Result<(), AllocError>
        ensures same { self.new.list ≡ self.old.list }
        ensures room { OnOk result (0 < self.new.spare) }
    {
        self.stamps.reserve(1)?;
        self.list.reserve(1)
    }

    /// A row more at the end, for which there is room.
    pub fn stage(&mut self, row: Row)
        requires room { 0 < self.old.spare }
        requires above { IsAbove self.old.list row.number }
        ensures { self.new.list ≡ self.old.list ++ row ∷ [] }
    {
        push_stamp(&mut self.stamps, &row);
        self.list.push_reserved(row);
    }

    /// The row of this number is Published.
    pub fn publish(&mut self, number: u64)
        ensures { self.new.list ≡ change number published self.old.list }
    {
        publish_row(self.list.as_mut_slice(), self.stamps.as_mut_slice(), number);
    }

    /// Each of these rows is Marked at this moment.
    pub fn mark(&mut self, numbers: &Numbers, moment: u64)
        ensures { self.new.list ≡ change_each numbers.now (marked moment) self.old.list }
    {
        mark_rows(
            self.list.as_mut_slice(),
            self.stamps.as_mut_slice(),
            numbers.as_slice(),
            moment,
        );
    }

    /// The spans of this row are applied up to the task at least.
    pub fn raise(&mut self, number: u64, upto: u64)
        ensures { self.new.list ≡ change number (raised_row upto) self.old.list }
    {
        raise_row(self.list.as_mut_slice(), number, upto);
    }

    /// The row of this number is Published with these spans.
    pub fn replace(&mut self, number: u64, spans: Spans, merge_ops: u64)
        ensures { self.new.list ≡ change number (replacing spans merge_ops) self.old.list }
    {
        replace_row(
            self.list.as_mut_slice(),
            self.stamps.as_mut_slice(),
            number,
            spans,
            merge_ops,
        );
    }

    /// Each of these rows is gone.
    pub fn remove(&mut self, numbers: &Numbers)
        ensures { self.new.list ≡ without_each numbers.now self.old.list }
    {
        drop_rows(&mut self.list, numbers.as_slice());
        drop_stamps(&mut self.stamps, numbers.as_slice());
    }

    /// Copies of the spans of the rows of these numbers, joined in their order.
    pub fn joined(&self, alloc: Global, numbers: &Numbers) -> Result<Spans, AllocError>
        ensures { IfOk result (λ spans. spans ≡ joined_spans self.now.list numbers.now) }
    {
        let spans = joined(alloc, self.list.as_slice(), numbers.as_slice())?;
        Ok(Spans::from_vec(spans))
    }

    /// How often a row with the joined spans of these rows was merged.
    pub fn merged(&self, numbers: &Numbers) -> u64
        requires { merged_ops self.now.list numbers.now < 2 ^ 64 }
        ensures { result ≡ merged_ops self.now.list numbers.now }
    {
        merged(self.list.as_slice(), numbers.as_slice())
    }
}

//! How far each partition was taken in.

ghost use Rattle.std.specs.Prelude.{◌≡◌, ◌+◌, ◌<◌, ◌≤◌, ◌++◌, ◌∷◌, [], length, map, OnOk, OnErr, IsOk, ◌↔◌, vec_len, vec_capacity, insert, MatchResult};
ghost use Rattle.source_checkpoint.specs.Deltas.{answer_to_admit, answer_to_part, answer_at, then_answer, range_of, moved, MayAdmit, Names, IsDelta, Part, Partition};
ghost use Rattle.source_checkpoint.specs.Checkpoints.{checkpoint_at, move_to, move_all, IsInOrder, IsListedAt, IsPutAt};

use crate::delta::{Delta, Part, StaleDelta, check_part};
use crate::partition::Partition;
use crate::span::{Span, Spans};
use std::alloc::{AllocError, Global};
use std::marker::Model;

/// How far a partition was taken in.
#[derive(Drop)]
pub struct Checkpoint {
    pub partition: Partition,
    pub at: u64,
}

/// How far each partition was taken in, in the order of the names.
#[derive(Drop)]
pub struct Ledger {
    list: Vec<Checkpoint>,
}

impl Model for Ledger {
    ghost use Rattle.std.specs.Prelude.{◌-◌, vec_len, vec_capacity};
    ghost use Rattle.source_checkpoint.specs.Checkpoints.{Checkpoints, IsInOrder};

    ghost Value = { Checkpoints };

    ghost view = { λ l. record { list = l.list.items; spare = vec_capacity l.list - vec_len l.list } };

    ghost invariant = { λ l. IsInOrder l.list.items };
}

/// Where a partition's checkpoint stands, or where it would be put in.
fn place_of(checkpoints: &[Checkpoint], partition: &Partition) -> Result<usize, usize>
    requires { IsInOrder checkpoints.now }
    ensures { MatchResult result (IsListedAt checkpoints.now partition.now) (IsPutAt checkpoints.now partition.now) }
{
    checkpoints.binary_search_by(|checkpoint| checkpoint.partition.compare(partition))
}

/// The checkpoint of a partition, 0 for one that is not listed.
fn checkpoint_of(checkpoints: &[Checkpoint], partition: &Partition) -> u64
    requires { IsInOrder checkpoints.now }
    ensures { result ≡ checkpoint_at checkpoints.now partition.now }
{
    match place_of(checkpoints, partition) {
        Ok(i) => checkpoints[i].at,
        Err(_) => 0,
    }
}

/// At its place in a list that has room.
fn insert_within(list: &mut Vec<Checkpoint>, index: usize, item: Checkpoint)
    requires within { index ≤ vec_len list.old }
    requires room { vec_len list.old < vec_capacity list.old }
    ensures items { list.new.items ≡ insert list.old.items index item }
    ensures len { vec_len list.new ≡ vec_len list.old + 1 }
    ensures room { vec_capacity list.old ≤ vec_capacity list.new }
{
    match list.insert(index, item) {
        Ok(()) => {}
        Err(_) => unreachable!(),
    }
}

/// The checkpoint of a part's partition moves to its end.
fn move_one(list: &mut Vec<Checkpoint>, part: &Part)
    requires order { IsInOrder list.old.items }
    requires room { vec_len list.old < vec_capacity list.old }
    ensures items { list.new.items ≡ move_to part.now list.old.items }
    ensures order { IsInOrder list.new.items }
    ensures len { vec_len list.new ≤ vec_len list.old + 1 }
    ensures room { vec_capacity list.old ≤ vec_capacity list.new }
{
    let moved = Checkpoint {
        partition: part.partition.copy(),
        at: part.to,
    };
    match place_of(list.as_slice(), &part.partition) {
        Ok(i) => list[i] = moved,
        Err(i) => insert_within(list, i, moved),
    }
}

/// The checkpoints of these parts' partitions move to their ends.
fn move_parts(list: &mut Vec<Checkpoint>, parts: &[Part])
    requires order { IsInOrder list.old.items }
    requires room { vec_len list.old + length parts.now ≤ vec_capacity list.old }
    ensures items { list.new.items ≡ move_all parts.now list.old.items }
    ensures order { IsInOrder list.new.items }
{
    for part in parts {
        move_one(list, part);
    }
}

/// The same of the ranges of spans.
fn move_spans(list: &mut Vec<Checkpoint>, spans: &[Span])
    requires order { IsInOrder list.old.items }
    requires room { vec_len list.old + length (map range_of spans.now) ≤ vec_capacity list.old }
    ensures items { list.new.items ≡ move_all (map range_of spans.now) list.old.items }
    ensures order { IsInOrder list.new.items }
{
    for span in spans {
        move_one(list, &span.range());
    }
}

/// Whether a part begins at its partition's checkpoint.
fn check_start(checkpoints: &[Checkpoint], part: &Part) -> Result<(), StaleDelta>
    requires { IsInOrder checkpoints.now }
    ensures { result ≡ answer_at (checkpoint_at checkpoints.now part.now.partition) part.now }
{
    let current = checkpoint_of(checkpoints, &part.partition);
    if part.from != current {
        return Err(StaleDelta::Stale {
            partition: part.partition.copy(),
            current,
            from: part.from,
        });
    }
    Ok(())
}

fn check_parts(checkpoints: &[Checkpoint], parts: &[Part]) -> Result<(), StaleDelta>
    requires { IsInOrder checkpoints.now }
    ensures { result ≡ answer_to_admit (checkpoint_at checkpoints.now) [] parts.now }
{
    for (i, part) in parts.iter().enumerate() {
        check_part(&parts[..i], part)?;
        check_start(checkpoints, part)?;
    }
    Ok(())
}

/// Whether one of these spans is of the partition.
fn spans_name(spans: &[Span], partition: &Partition) -> bool
    ensures { result ≡ Names (map range_of spans.now) partition.now }
{
    for span in spans {
        if span.partition.is(partition) {
            return true;
        }
    }
    false
}

/// Whether a span may be taken in behind these.
fn check_span(before: &[Span], span: &Span) -> Result<(), StaleDelta>
    ensures { result ≡ answer_to_part (map range_of before.now) (range_of span.now) }
{
    if spans_name(before, &span.partition) {
        return Err(StaleDelta::DoubledPartition {
            partition: span.partition.copy(),
        });
    }
    check_part(&[], &span.range())
}

impl Ledger {
    pub fn vacant(alloc: Global) -> Ledger
        ensures { result.list ≡ [] }
    {
        Ledger {
            list: Vec::new(alloc),
        }
    }

    /// The checkpoints in the order of the names.
    pub fn as_slice(&self) -> &[Checkpoint]
        ensures { result.now ≡ self.now.list }
    {
        self.list.as_slice()
    }

    /// 0 for an unknown partition.
    pub fn checkpoint(&self, partition: &Partition) -> u64
        ensures { result ≡ checkpoint_at self.now.list partition.now }
    {
        checkpoint_of(self.list.as_slice(), partition)
    }

    /// Whether a delta may be taken in: its first part that is doubled, backward or stale, in this order
    /// for each part. It takes no memory.
    pub fn check(&self, delta: &Delta) -> Result<(), StaleDelta>
        ensures answer { result ≡ answer_to_admit (checkpoint_at self.now.list) [] delta.now }
        ensures ok { IsOk result ↔ MayAdmit delta.now (checkpoint_at self.now.list) }
    {
        check_parts(self.list.as_slice(), delta.as_slice())
    }

    /// The same of the ranges of spans.
    pub fn check_spans(&self, spans: &Spans) -> Result<(), StaleDelta>
        ensures { result ≡ answer_to_admit (checkpoint_at self.now.list) [] (map range_of spans.now) }
    {
        let list = spans.as_slice();
        for (i, span) in list.iter().enumerate() {
            check_span(&list[..i], span)?;
            check_start(self.list.as_slice(), &span.range())?;
        }
        Ok(())
    }

    /// Makes the room for this many parts.
    pub fn reserve_parts(&mut self, count: usize) -> Result<(), AllocError>
        ensures same { self.new.list ≡ self.old.list }
        ensures room { OnOk result (count ≤ self.new.spare) }
    {
        self.list.reserve(count)
    }

    /// Makes the room for a delta.
    pub fn reserve(&mut self, delta: &Delta) -> Result<(), AllocError>
        ensures same { self.new.list ≡ self.old.list }
        ensures room { OnOk result (length delta.now ≤ self.new.spare) }
    {
        self.reserve_parts(delta.len())
    }

    /// Each named checkpoint moves to its part's end, and each other one stays.
    pub fn admit(&mut self, delta: &Delta)
        requires { length delta.now ≤ self.old.spare }
        ensures list { self.new.list ≡ move_all delta.now self.old.list }
        ensures moved { IsDelta delta.now → (p : Partition) → checkpoint_at self.new.list p ≡ moved delta.now (checkpoint_at self.old.list) p }
    {
        move_parts(&mut self.list, delta.as_slice());
    }

    /// The same of the ranges of spans.
    pub fn admit_spans(&mut self, spans: &Spans)
        requires { length (map range_of spans.now) ≤ self.old.spare }
        ensures list { self.new.list ≡ move_all (map range_of spans.now) self.old.list }
    {
        move_spans(&mut self.list, spans.as_slice());
    }
}

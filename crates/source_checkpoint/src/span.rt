//! The ranges that were taken in, each with its marks.

ghost use Rattle.std.specs.Prelude.{◌≡◌, ◌<◌, ◌++◌, ◌∷◌, ◌↔◌, [], length, map, slice_get, Some, OnOk, OnErr, IsTrue};
ghost use Rattle.source_checkpoint.specs.Deltas.{raised};

use crate::delta::Part;
use crate::partition::Partition;
use std::alloc::{AllocError, Global};
use std::marker::Model;

/// The records of one partition from `from` up to and without `to`, which were taken in behind the task
/// `admitted`, 0 for none, and from which the tasks up to `applied` were removed.
#[derive(Drop)]
pub struct Span {
    pub partition: Partition,
    pub from: u64,
    pub to: u64,
    pub admitted: u64,
    pub applied: u64,
}

impl Span {
    ghost use Rattle.source_checkpoint.specs.Deltas.{range_of, raised, span_of};

    /// A part as it is taken in behind a task.
    pub fn behind(opstamp: u64, part: &Part) -> Span
        ensures { result ≡ span_of opstamp part.now }
    {
        Span {
            partition: part.partition.copy(),
            from: part.from,
            to: part.to,
            admitted: opstamp,
            applied: opstamp,
        }
    }

    pub fn range(&self) -> Part
        ensures { result ≡ range_of self.now }
    {
        Part {
            partition: self.partition.copy(),
            from: self.from,
            to: self.to,
        }
    }

    pub fn copy(&self) -> Span
        ensures { result ≡ self.now }
    {
        Span {
            partition: self.partition.copy(),
            from: self.from,
            to: self.to,
            admitted: self.admitted,
            applied: self.applied,
        }
    }

    /// The span is applied up to the task at least.
    fn raise(&mut self, upto: u64)
        ensures { self.new ≡ raised upto self.old }
    {
        self.applied = self.applied.max(upto);
    }
}

/// A list of spans.
#[derive(Drop)]
pub struct Spans {
    list: Vec<Span>,
}

impl Model for Spans {
    ghost use Rattle.std.specs.Prelude.{List};
    ghost use Rattle.source_checkpoint.specs.declared.span.Span.{Span};

    ghost Value = { List Span };

    ghost view = { λ s. s.list.items };
}

impl Spans {
    ghost use Rattle.source_checkpoint.specs.Deltas.{raised};

    pub fn vacant(alloc: Global) -> Spans
        ensures { result ≡ [] }
    {
        Spans {
            list: Vec::new(alloc),
        }
    }

    pub fn from_vec(list: Vec<Span>) -> Spans
        ensures { result ≡ list.items }
    {
        Spans { list }
    }

    pub fn into_vec(self) -> Vec<Span>
        ensures { result.items ≡ self }
    {
        let Spans { list } = self;
        list
    }

    pub fn push(&mut self, span: Span) -> Result<(), AllocError>
        ensures ok { OnOk result (self.new ≡ self.old ++ span ∷ []) }
        ensures err { OnErr result (self.new ≡ self.old) }
    {
        self.list.push(span)?;
        Ok(())
    }

    pub fn len(&self) -> usize
        ensures { result ≡ length self.now }
    {
        self.list.len()
    }

    pub fn is_empty(&self) -> bool
        ensures { IsTrue result ↔ (self.now ≡ []) }
    {
        self.list.is_empty()
    }

    pub fn at(&self, index: usize) -> &Span
        requires { index < length self.now }
        ensures { slice_get self.now index ≡ Some result.now }
    {
        &self.list[index]
    }

    pub fn as_slice(&self) -> &[Span]
        ensures { result.now ≡ self.now }
    {
        self.list.as_slice()
    }

    /// Each of these spans is applied up to the task at least.
    pub fn raise(&mut self, upto: u64)
        ensures { self.new ≡ map (raised upto) self.old }
    {
        raise_all(self.list.as_mut_slice(), upto);
    }
}

fn raise_all(spans: &mut [Span], upto: u64)
    ensures { spans.new ≡ map (raised upto) spans.old }
{
    for span in spans.iter_mut() {
        span.raise(upto);
    }
}

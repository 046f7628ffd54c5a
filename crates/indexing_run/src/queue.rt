//! The partitions that a batch is still to read.

ghost use Rattle.std.specs.Prelude.{◌≡◌, ◌+◌, ◌<◌, ◌^◌, ◌∷◌, List, IfOk, slice_get};
ghost use Rattle.std.specs.Option.{option_copied};
ghost use Rattle.source_checkpoint.specs.Checkpoints.{checkpoint_at};
ghost use Rattle.source_checkpoint.specs.declared.ledger.Checkpoint.{Checkpoint};
ghost use Rattle.indexing_run.specs.Steps.{marks_at, is_empty, queue_after};
ghost use Rattle.indexing_run.specs.Standing.{left_of};

use index_world::Marks;
use source_checkpoint::{Checkpoint, Partition};
use source_log::Partitions;
use std::alloc::{AllocError, Global};

/// What is still to be read: each partition from its position on, from the place `current`.
#[derive(Drop)]
pub struct Queue {
    marks: Vec<Checkpoint>,
    current: usize,
}

// How far the partition was taken in, 0 for an unknown one.
fn position_in(checkpoints: &[Checkpoint], partition: &Partition) -> u64
    ensures { result ≡ checkpoint_at checkpoints.now partition.now }
{
    for checkpoint in checkpoints {
        if checkpoint.partition.is(partition) {
            return checkpoint.at;
        }
    }
    0
}

impl Queue {
    /// These partitions, each from its checkpoint on.
    pub fn from_marks(alloc: Global, names: &Partitions, marks: &Marks) -> Result<Queue, AllocError>
        ensures { IfOk result (λ queue. left_of queue ≡ marks_at marks.now.checkpoints.items names.now) }
    {
        let mut queue = Vec::new(alloc);
        for partition in names.as_slice() {
            queue.push(Checkpoint {
                partition: partition.copy(),
                at: position_in(marks.checkpoints.as_slice(), partition),
            })?;
        }
        Ok(Queue {
            marks: queue,
            current: 0,
        })
    }

    pub fn is_empty(&self) -> bool
        ensures { result ≡ is_empty (left_of self.now) }
    {
        self.current >= self.marks.len()
    }

    /// What is read next.
    pub fn first(&self) -> Option<&Checkpoint>
        ensures { option_copied result ≡ slice_get (left_of self.now) 0 }
    {
        self.marks.get(self.current)
    }

    /// So much was read of the first, or it was read to its end.
    pub fn move_on(&mut self, taken: u64, end: bool)
        ensures { (mark : Checkpoint) (rest : List Checkpoint) → left_of self.old ≡ mark ∷ rest → mark.at + taken < 2 ^ 64 →
            left_of self.new ≡ queue_after end mark taken rest }
    {
        if self.current < self.marks.len() {
            if end {
                self.current += 1;
            } else {
                let mark = &mut self.marks[self.current];
                mark.at = mark.at.saturating_add(taken);
            }
        }
    }
}

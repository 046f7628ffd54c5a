//! Known places of files, where records begin.

ghost use Rattle.std.specs.Prelude.{◌≡◌, ◌≤◌, ◌<◌, List, IfSome, [], vec_len, slice_index_or};
ghost use Rattle.real_edge.specs.Growing.{Grown, bytes_of};
ghost use Rattle.real_edge.specs.Lines.{IsMark};
ghost use Rattle.real_edge.specs.Marks.{AreMarks, AreMarksOf};
ghost use Rattle.real_edge.specs.declared.marks.Places.{Places};

use crate::log_lines::Mark;
use source_checkpoint::Partition;
use std::alloc::{AllocError, Global};

/// Some places of a partition's file, rising.
#[derive(Drop)]
pub struct Places {
    partition: Partition,
    marks: Vec<Mark>,
}

/// Some places of some files.
#[derive(Drop)]
pub struct Marks {
    held: Vec<Places>,
}

impl Places {
    // The last place that is not behind a record.
    fn before(&self, number: u64) -> Mark
        ensures mark { (files : List Grown) → AreMarksOf files self.now → IsMark (bytes_of files self.now.partition) result }
        ensures before { result.record ≤ number }
    {
        match self.marks.iter().rev().find(|mark| mark.record <= number) {
            Some(mark) => *mark,
            None => Mark::FRONT,
        }
    }

    // Keeps a place that is behind those that are known. Without memory it doesn't: the next read passes over more.
    fn keep(&mut self, mark: Mark)
        ensures marks { (files : List Grown) → AreMarksOf files self.old → IsMark (bytes_of files self.old.partition) mark → AreMarksOf files self.new }
        ensures partition { self.new.partition ≡ self.old.partition }
    {
        let last = self.marks.last().copied().unwrap_or(Mark::FRONT);
        if last.record < mark.record {
            let _ = self.marks.push(mark);
        }
    }
}

impl Marks {
    /// No places.
    pub fn vacant(alloc: Global) -> Marks
        ensures { result.held.items ≡ [] }
    {
        Marks {
            held: Vec::new(alloc),
        }
    }

    // Where the places of a partition are.
    fn position(&self, partition: &Partition) -> Option<usize>
        ensures { IfSome result (λ at. (at < vec_len self.now.held) × ((d : Places) → (slice_index_or self.now.held.items at d).partition ≡ partition.now)) }
    {
        self.held.iter().position(|one| one.partition.is(partition))
    }

    /// The last known place of a partition that is not behind a record.
    pub fn before(&self, partition: &Partition, number: u64) -> Mark
        ensures mark { (files : List Grown) → AreMarks files self.now → IsMark (bytes_of files partition.now) result }
        ensures before { result.record ≤ number }
    {
        match self.position(partition) {
            Some(at) => self.held[at].before(number),
            None => Mark::FRONT,
        }
    }

    fn add(&mut self, alloc: Global, partition: &Partition, mark: Mark) -> Result<(), AllocError>
        ensures { (files : List Grown) → AreMarks files self.old → IsMark (bytes_of files partition.now) mark → AreMarks files self.new }
    {
        let mut marks = Vec::new(alloc);
        marks.push(mark)?;
        self.held.push(Places {
            partition: *partition,
            marks,
        })?;
        Ok(())
    }

    /// Keeps a place of a partition that is behind those that are known. Without memory it doesn't: the next read passes over more.
    pub fn keep(&mut self, alloc: Global, partition: &Partition, mark: Mark)
        ensures { (files : List Grown) → AreMarks files self.old → IsMark (bytes_of files partition.now) mark → AreMarks files self.new }
    {
        match self.position(partition) {
            Some(at) => self.held[at].keep(mark),
            None => {
                let _ = self.add(alloc, partition, mark);
            }
        }
    }

    /// No place of a partition is known any more.
    pub fn forget(&mut self, partition: &Partition)
        ensures { (files : List Grown) → AreMarks files self.old → AreMarks files self.new }
    {
        if let Some(at) = self.position(partition) {
            self.held[at].marks.clear();
        }
    }
}

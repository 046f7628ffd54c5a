//! What the entries of a journal show: which records stand in published rows, and which tasks were asked of them.

use crate::asked::{Asked, Document};
use crate::wrong::Wrong;
use byte_fields::{Text, Texts};
use doc_value::TimeRange;
use meta_journal::{Act, Entry};
use source_checkpoint::{Part, Partition};
use std::alloc::Global;

/// The last task before a record was staged, and the last one that was asked of it since.
#[derive(Clone, Copy)]
pub struct Since {
    staged: u64,
    asked: u64,
}

/// In how many published rows a record stands.
#[derive(Clone, Copy)]
pub enum Seen {
    Nowhere,
    Once(Since),
    Twice,
}

#[derive(Clone, Copy)]
enum State {
    Staged,
    Published,
    Gone,
}

// Records that a row stands for.
#[derive(Drop)]
struct Range {
    part: Part,
    since: Since,
}

impl Range {
    fn holds(&self, partition: &Partition, offset: u64) -> bool {
        self.part.partition.is(partition) && self.part.from <= offset && offset < self.part.to
    }

    // The same records, of which the tasks up to one were asked.
    fn asked_up_to(&self, task: u64) -> Range {
        Range {
            part: self.part.copy(),
            since: Since {
                staged: self.since.staged,
                asked: self.since.asked.max(task),
            },
        }
    }
}

// A row of the journal.
#[derive(Drop)]
struct Row {
    number: u64,
    state: State,
    ranges: Vec<Range>,
}

// A delete of the journal. The first one has opstamp 1.
#[derive(Clone, Copy)]
struct Task {
    opstamp: u64,
    asked: Asked,
}

// Whether fields are the one that a clause without a field asks.
fn is_body(fields: &[Text]) -> bool {
    match fields {
        [field] => field.as_slice() == b"body".as_slice(),
        _ => false,
    }
}

/// How many entries of each kind there were.
#[derive(Clone, Copy)]
pub struct Kinds {
    pub merges: u64,
    pub deletes: u64,
    pub raises: u64,
    pub removals: u64,
}

/// What the entries of a journal show.
#[derive(Drop)]
pub struct Shown {
    alloc: Global,
    rows: Vec<Row>,
    tasks: Vec<Task>,
    pub kinds: Kinds,
}

impl Shown {
    /// What the first entries show.
    pub fn by(alloc: Global, entries: &[Entry]) -> Result<Shown, Wrong> {
        let mut shown = Shown {
            alloc,
            rows: Vec::new(alloc),
            tasks: Vec::new(alloc),
            kinds: Kinds {
                merges: 0,
                deletes: 0,
                raises: 0,
                removals: 0,
            },
        };
        for entry in entries {
            shown.take(&entry.act)?;
        }
        Ok(shown)
    }

    // The opstamp of the last delete, 0 before the first.
    fn last_task(&self) -> u64 {
        self.tasks.len() as u64
    }

    fn take(&mut self, act: &Act) -> Result<(), Wrong> {
        match act {
            Act::Stage {
                number,
                delta,
                facts: _,
            } => self.stage(*number, delta.as_slice()),
            Act::Publish { number } => self.set(*number, State::Published),
            Act::Replace { new, old, upto } => self.replace(*new, old.as_slice(), *upto),
            Act::Raise { number, upto } => self.raise(*number, *upto),
            Act::Task {
                opstamp,
                text,
                fields,
                times,
            } => self.add_task(*opstamp, text, fields, times),
            Act::MarkStaged { numbers } | Act::Remove { numbers } | Act::Retire { numbers } => {
                for number in numbers.as_slice() {
                    self.set(*number, State::Gone)?;
                }
                Ok(())
            }
            Act::Fence | Act::Create { .. } => Ok(()),
        }
    }

    // What the journal says of a row or a task that can't be.
    fn wrong(&self, thing: &str, number: u64) -> Result<(), Wrong> {
        let text = format!(in self.alloc; "{number}")?;
        Err(Wrong::seen(self.alloc, thing, text.as_str()))
    }

    fn stage(&mut self, number: u64, delta: &[Part]) -> Result<(), Wrong> {
        let last = self.last_task();
        let mut ranges = Vec::new(self.alloc);
        for part in delta {
            ranges.push(Range {
                part: part.copy(),
                since: Since {
                    staged: last,
                    asked: last,
                },
            })?;
        }
        self.rows.push(Row {
            number,
            state: State::Staged,
            ranges,
        })?;
        Ok(())
    }

    fn set(&mut self, number: u64, state: State) -> Result<(), Wrong> {
        for row in self.rows.iter_mut() {
            if row.number == number {
                row.state = state;
                return Ok(());
            }
        }
        self.wrong("no row", number)
    }

    // The ranges of these rows, of which the tasks up to one were asked.
    fn ranges_of(&self, numbers: &[u64], task: u64) -> Result<Vec<Range>, Wrong> {
        let mut ranges = Vec::new(self.alloc);
        for row in self.rows.iter() {
            if numbers.contains(&row.number) {
                for range in row.ranges.as_slice() {
                    ranges.push(range.asked_up_to(task))?;
                }
            }
        }
        Ok(ranges)
    }

    fn set_ranges(&mut self, number: u64, ranges: Vec<Range>) {
        for row in self.rows.iter_mut() {
            if row.number == number {
                row.ranges = ranges;
                return;
            }
        }
    }

    // The new row stands for the records of the old ones. A merge asks no task.
    fn replace(&mut self, new: u64, old: &[u64], upto: u64) -> Result<(), Wrong> {
        if upto == 0 {
            self.kinds.merges = self.kinds.merges.saturating_add(1);
        } else {
            self.kinds.removals = self.kinds.removals.saturating_add(1);
        }
        let ranges = self.ranges_of(old, upto)?;
        for number in old {
            self.set(*number, State::Gone)?;
        }
        self.set_ranges(new, ranges);
        self.set(new, State::Published)
    }

    fn raise(&mut self, number: u64, upto: u64) -> Result<(), Wrong> {
        self.kinds.raises = self.kinds.raises.saturating_add(1);
        let ranges = self.ranges_of(&[number], upto)?;
        self.set_ranges(number, ranges);
        Ok(())
    }

    // A task is of the field that a clause without a field asks, and has the next opstamp.
    fn add_task(
        &mut self,
        opstamp: u64,
        text: &Text,
        fields: &Texts,
        times: &TimeRange,
    ) -> Result<(), Wrong> {
        if !is_body(fields.as_slice()) || opstamp != self.last_task().saturating_add(1) {
            return self.wrong("no task", opstamp);
        }
        let Some(asked) = Asked::read(text.as_slice(), times) else {
            return self.wrong("not asked: task", opstamp);
        };
        self.kinds.deletes = self.kinds.deletes.saturating_add(1);
        self.tasks.push(Task { opstamp, asked })?;
        Ok(())
    }

    /// What the delete with this opstamp asks for.
    pub fn task(&self, opstamp: u64) -> Option<Asked> {
        for task in self.tasks.as_slice() {
            if task.opstamp == opstamp {
                return Some(task.asked);
            }
        }
        None
    }

    /// Whether a task removes a document: one behind its staging that was asked of it and finds it.
    pub fn removes(&self, since: Since, document: Document) -> bool {
        for task in self.tasks.as_slice() {
            let is_asked = since.staged < task.opstamp && task.opstamp <= since.asked;
            if is_asked && task.asked.finds(document) {
                return true;
            }
        }
        false
    }

    /// In how many ranges of published rows a record lies.
    pub fn seen(&self, partition: &Partition, offset: u64) -> Seen {
        let mut seen = Seen::Nowhere;
        for row in self.rows.as_slice() {
            if let State::Published = row.state {
                for range in row.ranges.as_slice() {
                    if range.holds(partition, offset) {
                        seen = match seen {
                            Seen::Nowhere => Seen::Once(range.since),
                            _ => Seen::Twice,
                        };
                    }
                }
            }
        }
        seen
    }

    /// Whether a record is shown once, and each task was asked of it or stood before it was staged.
    pub fn is_done(&self, partition: &Partition, offset: u64) -> bool {
        match self.seen(partition, offset) {
            Seen::Once(since) => since.asked == self.last_task(),
            _ => false,
        }
    }
}

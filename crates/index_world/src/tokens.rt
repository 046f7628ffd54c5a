//! What a caller of the world holds between its calls.

ghost use Rattle.std.specs.Prelude.{◌≡◌};
ghost use Rattle.source_checkpoint.specs.Checkpoints.{checkpoint_at};

use byte_fields::{List, Text, Texts};
use delete_tasks::Task;
use doc_value::TimeRange;
use meta_store::PlanRows;
use object_store::Key;
use source_checkpoint::{Checkpoint, Partition};

/// A row that was staged, whose file isn't uploaded yet.
#[derive(Drop)]
pub struct Staged {
    pub number: u64,
    pub opstamp: u64,
}

/// A row that was staged, with its file.
#[derive(Drop)]
pub struct Uploaded {
    pub number: u64,
}

/// The checkpoints, the last opstamp, and how many entries the state has taken in.
#[derive(Drop)]
pub struct Marks {
    pub checkpoints: Vec<Checkpoint>,
    pub opstamp: u64,
    pub revision: u64,
}

impl Marks {
    /// How far the partition was taken in, 0 for an unknown one.
    pub fn position(&self, partition: &Partition) -> u64
        ensures { result ≡ checkpoint_at self.now.checkpoints.items partition.now }
    {
        for checkpoint in self.checkpoints.as_slice() {
            if checkpoint.partition.is(partition) {
                return checkpoint.at;
            }
        }
        0
    }
}

/// Numbers that were staged, whose row is gone and whose file stands: of the files behind a key all up to `next`, where that is
/// given, and else all.
#[derive(Drop)]
pub struct SweepPage {
    pub numbers: Vec<u64>,
    pub next: Option<Key>,
}

/// The rows to work on, and the revision and the moment at which they were planned. `upto` is the last opstamp. For deletes the tasks
/// of which some may remove a document of its row.
#[derive(Drop)]
pub struct Plan {
    pub revision: u64,
    pub moment: u64,
    pub upto: u64,
    pub rows: PlanRows,
    pub tasks: List<Task>,
}

/// A delete as it is asked for: the text of its query, the paths of the fields that a clause without a field asks, and the times
/// within which documents are removed.
#[derive(Drop)]
pub struct DeleteAsk {
    pub text: Text,
    pub fields: Texts,
    pub times: TimeRange,
}

/// A task that was added: its opstamp, and how many entries the state has taken in with it.
#[derive(Drop)]
pub struct Receipt {
    pub opstamp: u64,
    pub revision: u64,
}

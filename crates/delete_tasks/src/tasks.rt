//! The delete tasks of an index.

ghost use Rattle.std.specs.Prelude.{◌≡◌, ◌+◌, ◌<◌, ◌++◌, ◌∷◌, [], length, slice_get, Some, OnOk, OnErr, IfOk};
ghost use Rattle.delete_tasks.specs.Ledger.{last_of, MayAdd};
ghost use Rattle.delete_tasks.specs.Adding.{IsRefusedAt};

use crate::task::Task;
use std::alloc::{AllocError, Global};
use std::marker::Model;
use std::mem;
use thiserror::Error;

/// How many tasks an index has at most.
pub const MOST_TASKS: usize = 10_000;

/// Tasks, each with an opstamp one more than that of the one before, from 1.
#[derive(Drop)]
pub struct Tasks {
    list: Vec<Task>,
}

/// Why a task may not be added.
#[derive(Debug, Drop, Error)]
pub enum TaskError {
    #[error("{count} tasks stand")]
    TooManyTasks { count: usize },
    #[error(transparent)]
    Memory(#[from(alloc)] AllocError),
}

impl Model for Tasks {
    ghost use Rattle.std.specs.Coded.{codes, Coded};
    ghost use Rattle.std.specs.Prelude.{◌-◌, List, vec_len, vec_capacity};
    ghost use Rattle.delete_tasks.specs.Ledger.{TaskList};
    ghost use Rattle.delete_tasks.specs.Stored.{sought_code, Mark};

    ghost Value = { TaskList };

    ghost coded = { let stored : Coded (List Mark) = Prim.hlevel codes in Prim.hlevel (codes, sought_code stored) };

    ghost view = { λ t. record { list = t.list.items; spare = vec_capacity t.list - vec_len t.list } };
}

fn last_opstamp_of(tasks: &[Task]) -> u64
    ensures { result ≡ last_of tasks.now }
{
    let count = tasks.len();
    if count == 0 {
        return 0;
    }
    let last = &tasks[count - 1];
    last.opstamp
}

impl Tasks {
    pub fn vacant(alloc: Global) -> Tasks
        ensures { result.list ≡ [] }
    {
        Tasks {
            list: Vec::new(alloc),
        }
    }

    pub fn len(&self) -> usize
        ensures { result ≡ length self.now.list }
    {
        self.list.len()
    }

    pub fn at(&self, index: usize) -> &Task
        requires { index < length self.now.list }
        ensures { slice_get self.now.list index ≡ Some result.now }
    {
        &self.list[index]
    }

    pub fn as_slice(&self) -> &[Task]
        ensures { result.now ≡ self.now.list }
    {
        self.list.as_slice()
    }

    /// The opstamp of the last task, 0 for none.
    pub fn last_opstamp(&self) -> u64
        ensures { result ≡ last_of self.now.list }
    {
        last_opstamp_of(self.list.as_slice())
    }

    /// Makes the room for one more task.
    pub fn reserve(&mut self) -> Result<(), AllocError>
        ensures same { self.new.list ≡ self.old.list }
        ensures room { OnOk result (0 < self.new.spare) }
    {
        self.list.reserve(1)
    }

    /// A task more at the end, for which there is room.
    pub fn add_reserved(&mut self, task: Task)
        requires { 0 < self.old.spare }
        ensures { self.new.list ≡ self.old.list ++ task ∷ [] }
    {
        self.list.push_reserved(task);
    }

    /// A task more at the end, with its opstamp.
    pub fn add(&mut self, task: Task) -> Result<u64, TaskError>
        requires { MayAdd task self.old.list }
        ensures ok { IfOk result (λ opstamp. (opstamp ≡ task.opstamp) × (self.new.list ≡ self.old.list ++ task ∷ [])) }
        ensures err { OnErr result (self.new.list ≡ self.old.list) }
        ensures refused { IsRefusedAt (length self.old.list) result }
    {
        if self.list.len() >= MOST_TASKS {
            mem::drop(task);
            return Err(TaskError::TooManyTasks {
                count: self.list.len(),
            });
        }
        let opstamp = task.opstamp;
        match self.list.push(task) {
            Ok(()) => Ok(opstamp),
            Err(refused) => Err(TaskError::Memory(AllocError::from(refused))),
        }
    }
}

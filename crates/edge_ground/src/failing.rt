//! Which calls of a disk fail, and how.

ghost use Rattle.std.specs.Prelude.{◌≡◌, ◌≤◌, IfOk, Ok};

use std::alloc::{AllocError, Global};
use std::cell::{RefCell, RefMut};
use std::rc::Rc;
use std::{io, mem};

/// The system's number of an error of input or output.
const INPUT_OUTPUT: i32 = 5;

/// How a call goes that a plan names.
#[derive(Clone, Copy)]
pub enum Manner {
    /// It fails, and nothing is done.
    Undone,
    /// It is done, and fails.
    Done,
    /// A read gives half of what it was to give, a write takes half of what it was given, and nothing fails.
    Short,
    /// It fails and each later one, and nothing is done.
    Stops,
}

/// The number of a call, from 1, and how it goes.
#[derive(Clone, Copy)]
pub struct Plan {
    pub call: u64,
    pub manner: Manner,
}

/// How a call goes that does something.
#[derive(Clone, Copy)]
pub enum Turn {
    Good,
    /// It is done, and fails.
    Failing,
    /// A read or a write does half.
    Short,
}

fn fault() -> io::Error {
    io::Error::from_raw_os_error(INPUT_OUTPUT)
}

impl Plan {
    // How the call with a number goes: an error where nothing is done.
    fn turn(&self, call: u64) -> io::Result<Turn> {
        match self.manner {
            Manner::Stops if call >= self.call => Err(fault()),
            Manner::Undone if call == self.call => Err(fault()),
            Manner::Done if call == self.call => Ok(Turn::Failing),
            Manner::Short if call == self.call => Ok(Turn::Short),
            _ => Ok(Turn::Good),
        }
    }

    // Whether each call fails behind so many.
    fn is_dead(&self, calls: u64) -> bool {
        match self.manner {
            Manner::Stops => calls >= self.call,
            Manner::Undone | Manner::Done | Manner::Short => false,
        }
    }
}

/// How the calls of a disk go, and what was seen of them.
#[derive(Drop)]
pub struct Course {
    alloc: Global,
    plan: Option<Plan>,
    calls: u64,
    has_struck: bool,
    changes: u64,
    /// A sync of a folder failed.
    has_lost: bool,
    keeps_files: bool,
    /// A name that no listing gives, as one that was made while the listing went on.
    overlooked: Option<String>,
}

/// A course that a disk has and the table looks at.
#[derive(Drop)]
pub struct SharedCourse {
    course: Rc<RefCell<Course>>,
}

impl SharedCourse {
    /// No call was made, and none is to fail.
    pub fn vacant(alloc: Global) -> Result<SharedCourse, AllocError> {
        let course = RefCell::new(Course {
            alloc,
            plan: None,
            calls: 0,
            has_struck: false,
            changes: 0,
            has_lost: false,
            keeps_files: false,
            overlooked: None,
        });
        Ok(SharedCourse {
            course: Rc::new(alloc, course)?,
        })
    }

    /// The same course once more.
    pub fn share(&self) -> Result<SharedCourse, AllocError> {
        Ok(SharedCourse {
            course: self.course.clone()?,
        })
    }

    /// It is taken for as long as what is given lasts.
    pub fn taken(&self) -> io::Result<RefMut<'_, Course>> {
        Ok(self.course.try_borrow_mut()?)
    }
}

impl Course {
    /// From here on calls fail by this plan. The count of calls begins anew.
    pub fn follow(&mut self, plan: Option<Plan>) {
        self.plan = plan;
        self.calls = 0;
        self.has_struck = false;
        self.has_lost = false;
    }

    /// From here on each removal of a file is refused, or none.
    pub fn keep_files(&mut self, keeps: bool) {
        self.keeps_files = keeps;
    }

    pub fn keeps_files(&self) -> bool {
        self.keeps_files
    }

    /// From here on no listing gives a name.
    pub fn overlook(&mut self, name: &str) -> Result<(), AllocError> {
        self.overlooked = Some(String::from_str(self.alloc, name)?);
        Ok(())
    }

    /// Whether listings give a name.
    pub fn shows(&self, name: &[u8]) -> bool {
        match &self.overlooked {
            Some(overlooked) => overlooked.as_bytes() != name,
            None => true,
        }
    }

    /// How many calls were made since the plan began.
    pub fn calls(&self) -> u64 {
        self.calls
    }

    /// Whether a call went as the plan says.
    pub fn has_struck(&self) -> bool {
        self.has_struck
    }

    /// Whether every call fails from here on.
    pub fn is_dead(&self) -> bool {
        match self.plan {
            Some(plan) => plan.is_dead(self.calls),
            None => false,
        }
    }

    /// Whether calls succeed from here on, and no sync of a folder failed.
    pub fn is_sound(&self) -> bool {
        !self.is_dead() && !self.keeps_files && !self.has_lost
    }

    /// Counts a call, and says how it goes: an error where nothing is done.
    pub fn turn(&mut self) -> io::Result<Turn> {
        self.calls = self.calls.saturating_add(1);
        let Some(plan) = self.plan else {
            return Ok(Turn::Good);
        };
        let turn = plan.turn(self.calls);
        match turn {
            Ok(Turn::Good) | Ok(Turn::Short) => {}
            _ => self.has_struck = true,
        }
        turn
    }

    /// A read or a write was cut short.
    pub fn strike(&mut self) {
        self.has_struck = true;
    }

    /// A name was given or taken, or a file was written to.
    pub fn change(&mut self) {
        self.changes = self.changes.saturating_add(1);
    }

    /// How often something changed.
    pub fn changes(&self) -> u64 {
        self.changes
    }

    /// A sync of a folder failed. Behind it a store makes no object more.
    pub fn lose_sync(&mut self) {
        self.has_lost = true;
    }
}

impl Turn {
    /// The answer of a call that was done.
    pub fn end<T: Drop>(self, answer: io::Result<T>) -> io::Result<T>
        ensures { IfOk result (λ value. answer ≡ Ok value) }
    {
        match self {
            Turn::Failing => {
                mem::drop(answer);
                Err(fault())
            }
            Turn::Good | Turn::Short => answer,
        }
    }

    /// How many bytes a read or a write does, of so many: half of them, rounded up, where it is short.
    pub fn share(self, len: usize) -> usize
        ensures { result ≤ len }
    {
        match self {
            Turn::Short => len - len / 2,
            Turn::Good | Turn::Failing => len,
        }
    }
}

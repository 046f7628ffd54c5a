//! What the rows of the edge are over: files and a disk in memory, whose calls fail as they are told and whose power goes.
#![tactic(auto)]

mod book;
mod failing;
mod ground;
mod memory_files;
mod memory_tree;
mod shared_disk;
mod wrong;

pub use book::{Book, left_beside};
pub use failing::{Course, Manner, Plan, SharedCourse};
pub use ground::{Ground, Object, Place, STORE};
pub use memory_files::MemoryFiles;
pub use memory_tree::{Left, MemoryTree};
pub use shared_disk::SharedDisk;
pub use wrong::Wrong;

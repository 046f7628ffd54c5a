//! Delete tasks by their opstamps, the documents that they remove, and the ledger of what was taken in and what
//! was removed from it.
#![tactic(auto)]

pub mod covering;
pub mod task;
pub mod tasks;

pub use covering::covers;
pub use task::Task;
pub use tasks::{TaskError, Tasks};

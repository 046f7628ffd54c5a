//! A merger and a delete worker: which rows they work on, and what each of their steps makes of them and answers.
#![tactic(auto)]

mod delete_worker;
mod dropping;
mod judging;
mod merger;
mod outcome;
mod step_laws;
mod work;
mod working;

pub use delete_worker::DeleteWorker;
pub use merger::Merger;
pub use outcome::{UpkeepOutcome, print_outcome};
pub use step_laws::{lost_is_exact, nothing_is_exact, others_leave_it};
pub use work::Aim;
pub use working::{WorkerEnd, delete_all, merge_all};

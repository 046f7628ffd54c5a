//! The collector: what each of its steps marks, deletes or removes, and what it answers.
#![tactic(auto)]

mod collecting;
mod collector;
mod keys;
mod outcome;
mod step_laws;
mod tries;

pub use collecting::{CollectorEnd, collect_all};
pub use collector::Collector;
pub use outcome::{CollectorOutcome, print_outcome};
pub use step_laws::{calm_steps_agree, nothing_is_exact, pages_make_no_difference, steps_alone};

//! The clock of the outside, and datetimes in texts and numbers.
#![tactic(auto)]

pub mod clock;
pub mod dates;

pub use clock::{Clock, LAST_MOMENT, MOMENT_END, ScriptClock};
pub use dates::{DateError, print_rfc3339, read_rfc3339, read_unix};

//! The lines of a schedule, and a node that takes one of them at a time.
#![tactic(auto)]

mod drive;
pub mod laws;
mod line;
mod logs;
mod out_line;
mod pieces;

pub use drive::{Accepts, DriveNode, MAX_CLIENTS, Unstarted};
pub use line::{Line, LineError, read_line};
pub use logs::Logs;
pub use out_line::OutLine;

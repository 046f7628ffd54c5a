//! The command that the words of the command line name.
#![tactic(auto)]

mod command;
mod parsing;
mod run;
mod words;

pub use command::Command;
pub use run::RunOptions;
pub use words::read_words;

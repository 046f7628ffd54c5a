//! The words of the command line.

ghost use Rattle.std.specs.Prelude.{◌≡◌, ◌≤◌, ◌↔◌, IfOk, IsTrue, length, map, string_bytes};
ghost use Rattle.command_words.specs.Words.{command_of};

use crate::command::{Command, named};
use crate::parsing::parsed;
use crate::run::read_run;
use std::alloc::{AllocError, Global};

// Whether the words are a name alone.
fn is_name_alone<'a>(alloc: Global, name: &'a str, words: &'a [String]) -> Result<bool, AllocError>
    ensures { IfOk result (λ alone. IsTrue alone ↔ (length words.now ≤ 1)) }
{
    let command = clap::Command::new(alloc, name);
    let matches = parsed(command, words)?;
    Ok(matches.is_some())
}

/// The command that the words name, if they name one. The first word names it, and only `run` has words behind its name.
pub fn read_words(alloc: Global, words: &[String]) -> Result<Option<Command>, AllocError>
    ensures { IfOk result (λ named. named ≡ command_of (map string_bytes words.now)) }
{
    let [first, ..] = words else {
        return Ok(None);
    };
    if first.as_str() == "run" {
        let options = read_run(alloc, words)?;
        return Ok(options.map(Command::Run));
    }
    let Some(command) = named(first.as_str()) else {
        return Ok(None);
    };
    if is_name_alone(alloc, first.as_str(), words)? {
        Ok(Some(command))
    } else {
        Ok(None)
    }
}

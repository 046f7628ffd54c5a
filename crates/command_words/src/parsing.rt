//! Words that a command of `clap` parses.

ghost use Rattle.std.specs.Prelude.{◌≡◌, IfOk};
ghost use Rattle.clap.specs.Simple.{app_of};
ghost use Rattle.command_words.specs.Parsing.{IsParse, has_dashes};

use clap::ArgMatches;
use clap::error::ErrorKind;
use std::alloc::AllocError;

// Whether a word behind the first is `--`.
fn has_dashes(words: &[String]) -> bool
    ensures { result ≡ has_dashes words.now }
{
    words.iter().skip(1).any(|word| word.as_str() == "--")
}

/// What a command of `clap` makes of the words, if it takes them. A word `--` behind the first is refused before the parse.
pub(crate) fn parsed<'a>(
    command: clap::Command<'a>,
    words: &'a [String],
) -> Result<Option<ArgMatches<'a>>, AllocError>
    ensures { IfOk result (IsParse (app_of command.entry) words.now) }
{
    if has_dashes(words) {
        return Ok(None);
    }
    match command.try_get_matches_from(words) {
        Ok(matches) => Ok(Some(matches)),
        Err(refusal) => match refusal.kind() {
            ErrorKind::OutOfMemory => Err(AllocError),
            _ => Ok(None),
        },
    }
}

//! The commands of the program.

ghost use Rattle.std.specs.Prelude.{◌≡◌};
ghost use Rattle.command_words.specs.Words.{command_named};

use crate::run::RunOptions;

/// The commands of the program.
#[derive(Clone, Copy, Debug, Drop, PartialEq, Eq)]
pub enum Command {
    Create,
    Drive,
    Run(RunOptions),
    Splits,
    Describe,
}

/// The command of this name that has no options, if there is one.
pub(crate) fn named(word: &str) -> Option<Command>
    ensures { result ≡ command_named word.now }
{
    match word {
        "create" => Some(Command::Create),
        "drive" => Some(Command::Drive),
        "splits" => Some(Command::Splits),
        "describe" => Some(Command::Describe),
        _ => None,
    }
}

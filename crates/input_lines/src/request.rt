//! A line of a run's input, and how it is read.

ghost use Rattle.std.specs.Prelude.{◌≡◌, MatchResult};
ghost use Rattle.byte_fields.specs.ClientName.{IsClientName};
ghost use Rattle.input_lines.specs.Request.{IsAsked, IsBadWhere};

use crate::pieces::first_word;
use byte_fields::{Client, Text};
use run_plan::Request;
use std::alloc::{AllocError, Global};
use std::str;
use thiserror::Error;

/// Why bytes are no request.
#[derive(Debug, Drop, Error)]
pub enum LineError {
    #[error("out of memory")]
    Memory(AllocError),
    #[error("no request of a run")]
    BadLine,
}

impl From<AllocError> for LineError {
    ghost use Rattle.std.specs.Prelude.{◌≡◌};
    ghost use Rattle.input_lines.specs.declared.request.LineError.TheVariants.{Memory};

    ghost from_gives = { λ a e. e ≡ Memory a };

    fn from(refused: AllocError) -> Self {
        LineError::Memory(refused)
    }
}

fn client_of(word: &[u8]) -> Result<Client, LineError>
    ensures { MatchResult result (λ client. (client ≡ word.now) × IsClientName word.now) (λ e. IsBadWhere (¬ (IsClientName word.now)) e) }
{
    let Ok(text) = str::from_utf8(word) else {
        return Err(LineError::BadLine);
    };
    Client::from_text(text).ok_or(LineError::BadLine)
}

/// The request that these bytes spell, without a line feed: a client's name, a blank, and the rest as it stands, also none.
pub fn read_request(alloc: Global, bytes: &[u8]) -> Result<Request, LineError>
    ensures { IsAsked bytes.now result }
{
    let (name, text) = first_word(bytes);
    let client = client_of(name)?;
    let Some(text) = text else {
        return Err(LineError::BadLine);
    };
    let text = Text::from_slice(alloc, text)?;
    Ok(Request { client, text })
}

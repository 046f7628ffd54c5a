//! How many bytes a store gave.

ghost use Rattle.std.specs.Prelude.{◌≡◌};
ghost use Rattle.object_store.specs.Store.{given_more};

use crate::{GetError, Piece};

/// The count behind a read. It stands still at its type's end.
pub fn given_behind(count: u64, answer: &Result<Piece, GetError>) -> u64
    ensures { result ≡ given_more answer.now count }
{
    match answer {
        Ok(piece) => count.saturating_add(piece.bytes.len() as u64),
        Err(_) => count,
    }
}

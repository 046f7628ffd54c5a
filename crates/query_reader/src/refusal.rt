// Why a text is no query over a schema.

ghost use Rattle.std.specs.Prelude.{◌≡◌};
ghost use Rattle.query_reader.specs.declared.refusal.QueryError.TheVariants.{Memory as OutOfMemory};

use doc_value::Text;
use std::alloc::{AllocError, AllocFailed};
use thiserror::Error;

/// Why a text is no query. Places are bytes of the text. Faults of syntax come first, the first of them from the
/// left; then the refusals by the schema, from the left.
#[derive(Debug, Drop, Error)]
pub enum QueryError {
    /// The length of the longest prefix of the text that some query has as its prefix too.
    #[error("no query goes on at {at}")]
    Syntax { at: usize },
    /// No field has this path.
    #[error("no such field")]
    UnknownField { name: Text },
    /// The value is none of the field's.
    #[error("bad value at {at}")]
    BadValue { at: usize },
    /// A clause without a field, and no default fields.
    #[error("no default field for the clause at {at}")]
    NoDefaultField { at: usize },
    /// A quoted text of several tokens on a field without positions.
    #[error("no positions for the text at {at}")]
    NoPositions { at: usize },
    /// The 65th bracket, `NOT` or sign one in another.
    #[error("too deep at {at}")]
    TooDeep { at: usize },
    /// The field isn't indexed.
    #[error("not indexed at {at}")]
    NotIndexed { at: usize },
    #[error("out of memory")]
    Memory(AllocError),
}

impl From<AllocError> for QueryError {
    ghost from_gives = { λ e r. r ≡ OutOfMemory e };

    fn from(e: AllocError) -> QueryError {
        QueryError::Memory(e)
    }
}

impl<T: Drop> From<AllocFailed<T>> for QueryError {
    ghost use Rattle.std.specs.Prelude.{alloc_error};

    ghost from_gives = { λ _ r. r ≡ OutOfMemory alloc_error };

    fn from(_e: AllocFailed<T>) -> QueryError {
        QueryError::Memory(AllocError)
    }
}

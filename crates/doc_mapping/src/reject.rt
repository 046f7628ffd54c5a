ghost use Rattle.std.specs.Prelude.{◌≡◌};
ghost use Rattle.doc_mapping.specs.declared.reject.Reject.TheVariants as refusals;

use doc_value::Text;
use std::alloc::AllocError;
use thiserror::Error;

/// Why a record has no document. Paths are the names on the way to a value, with dots between.
#[derive(Debug, Drop, Error)]
pub enum Reject {
    #[error("not JSON")]
    NotJson,
    #[error("not an object")]
    NotObject,
    #[error("a key that the schema does not have")]
    Unmapped { path: Text },
    #[error("a value of the wrong type")]
    WrongType { path: Text },
    #[error("no date")]
    BadDate { path: Text },
    #[error("no timestamp")]
    MissingTimestamp,
    #[error("{size} bytes are too many")]
    TooLong { size: usize },
    #[error("nested too deep")]
    TooDeep,
    /// How many values stand at paths that no field has, where the schema has a field for them.
    #[error("{count} values at paths that no field has are too many")]
    TooManyLeaves { count: usize },
    #[error("out of memory")]
    Memory(AllocError),
}

impl From<AllocError> for Reject {
    ghost from_gives = { λ x e. e ≡ refusals.Memory x };

    fn from(error: AllocError) -> Reject {
        Reject::Memory(error)
    }
}

//! Why documents make no split.

use std::alloc::{AllocError, AllocFailed};
use thiserror::Error;

/// Why documents make no split.
#[derive(Debug, Drop, Error)]
pub enum BuildError {
    #[error("no memory for the split")]
    Memory(AllocError),
    /// There are more than 16,777,216 documents: so many.
    #[error("{count} documents are too many for a split")]
    TooManyDocs { count: u64 },
    /// The documents weigh more than 268,435,456 in all: so much.
    #[error("documents of weight {weight} are too large for a split")]
    TooLarge { weight: u64 },
}

impl From<AllocError> for BuildError {
    ghost use Rattle.std.specs.Prelude.{◌≡◌};
    ghost use Rattle.split_build.specs.declared.build_error.BuildError.TheVariants.{Memory};

    ghost from_gives = { λ a e. e ≡ Memory a };

    fn from(refused: AllocError) -> Self {
        BuildError::Memory(refused)
    }
}

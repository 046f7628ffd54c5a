//! Why bytes are no split file, or do not hold a part of one.

use std::alloc::{AllocError, AllocFailed};
use thiserror::Error;

/// Why bytes are no split file, or do not hold a part of one.
#[derive(Debug, Drop, Error)]
pub enum SplitError {
    #[error("no memory for the split")]
    Memory(AllocError),
    /// The bytes don't begin with `QWS`, or don't end with `QWF` and the format's number.
    #[error("the bytes are not those of a split file")]
    BadMagic,
    /// The bytes of the file that are needed from this place on are not there.
    #[error("the file's bytes from {at} on are not there")]
    Truncated { at: u64 },
    /// A section is not of its form: 1 documents, 2 dictionary, 3 postings, 4 positions, 5 columns, 6 the footer.
    #[error("section {number} is not of its form")]
    BadSection { number: u8 },
    /// The format is not 2.
    #[error("format {number} is not known")]
    BadVersion { number: u8 },
}

impl From<AllocError> for SplitError {
    ghost use Rattle.std.specs.Prelude.{◌≡◌};
    ghost use Rattle.split_bundle.specs.declared.split_error.SplitError.TheVariants.{Memory};

    ghost from_gives = { λ a e. e ≡ Memory a };

    fn from(refused: AllocError) -> Self {
        SplitError::Memory(refused)
    }
}

impl<T: Drop> From<AllocFailed<T>> for SplitError {
    ghost use Rattle.std.specs.Prelude.{◌≡◌, alloc_error};
    ghost use Rattle.split_bundle.specs.declared.split_error.SplitError.TheVariants.{Memory};

    ghost from_gives = { λ _ e. e ≡ Memory alloc_error };

    fn from(refused: AllocFailed<T>) -> Self {
        SplitError::Memory(AllocError::from(refused))
    }
}

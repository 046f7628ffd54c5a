//! Why a split gives no answer.

use split_bundle::SplitError;
use std::alloc::{AllocError, AllocFailed};
use thiserror::Error;

/// Why a split gives no answer.
#[derive(Debug, Drop, Error)]
pub enum LeafError {
    #[error("no memory for the answer of a split")]
    Memory(AllocError),
    /// A section is not of its form: 1 documents, 2 dictionary, 3 postings, 4 positions, 5 columns, 6 the footer.
    #[error("section {section} is not of its form")]
    Corrupt { section: u8 },
    /// A part of the file is asked for that starts there, and no piece has it.
    #[error("the file's bytes from {at} on are not there")]
    Missing { at: u64 },
}

impl From<AllocError> for LeafError {
    ghost use Rattle.std.specs.Prelude.{◌≡◌};
    ghost use Rattle.doc_sets.specs.declared.leaf_error.LeafError.TheVariants.{Memory};

    ghost from_gives = { λ a e. e ≡ Memory a };

    fn from(refused: AllocError) -> Self {
        LeafError::Memory(refused)
    }
}

impl<T: Drop> From<AllocFailed<T>> for LeafError {
    ghost use Rattle.std.specs.Prelude.{◌≡◌, alloc_error};
    ghost use Rattle.doc_sets.specs.declared.leaf_error.LeafError.TheVariants.{Memory};

    ghost from_gives = { λ _ e. e ≡ Memory alloc_error };

    fn from(refused: AllocFailed<T>) -> Self {
        LeafError::Memory(AllocError::from(refused))
    }
}

impl From<SplitError> for LeafError {
    ghost use Rattle.std.specs.Prelude.{◌≡◌};
    ghost use Rattle.doc_sets.specs.Faults.{fault_of};

    ghost from_gives = { λ fault e. e ≡ fault_of fault };

    fn from(fault: SplitError) -> Self {
        match fault {
            SplitError::Memory(refused) => LeafError::Memory(refused),
            SplitError::BadMagic => LeafError::Corrupt { section: FOOTER },
            SplitError::Truncated { at } => LeafError::Missing { at },
            SplitError::BadSection { number } => LeafError::Corrupt { section: number },
            SplitError::BadVersion { number: _ } => LeafError::Corrupt { section: FOOTER },
        }
    }
}

pub(crate) const DICTIONARY: u8 = 2;

pub(crate) const POSTINGS: u8 = 3;

pub(crate) const POSITIONS: u8 = 4;

pub(crate) const COLUMNS: u8 = 5;

const FOOTER: u8 = 6;

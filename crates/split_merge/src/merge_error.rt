//! Why splits are not merged.

use split_build::BuildError;
use split_bundle::SplitError;
use std::alloc::AllocError;
use thiserror::Error;

/// Why splits are not merged.
#[derive(Debug, Drop, Error)]
pub enum MergeError {
    #[error("no memory for the merged split")]
    Memory(AllocError),
    /// The view with this number is of no split of documents.
    #[error("split {view} is not of its form")]
    Split { view: usize, error: SplitError },
    /// The documents that are kept make no split: they are too many, or weigh too much.
    #[error("the kept documents make no split")]
    Build(BuildError),
}

impl From<AllocError> for MergeError {
    ghost use Rattle.std.specs.Prelude.{◌≡◌};
    ghost use Rattle.split_merge.specs.declared.merge_error.MergeError.TheVariants.{Memory};

    ghost from_gives = { λ a e. e ≡ Memory a };

    fn from(refused: AllocError) -> Self {
        MergeError::Memory(refused)
    }
}

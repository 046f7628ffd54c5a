//! Why splits give no answer together.

use std::alloc::AllocError;
use thiserror::Error;

/// Why splits give no answer together. `place` is that of a split's view in the list of them.
#[derive(Debug, Drop, Error)]
pub(crate) enum JoinFault {
    #[error("no memory for the answers of splits")]
    Memory(AllocError),
    /// A part of the file is asked for that starts there, and no piece has it.
    #[error("the bytes from {at} on of the split at {place} are not there")]
    Missing { place: usize, at: u64 },
    /// A section is not of its form.
    #[error("section {section} of the split at {place} is not of its form")]
    Corrupt { place: usize, section: u8 },
    /// 2^62 documents match, or more.
    #[error("too many documents match")]
    TooMany,
}

impl From<AllocError> for JoinFault {
    ghost use Rattle.std.specs.Prelude.{◌≡◌};
    ghost use Rattle.root_search.specs.declared.join_fault.JoinFault.TheVariants.{Memory};

    ghost from_gives = { λ a e. e ≡ Memory a };

    fn from(refused: AllocError) -> Self {
        JoinFault::Memory(refused)
    }
}

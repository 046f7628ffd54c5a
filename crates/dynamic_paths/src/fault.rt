ghost use Rattle.std.specs.Prelude.{◌≡◌};
ghost use Rattle.dynamic_paths.specs.declared.fault.LeafFault.TheVariants as faults;

use std::alloc::AllocError;
use thiserror::Error;

/// Why the leaves of a record are not given.
#[derive(Debug, Drop, Error)]
pub enum LeafFault {
    /// How many there are, also those whose leaf text would be dropped.
    #[error("{count} values at paths that no field has are too many")]
    TooManyLeaves { count: usize },
    #[error("out of memory")]
    Memory(AllocError),
}

impl From<AllocError> for LeafFault {
    ghost from_gives = { λ x e. e ≡ faults.Memory x };

    fn from(error: AllocError) -> LeafFault {
        LeafFault::Memory(error)
    }
}

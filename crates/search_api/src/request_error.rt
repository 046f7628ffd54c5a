ghost use Rattle.std.specs.Prelude.{◌≡◌};
ghost use Rattle.search_api.specs.declared.request_error.RequestError.TheVariants as errors;

use doc_value::Text;
use std::alloc::AllocError;
use thiserror::Error;

/// Why a text is no request.
#[derive(Debug, Drop, Error)]
pub enum RequestError {
    #[error("not JSON")]
    NotJson,
    /// A key that doesn't stand at its place.
    #[error("an unknown key")]
    UnknownKey { name: Text },
    /// A value that isn't of its key's kind; of an aggregation's own, the name is the aggregation's.
    #[error("a value of the wrong kind")]
    WrongKind { name: Text },
    /// `start_offset` and `max_hits` together are more than 10,000.
    #[error("{wanted} hits are too many")]
    TooManyHits { wanted: u64 },
    #[error("a missing key")]
    MissingKey { name: Text },
    #[error("out of memory")]
    Memory(AllocError),
}

impl From<AllocError> for RequestError {
    ghost from_gives = { λ x e. e ≡ errors.Memory x };

    fn from(error: AllocError) -> RequestError {
        RequestError::Memory(error)
    }
}

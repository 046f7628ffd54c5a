ghost use Rattle.std.specs.Prelude.{◌≡◌};

use crate::FieldError;
use thiserror::Error;

/// The bytes from this place on are not of the form that was to be read.
#[derive(Clone, Copy, Debug, Error)]
#[error("the bytes are corrupt at {at}")]
pub struct Corrupt {
    pub at: usize,
}

impl From<FieldError> for Corrupt {
    ghost use Rattle.byte_fields.specs.Places.{place_of};

    ghost from_gives = { λ error corrupt. corrupt.at ≡ place_of error };

    fn from(error: FieldError) -> Corrupt {
        match error {
            FieldError::Short { at }
            | FieldError::NotMinimal { at }
            | FieldError::TooLarge { at }
            | FieldError::NotText { at }
            | FieldError::BadFlag { at }
            | FieldError::BadOrder { at } => Corrupt { at },
        }
    }
}

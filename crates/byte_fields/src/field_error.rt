use thiserror::Error;

/// Why a field could not be read. `at` is where the field begins, and in `Short` where the bytes end.
#[derive(Clone, Copy, Debug, PartialEq, Eq, Error)]
pub enum FieldError {
    /// The bytes end inside the field; `at` is their length.
    #[error("the bytes end at {at} inside a field")]
    Short { at: usize },
    /// A number is not in its shortest spelling.
    #[error("the number at {at} is not in its shortest spelling")]
    NotMinimal { at: usize },
    /// A number is past 64 bits, or past its own limit.
    #[error("the number at {at} is too large")]
    TooLarge { at: usize },
    /// A text is not UTF-8, or is no name of its kind.
    #[error("the text at {at} is not one")]
    NotText { at: usize },
    /// A flag is neither 0 nor 1.
    #[error("the flag at {at} is neither 0 nor 1")]
    BadFlag { at: usize },
    /// A member of a rising list does not rise, or a list that may not be vacant is.
    #[error("the member at {at} does not rise")]
    BadOrder { at: usize },
}

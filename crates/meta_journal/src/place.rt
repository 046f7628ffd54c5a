//! What is known of the number behind the entries that were taken in.

ghost use Rattle.std.specs.Prelude.{◌≡◌};
ghost use Rattle.meta_journal.specs.Journal.{place_refused, place_read, place_appended};

use crate::{Entry, JournalError};

/// What is known of the number behind the entries that were taken in.
#[derive(Clone, Copy)]
pub enum JournalPlace {
    /// Nothing was tried there.
    Sure,
    /// A create there failed and may still take effect, or what stands there was not read.
    Unsure,
    /// An entry stands there, and was given to the caller.
    Given,
}

fn place_refused(place: JournalPlace, refused: &JournalError) -> JournalPlace
    ensures { result ≡ place_refused place refused.now }
{
    match refused {
        JournalError::StoreFault { .. } => JournalPlace::Unsure,
        JournalError::Adopted { .. } => JournalPlace::Given,
        JournalError::Memory(_) => place,
        JournalError::Foreign { .. } => place,
        JournalError::Corrupt { .. } => place,
        JournalError::Full => place,
        JournalError::Missing { .. } => place,
    }
}

/// The place behind an append.
pub fn place_appended(answer: &Result<u64, JournalError>) -> JournalPlace
    ensures { result ≡ place_appended answer.now }
{
    match answer {
        Ok(_) => JournalPlace::Sure,
        Err(refused) => place_refused(JournalPlace::Sure, refused),
    }
}

/// The place behind a read of the entry that stands there.
pub fn place_read(place: JournalPlace, answer: &Result<Entry, JournalError>) -> JournalPlace
    ensures { result ≡ place_read place answer.now }
{
    match answer {
        Ok(_) => JournalPlace::Given,
        Err(refused) => place_refused(place, refused),
    }
}

//! Parts of a file by their places.

ghost use Rattle.std.specs.Prelude.{◌≡◌, ℕ, ◌+◌, ◌^◌, ◌<◌, ◌≤◌};

use byte_fields::List;

/// Bytes of a file: where they start, and how many they are.
#[derive(Clone, Copy)]
pub struct FileRange {
    pub start: u64,
    pub len: u64,
    ghost within: { start + len < 2 ^ 64 },
}

/// Ranges of a file.
pub type Ranges = List<FileRange>;

impl FileRange {
    ghost use Rattle.std.specs.Prelude.{◌-◌, max};

    // The part that starts there, as far as a file can go.
    pub(crate) fn at(start: u64, len: u64) -> FileRange
        ensures start { result.start ≡ start }
        ensures len { start + len < 2 ^ 64 → result.len ≡ len }
    {
        FileRange {
            start,
            len: len.min(u64::MAX - start),
        }
    }

    pub(crate) fn end(&self) -> u64
        ensures { result ≡ self.now.start + self.now.len }
    {
        self.start + self.len
    }

    // From the start of this range to the last end of both.
    pub(crate) fn joined(&self, next: &FileRange) -> FileRange
        ensures start { result.start ≡ self.now.start }
        ensures end { result.start + result.len ≡ max (self.now.start + self.now.len) (next.now.start + next.now.len) }
    {
        FileRange {
            start: self.start,
            len: self.end().max(next.end()) - self.start,
        }
    }
}

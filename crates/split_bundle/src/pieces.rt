//! Pieces of a split file, and the parts of its sections in them.

ghost use Rattle.std.specs.Prelude.{◌≡◌, ◌<◌, ◌+◌, ◌^◌};
ghost use Rattle.split_bundle.specs.Reading.{Gives, total};
ghost use Rattle.split_bundle.specs.Pieces.{Lent, held_in, part_in, section_part, size_of, start_of, number_of};

use crate::SplitError;
use crate::layout::Sections;
use byte_fields::List;

/// Bytes of a file, and the place in the file where they start.
#[derive(Clone, Copy)]
pub struct FilePiece<'a> {
    pub start: u64,
    pub bytes: &'a [u8],
}

/// Pieces of a file.
pub type Pieces<'a> = List<FilePiece<'a>>;

/// The five sections of a split file.
#[derive(Clone, Copy)]
pub enum Section {
    Documents,
    Dictionary,
    Postings,
    Positions,
    Columns,
}

impl Section {
    /// Its number: 1 documents, 2 dictionary, 3 postings, 4 positions, 5 columns.
    pub fn number(self) -> u8
        ensures { result ≡ number_of self }
    {
        match self {
            Section::Documents => 1,
            Section::Dictionary => 2,
            Section::Postings => 3,
            Section::Positions => 4,
            Section::Columns => 5,
        }
    }

    // How many bytes it has.
    pub(crate) fn size(self, sections: &Sections) -> u64
        ensures { result ≡ size_of self sections.now }
    {
        match self {
            Section::Documents => sections.documents,
            Section::Dictionary => sections.dictionary,
            Section::Postings => sections.postings,
            Section::Positions => sections.positions,
            Section::Columns => sections.columns,
        }
    }

    // Where it starts in the file.
    pub(crate) fn start(self, sections: &Sections) -> u64
        requires { 4 + total sections.now < 2 ^ 64 }
        ensures { result ≡ start_of self sections.now }
    {
        let documents = 4;
        let dictionary = documents + sections.documents;
        let postings = dictionary + sections.dictionary;
        let positions = postings + sections.postings;
        match self {
            Section::Documents => documents,
            Section::Dictionary => dictionary,
            Section::Postings => postings,
            Section::Positions => positions,
            Section::Columns => positions + sections.positions,
        }
    }
}

impl<'a> FilePiece<'a> {
    // So many bytes from a place of the file on, if the piece has them.
    fn part(&self, start: u64, len: u64) -> Option<&'a [u8]>
        ensures { Lent result (part_in self.now start len) }
    {
        if start < self.start {
            return None;
        }
        let at = start - self.start;
        let size = self.bytes.len() as u64;
        if size < at {
            return None;
        }
        if size - at < len {
            return None;
        }
        Some(&self.bytes[at as usize..(at + len) as usize])
    }
}

// So many bytes from a place of the file on, from the first piece that has them.
fn held<'a>(pieces: &[FilePiece<'a>], start: u64, len: u64) -> Option<&'a [u8]>
    ensures { Lent result (held_in pieces.now start len) }
{
    for piece in pieces {
        match piece.part(start, len) {
            Some(bytes) => return Some(bytes),
            None => {}
        }
    }
    None
}

// So many bytes of a section from a place in it on.
#[tactic(auto, unfolding(crate::specs::Pieces::section_part))]
pub(crate) fn section_part<'a>(
    pieces: &[FilePiece<'a>],
    sections: &Sections,
    section: Section,
    from: u64,
    len: u64,
) -> Result<&'a [u8], SplitError>
    requires { 4 + total sections.now < 2 ^ 64 }
    ensures exact { Gives (λ b. b.now) result (section_part section sections.now pieces.now from len) }
{
    let size = section.size(sections);
    if size < from {
        return Err(SplitError::BadSection {
            number: section.number(),
        });
    }
    if size - from < len {
        return Err(SplitError::BadSection {
            number: section.number(),
        });
    }
    let at = section.start(sections) + from;
    match held(pieces, at, len) {
        Some(bytes) => Ok(bytes),
        None => Err(SplitError::Truncated { at }),
    }
}

ghost use Rattle.std.specs.Prelude.{◌≤◌, length};

use byte_fields::Corrupt;

/// A walk over the documents of a list, in their order, and over the positions of each.
#[derive(Clone, Copy)]
pub struct Cursor<'a> {
    pub(crate) postings: &'a [u8],
    pub(crate) positions: &'a [u8],
    pub(crate) counted: bool,
    // Why the list cannot be read.
    pub(crate) fault: Option<Corrupt>,
    // How many documents are to come, and how many of the block were passed.
    pub(crate) left: u32,
    pub(crate) passed: u32,
    // Where the head of the block, the block and the next document stand.
    pub(crate) head: usize,
    pub(crate) block: usize,
    pub(crate) at: usize,
    // The document before the block, and the one passed last.
    pub(crate) block_before: u32,
    pub(crate) before: u32,
    // The document given last, if one was given.
    pub(crate) given: Option<u32>,
    // Where the positions of the block start.
    pub(crate) positions_block: u64,
    pub(crate) place: Place,
    ghost head_within: { head ≤ length postings.now },
    ghost block_within: { block ≤ length postings.now },
    ghost at_within: { at ≤ length postings.now },
    ghost passed_within: { passed ≤ 128 },
}

/// Where the next position of a document is found.
#[derive(Clone, Copy)]
pub(crate) struct Place {
    /// A place in the positions, and how many of them to pass over from there.
    pub(crate) at: u64,
    pub(crate) skipped: u64,
    /// How many positions of the document are to come, and the one given last.
    pub(crate) count: u64,
    pub(crate) last: u64,
}

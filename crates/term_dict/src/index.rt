ghost use Rattle.std.specs.Prelude.{◌≡◌, ◌≤◌, ◌<◌, ◌+◌, ◌++◌, [], ◌∷◌, length, OnOk, OnErr, Some, slice_get, IsTrue, ◌↔◌, ℕ, true, false};
ghost use Rattle.term_dict.specs.Keys.{order, is_below};
ghost use Rattle.term_dict.specs.Bounds.{is_in_front, AreInFront};
ghost use Rattle.std.specs.Ordering.{is_eq};

use byte_fields::Bytes;
use std::alloc::{AllocError, Global};
use std::cmp::Ordering;
use std::marker::Model;

/// The first key of a block, and where the block starts in the area of blocks.
#[derive(Drop)]
pub struct BlockStart {
    pub first: Bytes,
    pub start: u64,
}

/// The starts of the blocks, which contracts see as a list.
#[derive(Drop)]
pub struct BlockIndex {
    blocks: Vec<BlockStart>,
}

impl Model for BlockIndex {
    ghost use Rattle.std.specs.Prelude.{List};
    ghost use Rattle.term_dict.specs.declared.index.BlockStart.{BlockStart};

    ghost Value = { List BlockStart };

    ghost view = { λ i. i.blocks.items };
}

impl BlockIndex {
    ghost use Rattle.term_dict.specs.declared.index.BlockStart.{BlockStart};

    /// No blocks.
    pub fn vacant(alloc: Global) -> BlockIndex
        ensures { result ≡ [] }
    {
        BlockIndex {
            blocks: Vec::new(alloc),
        }
    }

    pub fn len(&self) -> usize
        ensures { result ≡ length self.now }
    {
        self.blocks.len()
    }

    pub fn is_empty(&self) -> bool
        ensures { IsTrue result ↔ (self.now ≡ []) }
    {
        self.blocks.is_empty()
    }

    pub fn at(&self, number: usize) -> &BlockStart
        requires { number < length self.now }
        ensures { slice_get self.now number ≡ Some result.now }
    {
        &self.blocks[number]
    }

    /// Adds a block at the end. An `Err` changes nothing.
    pub fn push(&mut self, block: BlockStart) -> Result<(), AllocError>
        ensures ok { OnOk result (self.new ≡ self.old ++ block ∷ []) }
        ensures err { OnErr result (self.new ≡ self.old) }
    {
        self.blocks.push(block)?;
        Ok(())
    }

    /// How many blocks stand up to a key: where the first keys rise, it can be in the last of these alone.
    pub fn count_up_to(&self, key: &[u8]) -> usize
        ensures within { result ≤ length self.now }
        ensures up_to { (block : BlockStart) (number : ℕ) → number + 1 ≡ result → slice_get self.now number ≡ Some block
            → is_below key.now block.first ≡ false }
        ensures behind { (block : BlockStart) → slice_get self.now result ≡ Some block → is_below key.now block.first ≡ true }
    {
        self.count_before(Edge::UpTo(key))
    }

    // How many blocks stand in front of an edge, found by halves.
    pub(crate) fn count_before(&self, edge: Edge) -> usize
        ensures { AreInFront self.now (is_in_front edge.entry) result }
    {
        let mut low = 0;
        let mut high = self.len();
        while low < high {
            let middle = low + (high - low) / 2;
            if self.is_before(&edge, middle) {
                low = middle + 1;
            } else {
                high = middle;
            }
        }
        low
    }

    // Whether a block stands in front of an edge.
    fn is_before(&self, edge: &Edge, number: usize) -> bool
        requires { number < length self.now }
        ensures { (block : BlockStart) → slice_get self.now number ≡ Some block → result ≡ is_in_front edge.now block.first }
    {
        edge.has_before(self.at(number).first.as_slice())
    }
}

/// Which blocks stand in front, by their first keys.
#[derive(Clone, Copy)]
pub(crate) enum Edge<'a> {
    /// Those that begin up to a key.
    UpTo(&'a [u8]),
    /// Those that begin below the last key with a prefix.
    Prefix(&'a [u8]),
}

impl Edge<'_> {
    fn has_before(&self, first: &[u8]) -> bool
        ensures { result ≡ is_in_front self.now first.now }
    {
        match self {
            Edge::UpTo(key) => !is_below(key, first),
            Edge::Prefix(prefix) => is_below(first, prefix) || first.starts_with(prefix),
        }
    }
}

// Whether a key stands before another one.
pub(crate) fn is_below(key: &[u8], other: &[u8]) -> bool
    ensures { result ≡ is_below key.now other.now }
{
    key.cmp(other) == Ordering::Less
}

// Whether two keys are the same.
pub(crate) fn is_same(key: &[u8], other: &[u8]) -> bool
    ensures { result ≡ is_eq (order key.now other.now) }
{
    key.cmp(other) == Ordering::Equal
}

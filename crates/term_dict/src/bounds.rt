ghost use Rattle.std.specs.Prelude.{◌≡◌, ◌<◌, ◌≤◌, ◌+◌, ◌*◌, ◌-◌, take, ◌||◌, List, ℕ, length, filter, nat_eq, IfSome, IsOkAnd};
ghost use Rattle.std.specs.List.{starts_with};
ghost use Rattle.term_dict.specs.Keys.{is_below};
ghost use Rattle.term_dict.specs.Terms.{IsDict, area, lookup};
ghost use Rattle.term_dict.specs.Chosen.{start_at, AreUpTo};
ghost use Rattle.term_dict.specs.Bounds.{IsBlockOf, AreBlocks, place_in, lookup_in, joined, IsBlockAt};
ghost use Rattle.term_dict.specs.declared.term.Term.{Term};

use crate::BlockIndex;
use crate::index::Edge;
use byte_fields::Corrupt;
use std::ops::Range;

impl BlockIndex {
    /// The number of the block that can have a key, if there is one.
    pub fn block_of(&self, key: &[u8]) -> Option<usize>
        ensures within { IfSome result (λ number. number < length self.now) }
        // Of a dictionary: what the map has at the key is what this block has at it.
        ensures only { (bytes : List ℕ) (terms : List Term) → IsDict bytes self.now terms → lookup key.now terms ≡ lookup_in key.now terms result }
        // Of any index: the last of the blocks that begin up to the key.
        ensures exact { IsBlockOf self.now key.now result }
    {
        let count = self.count_up_to(key);
        if count == 0 { None } else { Some(count - 1) }
    }

    /// The numbers of the blocks that can have keys with a prefix.
    pub fn blocks_with(&self, prefix: &[u8]) -> Range<usize>
        ensures within { result.end ≤ length self.now }
        // Of a dictionary: what the map has of these keys is what these blocks have of them, joined.
        ensures only { (bytes : List ℕ) (terms : List Term) → IsDict bytes self.now terms
            → (let wanted = filter (λ t. starts_with nat_eq t.key prefix.now) in
            wanted terms ≡ joined wanted terms result.start (result.end - result.start)) }
        // Of any index: from the block of the prefix on, those that begin below it or with it.
        ensures exact { AreBlocks self.now prefix.now (λ first. is_below first prefix.now || starts_with nat_eq first prefix.now) result.start result.end }
    {
        self.first_block(prefix)..self.count_before(Edge::Prefix(prefix))
    }

    /// From where to where a block stands in an area of `size` bytes.
    pub fn place_of(&self, number: usize, size: u64) -> Result<(u64, u64), Corrupt>
        requires { number < length self.now }
        // Of a dictionary: the block's terms stand there.
        ensures only { (bytes : List ℕ) (terms : List Term) → IsDict bytes self.now terms → size ≡ length bytes
            → IsOkAnd result (λ x. IsBlockAt bytes terms number x.0 x.1) }
        // Of any index: from the block's start to the next one's or the end, unless there are no bytes between them or they are not within the area.
        ensures exact { result ≡ place_in size self.now number }
    {
        let start = self.at(number).start;
        let end = self.end_of(number, size);
        if start >= end || end > size {
            return Err(Corrupt {
                at: start.min(size) as usize,
            });
        }
        Ok((start, end))
    }

    // The number of the first block that can have keys not below one.
    fn first_block(&self, low: &[u8]) -> usize
        ensures { (count : ℕ) × AreUpTo self.now low.now count × (result ≡ count - 1) }
    {
        self.count_up_to(low).saturating_sub(1)
    }

    // Where a block ends: where the next one starts, or behind the last one the end.
    fn end_of(&self, number: usize, size: u64) -> u64
        requires { number < length self.now }
        ensures only { (bytes : List ℕ) (terms : List Term) → IsDict bytes self.now terms → size ≡ length bytes
            → result ≡ length (area (take (64 * (number + 1)) terms)) }
        ensures exact { result ≡ start_at size self.now (number + 1) }
    {
        if number == self.len() - 1 {
            return size;
        }
        self.at(number + 1).start
    }
}

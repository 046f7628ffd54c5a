ghost use Rattle.std.specs.Prelude.{◌≡◌, ◌≤◌, ◌+◌, ◌*◌, ◌&&◌, List, ℕ, length, take, drop, filter, not, IfOk, IsOkAnd, Ok, nat_eq};
ghost use Rattle.std.specs.List.{starts_with};
ghost use Rattle.term_dict.specs.Keys.{is_below};
ghost use Rattle.term_dict.specs.Terms.{IsDict, area, lookup, from_key};
ghost use Rattle.term_dict.specs.Blocks.{IsAround};
ghost use Rattle.term_dict.specs.Readers.{Lends};
ghost use Rattle.byte_fields.specs.Steps.{Gives};
ghost use Rattle.term_dict.specs.Reading.{place_there, info_there};
ghost use Rattle.term_dict.specs.Chosen.{dict_of, start_at, IsChosen, WalksDict, StartsRange};
ghost use Rattle.term_dict.specs.declared.index.BlockStart.{BlockStart};
ghost use Rattle.term_dict.specs.declared.term.Term.{Term};

use crate::block::{find_from, scan};
use crate::range::RangeEnd;
use crate::{BlockIndex, TermInfo, TermRange};
use byte_fields::Corrupt;

/// A dictionary over its area of blocks and its index.
#[derive(Clone, Copy)]
pub struct Dict<'a> {
    pub(crate) area: &'a [u8],
    pub(crate) index: &'a BlockIndex,
}

impl<'a> Dict<'a> {
    ghost use Rattle.term_dict.specs.Readers.{IsOver};

    /// The dictionary that these bytes are. Its blocks are read when they are looked into.
    pub fn read(area: &'a [u8], index: &'a BlockIndex) -> Result<Dict<'a>, Corrupt>
        ensures only { (terms : List Term) → IsDict area.now index.now terms → IsOkAnd result (λ d. IsOver d terms) }
        // Over any bytes and any index: only bytes without blocks, or blocks without bytes, are no dictionary.
        ensures exact { Gives {Y = List ℕ × List BlockStart} (λ d. (d.area.now, d.index.now)) result (dict_of area.now index.now) }
    {
        if index.is_empty() && !area.is_empty() {
            return Err(Corrupt { at: 0 });
        }
        if area.is_empty() && index.len() > 0 {
            return Err(Corrupt { at: 0 });
        }
        Ok(Dict { area, index })
    }

    /// What the dictionary has at a key. It reads one block.
    pub fn find(&self, key: &[u8]) -> Result<Option<TermInfo>, Corrupt>
        ensures only { (terms : List Term) → IsOver self.now terms → result ≡ Ok (lookup key.now terms) }
        // Over any bytes: the walk to the key in its block, and what stands at its end, be it a fault.
        ensures exact { WalksDict self.now key.now (info_there key.now) result }
    {
        let (start, end) = self.block_of(key)?;
        find_from(&self.area[..end], start, key)
    }

    /// The terms whose keys begin with a prefix.
    pub fn prefix_range(&self, prefix: &'a [u8]) -> Result<TermRange<'a>, Corrupt>
        ensures only { (terms : List Term) → IsOver self.now terms
            → IsOkAnd result (λ r. Lends r (filter (λ t. starts_with nat_eq t.key prefix.now) terms)) }
        // Over any bytes: the range begins where the walk to the prefix ends, unless a fault stands there.
        ensures exact { StartsRange self.now prefix.now (λ k. starts_with nat_eq k prefix.now) result }
    {
        let at = self.place_of(prefix)?;
        Ok(TermRange {
            area: self.area,
            at,
            end: RangeEnd::Prefix(prefix),
        })
    }

    /// The terms from the key `low` up to and without the key `high`.
    pub fn key_range(&self, low: &[u8], high: &'a [u8]) -> Result<TermRange<'a>, Corrupt>
        ensures only { (terms : List Term) → IsOver self.now terms
            → IsOkAnd result (λ r. Lends r (filter (λ t. not (is_below t.key low.now) && is_below t.key high.now) terms)) }
        // Over any bytes: the range begins where the walk to the low key ends, unless a fault stands there.
        ensures exact { StartsRange self.now low.now (λ k. is_below k high.now) result }
    {
        let at = self.place_of(low)?;
        Ok(TermRange {
            area: self.area,
            at,
            end: RangeEnd::Below(high),
        })
    }

    // The place of the first term whose key is not below a key.
    fn place_of(&self, key: &[u8]) -> Result<usize, Corrupt>
        ensures within { IfOk result (λ at. at ≤ length self.now.area.now) }
        ensures only { (terms : List Term) → IsOver self.now terms
            → IsOkAnd result (λ at. drop at self.now.area.now ≡ area (from_key key.now terms)) }
        ensures exact { WalksDict self.now key.now place_there result }
    {
        let (start, end) = self.block_of(key)?;
        scan(&self.area[..end], start, key)
    }

    // From where to where the block stands that can have a key.
    fn block_of(&self, key: &[u8]) -> Result<(usize, usize), Corrupt>
        ensures within { IfOk result (λ x. (x.0 ≤ x.1) × (x.1 ≤ length self.now.area.now)) }
        ensures only { (terms : List Term) → IsOver self.now terms → IsOkAnd result (λ x. IsAround self.now.area.now terms key.now x.0 x.1) }
        ensures exact { IsChosen self.now.area.now self.now.index.now key.now result }
    {
        let Some(number) = self.index.block_of(key) else {
            return Ok((0, 0));
        };
        let (start, end) = self.index.place_of(number, self.area.len() as u64)?;
        Ok((start as usize, end as usize))
    }
}

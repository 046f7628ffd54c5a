ghost use Rattle.std.specs.Prelude.{◌≡◌, ◌≢◌, ◌≤◌, ◌<◌, ◌++◌, ◌&&◌, [], List, ℕ, length, drop, filter, not, nat_eq, IfOk, IsOkAnd, Ok};
ghost use Rattle.std.specs.List.{starts_with};
ghost use Rattle.term_dict.specs.Keys.{is_below};
ghost use Rattle.term_dict.specs.Chosen.{StartsInBlock};
ghost use Rattle.byte_fields.specs.Steps.{Gives};
ghost use Rattle.term_dict.specs.Reading.{Walks, block_of, info_at, term_at, place_there, info_there};
ghost use Rattle.term_dict.specs.Terms.{AreTerms, Fits, area, term_bytes, info_bytes, lookup, from_key};
ghost use Rattle.term_dict.specs.Readers.{IsReadTerm, Lends, term_of};
ghost use Rattle.term_dict.specs.declared.term.Term.{Term};

use crate::index::{is_below, is_same};
use crate::range::RangeEnd;
use crate::{TermInfo, TermRange};
use byte_fields::{Corrupt, take_bytes, take_varint};

/// The terms of one block, in bytes.
#[derive(Clone, Copy)]
pub struct Block<'a> {
    pub(crate) bytes: &'a [u8],
}

impl<'a> Block<'a> {
    ghost use Rattle.term_dict.specs.Readers.{IsBlock};

    /// The block that these bytes are. Its terms are read when they are looked for.
    pub fn read(bytes: &'a [u8]) -> Result<Block<'a>, Corrupt>
        ensures only { (terms : List Term) → terms ≢ [] → AreTerms terms → bytes.now ≡ area terms → IsOkAnd result (λ b. IsBlock b terms) }
        // Over any bytes: only no bytes are no block.
        ensures exact { Gives (λ b. b.bytes.now) result (block_of bytes.now) }
    {
        if bytes.is_empty() {
            return Err(Corrupt { at: 0 });
        }
        Ok(Block { bytes })
    }

    /// What the block has at a key.
    pub fn find(&self, key: &[u8]) -> Result<Option<TermInfo>, Corrupt>
        ensures only { (terms : List Term) → IsBlock self.now terms → result ≡ Ok (lookup key.now terms) }
        // Over any bytes: the walk to the key, and what stands at its end, be it a fault.
        ensures exact { Walks self.now.bytes.now 0 key.now (info_there key.now) result }
    {
        find_from(self.bytes, 0, key)
    }

    /// The terms of the block whose keys begin with a prefix.
    pub fn prefix_range(self, prefix: &'a [u8]) -> Result<TermRange<'a>, Corrupt>
        ensures only { (terms : List Term) → IsBlock self.entry terms
            → IsOkAnd result (λ r. Lends r (filter (λ t. starts_with nat_eq t.key prefix.now) terms)) }
        // Over any bytes: the range begins where the walk to the prefix ends, unless a fault stands there.
        ensures exact { StartsInBlock self.entry.bytes.now prefix.now (λ k. starts_with nat_eq k prefix.now) result }
    {
        let at = scan(self.bytes, 0, prefix)?;
        Ok(TermRange {
            area: self.bytes,
            at,
            end: RangeEnd::Prefix(prefix),
        })
    }

    /// The terms of the block from the key `low` up to and without the key `high`.
    pub fn key_range(self, low: &[u8], high: &'a [u8]) -> Result<TermRange<'a>, Corrupt>
        ensures only { (terms : List Term) → IsBlock self.entry terms
            → IsOkAnd result (λ r. Lends r (filter (λ t. not (is_below t.key low.now) && is_below t.key high.now) terms)) }
        // Over any bytes: the range begins where the walk to the low key ends, unless a fault stands there.
        ensures exact { StartsInBlock self.entry.bytes.now low.now (λ k. is_below k high.now) result }
    {
        let at = scan(self.bytes, 0, low)?;
        Ok(TermRange {
            area: self.bytes,
            at,
            end: RangeEnd::Below(high),
        })
    }
}

/// A key and its numbers, as they stand in the bytes.
#[derive(Clone, Copy)]
pub(crate) struct Entry<'a> {
    pub(crate) key: &'a [u8],
    pub(crate) info: TermInfo,
}

// The first term from a place on whose key is not below a key: its place, or the end.
pub(crate) fn scan(bytes: &[u8], from: usize, key: &[u8]) -> Result<usize, Corrupt>
    requires { from ≤ length bytes.now }
    ensures within { IfOk result (λ at. at ≤ length bytes.now) }
    ensures only { (terms : List Term) → AreTerms terms → drop from bytes.now ≡ area terms
        → IsOkAnd result (λ at. drop at bytes.now ≡ area (from_key key.now terms)) }
    ensures exact { Walks bytes.now from key.now place_there result }
{
    let mut at = from;
    while at < bytes.len() {
        let (entry, next) = read_term(bytes, at)?;
        if !is_below(entry.key, key) {
            break;
        }
        at = next;
    }
    Ok(at)
}

// What the terms from a place on have at a key.
pub(crate) fn find_from(bytes: &[u8], from: usize, key: &[u8]) -> Result<Option<TermInfo>, Corrupt>
    requires { from ≤ length bytes.now }
    ensures only { (terms : List Term) → AreTerms terms → drop from bytes.now ≡ area terms → result ≡ Ok (lookup key.now terms) }
    ensures exact { Walks bytes.now from key.now (info_there key.now) result }
{
    let at = scan(bytes, from, key)?;
    if at == bytes.len() {
        return Ok(None);
    }
    let (entry, _behind) = read_term(bytes, at)?;
    if !is_same(entry.key, key) {
        return Ok(None);
    }
    Ok(Some(entry.info))
}

// The term at a place, and the place behind it.
#[tactic(auto, unfolding(crate::specs::Reading::term_at))]
pub(crate) fn read_term(bytes: &[u8], at: usize) -> Result<(Entry<'_>, usize), Corrupt>
    requires { at ≤ length bytes.now }
    ensures forward { IfOk result (λ x. (at < x.1) × (x.1 ≤ length bytes.now)) }
    ensures only { (t : Term) (rest : List ℕ) → Fits t → drop at bytes.now ≡ term_bytes t ++ rest
        → IsOkAnd result (λ x. IsReadTerm t rest (drop x.1 bytes.now) x.0) }
    ensures exact { Gives {Y = Term × ℕ} (λ x. (term_of x.0, x.1)) result (term_at bytes.now at) }
{
    let (key, next) = take_bytes(bytes, at)?;
    let (info, next) = read_info(bytes, next)?;
    Ok((Entry { key, info }, next))
}

// The numbers at a place, and the place behind them.
#[tactic(auto, unfolding(crate::specs::Reading::info_at))]
fn read_info(bytes: &[u8], at: usize) -> Result<(TermInfo, usize), Corrupt>
    requires { at ≤ length bytes.now }
    ensures forward { IfOk result (λ x. (at ≤ x.1) × (x.1 ≤ length bytes.now)) }
    ensures only { (t : Term) (rest : List ℕ) → Fits t → drop at bytes.now ≡ info_bytes t.info ++ rest
        → IsOkAnd result (λ x. (x.0 ≡ t.info) × (drop x.1 bytes.now ≡ rest)) }
    ensures exact { result ≡ info_at bytes.now at }
{
    let (docs, next) = take_varint(bytes, at)?;
    if docs > u64::from(u32::MAX) {
        return Err(Corrupt { at });
    }
    let (postings, after_postings) = take_varint(bytes, next)?;
    let (postings_len, after_len) = take_varint(bytes, after_postings)?;
    let (positions, after_positions) = take_varint(bytes, after_len)?;
    let (positions_len, end) = take_varint(bytes, after_positions)?;
    let info = TermInfo {
        docs: docs as u32,
        postings,
        postings_len,
        positions,
        positions_len,
    };
    Ok((info, end))
}

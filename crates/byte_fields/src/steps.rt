//! Reading what is corrupt at a place or stands there.

ghost use Rattle.std.specs.Prelude.{◌≡◌, ◌≤◌, ◌<◌, ◌+◌, ◌^◌, ◌++◌, List, ℕ, length, drop, IfOk, IsOkAnd, Ok};
ghost use Rattle.byte_fields.specs.Spelling.{varint, SpelledAt};
ghost use Rattle.byte_fields.specs.Steps.{Gives, count_at, piece_at};

use crate::{Corrupt, take_varint};

/// A number below 2 ^ 32 at a place, and the place behind it.
pub fn take_count(bytes: &[u8], at: usize) -> Result<(u32, usize), Corrupt>
    requires { at ≤ length bytes.now }
    // What is read is spelled there.
    ensures found { IfOk result (λ x. SpelledAt bytes.now at (varint x.0) x.1) }
    // What is spelled there is read.
    ensures only { (n : ℕ) (rest : List ℕ) → n < 2 ^ 32 → drop at bytes.now ≡ varint n ++ rest → result ≡ Ok (n, at + length (varint n)) }
    // Where any other bytes are corrupt.
    ensures exact { result ≡ count_at bytes.now at }
{
    count_whole(bytes, at)
}

#[tactic(auto, unfolding(crate::specs::Steps::count_at))]
fn count_whole(bytes: &[u8], at: usize) -> Result<(u32, usize), Corrupt>
    requires { at ≤ length bytes.now }
    ensures { result ≡ count_at bytes.now at }
{
    let (count, next) = take_varint(bytes, at)?;
    if count > u64::from(u32::MAX) {
        return Err(Corrupt { at });
    }
    Ok((count as u32, next))
}

/// So many bytes at a place, and the place behind them.
#[tactic(auto, unfolding(crate::specs::Steps::piece_at))]
pub fn take_piece(bytes: &[u8], at: usize, len: usize) -> Result<(&[u8], usize), Corrupt>
    requires { at ≤ length bytes.now }
    ensures within { IfOk result (λ x. (x.1 ≤ length bytes.now) × (length x.0.now ≡ len)) }
    // What stands there is read.
    ensures only { (piece rest : List ℕ) → length piece ≡ len → drop at bytes.now ≡ piece ++ rest
        → IsOkAnd result (λ x. (x.0.now ≡ piece) × (drop x.1 bytes.now ≡ rest)) }
    // They are corrupt exactly where they end before.
    ensures exact { Gives {Y = List ℕ × ℕ} (λ x. (x.0.now, x.1)) result (piece_at len bytes.now at) }
{
    if bytes.len() - at < len {
        return Err(Corrupt { at: bytes.len() });
    }
    Ok((&bytes[at..at + len], at + len))
}

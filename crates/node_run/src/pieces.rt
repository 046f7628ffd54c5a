//! Pieces of a line.

ghost use Rattle.std.specs.Prelude.{◌≡◌, ◌≢◌, ◌<◌, ◌^◌, ◌++◌, ◌∷◌, All, IfSome, IfNone, MatchOption, List, ℕ, decimal};
ghost use Rattle.node_run.specs.Pieces.{is_plain};

use std::str;

/// The bytes behind this front, where they begin with it.
pub fn behind<'a>(bytes: &'a [u8], front: &[u8]) -> Option<&'a [u8]>
    ensures { MatchOption result ((rest : List ℕ) → bytes.now ≢ front.now ++ rest) (λ rest. bytes.now ≡ front.now ++ rest.now) }
{
    match bytes.strip_prefix(front) {
        None => None,
        Some(rest) => Some(rest),
    }
}

/// The first word, up to the first blank, and what stands behind that blank.
pub fn first_word(bytes: &[u8]) -> (&[u8], Option<&[u8]>)
    ensures word { All (λ byte. byte ≢ 32) result.0.now }
    ensures some { IfSome result.1 (λ rest. bytes.now ≡ result.0.now ++ 32 ∷ rest.now) }
    ensures none { IfNone result.1 (bytes.now ≡ result.0.now) }
{
    match bytes.iter().position(|byte| *byte == b' ') {
        None => (bytes, None),
        Some(at) => (&bytes[..at], Some(&bytes[at + 1..])),
    }
}

// Whether it begins with no sign, and with a zero only where that is all.
fn is_plain(word: &[u8]) -> bool
    ensures { result ≡ is_plain word.now }
{
    match word {
        [] => false,
        [b'0', more @ ..] => more.is_empty(),
        [first, ..] => *first != b'+',
    }
}

/// The number that the digits spell: without a sign and without leading zeros, below 2 ^ 64.
pub fn number_in(word: &[u8]) -> Option<u64>
    ensures { MatchOption result ((number : ℕ) → number < 2 ^ 64 → word.now ≢ decimal number) (λ number. word.now ≡ decimal number) }
{
    if !is_plain(word) {
        return None;
    }
    let Ok(text) = str::from_utf8(word) else {
        return None;
    };
    match text.parse::<u64>() {
        Ok(number) => Some(number),
        Err(_) => None,
    }
}

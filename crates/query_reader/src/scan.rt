// The parts of a query text that need no look behind them: white space, words, quotes and operators.

ghost use Rattle.std.specs.Prelude.{◌≡◌, ◌↔◌, IsTrue, ◌≢◌, ◌<◌, ◌≤◌, ◌+◌, ◌||◌, ℕ, Bool, false, true, nat_lt, length, drop, List, Err, slice_index, slice_range, MatchResult};
ghost use Rattle.query_reader.specs.Kinds.{kind_of, StandsAt, ends_word};
ghost use Rattle.query_reader.specs.Machine.{Frame, Mode, Role, Go, step, run, state, After, InQuote, word, begun_word};
ghost use Rattle.query_reader.specs.declared.kind.Kind.TheVariants.{Blank, Quote};
ghost use Rattle.query_reader.specs.declared.fault.Fault.TheVariants.{Syntax};

use crate::kind::{Kind, byte_kind};

/// Whether a byte of this kind stands at the place.
pub fn stands(text: &[u8], at: usize, kind: Kind) -> bool
    requires { at < length text.now }
    ensures { IsTrue result ↔ (kind_of (slice_index text.now at) ≡ kind) }
{
    byte_kind(text[at]) == kind
}

/// Whether there is a byte of this kind at the place.
pub fn is_at(text: &[u8], at: usize, kind: Kind) -> bool
    ensures { IsTrue result ↔ StandsAt text.now at kind }
{
    at < text.len() && stands(text, at, kind)
}

/// The first place from `from` on where no white space stands.
pub fn skip_blanks(text: &[u8], from: usize) -> usize
    requires { from ≤ length text.now }
    ensures behind { from ≤ result }
    ensures within { result ≤ length text.now }
    ensures stop { result < length text.now → kind_of (slice_index text.now result) ≢ Blank }
    // A state that white space leaves as it is comes to that place.
    ensures stays { (m : Mode) (f : Frame) (fs : List Frame) → ((at c : ℕ) → step m at c Blank f fs ≡ Go (state m f fs)) →
        run from (state m f fs) (drop from text.now) ≡ run result (state m f fs) (drop result text.now) }
    ensures after { (free : Bool) (f : Frame) (fs : List Frame) → run from (state (After free) f fs) (drop from text.now)
        ≡ run result (state (After (free || nat_lt from result)) f fs) (drop result text.now) }
{
    let mut at = from;
    while at < text.len() && stands(text, at, Kind::Blank) {
        at += 1;
    }
    at
}

/// How far a word goes.
#[derive(Clone, Copy)]
pub struct Scan {
    pub to: usize,
    pub plain: bool,
    pub escaped: bool,
}

/// The word whose first byte stands at `from`.
pub fn scan_word(text: &[u8], from: usize) -> Scan
    requires { from < length text.now }
    ensures behind { from < result.to }
    ensures within { result.to ≤ length text.now }
    ensures stop { result.to < length text.now → ends_word (kind_of (slice_index text.now result.to)) ≡ true }
    ensures escaped { result.to < length text.now → result.escaped ≡ false }
    ensures reads { (role : Role) (f : Frame) (fs : List Frame) →
        run (from + 1) (state (begun_word role from text.now) f fs) (drop (from + 1) text.now)
        ≡ run result.to (state (word role from (slice_range text.now from result.to) result.plain result.escaped) f fs) (drop result.to text.now) }
{
    let mut escaped = stands(text, from, Kind::Escape);
    let mut plain = !escaped;
    let mut to = from + 1;
    while to < text.len() {
        if escaped {
            escaped = false;
            plain = false;
        } else {
            match byte_kind(text[to]) {
                Kind::Plain | Kind::Angle | Kind::Minus => {}
                Kind::Escape => {
                    escaped = true;
                    plain = false;
                }
                _ => break,
            }
        }
        to += 1;
    }
    Scan { to, plain, escaped }
}

/// Where the quote ends that began before `from`, or the place of its fault.
pub fn quote_end(text: &[u8], from: usize) -> Result<usize, usize>
    requires { from ≤ length text.now }
    ensures { MatchResult result
        (λ to. (from ≤ to) × (to < length text.now) × (kind_of (slice_index text.now to) ≡ Quote) × ((role : Role) (f : Frame) (fs : List Frame) →
        run from (state (InQuote role from false) f fs) (drop from text.now) ≡ run to (state (InQuote role from false) f fs) (drop to text.now)))
        (λ at. (role : Role) (f : Frame) (fs : List Frame) → run from (state (InQuote role from false) f fs) (drop from text.now) ≡ Err (Syntax at)) }
{
    let mut at = from;
    let mut escaped = false;
    while at < text.len() {
        match byte_kind(text[at]) {
            Kind::Quote => {
                if !escaped {
                    return Ok(at);
                }
                escaped = false;
            }
            Kind::Escape => escaped = !escaped,
            _ => {
                if escaped {
                    return Err(at);
                }
            }
        }
        at += 1;
    }
    Err(at)
}

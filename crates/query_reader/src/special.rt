// Ranges, comparisons and sets as they are written, and how a range is read byte by byte.

ghost use Rattle.std.specs.Prelude.{◌≡◌, ◌+◌, ◌<◌, ◌^◌};
ghost use Rattle.query_reader.specs.Ranges.{ends_run, run_bound, edge_closed, edge_before, behind_low, close_range, want_bound, sign_of, range_step, range_end};

use crate::kind::Kind;
use crate::tree::Span;

/// A member of a set.
#[derive(Clone, Copy)]
pub struct Member {
    pub place: Span,
    pub quoted: bool,
}

/// An edge as it is written.
#[derive(Clone, Copy)]
pub enum Bound {
    Unbounded,
    Quoted(Span),
    Run(Span),
}

/// A sign of a comparison.
#[derive(Clone, Copy)]
pub enum Compare {
    AtLeast,
    AtMost,
    Above,
    Below,
}

/// A range between two edges, or a comparison with one.
#[derive(Clone, Copy)]
pub enum Ranged {
    Between {
        low_closed: bool,
        low: Bound,
        high: Bound,
        high_closed: bool,
    },
    Compared {
        compare: Compare,
        bound: Bound,
    },
}

/// Where an edge stands.
#[derive(Clone, Copy)]
pub enum Spot {
    Low(bool),
    High(bool, Bound),
    One(Compare),
}

/// How far a range or a comparison was read.
#[derive(Clone, Copy)]
pub enum RangeMode {
    /// An edge comes.
    Wanted(Spot),
    /// In a quoted edge, which began at the place; whether a backslash stands before the next byte.
    Quoting(Spot, usize, bool),
    /// In a run, which began at the place; whether it is a star so far.
    Running(Spot, usize, bool),
    /// Behind the low edge, and whether white space stood there.
    BehindLow(bool, Bound, bool),
    /// Behind the `T`.
    LetterT(bool, Bound),
    /// Behind the `TO`.
    BehindTo(bool, Bound),
    /// Behind the high edge.
    Closing(bool, Bound, Bound),
    /// Behind `<` or, where it is set, behind `>`.
    Sign(bool),
}

/// What a byte does to a range.
#[derive(Clone, Copy)]
pub enum RangeStep {
    More(RangeMode),
    /// Its bracket closes at this byte.
    Done(Ranged),
    /// It ends with this byte.
    Ended(Ranged),
    /// It ended before this byte.
    Before(Ranged),
    Refused,
}

/// Whether a byte of this kind ends a run.
fn is_run_end(kind: Kind) -> bool
    ensures { result ≡ ends_run kind }
{
    matches!(
        kind,
        Kind::Blank | Kind::SquareClose | Kind::CurlyClose | Kind::Close
    )
}

fn bound_of_run(from: usize, to: usize, star: bool) -> Bound
    ensures { result ≡ run_bound from to star }
{
    if star {
        Bound::Unbounded
    } else {
        Bound::Run(Span { from, to })
    }
}

/// Behind a quoted edge.
fn step_edge(spot: Spot, bound: Bound) -> RangeStep
    ensures { result ≡ edge_closed spot bound }
{
    match spot {
        Spot::Low(closed) => RangeStep::More(RangeMode::BehindLow(closed, bound, false)),
        Spot::High(closed, low) => RangeStep::More(RangeMode::Closing(closed, low, bound)),
        Spot::One(compare) => RangeStep::Ended(Ranged::Compared { compare, bound }),
    }
}

fn step_low(closed: bool, low: Bound, spaced: bool, byte: u8, kind: Kind) -> RangeStep
    ensures { result ≡ behind_low closed low spaced byte kind }
{
    match kind {
        Kind::Blank => RangeStep::More(RangeMode::BehindLow(closed, low, true)),
        Kind::Plain => {
            if spaced && byte == b'T' {
                RangeStep::More(RangeMode::LetterT(closed, low))
            } else {
                RangeStep::Refused
            }
        }
        _ => RangeStep::Refused,
    }
}

fn step_close(low_closed: bool, low: Bound, high: Bound, kind: Kind) -> RangeStep
    ensures { result ≡ close_range low_closed low high kind }
{
    match kind {
        Kind::Blank => RangeStep::More(RangeMode::Closing(low_closed, low, high)),
        Kind::SquareClose => RangeStep::Done(Ranged::Between {
            low_closed,
            low,
            high,
            high_closed: true,
        }),
        Kind::CurlyClose => RangeStep::Done(Ranged::Between {
            low_closed,
            low,
            high,
            high_closed: false,
        }),
        _ => RangeStep::Refused,
    }
}

/// At the byte that ends a run.
fn step_before(spot: Spot, bound: Bound, byte: u8, kind: Kind) -> RangeStep
    ensures { result ≡ edge_before spot bound byte kind }
{
    match spot {
        Spot::Low(closed) => step_low(closed, bound, false, byte, kind),
        Spot::High(closed, low) => step_close(closed, low, bound, kind),
        Spot::One(compare) => match bound {
            Bound::Unbounded => RangeStep::Refused,
            _ => RangeStep::Before(Ranged::Compared { compare, bound }),
        },
    }
}

/// Where an edge comes.
fn step_wanted(spot: Spot, at: usize, kind: Kind) -> RangeStep
    requires { at + 1 < 2 ^ 64 }
    ensures { result ≡ want_bound spot at kind }
{
    match kind {
        Kind::Blank => match spot {
            Spot::One(_) => RangeStep::Refused,
            _ => RangeStep::More(RangeMode::Wanted(spot)),
        },
        Kind::Quote => RangeStep::More(RangeMode::Quoting(spot, at + 1, false)),
        Kind::SquareClose | Kind::CurlyClose | Kind::Close => RangeStep::Refused,
        Kind::Star => RangeStep::More(RangeMode::Running(spot, at, true)),
        _ => RangeStep::More(RangeMode::Running(spot, at, false)),
    }
}

fn compare_of(above: bool, with_equal: bool) -> Compare
    ensures { result ≡ sign_of above with_equal }
{
    match (above, with_equal) {
        (true, true) => Compare::AtLeast,
        (true, false) => Compare::Above,
        (false, true) => Compare::AtMost,
        (false, false) => Compare::Below,
    }
}

fn step_quoting(spot: Spot, from: usize, escaped: bool, at: usize, kind: Kind) -> RangeStep
    ensures { result ≡ range_step (RangeMode.Quoting spot from escaped) at 0 kind }
{
    match kind {
        Kind::Quote => {
            if escaped {
                RangeStep::More(RangeMode::Quoting(spot, from, false))
            } else {
                step_edge(spot, Bound::Quoted(Span { from, to: at }))
            }
        }
        Kind::Escape => RangeStep::More(RangeMode::Quoting(spot, from, !escaped)),
        _ => {
            if escaped {
                RangeStep::Refused
            } else {
                RangeStep::More(RangeMode::Quoting(spot, from, false))
            }
        }
    }
}

/// What the byte at the place, of this kind, does to a range.
pub fn step_range(mode: RangeMode, at: usize, byte: u8, kind: Kind) -> RangeStep
    requires { at + 1 < 2 ^ 64 }
    ensures { result ≡ range_step mode at byte kind }
{
    match mode {
        RangeMode::Wanted(spot) => step_wanted(spot, at, kind),
        RangeMode::Quoting(spot, from, escaped) => step_quoting(spot, from, escaped, at, kind),
        RangeMode::Running(spot, from, star) => {
            if is_run_end(kind) {
                step_before(spot, bound_of_run(from, at, star), byte, kind)
            } else {
                RangeStep::More(RangeMode::Running(spot, from, false))
            }
        }
        RangeMode::BehindLow(closed, low, spaced) => step_low(closed, low, spaced, byte, kind),
        RangeMode::LetterT(closed, low) => {
            if byte == b'O' {
                RangeStep::More(RangeMode::BehindTo(closed, low))
            } else {
                RangeStep::Refused
            }
        }
        RangeMode::BehindTo(closed, low) => match kind {
            Kind::Blank => RangeStep::More(RangeMode::Wanted(Spot::High(closed, low))),
            _ => RangeStep::Refused,
        },
        RangeMode::Closing(closed, low, high) => step_close(closed, low, high, kind),
        RangeMode::Sign(above) => {
            if byte == b'=' {
                RangeStep::More(RangeMode::Wanted(Spot::One(compare_of(above, true))))
            } else {
                step_wanted(Spot::One(compare_of(above, false)), at, kind)
            }
        }
    }
}

/// The comparison that the text's end ends, if there is one.
pub fn end_range(mode: RangeMode, at: usize) -> Option<Ranged>
    ensures { result ≡ range_end mode at }
{
    match mode {
        RangeMode::Running(Spot::One(compare), from, false) => Some(Ranged::Compared {
            compare,
            bound: Bound::Run(Span { from, to: at }),
        }),
        _ => None,
    }
}

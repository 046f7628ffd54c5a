//! Why a change of a row is refused.

use thiserror::Error;

/// Why a change of a row is refused. `number` is the row's.
#[derive(Clone, Copy, Debug, Drop, Error)]
pub enum StateRefusal {
    /// No row has this number.
    #[error("norow {number}")]
    NoRow {
        number: u64,
    },
    #[error("notstaged {number}")]
    NotStaged {
        number: u64,
    },
    #[error("notpublished {number}")]
    NotPublished {
        number: u64,
    },
    #[error("notmarked {number}")]
    NotMarked {
        number: u64,
    },
    /// The row's grace ends at `until`, which is behind `now`. A sum of two moments may pass 64 bits.
    #[error("ingrace {number} {until} {now}")]
    InGrace {
        number: u64,
        until: u128,
        now: u64,
    },
    /// A Publish of a row without spans, or a Replace to one with spans.
    #[error("wrongaim {number}")]
    WrongAim {
        number: u64,
    },
    /// A Replace names this old row twice.
    #[error("doubledrow {number}")]
    DoubledRow {
        number: u64,
    },
    /// A Replace names no old row.
    #[error("nooldrow")]
    NoOldRow,
    /// The row has documents, and their greatest time is above `bound`, which is now less the period.
    #[error("tooyoung {number} {greatest} {bound}")]
    TooYoung {
        number: u64,
        greatest: i64,
        bound: i128,
    },
    /// The configuration has no period.
    #[error("noretention")]
    NoRetention,
}

//! How each row stands and since when, side by side: a pass over these reads 32 bytes a row.

ghost use Rattle.std.specs.Prelude.{◌≡◌, ◌+◌, ◌<◌, ◌++◌, ◌∷◌, [], true, map, filter, find, nat_le, option_map, slice_set, vec_len, vec_capacity, IfOk};
ghost use Rattle.split_states.specs.Rows.{rising};
ghost use Rattle.split_states.specs.Due.{stamp_of, stamp_number, stamped_stale, stamped_due, stamped_marked};

use crate::numbers::Numbers;
use crate::rows::{Row, RowState};
use std::alloc::{AllocError, Global};

/// The number of a row, its state and its two moments.
#[derive(Clone, Copy, Drop)]
pub struct Stamp {
    pub number: u64,
    pub state: RowState,
    pub staged_at: u64,
    pub marked_at: u64,
}

pub fn stamped(row: &Row) -> Stamp
    ensures { result ≡ stamp_of row.now }
{
    Stamp {
        number: row.number,
        state: row.state,
        staged_at: row.staged_at,
        marked_at: row.marked_at,
    }
}

/// The stamp of a row more at the end, for which there is room.
pub fn push_stamp(stamps: &mut Vec<Stamp>, row: &Row)
    requires { vec_len stamps.old < vec_capacity stamps.old }
    ensures { stamps.new.items ≡ stamps.old.items ++ stamp_of row.now ∷ [] }
{
    stamps.push_reserved(stamped(row));
}

/// The stamp at a place is that of this row.
pub fn restamp(stamps: &mut [Stamp], place: usize, row: &Row)
    ensures { stamps.new ≡ slice_set stamps.old place (stamp_of row.now) }
{
    if place < stamps.len() {
        stamps[place] = stamped(row);
    }
}

/// Whether a grace is over.
fn is_over(since: u64, grace: u64, now: u64) -> bool
    ensures { result ≡ nat_le (since + grace) now }
{
    u128::from(since) + u128::from(grace) <= u128::from(now)
}

fn is_stale(stamp: &Stamp, now: u64, grace: u64) -> bool
    ensures { result ≡ stamped_stale now grace stamp.now }
{
    matches!(stamp.state, RowState::Staged) && is_over(stamp.staged_at, grace, now)
}

fn is_due(stamp: &Stamp, now: u64, grace: u64) -> bool
    ensures { result ≡ stamped_due now grace stamp.now }
{
    matches!(stamp.state, RowState::Marked) && is_over(stamp.marked_at, grace, now)
}

/// The stamps from this number on.
pub fn stamps_from(stamps: &[Stamp], from: u64) -> &[Stamp]
    requires { rising (map stamp_number stamps.now) ≡ true }
    ensures { result.now ≡ filter (λ s. nat_le from s.number) stamps.now }
{
    match stamps.binary_search_by(|stamp| stamp.number.cmp(&from)) {
        Ok(place) => &stamps[place..],
        Err(place) => &stamps[place..],
    }
}

/// The numbers of the stale ones.
pub fn stale_numbers(
    alloc: Global,
    stamps: &[Stamp],
    now: u64,
    grace: u64,
) -> Result<Numbers, AllocError>
    ensures { IfOk result (λ numbers. numbers ≡ map stamp_number (filter (stamped_stale now grace) stamps.now)) }
{
    let mut numbers = Numbers::vacant(alloc);
    for stamp in stamps {
        if is_stale(stamp, now, grace) {
            numbers.push(stamp.number)?;
        }
    }
    Ok(numbers)
}

/// The number of the first one that is due.
pub fn first_due(stamps: &[Stamp], now: u64, grace: u64) -> Option<u64>
    ensures { result ≡ option_map stamp_number (find (stamped_due now grace) stamps.now) }
{
    for stamp in stamps {
        if is_due(stamp, now, grace) {
            return Some(stamp.number);
        }
    }
    None
}

/// The number of the first marked one.
pub fn first_marked(stamps: &[Stamp]) -> Option<u64>
    ensures { result ≡ option_map stamp_number (find stamped_marked stamps.now) }
{
    for stamp in stamps {
        if matches!(stamp.state, RowState::Marked) {
            return Some(stamp.number);
        }
    }
    None
}

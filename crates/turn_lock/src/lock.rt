//! The lock, and the passes that take turns at it.
ghost use Rattle.std.specs.Prelude.{◌≡◌, ◌<◌, false, [], length};
ghost use Rattle.turn_lock.specs.Counts.{AllBelow};

use crate::history::HasHistory;
use crate::view::{Board, Place};
use std::alloc::AllocError;
use std::snapshot::Snapshot;

mod calls;

/// A lock that lends its value by turns. It is not dropped: take the value back by `close`.
pub struct TurnLock<V: HasHistory> {
    table: Board<V>,
    ghost sized: { (table.shared.table_id.words ≡ 3) × (table.shared.table_id.slots ≡ 1) },
}

/// The right to take turns at one lock, and what was seen there of the history. Join a pass that is done with to another: the lock is closed by the pass that has all parts, and a pass that is dropped takes its parts with it.
#[derive(Drop)]
pub struct Pass<V: HasHistory> {
    seat: Place<V>,
    events: u64,
    ghost counted: { events ≡ length seat.me.0.seen },
    ghost alive: { seat.me.0.spent ≡ false },
    ghost settled: { seat.me.0.told ≡ [] },
    ghost whole: { seat.me.0.left < seat.me.0.parts },
    pub ghost low: { AllBelow (length seat.me.0.seen) seat.me.0.places },
}

/// The value, lent for one turn. It is not dropped: end the turn by `done`.
pub struct Turn<V: HasHistory> {
    pub value: V,
    taken: Snapshot<Place<V>>,
}

/// There was no memory for the lock. The value comes back.
#[derive(Drop)]
pub struct Unbuilt<V> {
    pub value: V,
    pub error: AllocError,
}

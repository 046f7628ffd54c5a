//! The table of a lock.
//! Word 0 counts the tickets that were drawn, word 1 those that were served, and word 2 is the length of the history. The slot has the value.
use crate::history::HasHistory;
use atomic_table::{Seat, Table, TableRule};
use std::alloc::Global;
use std::collections::LinkedList;
use std::marker::PhantomData;
use std::snapshot::Snapshot;

/// What a pass knows. No value of it is made, so its numbers have no end.
pub struct View<T, E> {
    /// None at a pass that was joined to another.
    pub start: Option<T>,
    /// The history that was seen.
    pub seen: LinkedList<E>,
    /// What a pass that joined had seen, until it is taken in.
    pub told: LinkedList<E>,
    /// Where in the history this pass's own events stand.
    pub places: LinkedList<u64>,
    pub ticket: Option<u64>,
    pub holding: bool,
    pub parts: u64,
    /// How many passes may be split off.
    pub left: u64,
    pub spent: bool,
}

/// What a lock is told once.
#[derive(Drop)]
pub struct Opening<V> {
    pub value: Snapshot<V>,
    pub passes: u32,
}

pub struct Turns<V> {
    of: PhantomData<V>,
}

impl<V: HasHistory> TableRule<Option<V>, View<V::Start, V::Event>, Opening<V>> for Turns<V> {
    ghost use Rattle.turn_lock.specs.Turns.{Kept, first_view};

    ghost holds = { λ key. Kept V.start V.history V.stands V.rests (V.start key.value.value) key.passes };

    ghost first = { λ key. first_view (V.start key.value.value) (V.history key.value.value) key.passes };
}

pub type Place<V> = Seat<Option<V>, View<<V as HasHistory>::Start, <V as HasHistory>::Event>>;

pub type Board<V> = Table<
    Option<V>,
    View<<V as HasHistory>::Start, <V as HasHistory>::Event>,
    Opening<V>,
    Turns<V>,
    Global,
>;

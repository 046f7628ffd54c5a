//! The calls of a lock.
ghost use Rattle.std.specs.Prelude.{◌≡◌, ℕ, ◌+◌, ◌-◌, ◌<◌, ◌≤◌, List, [], length, slice_get, Some, ◌++◌, IfOk, IfErr};
ghost use mathlib.Core.List.{IsPrefix};
ghost use Rattle.turn_lock.specs.Counts.{run_of, times, below, longer, Rises};
ghost use Rattle.turn_lock.specs.Passes.{built, passes_of, seen, places, parts, left, IsOf, IsIdle, HasTurn, Awaits};
ghost use Rattle.turn_lock.specs.Turns.{Took};

use crate::history::HasHistory;
use crate::lock::{Pass, Turn, TurnLock, Unbuilt};
use crate::plays::{Append, Draw, Halve, Look, Merge, PassOn, TakeIn};
use crate::view::{Board, Opening, Place};
use atomic_table::{Refused, Table};
use std::alloc::{AllocError, AllocFailed, Global};
use std::snapshot::Snapshot;
use std::sync::Wait;

impl<V: HasHistory> TurnLock<V> {
    /// A lock round the value, and the first of its `passes`. The first pass has seen all that happened so far, and the places of those events are its own.
    pub fn build(alloc: Global, value: V, passes: u32) -> Result<(TurnLock<V>, Pass<V>), Unbuilt<V>>
        requires passes { 1 ≤ passes }
        requires stands { V.stands value }
        requires rests { (k : ℕ) (e : V.Event) → slice_get (V.history value) k ≡ Some e → V.rests k e < length (V.history value) }
        ensures lock { IfOk result (λ r. IsOf r.0 r.1 × IsIdle r.1 × (built r.0 ≡ value) × (passes_of r.0 ≡ passes)) }
        ensures pass { IfOk result (λ r. (seen r.1 ≡ V.history value) × (places r.1 ≡ run_of 0 (length (V.history value))) × (parts r.1 ≡ passes) × (left r.1 + 1 ≡ passes)) }
        ensures rises { IfOk result (λ r. Rises (places r.1)) }
        ensures unbuilt { IfErr result (λ u. u.value ≡ value) }
    {
        let events = value.events();
        let about = Opening {
            value: Snapshot::of(&value),
            passes,
        };
        let mut slots = Vec::new(alloc);
        if let Err(failed) = slots.push(Some(value)) {
            let AllocFailed { value } = failed;
            slots.destroy_empty();
            let Some(value) = value else { unreachable!() };
            return Err(Unbuilt {
                value,
                error: AllocError,
            });
        }
        match Table::new(alloc, &[0, 0, events], slots, &about) {
            Ok((table, seat)) => Ok((TurnLock { table }, Pass { seat, events })),
            Err(refused) => {
                let Refused { mut slots } = refused;
                let Some(Some(value)) = slots.pop() else {
                    unreachable!()
                };
                slots.destroy_empty();
                Err(Unbuilt {
                    value,
                    error: AllocError,
                })
            }
        }
    }

    /// Draws a ticket, waits until it is served, and lends the value. The history that comes with it begins with what the pass had seen; no event that others added rests on one of the pass's own.
    pub fn turn<R: Wait>(&self, rt: &R, pass: &mut Pass<V>) -> Turn<V>
        requires lock { IsOf self.now pass.old }
        requires idle { IsIdle pass.old }
        ensures lock { IsOf self.now pass.new }
        ensures turn { HasTurn pass.new result }
        ensures lent { V.stands result.value × (V.start result.value ≡ V.start (built self.now)) }
        ensures seen { IsPrefix (seen pass.old) (V.history result.value) × (seen pass.new ≡ V.history result.value) }
        ensures same { (places pass.new ≡ places pass.old) × (parts pass.new ≡ parts pass.old) × (left pass.new ≡ left pass.old) }
        ensures apart { (k : ℕ) (e : V.Event) → length (seen pass.old) ≤ k → slice_get (V.history result.value) k ≡ Some e → times (V.rests k e) (places pass.old) ≡ 0 }
    {
        let ticket = self.table.shared.fetch_add::<Draw>(&mut pass.seat, 0, 1);
        await_ticket(rt, &self.table, &mut pass.seat, ticket);
        let lent = self.table.shared.exchange(&mut pass.seat, 0, None);
        let Some(value) = lent else { unreachable!() };
        pass.events = value.events();
        Turn {
            value,
            taken: Snapshot::of(&pass.seat),
        }
    }

    /// Ends the turn and serves the next ticket. The value's history was only added to, and the places of the new events are the pass's own from now on. A new event rests on one of the pass's own, new ones included.
    pub fn done(&self, turn: Turn<V>, pass: &mut Pass<V>)
        requires lock { IsOf self.now pass.old }
        requires turn { HasTurn pass.old turn }
        requires value { V.stands turn.value × (V.start turn.value ≡ V.start (built self.now)) }
        requires appended { IsPrefix (seen pass.old) (V.history turn.value) }
        requires rests { let before = length (seen pass.old) in let log = V.history turn.value in (k : ℕ) (e : V.Event) → before ≤ k → slice_get log k ≡ Some e → 0 < times (V.rests k e) (places pass.old ++ run_of before (length log - before)) }
        ensures lock { IsOf self.now pass.new }
        ensures idle { IsIdle pass.new }
        ensures seen { seen pass.new ≡ V.history turn.value }
        ensures places { let before = length (seen pass.old) in places pass.new ≡ places pass.old ++ run_of before (length (seen pass.new) - before) }
        ensures rises { Rises (places pass.old) → Rises (places pass.new) }
        ensures same { (parts pass.new ≡ parts pass.old) × (left pass.new ≡ left pass.old) }
    {
        let Turn { value, taken } = turn;
        drop(taken);
        let events = value.events();
        let added = events - pass.events;
        let none = self.table.shared.exchange(&mut pass.seat, 0, Some(value));
        let None = none else { unreachable!() };
        self.table
            .shared
            .fetch_add::<Append>(&mut pass.seat, 2, added);
        self.table.shared.fetch_add::<PassOn>(&mut pass.seat, 1, 1);
        self.table.shared.wake_all(1);
        pass.events = events;
    }

    /// A second pass, which has seen what this one saw and has no places yet. Of this one it takes one part, and one of the passes that may still be split off.
    pub fn split(&self, pass: &mut Pass<V>) -> Pass<V>
        requires lock { IsOf self.now pass.old }
        requires idle { IsIdle pass.old }
        requires some { 0 < left pass.old }
        ensures new { IsOf self.now result × IsIdle result × (seen result ≡ seen pass.old) × (places result ≡ []) × (parts result ≡ 1) × (left result ≡ 0) }
        ensures lock { IsOf self.now pass.new }
        ensures idle { IsIdle pass.new }
        ensures same { (seen pass.new ≡ seen pass.old) × (places pass.new ≡ places pass.old) }
        ensures counts { (parts pass.new + 1 ≡ parts pass.old) × (left pass.new + 1 ≡ left pass.old) }
    {
        let seat = self.table.shared.split_seat::<Halve>(&mut pass.seat);
        Pass {
            seat,
            events: pass.events,
        }
    }

    /// Ends the other pass. This one then has its places, behind its own, and its parts, and has seen the longer of both histories. No place stands in both.
    pub fn join(&self, pass: &mut Pass<V>, other: Pass<V>)
        requires lock { IsOf self.now pass.old × IsOf self.now other }
        requires idle { IsIdle pass.old × IsIdle other }
        ensures lock { IsOf self.now pass.new }
        ensures idle { IsIdle pass.new }
        ensures seen { seen pass.new ≡ longer (seen pass.old) (seen other) }
        ensures begins { IsPrefix (seen pass.old) (seen pass.new) × IsPrefix (seen other) (seen pass.new) }
        ensures places { places pass.new ≡ places pass.old ++ places other }
        ensures once { (place : ℕ) → times place (places pass.new) ≤ 1 }
        ensures counts { (parts pass.new ≡ parts pass.old + parts other) × (left pass.new ≡ left pass.old) }
    {
        let Pass { seat, events } = other;
        self.table.shared.join_seat::<Merge>(&mut pass.seat, seat);
        self.table.shared.load::<TakeIn>(&mut pass.seat, 0);
        pass.events = pass.events.max(events);
    }

    /// Gives the value back, once all passes are joined into one. That pass has seen the whole history, and each place of it is the pass's, once.
    pub fn close(self, pass: Pass<V>) -> V
        requires lock { IsOf self pass }
        requires idle { IsIdle pass }
        requires all { parts pass ≡ passes_of self }
        ensures value { V.stands result × (V.start result ≡ V.start (built self)) }
        ensures seen { seen pass ≡ V.history result }
        ensures places { (place : ℕ) → times place (places pass) ≡ below place (length (V.history result)) }
    {
        let TurnLock { table } = self;
        let Pass { seat, events: _ } = pass;
        let mut closed = table.close_with(seat);
        let slot = closed.take(0);
        closed.free();
        let Some(value) = slot else { unreachable!() };
        value
    }
}

// Waits until the ticket is served, and takes the slot. A thread that parks is told the low 32 bits of the word.
fn await_ticket<V: HasHistory, R: Wait>(rt: &R, board: &Board<V>, seat: &mut Place<V>, ticket: u64)
    requires board { (board.now.shared.table_id.words ≡ 3) × (seat.old.table_id ≡ board.now.shared.table_id) }
    requires waits { Awaits seat.old ticket }
    ensures took { Took V.start V.history V.stands V.rests seat.old.me seat.new.me }
    ensures same { (seat.new.table_id ≡ seat.old.table_id) × (seat.new.id ≡ seat.old.id) }
{
    for _ in rt.forever() {
        let serving = board.shared.load::<Look>(seat, 1);
        if serving == ticket {
            return;
        }
        board.shared.park(rt, 1, (serving % 4294967296) as u32);
    }
    unreachable!()
}

//! A world with the list of its calls.

ghost use Rattle.std.specs.Prelude.{◌≡◌, ◌<◌, ◌≤◌, [], OnErr, OnOk, length, vec_len, vec_capacity};
ghost use Rattle.index_world.specs.Core.{last_count};
ghost use Rattle.shared_gate.specs.Recording.{IsNoted, IsStanding, IsTimed, base_of};

use crate::call::Call;
use clock_time::{Clock, ScriptClock};
use index_world::World;
use object_store::ObjectStore;
use source_log::SourceLog;
use std::alloc::{AllocError, Global};
use std::snapshot::Snapshot;
use turn_lock::HasHistory;

mod calls;

/// A call, the place of the event on which it rests, and the world that it left. The world is a snapshot, which takes no memory.
#[derive(Drop)]
pub struct Event<S: ObjectStore> {
    pub call: Call,
    pub base: u64,
    pub left: Snapshot<World<S, ScriptClock>>,
}

/// What a list of calls began with: the world, and the source of the log over which it is an index. No value of it is made.
pub struct Opening<S: ObjectStore, L> {
    pub world: World<S, ScriptClock>,
    pub source: L,
}

/// A world, each call of which is recorded as what it left. The world's clock is set by a clock of which nothing is known.
pub struct Recorded<S: ObjectStore, K: Clock, L: SourceLog> {
    pub world: World<S, ScriptClock>,
    pub clock: K,
    pub events: Vec<Event<S>>,
    // The world with which the recording began.
    pub opened: Snapshot<World<S, ScriptClock>>,
    pub source: Snapshot<L>,
}

impl<S: ObjectStore, K: Clock, L: SourceLog> HasHistory for Recorded<S, K, L> {
    ghost use Rattle.shared_gate.specs.Recording.{IsStanding};

    type Start = Opening<S, L>;

    type Event = Event<S>;

    ghost start = { λ recorded. record { world = recorded.opened.value; source = recorded.source.value } };

    ghost history = { λ recorded. recorded.events.items };

    ghost rests = { λ place event. event.base };

    ghost stands = { λ recorded. IsStanding L.told recorded };

    fn events(&self) -> u64 {
        self.events.len() as u64
    }
}

// The place on which the next event rests.
fn base_of(home: Option<u64>, next: u64) -> u64
    ensures { result ≡ base_of home next }
{
    match home {
        Some(place) => place,
        None => next,
    }
}

impl<S: ObjectStore, K: Clock, L: SourceLog> Recorded<S, K, L> {
    /// Begins to record. `source` is a source of the log over which the world is an index.
    pub fn new(
        alloc: Global,
        world: World<S, ScriptClock>,
        clock: K,
        source: &L,
    ) -> Recorded<S, K, L>
        ensures standing { IsStanding L.told result }
        ensures world { (result.world ≡ world) × (result.events.items ≡ []) }
        ensures start { (result.opened.value ≡ world) × (result.source.value ≡ source.now) }
    {
        let opened = Snapshot::of(&world);
        Recorded {
            world,
            clock,
            events: Vec::new(alloc),
            opened,
            source: Snapshot::of(source),
        }
    }

    /// How many calls are recorded.
    pub fn count(&self) -> u64
        ensures { result ≡ length self.now.events.items }
    {
        self.events.len() as u64
    }

    // Makes room for one event, and sets the world's clock to what the clock tells.
    fn begin(&mut self) -> Result<(), AllocError>
        ensures within { self.old.world.store_faults ≤ last_count }
        ensures room { OnOk result (vec_len self.new.events < vec_capacity self.new.events) }
        ensures clock { OnOk result (IsTimed K.told self.old self.new) }
        ensures undone { OnErr result ((self.new.world ≡ self.old.world) × (self.new.clock ≡ self.old.clock)) }
        ensures same { (self.new.events.items ≡ self.old.events.items) × (self.new.opened.value ≡ self.old.opened.value) × (self.new.source.value ≡ self.old.source.value) }
    {
        let _count = self.world.faults();
        self.events.reserve(1)?;
        let moment = self.clock.now();
        self.world.clock_mut().set(moment);
        Ok(())
    }

    // Records a call, for which there is room.
    fn note(&mut self, call: Call, home: &mut Option<u64>)
        requires { vec_len self.old.events < vec_capacity self.old.events }
        ensures { IsNoted call home.old home.new self.old self.new }
    {
        let base = base_of(*home, self.count());
        *home = Some(base);
        let left = Snapshot::of(&self.world);
        let _ = self.events.push(Event { call, base, left });
    }
}

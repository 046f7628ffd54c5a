ghost use Rattle.std.specs.Prelude.{◌≡◌, ◌+◌, ◌≤◌, IfOk};
ghost use Rattle.doc_value.specs.Documents.{IsSchema};
ghost use Rattle.turn_lock.specs.Passes.{IsOf, IsIdle, parts, passes_of, left};

use clock_time::{Clock, ScriptClock};
use index_world::{Gate, Unopened, World, WorldError};
use object_store::{MemoryStore, ObjectStore};
use shared_gate::{Call, Event, Recorded, Shared};
use source_log::{MemoryLog, SourceLog};
use std::alloc::{AllocError, Global};
use std::sync::Wait;
use std::test::*;
use std::{mem, thread};
use turn_lock::{Pass, TurnLock, Unbuilt};

const CONFIG: &str =
    "version = \"0.9\"\nindex_id = \"logs\"\n[doc_mapping]\nmode = \"strict\"\n[[doc_mapping.field_mappings]]\nname = \"n\"\ntype = \"u64\"\n";

const TURNS: u64 = 1000;

type Kept = Recorded<MemoryStore, ScriptClock, MemoryLog>;

fn new_world(alloc: Global) -> Result<World<MemoryStore, ScriptClock>, AllocError> {
    let store = MemoryStore::vacant(alloc);
    match World::create(alloc, store, ScriptClock::at(0), CONFIG.as_bytes()) {
        Ok(world) => Ok(world),
        Err(Unopened { error, store }) => {
            mem::drop(error);
            mem::drop(store);
            Err(AllocError)
        }
    }
}

fn let_go(world: World<MemoryStore, ScriptClock>) {
    let (store, clock) = world.unload();
    mem::drop(store);
    mem::drop(clock);
}

// The calls of a world.
fn calls_of(recorded: Kept) -> Vec<Event<MemoryStore>> {
    let Recorded {
        world,
        clock,
        events,
        opened,
        source,
    } = recorded;
    let_go(world);
    mem::drop(clock);
    mem::drop(opened);
    mem::drop(source);
    events
}

// A lock round a new world, over a log without a record.
fn locked(
    alloc: Global,
    world: World<MemoryStore, ScriptClock>,
    passes: u32,
) -> Result<(TurnLock<Kept>, Pass<Kept>), AllocError>
    requires { 1 ≤ passes }
    ensures lock { IfOk result (λ r. IsOf r.0 r.1 × IsIdle r.1 × (passes_of r.0 ≡ passes)) }
    ensures counts { IfOk result (λ r. (parts r.1 ≡ passes) × (left r.1 + 1 ≡ passes)) }
{
    let source = MemoryLog::vacant(alloc);
    let recorded = Recorded::new(alloc, world, ScriptClock::at(0), &source);
    match TurnLock::build(alloc, recorded, passes) {
        Ok(built) => Ok(built),
        Err(Unbuilt { value, error }) => {
            mem::drop(calls_of(value));
            Err(error)
        }
    }
}

fn is_refused(swept: Result<bool, WorldError>) -> bool {
    match swept {
        Ok(swept) => !swept,
        Err(_) => false,
    }
}

// Asks for the sweep of numbers of which none was staged, and says whether each was refused.
fn sweep_all<G: Gate>(alloc: Global, gate: &mut G, from: u32, turns: u64) -> bool
    ensures { G.since gate.old gate.new }
{
    let mut all = true;
    for turn in 0..turns {
        let number = u64::from(from).saturating_add(turn);
        let swept = gate.sweep_delete(alloc, number);
        all &= is_refused(swept);
    }
    all
}

// Makes that many calls.
fn take_turns<'a, R: Wait, S: ObjectStore, K: Clock, L: SourceLog>(
    gate: Shared<'a, R, Recorded<S, K, L>>,
    alloc: Global,
    from: u32,
    turns: u64,
) -> (Pass<Recorded<S, K, L>>, bool)
    ensures { IsOf gate.entry.lock.now result.0 × IsIdle result.0 × (parts result.0 ≡ parts gate.entry.pass) }
{
    let mut gate = gate;
    let all = sweep_all(alloc, &mut gate, from, turns);
    (gate.into_pass(), all)
}

// The number behind the last one of those that stand in their order from this one on.
fn last_behind(events: &[Event<MemoryStore>], from: u64) -> u64 {
    let mut next = from;
    for event in events {
        if let Call::Sweep { number } = &event.call {
            if *number == next {
                next = next.saturating_add(1);
            }
        }
    }
    next
}

#[test]
fn two_threads_make_a_thousand_calls_each(rt: HostRuntime) -> Result<(), Fail> {
    let alloc = rt.alloc();
    let Ok(world) = new_world(alloc) else {
        return Err(AllocError.into());
    };
    let Ok(config) = world.config().copy(alloc) else {
        let_go(world);
        return Err(AllocError.into());
    };
    let Ok((lock, mut first)) = locked(alloc, world, 2) else {
        return Err(AllocError.into());
    };
    let second = lock.split(&mut first);
    let ((mut first, one), (second, two)) = thread::join(
        &rt,
        || -> (Pass<Kept>, bool)
            requires { IsOf lock first × IsIdle first × ∥ IsSchema config.schema ∥₁ }
            ensures { IsOf lock result.0 × IsIdle result.0 × (parts result.0 ≡ parts first) }
        {
            take_turns(
                Shared::over(&rt, &lock, &config, first),
                alloc,
                10_000,
                TURNS,
            )
        },
        || -> (Pass<Kept>, bool)
            requires { IsOf lock second × IsIdle second × ∥ IsSchema config.schema ∥₁ }
            ensures { IsOf lock result.0 × IsIdle result.0 × (parts result.0 ≡ parts second) }
        {
            take_turns(
                Shared::over(&rt, &lock, &config, second),
                alloc,
                20_000,
                TURNS,
            )
        },
    );
    lock.join(&mut first, second);
    let events = calls_of(lock.close(first));
    assert!(rt; one && two && events.len() == 2000);
    assert_eq!(rt; last_behind(events.as_slice(), 10_000), 11_000);
    assert_eq!(rt; last_behind(events.as_slice(), 20_000), 21_000);
    Ok(())
}

#[test]
fn the_last_call_is_read_back(rt: HostRuntime) -> Result<(), Fail> {
    let alloc = rt.alloc();
    let Ok(world) = new_world(alloc) else {
        return Err(AllocError.into());
    };
    let Ok(config) = world.config().copy(alloc) else {
        let_go(world);
        return Err(AllocError.into());
    };
    let Ok((lock, pass)) = locked(alloc, world, 1) else {
        return Err(AllocError.into());
    };
    let (pass, noted) = take_turns(Shared::over(&rt, &lock, &config, pass), alloc, 7, 1);
    let events = calls_of(lock.close(pass));
    assert_eq!(rt; events.len(), if noted { 1 } else { 0 });
    assert_eq!(rt;
        last_behind(events.as_slice(), 7),
        if noted { 8 } else { 7 }
    );
    Ok(())
}

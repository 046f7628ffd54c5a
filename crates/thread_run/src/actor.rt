//! One of many: its job, and its gate to the world that they share.

ghost use Rattle.std.specs.Prelude.{◌≡◌, List};
ghost use Rattle.shared_gate.specs.Sharing.{seat_of};
ghost use Rattle.thread_run.specs.Working.{IsReady, WorksOut};
ghost use Rattle.thread_run.specs.declared.actor.Work.TheVariants as works;

use crate::{Done, Job, do_job};
use clock_time::Clock;
use object_store::ObjectStore;
use root_search::LeafHold;
use shared_gate::{Recorded, Shared};
use source_log::SourceLog;
use std::alloc::Global;
use std::mem;
use std::sync::Wait;
use std::thread::Threads;
use turn_lock::HasHistory;

/// A job before and after it is done.
#[derive(Drop)]
pub enum Work<L: SourceLog> {
    ToDo(Job<L>),
    Doing,
    Did(Done<L>),
}

/// One of many that share a world.
#[derive(Drop)]
pub struct Actor<'a, R, V: HasHistory, L: SourceLog> {
    pub work: Work<L>,
    pub gate: Shared<'a, R, V>,
}

// The job that is to be done.
fn taken<L: SourceLog>(work: &mut Work<L>) -> Job<L>
    requires { (job : _) × (work.old ≡ works.ToDo job) }
    ensures { work.old ≡ works.ToDo result }
{
    match mem::replace(work, Work::Doing) {
        Work::ToDo(job) => job,
        _ => unreachable!(),
    }
}

// What came of it.
fn put<L: SourceLog>(work: &mut Work<L>, done: Done<L>)
    ensures { work.new ≡ works.Did done }
{
    mem::drop(mem::replace(work, Work::Did(done)));
}

/// Does its job through its gate.
pub fn do_work<
    'a,
    R: Threads + Wait + Sync,
    S: ObjectStore,
    K: Clock,
    M: SourceLog,
    L: SourceLog,
    H: LeafHold,
>(rt: &R, alloc: Global, actor: &mut Actor<'a, R, Recorded<S, K, M>, L>, turns: u64, hold: &H)
    requires { IsReady M.told L.told actor.old.work (seat_of actor.old.gate.lock.now actor.old.gate.pass actor.old.gate.config.now actor.old.gate.home) }
    ensures { WorksOut M.told L.told L.fault_count L.since turns actor.old.work actor.new.work
        (seat_of actor.old.gate.lock.now actor.old.gate.pass actor.old.gate.config.now actor.old.gate.home)
        (seat_of actor.new.gate.lock.now actor.new.gate.pass actor.new.gate.config.now actor.new.gate.home) }
{
    let job = taken(&mut actor.work);
    let done = do_job(rt, alloc, &mut actor.gate, job, turns, hold);
    put(&mut actor.work, done);
}

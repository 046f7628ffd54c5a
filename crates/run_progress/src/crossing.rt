//! What may go to another thread: a counted log, a counted store and a clock behind which progress is shown, where what they wrap may,
//! and where threads may share the system.

use crate::{CountedLog, CountedStore, ProgressClock};
use clock_time::Clock;
use object_store::ObjectStore;
use source_log::SourceLog;
use std::time;

// It may go to another thread.
fn sent<T: Send>(_value: &T) {}

pub fn log_sent<'a, L: SourceLog + Send, R: Eprint + time::Clock + Sync>(
    log: &CountedLog<'a, L, R>,
) {
    sent(log);
}

pub fn store_sent<'a, S: ObjectStore + Send, R: Eprint + time::Clock + Sync>(
    store: &CountedStore<'a, S, R>,
) {
    sent(store);
}

pub fn clock_sent<'a, C: Clock + Send, R: Eprint + time::Clock + Sync>(
    clock: &ProgressClock<'a, C, R>,
) {
    sent(clock);
}

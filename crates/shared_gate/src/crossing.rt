//! What may go to another thread: a world, a recorded one, and one of many that share it.

use crate::recorded::Recorded;
use crate::shared::Shared;
use clock_time::{Clock, ScriptClock};
use index_world::World;
use object_store::ObjectStore;
use source_log::SourceLog;

// It may go to another thread.
fn sent<T: Send>(_value: &T) {}

/// A world may, where its store may.
pub fn world_sent<S: ObjectStore + Send>(world: &World<S, ScriptClock>) {
    sent(world);
}

/// A recorded world may, where its store and the clock that it asks may.
pub fn recorded_sent<S: ObjectStore + Send, K: Clock + Send, L: SourceLog>(
    recorded: &Recorded<S, K, L>,
) {
    sent(recorded);
}

/// So may one of many that share it, beside which the others take their turns.
pub fn shared_sent<'a, R: Sync, S: ObjectStore + Send, K: Clock + Send, L: SourceLog>(
    gate: &Shared<'a, R, Recorded<S, K, L>>,
) {
    sent(gate);
}

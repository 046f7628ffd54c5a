//! What holds of the definitions alone. Each law is the contract of a function that does nothing.

ghost use Rattle.std.specs.Prelude.{List};
ghost use Rattle.source_log.specs.Log.{Extends};
ghost use Rattle.real_edge.specs.Growing.{Grown, Grow, log_of};

/// Where files only grow, each record of the log that they were stays one of the log that they are, in its place. So a crash, which
/// leaves what files tell (`stays` of `GrowingFiles`), leaves each record that was ever given.
pub fn records_stay()
    ensures { (old new : List Grown) → Grow old new → Extends (log_of old) (log_of new) }
{}

//! Why an entry may not come next.

use index_config::ConfigError;
use query_reader::QueryError;
use source_checkpoint::StaleDelta;
use split_states::StateRefusal;
use thiserror::Error;

/// Why an entry may not come next.
#[derive(Debug, Drop, Error)]
pub enum Refusal {
    /// The moment is below that of an entry before.
    #[error("moment {given} is below {greatest}")]
    MomentBack { given: u64, greatest: u64 },
    /// The first entry is no Create.
    #[error("not created")]
    NotCreated,
    #[error("already created")]
    AlreadyCreated,
    /// The bytes of a Create are no configuration: what its reader says.
    #[error(transparent)]
    BadConfig(ConfigError),
    /// A Stage's number or a Task's opstamp isn't the next one.
    #[error("{given} is not {next}")]
    NotNext { given: u64, next: u64 },
    #[error(transparent)]
    Delta(StaleDelta),
    #[error(transparent)]
    State(StateRefusal),
    /// A field of a Task is no path of a text field, or its text doesn't read: what its reader says.
    #[error(transparent)]
    BadTask(QueryError),
    /// A Replace or a Raise goes beyond the last task.
    #[error("{upto} is above {last}")]
    UptoAhead { upto: u64, last: u64 },
    #[error("{count} tasks stand")]
    TooManyTasks { count: usize },
    /// Rows in any state.
    #[error("{count} rows stand")]
    TooManyRows { count: usize },
    /// The live spans, with those of the delta. A sum of two counts may pass 64 bits.
    #[error("{count} spans")]
    TooManySpans { count: u128 },
}

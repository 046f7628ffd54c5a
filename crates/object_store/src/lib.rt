//! Objects under keys: what every store of them promises, and two that keep them in memory.
#![tactic(auto)]

mod given;
mod kept;
mod key;
mod memory;
mod objects;
mod plan;
mod shelf;
mod steady;
mod store;

pub use given::given_behind;
pub use key::{Key, KeyError, Keys};
pub use memory::MemoryStore;
pub use plan::Landing;
pub use steady::SteadyStore;
pub use store::{CreateError, GetError, ListError, ObjectStore, Piece};

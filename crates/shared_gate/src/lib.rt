//! One world that many share: each of them takes a turn for each call, and all calls stand in one list.
#![tactic(auto)]

mod call;
pub mod crossing;
mod recorded;
mod shared;

pub use call::Call;
pub use recorded::{Event, Opening, Recorded};
pub use shared::Shared;

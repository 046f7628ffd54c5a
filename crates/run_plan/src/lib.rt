//! Who does what in a run: the partitions of each indexer, the clients of each searcher, and the replies of all in the order of the requests.
#![tactic(auto)]

mod clients;
mod dealing;
mod partitions;

pub use clients::{Asking, Clients, Request};
pub use dealing::dealt;
pub use partitions::{assigned, every};

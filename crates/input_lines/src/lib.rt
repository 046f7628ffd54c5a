//! An input line by line, within limits, and the requests of a run.
#![tactic(auto)]

mod lines;
mod pieces;
mod request;
mod requests;

pub use lines::{Lines, MAX_INPUT, MAX_LINE, Next};
pub use requests::{
    MAX_CLIENTS, MAX_REQUESTS, ReadEnd, read_requests, requests_are_read_in_one_way,
};

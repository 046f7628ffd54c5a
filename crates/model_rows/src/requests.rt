//! Requests and replies.

pub mod answers;
mod asked;
pub mod refusals;
pub mod replies;
mod schemas;

//! What one split answers to a request.

pub mod answers;
mod views;

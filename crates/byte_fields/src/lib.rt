//! Fields as bytes, each with one spelling, and the traits of what is read and written.
#![tactic(auto)]

mod bytes;
mod calls;
mod client;
mod corrupt;
mod field_error;
mod list;
mod put;
mod replica;
mod sink;
mod source;
mod steps;
mod take;
mod text;

pub use bytes::Bytes;
pub use calls::{Calls, Failed};
pub use client::Client;
pub use corrupt::Corrupt;
pub use field_error::FieldError;
pub use list::List;
pub use put::{put_bytes, put_eight, put_flag, put_four, put_signed, put_varint};
pub use replica::Replica;
pub use sink::{MemorySink, Sink};
pub use source::{MemorySource, Source};
pub use steps::{take_count, take_piece};
pub use take::{take_bytes, take_eight, take_flag, take_four, take_signed, take_text, take_varint};
pub use text::{Text, Texts};

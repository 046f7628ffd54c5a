//! The schema of an index, its documents and their values, and what is printed of a document.
#![tactic(auto)]

pub mod bytes;
pub mod doc;
pub mod facts;
pub mod items;
pub mod printing;
pub mod replica;
pub mod rows;
pub mod schema;
pub mod terms;
pub mod text;
pub mod values;

pub use bytes::Bytes;
pub use doc::{Doc, DocField, Value, Values};
pub use facts::{FieldTags, TagFacts, Tags, Terms, TimeRange};
pub use items::List;
pub use printing::print_doc;
pub use replica::Replica;
pub use schema::{Field, Fields, Kind, Schema, Tokenizer};
pub use terms::{term_bytes, turned};
pub use text::Text;

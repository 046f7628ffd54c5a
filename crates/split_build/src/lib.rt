//! A split file and its facts, built from placed documents, one after the other or from a list of them.
#![tactic(auto)]

mod bodies;
mod build_error;
mod builder;
mod building;
mod column_parts;
mod column_texts;
mod columns;
mod documents;
mod file;
mod gathering;
mod key_groups;
mod key_order;
mod occurrences;
mod sections;
mod tag_parts;
mod tags;
mod term_parts;
mod terms;
mod times;
mod weights;

pub use bodies::put_body;
pub use build_error::BuildError;
pub use builder::{Builder, BuiltSplit};
pub use building::build;
pub use column_parts::{ColumnSection, column_logs, write_columns};
pub use columns::{ColumnLog, text_place};
pub use documents::{DocumentLog, Piece, name_number, places_of, rising_names};
pub use file::{FileBegun, FileParts, begin_file};
pub use gathering::Spot;
pub use key_groups::KeyGroups;
pub use occurrences::Walker;
pub use tag_parts::{tag_facts, tag_logs};
pub use tags::TagLog;
pub use term_parts::{TermParts, write_terms};
pub use terms::{Occurrences, Run, TermLog};

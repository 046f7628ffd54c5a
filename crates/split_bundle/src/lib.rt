//! What a split file says: its documents, dictionary, postings, positions and columns, read whole or by its parts.
#![tactic(auto)]

mod documents;
mod footer;
mod layout;
mod part_view;
mod parts;
mod pieces;
mod placed;
mod shared;
mod split_error;
mod split_view;
mod whole;

pub use footer::Footer;
pub use layout::{ColumnStart, Sections};
pub use part_view::PartView;
pub use pieces::{FilePiece, Pieces, Section};
pub use placed::{Address, Placed, PlacedList};
pub use split_error::SplitError;
pub use split_view::SplitView;
pub use whole::read_split;

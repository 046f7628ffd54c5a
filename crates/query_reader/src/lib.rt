//! Reads and prints query texts.
#![tactic(auto)]

mod asked;
mod fault;
mod kind;
mod numbers;
mod printer;
mod reader;
mod refusal;
mod resolve;
mod scan;
mod special;
mod texts;
mod tree;
mod unmapped;

pub use fault::{Fault, QuerySyntaxError};
pub use numbers::FieldNumbers;
pub use printer::print_query;
pub use refusal::QueryError;
pub use resolve::read_query;
pub use special::{Bound, Compare, Member, Ranged};
pub use tree::{Ask, Clause, Raw, Span};

// A query as it is written.

use crate::special::{Member, Ranged};

/// A part of the text.
#[derive(Clone, Copy)]
pub struct Span {
    pub from: usize,
    pub to: usize,
}

/// What is asked of a field.
#[derive(Drop)]
pub enum Ask {
    Any,
    Word(Span),
    Prefix(Span),
    Quoted(Span),
    /// A range or a comparison, and where its bracket or sign stands.
    Within(usize, Ranged),
    /// A set, and where its `IN` stands.
    OneOf(usize, Vec<Member>),
}

/// A question to one field, or to the default fields.
#[derive(Drop)]
pub struct Clause {
    pub field: Option<Span>,
    pub ask: Ask,
}

/// A query as it is written, with its brackets.
#[derive(Drop)]
pub enum Raw {
    Leaf(Clause),
    Group(Box<Raw>),
    Not(Box<Raw>),
    And(Vec<Raw>),
    Or(Vec<Raw>),
}

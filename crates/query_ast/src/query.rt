// The query tree.

use doc_value::{List, Replica, Text, Value};
use std::alloc::{AllocError, Global};

/// A member of a set, and whether it is quoted.
#[derive(Drop)]
pub struct Item {
    pub text: Text,
    pub quoted: bool,
}

impl Replica for Item {
    fn copy(&self, alloc: Global) -> Result<Item, AllocError> {
        Ok(Item {
            text: self.text.copy(alloc)?,
            quoted: self.quoted,
        })
    }
}

/// The members of a set.
pub type Items = List<Item>;

/// An edge of a range.
#[derive(Drop)]
pub enum Edge {
    Unbounded,
    Included(Value),
    Excluded(Value),
}

impl Replica for Edge {
    fn copy(&self, alloc: Global) -> Result<Edge, AllocError> {
        match self {
            Edge::Unbounded => Ok(Edge::Unbounded),
            Edge::Included(value) => Ok(Edge::Included(value.copy(alloc)?)),
            Edge::Excluded(value) => Ok(Edge::Excluded(value.copy(alloc)?)),
        }
    }
}

/// A query. A field is named by its number in the schema. The lists of And and Or have at least two members.
#[derive(Drop)]
pub enum Query {
    All,
    Nothing,
    Word { field: usize, text: Text },
    Quoted { field: usize, text: Text },
    Prefix { field: usize, text: Text },
    Exists { field: usize },
    Range { field: usize, low: Edge, high: Edge },
    AnyOf { field: usize, items: Items },
    Not(Box<Query>),
    And(Vec<Query>),
    Or(Vec<Query>),
}

use crate::bytes::Bytes;
use crate::{List, Replica};
use std::alloc::{AllocError, Global};

/// Byte strings in a list, as the distinct values of a tag field in rising order.
pub type Terms = List<Bytes>;

/// What is known of a tag field's values: that there are many, or the rising list of the distinct ones.
#[derive(Drop)]
pub enum Tags {
    Many,
    Listed(Terms),
}

impl Replica for Tags {
    fn copy(&self, alloc: Global) -> Result<Tags, AllocError> {
        match self {
            Tags::Many => Ok(Tags::Many),
            Tags::Listed(terms) => Ok(Tags::Listed(terms.copy(alloc)?)),
        }
    }
}

/// A tag field by its number, and what is known of its values.
#[derive(Drop)]
pub struct FieldTags {
    pub number: usize,
    pub tags: Tags,
}

impl Replica for FieldTags {
    fn copy(&self, alloc: Global) -> Result<FieldTags, AllocError> {
        Ok(FieldTags {
            number: self.number,
            tags: self.tags.copy(alloc)?,
        })
    }
}

/// What is known of the tag fields of a set of documents, by rising numbers.
pub type TagFacts = List<FieldTags>;

/// The seconds from `start` on and below `end`, as far as they are given.
#[derive(Clone, Copy, Drop)]
pub struct TimeRange {
    pub start: Option<i64>,
    pub end: Option<i64>,
}

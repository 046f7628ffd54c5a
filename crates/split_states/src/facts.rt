//! What is known of a split file without reading it.

ghost use Rattle.std.specs.Prelude.{◌≡◌, IfOk};

use doc_value::{Replica, TagFacts};
use std::alloc::{AllocError, Global};

/// The documents of a split weigh at most so much together.
pub const MAX_WEIGHT: u64 = 268_435_456;

/// The least and the greatest second of some documents.
#[derive(Clone, Copy, Drop)]
pub struct Times {
    pub least: i64,
    pub greatest: i64,
}

/// The documents of a split file, the records of its ranges that were refused, the weight of its documents
/// in bytes, the size of the file in bytes and its SHA-256, the times of its documents, and what is known of
/// each tag field.
#[derive(Drop)]
pub struct RowFacts {
    pub docs: u64,
    pub rejected: u64,
    pub weight: u64,
    pub size: u64,
    pub digest: [u8; 32],
    pub times: Option<Times>,
    pub tags: TagFacts,
}

impl RowFacts {
    pub fn copy(&self, alloc: Global) -> Result<RowFacts, AllocError>
        ensures { IfOk result (λ facts. facts ≡ self.now) }
    {
        let tags = self.tags.copy(alloc)?;
        Ok(RowFacts {
            docs: self.docs,
            rejected: self.rejected,
            weight: self.weight,
            size: self.size,
            digest: self.digest,
            times: self.times,
            tags,
        })
    }
}

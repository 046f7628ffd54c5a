ghost use Rattle.std.specs.Prelude.{◌≡◌, IfOk};

use crate::lists::{FieldFormats, FieldNumbers};
use doc_value::{Replica, Schema};
use std::alloc::{AllocError, Global};

/// What becomes of keys that the schema doesn't have.
#[derive(Clone, Copy)]
pub enum Mode {
    Strict,
    Lenient,
    Dynamic,
}

/// Which spellings a datetime field takes.
#[derive(Clone, Copy)]
pub struct Formats {
    pub rfc3339: bool,
    pub unix: bool,
}

/// Which splits are merged, and when a split is mature, in seconds.
#[derive(Clone, Copy)]
pub enum Policy {
    StableLog {
        min_level_num_docs: u64,
        merge_factor: u64,
        max_merge_factor: u64,
        maturation_period: u64,
    },
    LimitMerge {
        merge_factor: u64,
        max_merge_factor: u64,
        max_merge_ops: u64,
        maturation_period: u64,
    },
    NoMerge,
}

/// An accepted configuration. `formats` has one member for each field of the schema; times are in seconds. Without a `retention`
/// splits are kept for ever.
#[derive(Drop)]
pub struct IndexConfig {
    pub schema: Schema,
    pub mode: Mode,
    pub timestamp_field: Option<usize>,
    pub formats: FieldFormats,
    pub default_fields: FieldNumbers,
    pub commit_timeout: u64,
    pub docs_target: u64,
    pub policy: Policy,
    pub staged_grace: u64,
    pub deletion_grace: u64,
    pub retention: Option<u64>,
}

impl IndexConfig {
    pub fn copy(&self, alloc: Global) -> Result<IndexConfig, AllocError>
        ensures { IfOk result (λ c. c ≡ self.now) }
    {
        let formats = self.formats.copy(alloc)?;
        let default_fields = self.default_fields.copy(alloc)?;
        let schema = self.schema.copy(alloc)?;
        Ok(IndexConfig {
            schema,
            mode: self.mode,
            timestamp_field: self.timestamp_field,
            formats,
            default_fields,
            commit_timeout: self.commit_timeout,
            docs_target: self.docs_target,
            policy: self.policy,
            staged_grace: self.staged_grace,
            deletion_grace: self.deletion_grace,
            retention: self.retention,
        })
    }
}

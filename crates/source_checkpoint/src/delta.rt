//! The ranges of records that one split takes in.

ghost use Rattle.std.specs.Prelude.{◌≡◌, ◌<◌, ◌++◌, ◌∷◌, [], length, take, slice_get, Some, OnOk, OnErr, IsOk, ◌↔◌};
ghost use Rattle.source_checkpoint.specs.Deltas.{IsDelta, answer_to_delta, answer_to_part, Names, Part};

use crate::partition::Partition;
use std::alloc::{AllocError, Global};
use std::marker::Model;
use thiserror::Error;

/// The records of one partition from `from` up to and without `to`.
#[derive(Drop)]
pub struct Part {
    pub partition: Partition,
    pub from: u64,
    pub to: u64,
}

impl Part {
    pub fn copy(&self) -> Part
        ensures { result ≡ self.now }
    {
        Part {
            partition: self.partition.copy(),
            from: self.from,
            to: self.to,
        }
    }
}

/// The parts that a split takes in.
#[derive(Drop)]
pub struct Delta {
    parts: Vec<Part>,
}

impl Model for Delta {
    ghost use Rattle.std.specs.Prelude.{List};
    ghost use Rattle.source_checkpoint.specs.declared.delta.Part.{Part};

    ghost Value = { List Part };

    ghost view = { λ d. d.parts.items };
}

/// Why a delta may not be taken in.
#[derive(Debug, Drop, Error)]
pub enum StaleDelta {
    /// The part begins elsewhere than at its partition's checkpoint, which is `current`.
    #[error("{partition} stands at {current} and not at {from}")]
    Stale {
        partition: Partition,
        current: u64,
        from: u64,
    },
    /// The part doesn't end behind its start.
    #[error("{partition} goes backward")]
    BackwardDelta {
        partition: Partition,
    },
    /// A part before it names its partition too.
    #[error("{partition} is doubled")]
    DoubledPartition {
        partition: Partition,
    },
}

/// Whether one of these parts is of the partition.
fn names(parts: &[Part], partition: &Partition) -> bool
    ensures { result ≡ Names parts.now partition.now }
{
    parts.iter().any(|part| part.partition.is(partition))
}

impl Delta {
    pub fn vacant(alloc: Global) -> Delta
        ensures { result ≡ [] }
    {
        Delta {
            parts: Vec::new(alloc),
        }
    }

    pub fn from_vec(parts: Vec<Part>) -> Delta
        ensures { result ≡ parts.items }
    {
        Delta { parts }
    }

    pub fn push(&mut self, part: Part) -> Result<(), AllocError>
        ensures ok { OnOk result (self.new ≡ self.old ++ part ∷ []) }
        ensures err { OnErr result (self.new ≡ self.old) }
    {
        self.parts.push(part)?;
        Ok(())
    }

    pub fn len(&self) -> usize
        ensures { result ≡ length self.now }
    {
        self.parts.len()
    }

    pub fn at(&self, index: usize) -> &Part
        requires { index < length self.now }
        ensures { slice_get self.now index ≡ Some result.now }
    {
        &self.parts[index]
    }

    pub fn as_slice(&self) -> &[Part]
        ensures { result.now ≡ self.now }
    {
        self.parts.as_slice()
    }

    /// The first part that is doubled or backward, in this order for each part. It takes no memory.
    pub fn check(&self) -> Result<(), StaleDelta>
        ensures answer { result ≡ answer_to_delta [] self.now }
        ensures ok { IsOk result ↔ IsDelta self.now }
    {
        check_parts(self.as_slice())
    }
}

fn check_parts(parts: &[Part]) -> Result<(), StaleDelta>
    ensures { result ≡ answer_to_delta [] parts.now }
{
    for (i, part) in parts.iter().enumerate() {
        check_part(&parts[..i], part)?;
    }
    Ok(())
}

/// Whether a part may stand behind these.
pub fn check_part(before: &[Part], part: &Part) -> Result<(), StaleDelta>
    ensures { result ≡ answer_to_part before.now part.now }
{
    if names(before, &part.partition) {
        return Err(StaleDelta::DoubledPartition {
            partition: part.partition.copy(),
        });
    }
    if part.from >= part.to {
        return Err(StaleDelta::BackwardDelta {
            partition: part.partition.copy(),
        });
    }
    Ok(())
}

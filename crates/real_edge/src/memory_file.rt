//! A file in memory, as one that grows.

ghost use Rattle.std.specs.Prelude.{◌≡◌, ◌<◌, ◌≤◌, ◌^◌, ◌∷◌, [], Some, IfOk, length, take, drop};
ghost use Rattle.source_checkpoint.specs.Names.{IsPartition};
ghost use Rattle.real_edge.specs.Growing.{Grow, one_is_grown};

use crate::faults::Trouble;
use crate::growing_files::GrowingFiles;
use byte_fields::Bytes;
use source_checkpoint::Partition;
use source_log::Partitions;
use std::alloc::{AllocError, Global};

/// The file of one partition, all of which is on the disk, and to which nobody appends.
#[derive(Drop)]
pub struct MemoryFile {
    partition: Partition,
    bytes: Bytes,
    ghost named: { IsPartition partition },
    ghost small: { length bytes < 2 ^ 63 },
}

// The bytes from a place on, as many as there are up to a number.
fn piece_of(alloc: Global, bytes: &[u8], from: u64, len: u64) -> Result<Bytes, AllocError>
    ensures bytes { IfOk result (λ piece. piece ≡ take len (drop from bytes.now)) }
    ensures bound { IfOk result (λ piece. length piece ≤ len) }
{
    let size = bytes.len();
    let start = size.min(from as usize);
    let count = (size - start).min(len as usize);
    Bytes::from_slice(alloc, &bytes[start..start + count])
}

impl MemoryFile {
    pub fn of(partition: Partition, bytes: Bytes) -> MemoryFile
        requires { length bytes < 2 ^ 63 }
        ensures partition { result.partition ≡ partition }
        ensures bytes { result.bytes ≡ bytes }
    {
        let _name = partition.as_bytes();
        MemoryFile { partition, bytes }
    }
}

impl GrowingFiles for MemoryFile {
    ghost told = { λ f. Some (record { name = f.partition; bytes = f.bytes } ∷ []) };

    ghost may_leave = { λ f c. Grow (record { name = f.partition; bytes = f.bytes } ∷ []) c };

    fn names(&mut self, alloc: Global) -> Result<Partitions, Trouble> {
        Ok(Partitions::one(alloc, self.partition)?)
    }

    fn can_open(&mut self, _alloc: Global, partition: &Partition) -> Result<bool, Trouble> {
        Ok(self.partition.is(partition))
    }

    fn settle(&mut self, _alloc: Global, partition: &Partition) -> Result<Option<u64>, Trouble> {
        if self.partition.is(partition) {
            Ok(Some(self.bytes.len() as u64))
        } else {
            Ok(None)
        }
    }

    fn read(
        &mut self,
        alloc: Global,
        partition: &Partition,
        from: u64,
        len: u64,
    ) -> Result<Bytes, Trouble> {
        if self.partition.is(partition) {
            Ok(piece_of(alloc, self.bytes.as_slice(), from, len)?)
        } else {
            Ok(Bytes::vacant(alloc))
        }
    }

    fn may_pass_over(&self) -> bool {
        false
    }

    fn path(&self) -> &str {
        ""
    }

    fn room(&self) -> usize {
        0
    }

    ghost sound = { λ f. one_is_grown f.partition f.bytes f.named f.small };

    ghost stays = { λ f c grow. grow };
}

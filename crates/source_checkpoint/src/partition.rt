//! The names of partitions.

ghost use Rattle.std.specs.Prelude.{◌≡◌, ◌↔◌, IsTrue, IfOk, IfErr, bytes_eq};
ghost use Rattle.std.specs.Ordering.{nat_cmp};
ghost use Rattle.std.specs.Cmp.Lexicographic.{slice_cmp};
ghost use Rattle.source_checkpoint.specs.Names.{IsPartition, IsBadNameAt, is_name_byte};

use std::alloc::AllocError;
use std::cmp::Ordering;
use std::fmt;
use std::marker::Model;
use thiserror::Error;

const NAME_SIZE: usize = 64;

/// The name of a partition: 1 to 64 bytes of letters, digits, `-`, `_` and `.`. Copying one takes no memory.
pub struct Partition {
    bytes: [u8; 64],
    len: usize,
}

/// Why a text names no partition: `at` is its first byte outside the letters of a name, 0 for the empty
/// text, and 64 for a longer one.
#[derive(Clone, Copy, Debug, Error)]
#[error("no partition's name at {at}")]
pub struct PartitionError {
    pub at: usize,
}

impl Model for Partition {
    ghost use Rattle.std.specs.Prelude.{◌≡◌, ◌≤◌, ◌-◌, ◌++◌, List, ℕ, length, take, drop, replicate};

    ghost Value = { List ℕ };

    ghost use Rattle.source_checkpoint.specs.NameFields.{name_again};
    ghost use Rattle.source_checkpoint.specs.Names.{IsPartition};

    ghost view = { λ p. take p.len p.bytes };

    ghost invariant = { λ p. (p.len ≤ 64) × (length p.bytes ≡ 64) × (drop p.len p.bytes ≡ replicate (64 - p.len) 0) × IsPartition (take p.len p.bytes) };

    ghost inverse = { λ v. record { bytes = v ++ replicate (64 - length v) 0; len = length v } };

    ghost inverse_ok = { name_again };
}

impl Clone for Partition {
    ghost use Rattle.std.specs.Prelude.{◌≡◌, ⊤};

    ghost is_clone = { λ s r. r ≡ s };

    ghost is_infallible = { λ _. ⊤ };

    fn clone(&self) -> Result<Partition, AllocError> {
        Ok(*self)
    }
}

impl Copy for Partition {}

fn is_name_byte(byte: u8) -> bool
    ensures { result ≡ is_name_byte byte }
{
    matches!(byte, b'a'..=b'z' | b'A'..=b'Z' | b'0'..=b'9' | b'-' | b'_' | b'.')
}

impl Partition {
    /// The partition that these bytes name.
    fn of(name: &[u8]) -> Partition
        requires { IsPartition name.now }
        ensures { result ≡ name.now }
    {
        let mut bytes = [0u8; NAME_SIZE];
        bytes[..name.len()].copy_from_slice(name);
        Partition {
            bytes,
            len: name.len(),
        }
    }

    /// The partition that a text names.
    pub fn from_text(text: &str) -> Result<Partition, PartitionError>
        ensures ok { IfOk result (λ partition. (partition ≡ text.now) × IsPartition text.now) }
        ensures err { IfErr result (λ e. IsBadNameAt text.now e.at) }
    {
        let bytes = text.as_bytes();
        if bytes.is_empty() {
            return Err(PartitionError { at: 0 });
        }
        for (at, byte) in bytes.iter().enumerate() {
            if at == NAME_SIZE || !is_name_byte(*byte) {
                return Err(PartitionError { at });
            }
        }
        Ok(Partition::of(bytes))
    }

    /// The bytes of the name.
    pub fn as_bytes(&self) -> &[u8]
        ensures value { result.now ≡ self.now }
        // Every partition has a name of this form.
        ensures good { IsPartition self.now }
    {
        &self.bytes[..self.len]
    }

    /// The order of the names' bytes.
    pub fn compare(&self, other: &Partition) -> Ordering
        ensures { result ≡ slice_cmp nat_cmp self.now other.now }
    {
        self.as_bytes().cmp(other.as_bytes())
    }

    /// Whether both are one partition.
    pub fn is(&self, other: &Partition) -> bool
        ensures value { result ≡ bytes_eq self.now other.now }
        ensures same { IsTrue result ↔ (self.now ≡ other.now) }
    {
        self.as_bytes() == other.as_bytes()
    }

    pub fn copy(&self) -> Partition
        ensures { result ≡ self.now }
    {
        *self
    }
}

/// The name itself.
impl fmt::Display for Partition {
    ghost use Rattle.std.specs.Prelude.{Some};

    ghost output = { λ name. Some name };

    fn fmt<W: fmt::Write>(&self, f: &mut fmt::Formatter<W>) -> fmt::Result {
        let Ok(name) = str::from_utf8(self.as_bytes()) else {
            unreachable!();
        };
        f.write_str(name)
    }
}

impl fmt::Debug for Partition {
    ghost use Rattle.std.specs.Prelude.{Some};

    ghost debug_output = { λ name. Some name };

    fn fmt<W: fmt::Write>(&self, f: &mut fmt::Formatter<W>) -> fmt::Result {
        write!(f, "{self}")
    }
}

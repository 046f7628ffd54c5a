ghost use Rattle.std.specs.Prelude.{◌≡◌, ◌≤◌, ◌+◌, ◌++◌, ◌∷◌, [], List, ℕ, length, take, drop, Option, Some, Contains, IsErr, IsOk, OnOk, OnErr, ◌↔◌, vec_len};
ghost use Rattle.std.specs.Io.{ReadsAtMost};
ghost use Rattle.std.specs.Io.KnownBytes.{ReadConsumes};
ghost use Rattle.byte_fields.specs.Causes.{HasCause, following};

use crate::{Bytes, Calls, Failed};
use std::alloc::AllocError;

/// What is read, piece by piece.
pub trait Source {
    /// The bytes that are left, where it tells them.
    ghost left: { Self → Option (List ℕ) };

    /// How often it has failed, up to 2 ^ 64 - 1.
    ghost fault_count: { Self → ℕ };

    /// Fills the buffer from its front, and says how far. A read of 0 into a buffer that is not empty is the end of the input.
    fn read(&mut self, buffer: &mut [u8]) -> Result<usize, Failed>
        ensures bound { ReadsAtMost result buffer.new }
        // Where it tells, the bytes are the next ones, and 0 comes only at the end.
        ensures bytes { ReadConsumes (left self.old) (left self.new) result buffer.new }
        ensures cause { HasCause (fault_count self.old) (fault_count self.new) (IsErr result) };

    fn faults(&self) -> u64
        ensures { result ≡ fault_count self.now };
}

/// Bytes in memory, read from the front.
#[derive(Drop)]
pub struct MemorySource {
    content: Bytes,
    at: usize,
    calls: Calls,
    ghost within: { at ≤ length content },
}

impl MemorySource {
    /// All of the content is left, and no call is to fail.
    pub fn from_bytes(content: Bytes) -> MemorySource
        ensures left { drop result.at result.content ≡ content }
        ensures made { result.calls.made ≡ 0 }
        ensures failing { result.calls.failing.items ≡ [] }
        ensures faults { result.calls.faults ≡ 0 }
    {
        let calls = Calls::vacant(content.allocator());
        MemorySource {
            content,
            at: 0,
            calls,
        }
    }

    /// Makes the call of `read` with this number, counted from 1, fail.
    pub fn fail_call(&mut self, number: u64) -> Result<(), AllocError>
        ensures ok { OnOk result (self.new.calls.failing.items ≡ self.old.calls.failing.items ++ number ∷ []) }
        ensures err { OnErr result (self.new.calls.failing.items ≡ self.old.calls.failing.items) }
        ensures content { self.new.content ≡ self.old.content }
        ensures at { self.new.at ≡ self.old.at }
        ensures made { self.new.calls.made ≡ self.old.calls.made }
        ensures faults { self.new.calls.faults ≡ self.old.calls.faults }
    {
        self.calls.fail_call(number)
    }
}

impl Source for MemorySource {
    ghost left = { λ s. Some (drop s.at s.content) };

    ghost fault_count = { λ s. s.calls.faults };

    fn read(&mut self, buffer: &mut [u8]) -> Result<usize, Failed>
        ensures bound { ReadsAtMost result buffer.new }
        ensures bytes { ReadConsumes (Some (drop self.old.at self.old.content)) (Some (drop self.new.at self.new.content)) result buffer.new }
        ensures cause { HasCause self.old.calls.faults self.new.calls.faults (IsErr result) }
        // It fails exactly where the call's number is among those that are to fail.
        ensures fails { IsErr result ↔ Contains self.old.calls.failing.items (following self.old.calls.made) }
        ensures made { self.new.calls.made ≡ following self.old.calls.made }
        ensures failing { self.new.calls.failing.items ≡ self.old.calls.failing.items }
    {
        self.calls.begin()?;
        let left = &self.content.as_slice()[self.at..];
        let count = buffer.len().min(left.len());
        buffer[..count].copy_from_slice(&left[..count]);
        self.at += count;
        Ok(count)
    }

    fn faults(&self) -> u64 {
        self.calls.faults()
    }
}

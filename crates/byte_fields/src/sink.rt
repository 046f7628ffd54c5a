ghost use Rattle.std.specs.Prelude.{◌≡◌, ◌≤◌, ◌<◌, ◌+◌, ◌++◌, ◌∷◌, ◌↔◌, ◌⊎◌, [], List, ℕ, length, take, drop, Option, Some, Contains, IsErr, IfOk, OnOk, OnErr, min, ◌-◌, vec_capacity};
ghost use Rattle.std.specs.Io.{WritesAtMost};
ghost use Rattle.std.specs.Io.KnownBytes.{WriteAppends};
ghost use Rattle.byte_fields.specs.Causes.{HasCause, following};

use crate::{Calls, Failed};
use std::alloc::{AllocError, Global};

/// What is written to.
pub trait Sink {
    /// The bytes that it holds, where it tells them.
    ghost content: { Self → Option (List ℕ) };

    /// How often it has failed, up to 2 ^ 64 - 1.
    ghost fault_count: { Self → ℕ };

    /// Takes some of the piece from its front, and says how much: none of it only where the piece is empty.
    fn write(&mut self, piece: &[u8]) -> Result<usize, Failed>
        ensures bound { WritesAtMost result piece.now }
        ensures some { IfOk result (λ n. 0 < length piece.now → 0 < n) }
        ensures bytes { WriteAppends (content self.old) (content self.new) result piece.now }
        ensures cause { HasCause (fault_count self.old) (fault_count self.new) (IsErr result) };

    fn faults(&self) -> u64
        ensures { result ≡ fault_count self.now };
}

/// A buffer in memory of a fixed size.
#[derive(Drop)]
pub struct MemorySink {
    content: Vec<u8>,
    room: usize,
    calls: Calls,
    ghost within: { length content.items ≤ room },
    ghost made: { room ≤ vec_capacity content },
}

impl MemorySink {
    /// Takes at most `room` bytes in all. The room is made now, so a write takes no memory.
    pub fn with_room(alloc: Global, room: usize) -> Result<MemorySink, AllocError>
        ensures content { IfOk result (λ s. s.content.items ≡ []) }
        ensures room { IfOk result (λ s. s.room ≡ room) }
        ensures made { IfOk result (λ s. s.calls.made ≡ 0) }
        ensures failing { IfOk result (λ s. s.calls.failing.items ≡ []) }
        ensures faults { IfOk result (λ s. s.calls.faults ≡ 0) }
    {
        let content = Vec::with_capacity(alloc, room)?;
        Ok(MemorySink {
            content,
            room,
            calls: Calls::vacant(alloc),
        })
    }
}

impl MemorySink {
    /// Makes the call of `write` with this number, counted from 1, fail.
    pub fn fail_call(&mut self, number: u64) -> Result<(), AllocError>
        ensures ok { OnOk result (self.new.calls.failing.items ≡ self.old.calls.failing.items ++ number ∷ []) }
        ensures err { OnErr result (self.new.calls.failing.items ≡ self.old.calls.failing.items) }
        ensures content { self.new.content.items ≡ self.old.content.items }
        ensures room { self.new.room ≡ self.old.room }
        ensures made { self.new.calls.made ≡ self.old.calls.made }
        ensures faults { self.new.calls.faults ≡ self.old.calls.faults }
    {
        self.calls.fail_call(number)
    }

    /// What was taken.
    pub fn content(&self) -> &[u8]
        ensures { result.now ≡ self.now.content.items }
    {
        &self.content
    }
}

impl Sink for MemorySink {
    ghost content = { λ s. Some s.content.items };

    ghost fault_count = { λ s. s.calls.faults };

    fn write(&mut self, piece: &[u8]) -> Result<usize, Failed>
        ensures bound { WritesAtMost result piece.now }
        ensures some { IfOk result (λ n. 0 < length piece.now → 0 < n) }
        ensures bytes { WriteAppends (Some self.old.content.items) (Some self.new.content.items) result piece.now }
        ensures cause { HasCause self.old.calls.faults self.new.calls.faults (IsErr result) }
        // It fails exactly where the call's number is among those that are to fail, or no room is left for a piece that is not empty.
        ensures fails { IsErr result ↔ (Contains self.old.calls.failing.items (following self.old.calls.made) ⊎ ((self.old.room ≤ length self.old.content.items) × (0 < length piece.now))) }
        // All that has room is taken.
        ensures most { IfOk result (λ n. n ≡ min (length piece.now) (self.old.room - length self.old.content.items)) }
        ensures room { self.new.room ≡ self.old.room }
        ensures made { self.new.calls.made ≡ following self.old.calls.made }
        ensures failing { self.new.calls.failing.items ≡ self.old.calls.failing.items }
    {
        self.calls.begin()?;
        let count = piece.len().min(self.room - self.content.len());
        if count == 0 && !piece.is_empty() {
            return Err(self.calls.fail());
        }
        // The room was made with the sink, so appending takes no memory.
        match self.content.extend_from_slice(&piece[..count]) {
            Ok(()) => Ok(count),
            Err(_) => Err(self.calls.fail()),
        }
    }

    fn faults(&self) -> u64 {
        self.calls.faults()
    }
}

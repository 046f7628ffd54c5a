ghost use Rattle.std.specs.Prelude.{◌≡◌, ◌<◌, ◌∷◌, [], ◌++◌, length, slice_index, IfOk, OnOk, OnErr, IsTrue, ◌↔◌};

use crate::Replica;
use std::alloc::{AllocError, Global};
use std::marker::Model;

/// Bytes that contracts see as a list.
#[derive(Drop)]
pub struct Bytes {
    held: Vec<u8>,
}

impl Model for Bytes {
    ghost use Rattle.std.specs.Prelude.{List, ℕ};

    ghost Value = { List ℕ };

    ghost view = { λ b. b.held.items };
}

impl Bytes {
    pub fn vacant(alloc: Global) -> Bytes
        ensures { result ≡ [] }
    {
        Bytes {
            held: Vec::new(alloc),
        }
    }

    pub fn from_vec(held: Vec<u8>) -> Bytes
        ensures { result ≡ held.items }
    {
        Bytes { held }
    }

    pub fn from_slice(alloc: Global, piece: &[u8]) -> Result<Bytes, AllocError>
        ensures { IfOk result (λ b. b ≡ piece.now) }
    {
        Ok(Bytes {
            held: Vec::from_slice(alloc, piece)?,
        })
    }

    pub fn into_vec(self) -> Vec<u8>
        ensures { result.items ≡ self }
    {
        let Bytes { held } = self;
        held
    }

    pub fn as_slice(&self) -> &[u8]
        ensures { result.now ≡ self.now }
    {
        &self.held
    }

    pub fn len(&self) -> usize
        ensures { result ≡ length self.now }
    {
        self.held.len()
    }

    pub fn at(&self, index: usize) -> u8
        requires { index < length self.now }
        ensures { result ≡ slice_index self.now index }
    {
        self.held[index]
    }

    pub fn push(&mut self, byte: u8) -> Result<(), AllocError>
        ensures ok { OnOk result (self.new ≡ self.old ++ byte ∷ []) }
        ensures err { OnErr result (self.new ≡ self.old) }
    {
        self.held.push(byte)?;
        Ok(())
    }

    pub fn extend(&mut self, piece: &[u8]) -> Result<(), AllocError>
        ensures ok { OnOk result (self.new ≡ self.old ++ piece.now) }
        ensures err { OnErr result (self.new ≡ self.old) }
    {
        self.held.extend_from_slice(piece)?;
        Ok(())
    }

    pub fn is_same(&self, other: &Bytes) -> bool
        ensures { IsTrue result ↔ (self.now ≡ other.now) }
    {
        self.as_slice() == other.as_slice()
    }
}

impl Replica for Bytes {
    fn copy(&self, alloc: Global) -> Result<Bytes, AllocError> {
        Bytes::from_slice(alloc, &self.held)
    }
}

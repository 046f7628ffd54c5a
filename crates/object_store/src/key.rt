ghost use Rattle.std.specs.Prelude.{◌≡◌, ◌≤◌, ◌<◌, ◌↔◌, List, ℕ, length, IsTrue, IfOk, IfErr};
ghost use Rattle.std.specs.Ordering.{nat_cmp};
ghost use Rattle.std.specs.Cmp.Lexicographic.{slice_cmp};
ghost use Rattle.object_store.specs.Key.{IsKey, IsBadKey, is_key_byte};

use byte_fields::List;
use std::alloc::AllocError;
use std::cmp::Ordering;
use std::marker::Model;
use thiserror::Error;

const KEY_SIZE: usize = 128;

/// A key: 1 to 128 bytes of lower-case letters, digits, `/` and `-`, always. Contracts see it as the list of its bytes.
pub struct Key {
    bytes: [u8; 128],
    len: usize,
}

/// Keys that contracts see as a list.
pub type Keys = List<Key>;

/// Why a text is no key.
#[derive(Clone, Copy, Debug, Error)]
pub enum KeyError {
    /// `at` is the first byte that no key has, 0 for the empty text and 128 for a longer one.
    #[error("no key: byte {at}")]
    BadKey { at: usize },
}

impl Model for Key {
    ghost use Rattle.std.specs.Prelude.{◌≡◌, ◌≤◌, ◌-◌, ◌++◌, List, ℕ, length, take, drop, replicate};

    ghost Value = { List ℕ };

    ghost use Rattle.object_store.specs.Key.{IsKey};
    ghost use Rattle.object_store.specs.KeyFields.{key_again};

    ghost view = { λ k. take k.len k.bytes };

    ghost invariant = { λ k. (k.len ≤ 128) × (length k.bytes ≡ 128) × (drop k.len k.bytes ≡ replicate (128 - k.len) 0) × IsKey (take k.len k.bytes) };

    ghost inverse = { λ v. record { bytes = v ++ replicate (128 - length v) 0; len = length v } };

    ghost inverse_ok = { key_again };
}

impl Clone for Key {
    ghost use Rattle.std.specs.Prelude.{◌≡◌, ⊤};

    ghost is_clone = { λ s r. r ≡ s };

    ghost is_infallible = { λ _. ⊤ };

    fn clone(&self) -> Result<Key, AllocError> {
        Ok(*self)
    }
}

impl Copy for Key {}

fn is_key_byte(byte: u8) -> bool
    ensures { result ≡ is_key_byte byte }
{
    matches!(byte, b'a'..=b'z' | b'0'..=b'9' | b'/' | b'-')
}

impl Key {
    /// The key of these bytes.
    pub fn of(text: &[u8]) -> Key
        requires { IsKey text.now }
        ensures { result ≡ text.now }
    {
        let mut bytes = [0u8; KEY_SIZE];
        bytes[..text.len()].copy_from_slice(text);
        Key {
            bytes,
            len: text.len(),
        }
    }

    /// The key that a text is.
    pub fn from_text(text: &str) -> Result<Key, KeyError>
        ensures ok { IfOk result (λ key. (key ≡ text.now) × IsKey text.now) }
        ensures err { IfErr result (λ e. IsBadKey text.now e) }
    {
        let bytes = text.as_bytes();
        if bytes.is_empty() {
            return Err(KeyError::BadKey { at: 0 });
        }
        for (at, byte) in bytes.iter().enumerate() {
            if at == KEY_SIZE || !is_key_byte(*byte) {
                return Err(KeyError::BadKey { at });
            }
        }
        Ok(Key::of(bytes))
    }

    pub fn as_bytes(&self) -> &[u8]
        ensures bytes { result.now ≡ self.now }
        ensures key { IsKey result.now }
    {
        &self.bytes[..self.len]
    }

    /// The order of the bytes.
    pub fn compare(&self, other: &Key) -> Ordering
        ensures { result ≡ slice_cmp nat_cmp self.now other.now }
    {
        self.as_bytes().cmp(other.as_bytes())
    }

    pub fn is_same(&self, other: &Key) -> bool
        ensures { IsTrue result ↔ (self.now ≡ other.now) }
    {
        self.as_bytes() == other.as_bytes()
    }
}

ghost use Rattle.std.specs.Prelude.{◌≡◌, ◌<◌, ◌∷◌, [], ◌++◌, length, slice_index, string_bytes, IfOk, OnOk, OnErr, IsTrue, ◌↔◌, IsUtf8, encode_utf8};

use std::alloc::{AllocError, Global};
use std::marker::Model;

/// A text of a token in UTF-8, which contracts see as the list of its bytes.
#[derive(Drop)]
pub struct TokenText {
    held: String,
}

impl Model for TokenText {
    ghost use Rattle.std.specs.Prelude.{List, ℕ, string_bytes};

    ghost Value = { List ℕ };

    ghost view = { λ t. string_bytes t.held };
}

impl TokenText {
    pub fn vacant(alloc: Global) -> TokenText
        ensures { result ≡ [] }
    {
        TokenText {
            held: String::new(alloc),
        }
    }

    pub fn from_string(held: String) -> TokenText
        ensures { result ≡ string_bytes held }
    {
        TokenText { held }
    }

    pub fn from_str(alloc: Global, piece: &str) -> Result<TokenText, AllocError>
        ensures { IfOk result (λ t. t ≡ piece.now) }
    {
        Ok(TokenText {
            held: String::from_str(alloc, piece)?,
        })
    }

    pub fn as_str(&self) -> &str
        ensures { result.now ≡ self.now }
    {
        self.held.as_str()
    }

    pub fn as_slice(&self) -> &[u8]
        ensures { result.now ≡ self.now }
    {
        self.held.as_bytes()
    }

    pub fn len(&self) -> usize
        ensures { result ≡ length self.now }
    {
        self.as_slice().len()
    }

    pub fn at(&self, index: usize) -> u8
        requires { index < length self.now }
        ensures { result ≡ slice_index self.now index }
    {
        self.as_slice()[index]
    }

    pub fn push(&mut self, letter: char) -> Result<(), AllocError>
        ensures ok { OnOk result (self.new ≡ self.old ++ encode_utf8 letter) }
        ensures err { OnErr result (self.new ≡ self.old) }
    {
        self.held.push(letter)?;
        Ok(())
    }

    pub fn extend(&mut self, piece: &str) -> Result<(), AllocError>
        ensures ok { OnOk result (self.new ≡ self.old ++ piece.now) }
        ensures err { OnErr result (self.new ≡ self.old) }
    {
        self.held.push_str(piece)?;
        Ok(())
    }

    pub fn copy(&self, alloc: Global) -> Result<TokenText, AllocError>
        ensures { IfOk result (λ t. t ≡ self.now) }
    {
        TokenText::from_str(alloc, self.held.as_str())
    }

    pub fn is_same(&self, other: &TokenText) -> bool
        ensures { IsTrue result ↔ (self.now ≡ other.now) }
    {
        self.as_slice() == other.as_slice()
    }
}

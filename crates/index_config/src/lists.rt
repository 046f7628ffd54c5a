ghost use Rattle.std.specs.Prelude.{◌≡◌, ◌<◌, ◌∷◌, [], ◌++◌, length, slice_get, Some, IfOk, OnOk, OnErr};

use crate::config::Formats;
use std::alloc::{AllocError, Global};
use std::marker::Model;

/// Numbers of fields, in a list.
#[derive(Drop)]
pub struct FieldNumbers {
    list: Vec<usize>,
}

impl Model for FieldNumbers {
    ghost use Rattle.std.specs.Prelude.{List, ℕ};

    ghost Value = { List ℕ };

    ghost view = { λ l. l.list.items };
}

impl FieldNumbers {
    pub fn vacant(alloc: Global) -> FieldNumbers
        ensures { result ≡ [] }
    {
        FieldNumbers {
            list: Vec::new(alloc),
        }
    }

    pub fn from_vec(list: Vec<usize>) -> FieldNumbers
        ensures { result ≡ list.items }
    {
        FieldNumbers { list }
    }

    pub fn as_slice(&self) -> &[usize]
        ensures { result.now ≡ self.now }
    {
        self.list.as_slice()
    }

    pub fn len(&self) -> usize
        ensures { result ≡ length self.now }
    {
        self.list.len()
    }

    pub fn at(&self, index: usize) -> usize
        requires { index < length self.now }
        ensures { slice_get self.now index ≡ Some result }
    {
        self.as_slice()[index]
    }

    pub fn push(&mut self, number: usize) -> Result<(), AllocError>
        ensures ok { OnOk result (self.new ≡ self.old ++ number ∷ []) }
        ensures err { OnErr result (self.new ≡ self.old) }
    {
        self.list.push(number)?;
        Ok(())
    }

    pub fn copy(&self, alloc: Global) -> Result<FieldNumbers, AllocError>
        ensures { IfOk result (λ l. l ≡ self.now) }
    {
        Ok(FieldNumbers {
            list: Vec::from_slice(alloc, self.as_slice())?,
        })
    }
}

/// The spellings that each field of a schema takes, in the order of the fields.
#[derive(Drop)]
pub struct FieldFormats {
    list: Vec<Formats>,
}

impl Model for FieldFormats {
    ghost use Rattle.std.specs.Prelude.{List};
    ghost use Rattle.index_config.specs.declared.config.Formats.{Formats};

    ghost Value = { List Formats };

    ghost view = { λ l. l.list.items };
}

impl FieldFormats {
    pub fn vacant(alloc: Global) -> FieldFormats
        ensures { result ≡ [] }
    {
        FieldFormats {
            list: Vec::new(alloc),
        }
    }

    pub fn from_vec(list: Vec<Formats>) -> FieldFormats
        ensures { result ≡ list.items }
    {
        FieldFormats { list }
    }

    pub fn as_slice(&self) -> &[Formats]
        ensures { result.now ≡ self.now }
    {
        self.list.as_slice()
    }

    pub fn len(&self) -> usize
        ensures { result ≡ length self.now }
    {
        self.list.len()
    }

    pub fn at(&self, index: usize) -> Formats
        requires { index < length self.now }
        ensures { slice_get self.now index ≡ Some result }
    {
        self.as_slice()[index]
    }

    pub fn push(&mut self, formats: Formats) -> Result<(), AllocError>
        ensures ok { OnOk result (self.new ≡ self.old ++ formats ∷ []) }
        ensures err { OnErr result (self.new ≡ self.old) }
    {
        self.list.push(formats)?;
        Ok(())
    }

    pub fn copy(&self, alloc: Global) -> Result<FieldFormats, AllocError>
        ensures { IfOk result (λ l. l ≡ self.now) }
    {
        Ok(FieldFormats {
            list: Vec::from_slice(alloc, self.as_slice())?,
        })
    }
}

// Numbers of fields.

ghost use Rattle.std.specs.Prelude.{◌≡◌, ◌<◌, ◌∷◌, [], ◌++◌, length, slice_index, IfOk, OnOk, OnErr};

use std::alloc::{AllocError, Global};
use std::marker::Model;

/// Numbers of fields of a schema in an order of their own, as the default fields of an index or a request.
#[derive(Drop)]
pub struct FieldNumbers {
    list: Vec<usize>,
}

impl Model for FieldNumbers {
    ghost use Rattle.std.specs.Prelude.{List, ℕ};

    ghost Value = { List ℕ };

    ghost view = { λ n. n.list.items };
}

impl FieldNumbers {
    pub fn vacant(alloc: Global) -> FieldNumbers
        ensures { result ≡ [] }
    {
        FieldNumbers {
            list: Vec::new(alloc),
        }
    }

    pub fn from_slice(alloc: Global, numbers: &[usize]) -> Result<FieldNumbers, AllocError>
        ensures { IfOk result (λ n. n ≡ numbers.now) }
    {
        Ok(FieldNumbers {
            list: Vec::from_slice(alloc, numbers)?,
        })
    }

    pub fn as_slice(&self) -> &[usize]
        ensures { result.now ≡ self.now }
    {
        self.list.as_slice()
    }

    pub fn len(&self) -> usize
        ensures { result ≡ length self.now }
    {
        self.list.len()
    }

    pub fn at(&self, index: usize) -> usize
        requires { index < length self.now }
        ensures { result ≡ slice_index self.now index }
    {
        self.list[index]
    }

    pub fn push(&mut self, number: usize) -> Result<(), AllocError>
        ensures ok { OnOk result (self.new ≡ self.old ++ number ∷ []) }
        ensures err { OnErr result (self.new ≡ self.old) }
    {
        self.list.push(number)?;
        Ok(())
    }
}

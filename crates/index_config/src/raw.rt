ghost use Rattle.std.specs.Prelude.{◌≡◌, ◌∷◌, [], ◌++◌, slice_get, OnOk, OnErr};

use crate::config::Formats;
use crate::config_error::ConfigError;
use doc_value::{Kind, Text, Tokenizer};
use std::alloc::{AllocError, Global};
use std::marker::Model;

/// A field or object of a configuration: where its name stands, its path, and what its table says. An object has no kind.
#[derive(Drop)]
pub struct RawField {
    pub place: Text,
    pub path: Text,
    pub kind: Option<Kind>,
    pub fast: bool,
    pub indexed: bool,
    pub tokenizer: Tokenizer,
    pub positions: bool,
    pub formats: Formats,
}

/// What a path of the configuration names a field for.
#[derive(Clone, Copy)]
pub enum Purpose {
    Timestamp,
    Tag,
    Default,
}

/// What is wrong with a configuration, in order.
#[derive(Drop)]
pub struct Faults {
    list: Vec<ConfigError>,
}

impl Model for Faults {
    ghost use Rattle.std.specs.Prelude.{List};
    ghost use Rattle.index_config.specs.declared.config_error.ConfigError.{ConfigError};

    ghost Value = { List ConfigError };

    ghost view = { λ f. f.list.items };
}

impl Faults {
    pub fn vacant(alloc: Global) -> Faults
        ensures { result ≡ [] }
    {
        Faults {
            list: Vec::new(alloc),
        }
    }

    pub fn push(&mut self, fault: ConfigError) -> Result<(), AllocError>
        ensures ok { OnOk result (self.new ≡ self.old ++ fault ∷ []) }
        ensures err { OnErr result (self.new ≡ self.old) }
    {
        self.list.push(fault)?;
        Ok(())
    }

    /// The first of them.
    pub fn into_first(self) -> Option<ConfigError>
        ensures { result ≡ slice_get self 0 }
    {
        let Faults { mut list } = self;
        if list.is_empty() {
            return None;
        }
        Some(list.remove(0))
    }
}

/// Fields and objects in reading order.
#[derive(Drop)]
pub struct RawFields {
    list: Vec<RawField>,
}

impl Model for RawFields {
    ghost use Rattle.std.specs.Prelude.{List};
    ghost use Rattle.index_config.specs.declared.raw.RawField.{RawField};

    ghost Value = { List RawField };

    ghost view = { λ f. f.list.items };
}

impl RawFields {
    pub fn vacant(alloc: Global) -> RawFields
        ensures { result ≡ [] }
    {
        RawFields {
            list: Vec::new(alloc),
        }
    }

    pub fn as_slice(&self) -> &[RawField]
        ensures { result.now ≡ self.now }
    {
        self.list.as_slice()
    }

    pub fn push(&mut self, field: RawField) -> Result<(), AllocError>
        ensures ok { OnOk result (self.new ≡ self.old ++ field ∷ []) }
        ensures err { OnErr result (self.new ≡ self.old) }
    {
        self.list.push(field)?;
        Ok(())
    }

    pub fn into_vec(self) -> Vec<RawField>
        ensures { result.items ≡ self }
    {
        let RawFields { list } = self;
        list
    }
}

ghost use Rattle.std.specs.Prelude.{◌≡◌};

use crate::text::Text;
use crate::{List, Replica};
use std::alloc::{AllocError, Global};
use std::cmp::Ordering;

/// What the values of a field are. A text field is one of kind Text or TextList.
#[derive(Clone, Copy)]
pub enum Kind {
    Text,
    I64,
    U64,
    Bool,
    Datetime,
    TextList,
}

/// How a text is cut into tokens.
#[derive(Clone, Copy)]
pub enum Tokenizer {
    Raw,
    Whitespace,
    Default,
}

/// A field: where its values stand in a record (names with dots between), and what is kept of them.
#[derive(Drop)]
pub struct Field {
    pub path: Text,
    pub kind: Kind,
    pub fast: bool,
    pub indexed: bool,
    pub tag: bool,
    pub tokenizer: Tokenizer,
    pub positions: bool,
}

impl Replica for Field {
    fn copy(&self, alloc: Global) -> Result<Field, AllocError> {
        Ok(Field {
            path: self.path.copy(alloc)?,
            kind: self.kind,
            fast: self.fast,
            indexed: self.indexed,
            tag: self.tag,
            tokenizer: self.tokenizer,
            positions: self.positions,
        })
    }
}

/// Fields, which are named by their places from 0 on.
pub type Fields = List<Field>;

/// The fields of an index in byte order of their paths, at most 256, the number of the timestamp field, if any, and that of the
/// field that holds what no other field takes, if any.
#[derive(Drop)]
pub struct Schema {
    pub fields: Fields,
    pub timestamp: Option<usize>,
    pub dynamic: Option<usize>,
}

impl Schema {
    ghost use Rattle.doc_value.specs.Documents.{PathsRise, number_of};

    /// The number of the field with this path, found in logarithmic time.
    pub fn number_of(&self, path: &[u8]) -> Option<usize>
        requires { PathsRise self.now.fields }
        ensures { result ≡ number_of self.now.fields path.now }
    {
        let mut low = 0;
        let mut high = self.fields.len();
        while low < high {
            let middle = low + (high - low) / 2;
            match path.cmp(self.fields.at(middle).path.as_slice()) {
                Ordering::Less => high = middle,
                Ordering::Equal => return Some(middle),
                Ordering::Greater => low = middle + 1,
            }
        }
        None
    }
}

impl Replica for Schema {
    fn copy(&self, alloc: Global) -> Result<Schema, AllocError> {
        Ok(Schema {
            fields: self.fields.copy(alloc)?,
            timestamp: self.timestamp,
            dynamic: self.dynamic,
        })
    }
}

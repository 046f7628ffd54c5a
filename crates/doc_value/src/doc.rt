use crate::text::Text;
use crate::{List, Replica};
use std::alloc::{AllocError, Global};

/// A value of a field. A datetime is whole seconds from 1970 on.
#[derive(Drop)]
pub enum Value {
    Text(Text),
    I64(i64),
    U64(u64),
    Bool(bool),
    Datetime(i64),
}

impl Replica for Value {
    fn copy(&self, alloc: Global) -> Result<Value, AllocError> {
        match self {
            Value::Text(text) => Ok(Value::Text(text.copy(alloc)?)),
            Value::I64(number) => Ok(Value::I64(*number)),
            Value::U64(number) => Ok(Value::U64(*number)),
            Value::Bool(truth) => Ok(Value::Bool(*truth)),
            Value::Datetime(seconds) => Ok(Value::Datetime(*seconds)),
        }
    }
}

/// Values in a list.
pub type Values = List<Value>;

/// A document's values of one field: the field's number and the values in their order.
#[derive(Drop)]
pub struct DocField {
    pub number: usize,
    pub values: Values,
}

impl Replica for DocField {
    fn copy(&self, alloc: Global) -> Result<DocField, AllocError> {
        Ok(DocField {
            number: self.number,
            values: self.values.copy(alloc)?,
        })
    }
}

/// A document: the fields that have values, by rising numbers.
pub type Doc = List<DocField>;

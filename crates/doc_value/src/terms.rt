//! The bytes under which a dictionary lists a value, and the order of values.

ghost use Rattle.std.specs.Prelude.{◌≡◌, IfOk};
ghost use Rattle.doc_value.specs.Terms.{kind_place, term_bytes, truth_byte, turned, value_cmp};

use crate::bytes::Bytes;
use crate::doc::Value;
use std::alloc::{AllocError, Global};
use std::cmp::Ordering;

/// The bytes of a value as a dictionary lists it: a text's own bytes, a number's or datetime's eight with the high one
/// first (a signed one's with the top bit turned), 0 or 1 for a truth value. Of values of one kind no two have the same.
pub fn term_bytes(alloc: Global, value: &Value) -> Result<Bytes, AllocError>
    ensures { IfOk result (λ bytes. bytes ≡ term_bytes value.now) }
{
    match value {
        Value::Text(text) => Bytes::from_slice(alloc, text.as_slice()),
        Value::I64(number) => Bytes::from_slice(alloc, &turned(*number).to_be_bytes()),
        Value::U64(number) => Bytes::from_slice(alloc, &number.to_be_bytes()),
        Value::Bool(truth) => Bytes::from_slice(alloc, &[u8::from(*truth)]),
        Value::Datetime(seconds) => Bytes::from_slice(alloc, &turned(*seconds).to_be_bytes()),
    }
}

/// A signed number with the top one of its 64 bits turned: the numbers so made stand in the order of the signed ones.
pub fn turned(number: i64) -> u64
    ensures { result ≡ turned number }
{
    if number >= 0 {
        return number as u64 + (1 << 63);
    }
    (1 << 63) - 1 - (-(number + 1)) as u64
}

impl Value {
    /// The order by which values are sorted: texts by their bytes, numbers and datetimes by value, false before true.
    /// Values of unlike kinds, which no field has, stand by their kinds.
    pub fn compare(&self, other: &Value) -> Ordering
        ensures { result ≡ value_cmp self.now other.now }
    {
        match (self, other) {
            (Value::Text(a), Value::Text(b)) => a.as_slice().cmp(b.as_slice()),
            (Value::I64(a), Value::I64(b)) => a.cmp(b),
            (Value::U64(a), Value::U64(b)) => a.cmp(b),
            (Value::Bool(a), Value::Bool(b)) => a.cmp(b),
            (Value::Datetime(a), Value::Datetime(b)) => a.cmp(b),
            _ => kind_place(self).cmp(&kind_place(other)),
        }
    }
}

// Where a value's kind stands among the kinds of values.
fn kind_place(value: &Value) -> u8
    ensures { result ≡ kind_place value.now }
{
    match value {
        Value::Text(_) => 0,
        Value::I64(_) => 1,
        Value::U64(_) => 2,
        Value::Bool(_) => 3,
        Value::Datetime(_) => 4,
    }
}

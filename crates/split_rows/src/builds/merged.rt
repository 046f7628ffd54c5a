//! Splits that are merged.

ghost use Rattle.doc_value.specs.Documents.{IsSchema};

use super::shown::digits;
use doc_value::Schema;
use split_build::BuiltSplit;
use split_bundle::read_split;
use split_merge::{MergeError, merge};
use std::alloc::{AllocError, Global};

/// The file in digits of this split merged alone, or with itself, or why there is none.
pub fn merged(
    alloc: Global,
    schema: &Schema,
    split: &BuiltSplit,
    twice: bool,
) -> Result<String, AllocError>
    requires { IsSchema schema.now }
{
    let Ok(view) = read_split(split.bytes.as_slice()) else {
        return String::from_str(alloc, "no view");
    };
    let whole = if twice {
        merge(alloc, schema, &[view, view], &[])
    } else {
        merge(alloc, schema, &[view], &[])
    };
    match whole {
        Ok(whole) => digits(alloc, whole.bytes.as_slice()),
        Err(MergeError::Memory(refused)) => Err(refused),
        Err(fault) => format!(in alloc; "{fault}"),
    }
}

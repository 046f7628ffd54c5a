//! What a line gives or asks.

ghost use Rattle.doc_value.specs.Documents.{IsSchema};

use crate::{builds, digits, documents, leaves, parts, tallies};
use doc_value::Bytes;
use index_config::IndexConfig;
use std::alloc::{AllocError, Global};

/// `file H` gives a file in digits, `split D` the split of documents of the configuration; `part`, `tally` and `leaf` ask of that file
/// what the modules of these names answer, and `build` of a split of its own.
pub fn answer(
    alloc: Global,
    config: &IndexConfig,
    file: &mut Bytes,
    line: &str,
) -> Result<String, AllocError>
    requires { IsSchema config.now.schema }
{
    let (asked, rest) = line.split_once(' ').unwrap_or((line, ""));
    match asked {
        "file" => spelled(alloc, file, rest),
        "split" => built(alloc, config, file, rest),
        "part" => parts::answers::answer(alloc, file.as_slice(), rest),
        "tally" => tallies::answers::answer(alloc, file.as_slice(), rest),
        "leaf" => leaves::answers::answer(alloc, config, file.as_slice(), rest),
        "build" => builds::answers::answer(alloc, rest),
        _ => String::from_str(alloc, "what?"),
    }
}

fn spelled(alloc: Global, file: &mut Bytes, text: &str) -> Result<String, AllocError> {
    *file = digits::bytes_of(alloc, text)?;
    let len = file.len();
    format!(in alloc; "{len} bytes")
}

fn built(
    alloc: Global,
    config: &IndexConfig,
    file: &mut Bytes,
    text: &str,
) -> Result<String, AllocError>
    requires { IsSchema config.now.schema }
{
    let list = documents::documents_of(alloc, config, text)?;
    *file = documents::file_of(alloc, config, &list)?;
    let count = list.len();
    format!(in alloc; "{count} documents")
}

//! What is asked of a file that is read in place.

ghost use Rattle.std.specs.Prelude.{◌<◌};

use super::answers::key_of;
use doc_value::Schema;
use split_bundle::{SplitError, SplitView, read_split};
use std::alloc::{AllocError, Global};
use term_postings::Cursor;

// How many documents there are, how many bytes each has, and its partition and offset as they are read back.
pub fn whole(alloc: Global, schema: &Schema, file: &[u8]) -> Result<String, SplitError> {
    let view = read_split(file)?;
    let docs = view.doc_count();
    let mut out = format!(in alloc; "{docs} documents")?;
    for doc in 0..docs {
        put_place(&mut out, alloc, schema, &view, doc)?;
    }
    if let Some(column) = view.column(schema, 1)? {
        let count = column.len();
        out.push_str(format!(in alloc; ", {count} values")?.as_str())?;
    }
    Ok(out)
}

fn put_place(
    out: &mut String,
    alloc: Global,
    schema: &Schema,
    view: &SplitView<'_>,
    doc: u32,
) -> Result<(), SplitError>
    requires { doc < view.now.layout.docs }
{
    let len = view.doc_bytes(doc)?.len();
    let placed = view.placed(alloc, schema, doc)?;
    let partition = placed.partition.copy();
    let offset = placed.offset;
    out.push_str(format!(in alloc; ", {partition} {offset} in {len} bytes")?.as_str())?;
    Ok(())
}

// The documents of a word of the body, without its positions.
pub fn counted(alloc: Global, file: &[u8], word: &str) -> Result<String, SplitError> {
    let view = read_split(file)?;
    let key = key_of(alloc, word.as_bytes())?;
    count_of(alloc, &view, key.as_slice())
}

fn count_of(alloc: Global, view: &SplitView<'_>, key: &[u8]) -> Result<String, SplitError> {
    let index = view.block_index(alloc)?;
    match view.dict(&index)?.find(key) {
        Ok(Some(info)) => {
            let cursor = view.documents_at(&info, true)?;
            Ok(numbers(alloc, cursor, info.docs)?)
        }
        Ok(None) => Ok(String::from_str(alloc, "no term")?),
        Err(_fault) => Ok(String::from_str(alloc, "no dictionary of its form")?),
    }
}

// The numbers of so many documents.
fn numbers(alloc: Global, mut cursor: Cursor<'_>, docs: u32) -> Result<String, AllocError> {
    let mut out = String::new(alloc);
    for _ in 0..docs {
        let Ok(Some(document)) = cursor.next() else {
            return Ok(out);
        };
        out.push_str(format!(in alloc; "{document} ")?.as_str())?;
    }
    Ok(out)
}

//! What a footer says, read from left to right, its lists by their places.

ghost use Rattle.std.specs.Prelude.{◌≡◌, ◌≤◌, ◌+◌, length, IfOk};
ghost use Rattle.byte_fields.specs.Steps.{Gives};
ghost use Rattle.split_bundle.specs.Reading.{IsWithin, sections_at, entry_behind, entries_behind, table_at, layout_at, total, column_start_at, column_end, column_among};

use byte_fields::{Corrupt, take_bytes, take_count, take_text, take_varint};

/// How many bytes the five sections have.
#[derive(Clone, Copy)]
pub struct Sections {
    pub documents: u64,
    pub dictionary: u64,
    pub postings: u64,
    pub positions: u64,
    pub columns: u64,
}

/// What the entries of a list in a footer are.
#[derive(Clone, Copy)]
pub(crate) enum Entry {
    /// A partition's name.
    Name,
    /// The first key of a block, and where the block starts.
    Block,
    /// The number of a fast field, and where its column starts.
    Column,
}

/// How many entries a list in a footer has, and where the first one stands.
#[derive(Clone, Copy)]
pub(crate) struct Table {
    pub count: u64,
    pub at: usize,
}

/// A fast field's number, and where its column starts in the section of columns.
#[derive(Clone, Copy)]
pub struct ColumnStart {
    pub number: u64,
    pub start: u64,
}

/// What a footer says, its lists by their places.
#[derive(Clone, Copy)]
pub(crate) struct Layout {
    pub docs: u32,
    pub sections: Sections,
    pub partitions: Table,
    pub terms: u64,
    pub blocks: Table,
    pub columns: Table,
}

// What the footer says, where the sections end at a place of the file.
#[tactic(auto, unfolding(crate::specs::Reading::layout_at))]
pub(crate) fn read_layout(bytes: &[u8], room: u64) -> Result<Layout, Corrupt>
    ensures within { IfOk result (IsWithin bytes.now) }
    ensures room { IfOk result (λ l. 4 + total l.sections ≡ room) }
    ensures exact { result ≡ layout_at room bytes.now }
{
    let (docs, behind_docs) = take_count(bytes, 0)?;
    let (sections, at) = read_sections(bytes, behind_docs)?;
    let (partitions, at) = read_table(Entry::Name, bytes, at)?;
    let (terms, at) = take_varint(bytes, at)?;
    let (blocks, at) = read_table(Entry::Block, bytes, at)?;
    let (columns, end) = read_table(Entry::Column, bytes, at)?;
    if 4 + total(&sections) != u128::from(room) {
        return Err(Corrupt { at: behind_docs });
    }
    if end != bytes.len() {
        return Err(Corrupt { at: end });
    }
    Ok(Layout {
        docs,
        sections,
        partitions,
        terms,
        blocks,
        columns,
    })
}

// How many bytes the sections have together.
fn total(sections: &Sections) -> u128
    ensures { result ≡ total sections.now }
{
    u128::from(sections.documents)
        + u128::from(sections.dictionary)
        + u128::from(sections.postings)
        + u128::from(sections.positions)
        + u128::from(sections.columns)
}

#[tactic(auto, unfolding(crate::specs::Reading::sections_at))]
fn read_sections(bytes: &[u8], at: usize) -> Result<(Sections, usize), Corrupt>
    requires { at ≤ length bytes.now }
    ensures within { IfOk result (λ x. x.1 ≤ length bytes.now) }
    ensures exact { result ≡ sections_at bytes.now at }
{
    let (documents, at) = take_varint(bytes, at)?;
    let (dictionary, at) = take_varint(bytes, at)?;
    let (postings, at) = take_varint(bytes, at)?;
    let (positions, at) = take_varint(bytes, at)?;
    let (columns, at) = take_varint(bytes, at)?;
    let sections = Sections {
        documents,
        dictionary,
        postings,
        positions,
        columns,
    };
    Ok((sections, at))
}

// A count, and so many entries: where they stand, and the place behind them.
#[tactic(auto, unfolding(crate::specs::Reading::table_at))]
fn read_table(entry: Entry, bytes: &[u8], at: usize) -> Result<(Table, usize), Corrupt>
    requires { at ≤ length bytes.now }
    ensures within { IfOk result (λ x. (x.0.at ≤ length bytes.now) × (x.1 ≤ length bytes.now)) }
    ensures exact { result ≡ table_at entry bytes.now at }
{
    let (count, at) = take_varint(bytes, at)?;
    let behind = entries_behind(entry, bytes, at, count)?;
    Ok((Table { count, at }, behind))
}

// The place behind so many entries.
pub(crate) fn entries_behind(
    entry: Entry,
    bytes: &[u8],
    from: usize,
    count: u64,
) -> Result<usize, Corrupt>
    requires { from ≤ length bytes.now }
    ensures within { IfOk result (λ at. at ≤ length bytes.now) }
    ensures exact { result ≡ entries_behind entry count bytes.now from }
{
    let mut at = from;
    for taken in 0..count {
        match entry_behind(entry, bytes, at) {
            Ok(next) => at = next,
            Err(fault) => return Err(fault),
        }
    }
    Ok(at)
}

// The place behind an entry.
#[tactic(auto, unfolding(crate::specs::Reading::entry_behind))]
fn entry_behind(entry: Entry, bytes: &[u8], at: usize) -> Result<usize, Corrupt>
    requires { at ≤ length bytes.now }
    ensures within { IfOk result (λ next. next ≤ length bytes.now) }
    ensures exact { result ≡ entry_behind entry bytes.now at }
{
    match entry {
        Entry::Name => {
            let (_name, next) = take_text(bytes, at)?;
            Ok(next)
        }
        Entry::Block => {
            let (_first, next) = take_bytes(bytes, at)?;
            let (_start, next) = take_varint(bytes, next)?;
            Ok(next)
        }
        Entry::Column => {
            let (_number, next) = take_varint(bytes, at)?;
            let (_start, next) = take_varint(bytes, next)?;
            Ok(next)
        }
    }
}

// From where to where the column of a field stands in its section of so many bytes, if it has one.
pub(crate) fn column_range(
    bytes: &[u8],
    table: Table,
    number: u64,
    size: u64,
) -> Result<Option<(u64, u64)>, Corrupt>
    requires { table.at ≤ length bytes.now }
    ensures { result ≡ column_among table.count number size bytes.now table.at }
{
    let mut at = table.at;
    for passed in 0..table.count {
        match column_start(bytes, at) {
            Ok((column, next)) => {
                if column.number == number {
                    return match column_end(bytes, next, table.count - passed - 1, size) {
                        Ok(end) => Ok(Some((column.start, end))),
                        Err(fault) => Err(fault),
                    };
                }
                at = next;
            }
            Err(fault) => return Err(fault),
        }
    }
    Ok(None)
}

// Where a column ends behind which so many are left.
#[tactic(auto, unfolding(crate::specs::Reading::column_end))]
fn column_end(bytes: &[u8], at: usize, left: u64, size: u64) -> Result<u64, Corrupt>
    requires { at ≤ length bytes.now }
    ensures { result ≡ column_end left size bytes.now at }
{
    if left == 0 {
        return Ok(size);
    }
    let (column, _next) = column_start(bytes, at)?;
    Ok(column.start)
}

// A field's number and its column's start at a place, and the place behind them.
#[tactic(auto, unfolding(crate::specs::Reading::column_start_at))]
fn column_start(bytes: &[u8], at: usize) -> Result<(ColumnStart, usize), Corrupt>
    requires { at ≤ length bytes.now }
    ensures within { IfOk result (λ x. x.1 ≤ length bytes.now) }
    ensures exact { result ≡ column_start_at bytes.now at }
{
    let (number, next) = take_varint(bytes, at)?;
    let (start, next) = take_varint(bytes, next)?;
    Ok((ColumnStart { number, start }, next))
}

ghost use Rattle.std.specs.Prelude.{◌≡◌, ◌≤◌, ◌<◌, ◌^◌, ◌-◌, ◌++◌, [], List, ℕ, IfOk, OnOk};
ghost use Rattle.std.specs.List.{AllByRecursion};
ghost use Rattle.byte_fields.specs.Spelling.{varint};
ghost use Rattle.term_postings.specs.Postings.{AreRising, Fits, IsList, MayHave, count_bytes, document_bytes, documents, gaps, last_document, position_bytes, varints};
ghost use Rattle.term_postings.specs.Rows.{lent, AppendsList};

use crate::moves::BLOCK;
use crate::{Posting, PostingList, Row};
use byte_fields::{Bytes, put_varint};
use std::alloc::{AllocError, Global};

/// The bytes of a list of documents, and those of its positions.
pub fn encode_postings(
    alloc: Global,
    list: &PostingList,
    positions: bool,
) -> Result<(Bytes, Bytes), AllocError>
    requires documents { AreRising (documents list.now) }
    requires each { AllByRecursion (λ p. AreRising p.positions × MayHave positions p.positions) list.now }
    ensures { IfOk result (λ x. IsList x.0 x.1 positions list.now) }
{
    let rows = rows_of(alloc, list.as_slice())?;
    let mut postings = Vec::new(alloc);
    let mut places = Vec::new(alloc);
    append_postings(alloc, &rows, positions, &mut postings, &mut places)?;
    Ok((Bytes::from_vec(postings), Bytes::from_vec(places)))
}

fn rows_of(alloc: Global, postings: &[Posting]) -> Result<Vec<Row<'_>>, AllocError>
    ensures { IfOk result (λ rows. lent rows.items ≡ postings.now) }
{
    let mut rows = Vec::new(alloc);
    for posting in postings {
        rows.push(Row {
            document: posting.document,
            positions: posting.positions.as_slice(),
        })?;
    }
    Ok(rows)
}

/// Appends the bytes of a list of documents to `postings`, and those of its positions to `places`. After an `Err` nothing
/// is said of what they hold.
pub fn append_postings(
    alloc: Global,
    rows: &[Row],
    positions: bool,
    postings: &mut Vec<u8>,
    places: &mut Vec<u8>,
) -> Result<(), AllocError>
    requires documents { AreRising (documents (lent rows.now)) }
    requires each { AllByRecursion (λ p. AreRising p.positions × MayHave positions p.positions) (lent rows.now) }
    ensures { OnOk result (AppendsList positions (lent rows.now) postings.old.items places.old.items postings.new.items places.new.items) }
{
    let mut blocks = Vec::new(alloc);
    let mut before = 0;
    let mut from = 0;
    while rows.len() - from > BLOCK as usize {
        let start = blocks.len();
        let places_start = places.len();
        let block = &rows[from..from + BLOCK as usize];
        let last = put_documents(&mut blocks, places, block, before, positions)?;
        let len = (blocks.len() - start) as u64;
        let places_len = (places.len() - places_start) as u64;
        put_head(postings, last - before, len, places_len)?;
        before = last;
        from += BLOCK as usize;
    }
    postings.extend_from_slice(&blocks)?;
    put_documents(postings, places, &rows[from..], before, positions)?;
    Ok(())
}

fn put_head(heads: &mut Vec<u8>, gap: u32, len: u64, places_len: u64) -> Result<(), AllocError>
    ensures { OnOk result (heads.new.items ≡ heads.old.items ++ (varint gap ++ (varint len ++ varint places_len))) }
{
    put_varint(heads, u64::from(gap))?;
    put_varint(heads, len)?;
    put_varint(heads, places_len)?;
    Ok(())
}

// Puts documents that stand behind a document, and gives the last of them.
fn put_documents(
    blocks: &mut Vec<u8>,
    places: &mut Vec<u8>,
    rows: &[Row],
    before: u32,
    counted: bool,
) -> Result<u32, AllocError>
    requires rising { AreRising (documents (lent rows.now)) }
    requires behind { AllByRecursion (λ p. before ≤ p.document) (lent rows.now) }
    requires positions { AllByRecursion (λ p. AreRising p.positions × MayHave counted p.positions) (lent rows.now) }
    ensures blocks { OnOk result (blocks.new.items ≡ blocks.old.items ++ document_bytes counted before (lent rows.now)) }
    ensures places { OnOk result (places.new.items ≡ places.old.items ++ position_bytes (lent rows.now)) }
    ensures last { IfOk result (λ last. (last ≡ last_document before (lent rows.now)) × (before ≤ last)) }
    ensures fits { OnOk result (AllByRecursion (Fits counted) (lent rows.now)) }
{
    let mut last = before;
    for row in rows {
        put_document(blocks, row, last, counted)?;
        put_positions(places, row.positions)?;
        last = row.document;
    }
    Ok(last)
}

fn put_document(
    blocks: &mut Vec<u8>,
    row: &Row,
    before: u32,
    counted: bool,
) -> Result<(), AllocError>
    requires { before ≤ row.now.document }
    ensures bytes { OnOk result (blocks.new.items ≡ blocks.old.items ++ (varint (row.now.document - before) ++ count_bytes counted row.now.positions.now)) }
    ensures fits { row.now.document < 2 ^ 32 }
{
    put_varint(blocks, u64::from(row.document - before))?;
    if counted {
        put_varint(blocks, row.positions.len() as u64)?;
    }
    Ok(())
}

fn put_positions(places: &mut Vec<u8>, positions: &[u64]) -> Result<(), AllocError>
    requires { AreRising positions.now }
    ensures bytes { OnOk result (places.new.items ≡ places.old.items ++ varints (gaps 0 positions.now)) }
    ensures fits { OnOk result (AllByRecursion (λ n. n < 2 ^ 64) positions.now) }
{
    let mut last = 0;
    let mut rest = positions;
    while let Some((position, behind)) = rest.split_first() {
        let position = *position;
        put_gap(places, position, last)?;
        last = position;
        rest = behind;
    }
    Ok(())
}

// Puts a number by its difference to the one before.
fn put_gap(out: &mut Vec<u8>, number: u64, before: u64) -> Result<(), AllocError>
    requires { before ≤ number }
    ensures bytes { OnOk result (out.new.items ≡ out.old.items ++ varint (number - before)) }
    ensures fits { number < 2 ^ 64 }
{
    put_varint(out, number - before)
}

//! A list of documents in bytes, of their numbers, the counts of their positions, and the bytes of these.

ghost use Rattle.std.specs.Prelude.{◌≡◌, ◌-◌, ◌<◌, ◌≤◌, ◌^◌, ◌++◌, ℕ, Bool, List, length, map, drop, IfOk, OnOk};
ghost use Rattle.std.specs.List.{AllByRecursion};
ghost use Rattle.byte_fields.specs.Spelling.{varint};
ghost use Rattle.term_postings.specs.Postings.{Fits, count_bytes, document_bytes, last_document, list_bytes, position_bytes, varints};
ghost use Rattle.term_postings.specs.declared.list.Posting.{Posting};
ghost use Rattle.split_merge.specs.Joining.{listed};

use crate::lists::Listed;
use byte_fields::{put_varint, take_varint};
use std::alloc::AllocError;

// So many documents stand in each block but the last.
const BLOCK: usize = 128;

// The place behind so many numbers that stand from a place on; the end of the bytes, where they are not there.
fn behind_numbers(bytes: &[u8], from: usize, count: u32) -> usize
    requires { from ≤ length bytes.now }
    ensures within { result ≤ length bytes.now }
    ensures only { (numbers rest : List ℕ) → count ≡ length numbers → AllByRecursion (λ n. n < 2 ^ 64) numbers → drop from bytes.now ≡ varints numbers ++ rest → drop result bytes.now ≡ rest }
{
    let mut at = from;
    for _number in 0..count {
        match take_varint(bytes, at) {
            Ok(read) => at = read.1,
            Err(_fault) => return bytes.len(),
        }
    }
    at
}

// The place behind the positions of documents, where those of the first stand from a place on.
fn behind_places(places: &[u8], from: usize, entries: &[Listed]) -> usize
    requires { from ≤ length places.now }
    ensures within { result ≤ length places.now }
    ensures only { (kept : Bool) (ps : List Posting) (rest : List ℕ) → entries.now ≡ map listed ps → AllByRecursion (Fits kept) ps → drop from places.now ≡ position_bytes ps ++ rest → drop result places.now ≡ rest }
{
    let mut at = from;
    for entry in entries {
        at = behind_numbers(places, at, entry.positions);
    }
    at
}

fn put_head(heads: &mut Vec<u8>, gap: u32, len: u64, places_len: u64) -> Result<(), AllocError>
    ensures { OnOk result (heads.new.items ≡ heads.old.items ++ (varint gap ++ (varint len ++ varint places_len))) }
{
    put_varint(heads, u64::from(gap))?;
    put_varint(heads, len)?;
    put_varint(heads, places_len)?;
    Ok(())
}

// Puts a document behind a document. Documents rise, so that nothing of the difference is cut off.
fn put_document(
    blocks: &mut Vec<u8>,
    entry: Listed,
    before: u32,
    kept: bool,
) -> Result<(), AllocError>
    ensures { (positions : List ℕ) → entry.positions ≡ length positions → OnOk result (blocks.new.items ≡ blocks.old.items ++ (varint (entry.document - before) ++ count_bytes kept positions)) }
{
    put_varint(blocks, u64::from(entry.document.saturating_sub(before)))?;
    if kept {
        put_varint(blocks, u64::from(entry.positions))?;
    }
    Ok(())
}

// Puts documents that stand behind a document, and gives the last of them.
fn put_documents(
    blocks: &mut Vec<u8>,
    entries: &[Listed],
    before: u32,
    kept: bool,
) -> Result<u32, AllocError>
    ensures blocks { (ps : List Posting) → entries.now ≡ map listed ps → OnOk result (blocks.new.items ≡ blocks.old.items ++ document_bytes kept before ps) }
    ensures last { (ps : List Posting) → entries.now ≡ map listed ps → IfOk result (λ last. last ≡ last_document before ps) }
{
    let mut last = before;
    for entry in entries {
        put_document(blocks, *entry, last, kept)?;
        last = entry.document;
    }
    Ok(last)
}

/// Appends the bytes of a list of documents, the bytes of whose positions are these. `blocks` holds those of the blocks until
/// their heads are put. After an `Err` nothing is said of what they hold.
pub(crate) fn put_list(
    entries: &[Listed],
    kept: bool,
    places: &[u8],
    blocks: &mut Vec<u8>,
    postings: &mut Vec<u8>,
) -> Result<(), AllocError>
    ensures { (ps : List Posting) → entries.now ≡ map listed ps → places.now ≡ position_bytes ps → AllByRecursion (Fits kept) ps
        → OnOk result (postings.new.items ≡ postings.old.items ++ list_bytes kept ps) }
{
    blocks.clear();
    let mut before = 0;
    let mut from = 0;
    let mut at = 0;
    while entries.len() - from > BLOCK {
        let block = &entries[from..from + BLOCK];
        let start = blocks.len();
        let last = put_documents(blocks, block, before, kept)?;
        let len = blocks.len().saturating_sub(start);
        let behind = behind_places(places, at, block);
        let places_len = behind.saturating_sub(at);
        put_head(
            postings,
            last.saturating_sub(before),
            len as u64,
            places_len as u64,
        )?;
        before = last;
        from += BLOCK;
        at = behind;
    }
    postings.extend_from_slice(blocks)?;
    put_documents(postings, &entries[from..], before, kept)?;
    Ok(())
}

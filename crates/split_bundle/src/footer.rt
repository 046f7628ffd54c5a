//! The footer of a split file, read from the file's end.

ghost use Rattle.std.specs.Prelude.{◌≡◌, ◌≤◌, ◌<◌, ◌+◌, ◌^◌, ℕ, length, IfOk};
ghost use Rattle.term_dict.specs.declared.index.BlockStart.{BlockStart};
ghost use Rattle.byte_fields.specs.Steps.{Gives as Reads};
ghost use Rattle.split_bundle.specs.Reading.{Gives, MayGive, IsWithin, of_section, Laid, laid_in, footer_in, block_start_at, block_starts_at, total};
ghost use Rattle.split_bundle.specs.Heads.{head_in};

use crate::SplitError;
use crate::layout::{Layout, Sections, Table, read_layout};
use crate::shared::Shared;
use byte_fields::{Bytes, Corrupt, take_bytes, take_eight, take_varint};
use std::alloc::{AllocError, Global};
use term_dict::{BlockIndex, BlockStart};

/// The length of what stands behind the footer: its length, and the foot.
pub(crate) const TRAILER: usize = 12;

/// The section whose faults are the footer's.
pub(crate) const FOOTER: u8 = 6;

const VERSION: u8 = 2;

/// A footer as it stands in a file, and what it says.
#[derive(Clone, Copy)]
pub(crate) struct LaidFooter<'a> {
    pub bytes: &'a [u8],
    pub layout: Layout,
}

/// What the footer of a split file says.
#[derive(Drop)]
pub struct Footer {
    pub(crate) bytes: Shared<Bytes>,
    pub(crate) layout: Layout,
    pub(crate) index: Shared<BlockIndex>,
    ghost within: { IsWithin bytes layout },
    ghost room: { 4 + total layout.sections < 2 ^ 64 },
}

impl Footer {
    ghost use Rattle.std.specs.Prelude.{List};
    ghost use Rattle.doc_value.specs.declared.schema.Schema.{Schema};
    ghost use Rattle.split_bundle.specs.declared.placed.Placed.{Placed};
    ghost use Rattle.split_bundle.specs.Files.{Parts, footer_bytes};
    ghost use Rattle.split_bundle.specs.Splits.{IsSplitOf};
    ghost use Rattle.split_bundle.specs.Views.{held, IsFooterOf, IsEndOf, ReadsFooter, ReadsCut, cut_at};
    ghost use Rattle.split_bundle.specs.Reading.{footer_of};

    /// The footer of a file of `size` bytes that ends with these.
    pub fn read(alloc: Global, tail: &[u8], size: u64) -> Result<Footer, SplitError>
        // Of a split of documents: its footer, where the bytes have it and the trailer behind it.
        ensures whole { (s : Schema) (documents : List Placed) (p : Parts) → IsSplitOf s documents p → IsEndOf p tail.now size
            → length (footer_bytes p) + 12 ≤ length tail.now → ReadsFooter p result }
        // Where they have not: from where on the file is wanted.
        ensures cut { (s : Schema) (documents : List Placed) (p : Parts) → IsSplitOf s documents p → IsEndOf p tail.now size
            → length tail.now < length (footer_bytes p) + 12 → ReadsCut (cut_at size (length tail.now) (length (footer_bytes p))) result }
        // Over any bytes.
        ensures exact { MayGive held result (footer_of size tail.now) }
    {
        Footer::read_whole(alloc, tail, size)
    }

    #[tactic(auto, unfolding(crate::specs::Reading::footer_of))]
    fn read_whole(alloc: Global, tail: &[u8], size: u64) -> Result<Footer, SplitError>
        ensures { MayGive held result (footer_of size tail.now) }
    {
        let LaidFooter { bytes, layout } = lay_out(tail, size)?;
        let index = read_index(alloc, bytes, layout.blocks)?;
        Ok(Footer {
            bytes: Shared::over(alloc, Bytes::from_slice(alloc, bytes)?)?,
            layout,
            index: Shared::over(alloc, index)?,
        })
    }

    /// A footer that equals this one, over the same memory.
    pub fn copy(&self, _alloc: Global) -> Result<Footer, AllocError>
        ensures { IfOk result (λ copy. copy ≡ self.now) }
    {
        Ok(Footer {
            bytes: self.bytes.copy()?,
            layout: self.layout,
            index: self.index.copy()?,
        })
    }

    /// The first keys of the dictionary's blocks, and where these start.
    pub fn index(&self) -> &BlockIndex
        ensures { result.now ≡ self.now.index }
    {
        self.index.value()
    }

    // The footer's bytes.
    pub(crate) fn bytes(&self) -> &[u8]
        ensures { result.now ≡ self.now.bytes }
    {
        self.bytes.value().as_slice()
    }

    /// How many documents the split has.
    pub fn doc_count(&self) -> u32
        ensures { result ≡ self.now.layout.docs }
    {
        self.layout.docs
    }

    /// How many bytes the sections have.
    pub fn sections(&self) -> Sections
        ensures { result ≡ self.now.layout.sections }
    {
        self.layout.sections
    }
}

// The bytes begin as a split file of this format does.
#[tactic(auto, unfolding(crate::specs::Heads::head_in))]
pub(crate) fn check_head(bytes: &[u8]) -> Result<(), SplitError>
    ensures { Gives (λ u. u) result (head_in bytes.now) }
{
    if bytes.len() < 4 {
        return Err(SplitError::Truncated {
            at: bytes.len() as u64,
        });
    }
    let version = bytes[3];
    if !bytes.starts_with(b"QWS") {
        return Err(SplitError::BadMagic);
    }
    if version != VERSION {
        return Err(SplitError::BadVersion { number: version });
    }
    Ok(())
}

// The footer in the end of a file of so many bytes.
#[tactic(auto, unfolding(crate::specs::Reading::laid_in))]
pub(crate) fn lay_out(tail: &[u8], size: u64) -> Result<LaidFooter<'_>, SplitError>
    ensures within { IfOk result (λ l. IsWithin l.bytes.now l.layout) }
    ensures room { IfOk result (λ l. 4 + total l.layout.sections < 2 ^ 64) }
    ensures exact { Gives {Y = Laid} (λ l. record { bytes = l.bytes.now; layout = l.layout }) result (laid_in size tail.now) }
{
    let bytes = footer_in(tail, size)?;
    let room = size
        .saturating_sub(TRAILER as u64)
        .saturating_sub(bytes.len() as u64);
    match read_layout(bytes, room) {
        Ok(layout) => Ok(LaidFooter { bytes, layout }),
        Err(_) => Err(SplitError::BadSection { number: FOOTER }),
    }
}

// The footer's bytes in the end of a file.
#[tactic(auto, unfolding(crate::specs::Reading::footer_in))]
pub(crate) fn footer_in(tail: &[u8], size: u64) -> Result<&[u8], SplitError>
    ensures exact { Gives (λ b. b.now) result (footer_in size tail.now) }
{
    if tail.len() < TRAILER {
        return Err(SplitError::Truncated {
            at: size.saturating_sub(TRAILER as u64),
        });
    }
    let version = tail[tail.len() - 1];
    if !tail[tail.len() - 4..].starts_with(b"QWF") {
        return Err(SplitError::BadMagic);
    }
    if version != VERSION {
        return Err(SplitError::BadVersion { number: version });
    }
    let end = tail.len() - TRAILER;
    let len = match take_eight(tail, end) {
        Ok((len, _behind)) => len,
        Err(_) => return Err(SplitError::BadSection { number: FOOTER }),
    };
    if len > size.saturating_sub(16) {
        return Err(SplitError::BadSection { number: FOOTER });
    }
    if len > end as u64 {
        return Err(SplitError::Truncated {
            at: size - TRAILER as u64 - len,
        });
    }
    Ok(&tail[end - len as usize..end])
}

// The first keys and starts of the blocks of a table.
pub(crate) fn read_index(
    alloc: Global,
    bytes: &[u8],
    table: Table,
) -> Result<BlockIndex, SplitError>
    requires { table.at ≤ length bytes.now }
    ensures exact { MayGive (λ i. i) result (of_section 6 (block_starts_at table.count bytes.now table.at)) }
{
    let mut index = BlockIndex::vacant(alloc);
    let mut at = table.at;
    for taken in 0..table.count {
        match block_start_at(bytes, at) {
            Ok((entry, next)) => {
                index.push(BlockStart {
                    first: Bytes::from_slice(alloc, entry.first)?,
                    start: entry.start,
                })?;
                at = next;
            }
            Err(_fault) => return Err(SplitError::BadSection { number: FOOTER }),
        }
    }
    Ok(index)
}

// A block's first key and its start, as they stand in the bytes.
#[derive(Clone, Copy)]
struct LentStart<'a> {
    first: &'a [u8],
    start: u64,
}

#[tactic(auto, unfolding(crate::specs::Reading::block_start_at))]
fn block_start_at(bytes: &[u8], at: usize) -> Result<(LentStart<'_>, usize), Corrupt>
    requires { at ≤ length bytes.now }
    ensures within { IfOk result (λ x. x.1 ≤ length bytes.now) }
    ensures exact { Reads {Y = BlockStart × ℕ} (λ x. (record { first = x.0.first.now; start = x.0.start }, x.1)) result (block_start_at bytes.now at) }
{
    let (first, next) = take_bytes(bytes, at)?;
    let (start, next) = take_varint(bytes, next)?;
    Ok((LentStart { first, start }, next))
}

//! The footer of a split file, and the file.

ghost use Rattle.std.specs.Prelude.{◌≡◌, ◌++◌, ◌∷◌, [], ◌^◌, ◌<◌, ℕ, List, length, IfOk, OnOk};
ghost use Rattle.std.specs.List.{AllByRecursion};
ghost use Rattle.source_checkpoint.specs.Names.{IsPartition};
ghost use Rattle.split_bundle.specs.Files.{head, partitions_bytes, index_bytes, starts_bytes, lengths_bytes, sections_bytes};

use crate::column_parts::ColumnSection;
use crate::term_parts::TermParts;
use byte_fields::{put_bytes, put_eight, put_varint};
use source_checkpoint::Partition;
use split_bundle::ColumnStart;
use std::alloc::{AllocError, Global};
use term_dict::BlockIndex;

/// What a split file is made of.
#[derive(Drop)]
pub struct FileParts {
    pub docs: u32,
    pub documents: Vec<u8>,
    pub terms: TermParts,
    pub columns: ColumnSection,
    pub partitions: Vec<Partition>,
}

/// A split file up to the end of its documents, and what it is made of behind them.
#[derive(Drop)]
pub struct FileBegun {
    pub docs: u32,
    pub begun: Vec<u8>,
    pub terms: TermParts,
    pub columns: ColumnSection,
    pub partitions: Vec<Partition>,
}

// How many bytes of a footer stand for a block of the dictionary, more or less.
const BLOCK_ROOM: usize = 32;

// How many bytes its other parts take.
const FOOTER_ROOM: usize = 4096;

// How many bytes stand behind the documents, more or less.
fn room_behind(terms: &TermParts, columns: &ColumnSection) -> usize {
    terms
        .dictionary
        .len()
        .saturating_add(terms.postings.len())
        .saturating_add(terms.positions.len())
        .saturating_add(columns.bytes.len())
        .saturating_add(terms.index.len().saturating_mul(BLOCK_ROOM))
        .saturating_add(FOOTER_ROOM)
}

/// The first bytes of a file, with room for so many bytes of documents and for what is written behind them.
pub fn begin_file(
    alloc: Global,
    documents: usize,
    terms: &TermParts,
    columns: &ColumnSection,
) -> Result<Vec<u8>, AllocError>
    ensures { IfOk result (λ begun. begun.items ≡ head) }
{
    let room = documents.saturating_add(room_behind(terms, columns));
    let mut begun = Vec::with_capacity(alloc, room)?;
    begun.extend_from_slice(&[0x51, 0x57, 0x53, 2])?;
    Ok(begun)
}

// A count, and so many texts.
fn put_partitions(out: &mut Vec<u8>, names: &[Partition]) -> Result<(), AllocError>
    ensures bytes { OnOk result (out.new.items ≡ out.old.items ++ partitions_bytes names.now) }
    ensures names { OnOk result (AllByRecursion IsPartition names.now) }
{
    put_varint(out, names.len() as u64)?;
    let mut rest = names;
    while let Some((name, behind)) = rest.split_first() {
        put_bytes(out, name.as_bytes())?;
        rest = behind;
    }
    Ok(())
}

// A count, and of each block the first key and the start.
fn put_index(out: &mut Vec<u8>, index: &BlockIndex) -> Result<(), AllocError>
    ensures bytes { OnOk result (out.new.items ≡ out.old.items ++ index_bytes index.now) }
    ensures starts { OnOk result (AllByRecursion (λ b. b.start < 2 ^ 64) index.now) }
    ensures count { length index.now < 2 ^ 64 }
{
    put_varint(out, index.len() as u64)?;
    for number in 0..index.len() {
        let block = index.at(number);
        put_bytes(out, block.first.as_slice())?;
        put_varint(out, block.start)?;
    }
    Ok(())
}

// A count, and of each fast field the number and the start.
fn put_starts(out: &mut Vec<u8>, starts: &[ColumnStart]) -> Result<(), AllocError>
    ensures bytes { OnOk result (out.new.items ≡ out.old.items ++ starts_bytes starts.now) }
    ensures numbers { OnOk result (AllByRecursion (λ c. (c.number < 2 ^ 64) × (c.start < 2 ^ 64)) starts.now) }
{
    put_varint(out, starts.len() as u64)?;
    let mut rest = starts;
    while let Some((column, behind)) = rest.split_first() {
        put_varint(out, column.number)?;
        put_varint(out, column.start)?;
        rest = behind;
    }
    Ok(())
}

// Appends bytes, which are let go.
fn put_all(out: &mut Vec<u8>, bytes: Vec<u8>) -> Result<(), AllocError>
    ensures { OnOk result (out.new.items ≡ out.old.items ++ bytes.items) }
{
    out.extend_from_slice(&bytes)
}

impl FileBegun {
    ghost use Rattle.split_build.specs.Filed.{IsFileOf, IsFooterPut, LengthsFit, begun_parts};

    // How many bytes the documents have.
    fn documents_len(&self) -> usize
        ensures { (documents : List ℕ) → self.now.begun.items ≡ head ++ documents → result ≡ length documents }
    {
        self.begun.len().saturating_sub(4)
    }

    // The lengths of the sections.
    fn put_lengths(&self, out: &mut Vec<u8>) -> Result<(), AllocError>
        ensures bytes { (documents : List ℕ) (keys : List (List ℕ)) → self.now.begun.items ≡ head ++ documents → OnOk result (out.new.items ≡ out.old.items ++ lengths_bytes (begun_parts self.now documents keys)) }
        ensures fit { (documents : List ℕ) (keys : List (List ℕ)) → self.now.begun.items ≡ head ++ documents → OnOk result (LengthsFit (begun_parts self.now documents keys)) }
    {
        put_varint(out, self.documents_len() as u64)?;
        put_varint(out, self.terms.dictionary.len() as u64)?;
        put_varint(out, self.terms.postings.len() as u64)?;
        put_varint(out, self.terms.positions.len() as u64)?;
        put_varint(out, self.columns.bytes.len() as u64)?;
        Ok(())
    }

    fn put_footer(&self, out: &mut Vec<u8>) -> Result<(), AllocError>
        ensures { (documents : List ℕ) (keys : List (List ℕ)) → self.now.begun.items ≡ head ++ documents → self.now.terms.count ≡ length keys
            → OnOk result (IsFooterPut out.old.items out.new.items (begun_parts self.now documents keys)) }
    {
        put_varint(out, u64::from(self.docs))?;
        self.put_lengths(out)?;
        put_partitions(out, &self.partitions)?;
        put_varint(out, self.terms.count)?;
        put_index(out, &self.terms.index)?;
        put_starts(out, &self.columns.starts)?;
        Ok(())
    }

    // The file up to the end of its sections. Each is let go as it stands there.
    fn put_sections(self) -> Result<Vec<u8>, AllocError>
        ensures { (documents : List ℕ) (keys : List (List ℕ)) → self.begun.items ≡ head ++ documents → IfOk result (λ out. out.items ≡ head ++ sections_bytes (begun_parts self documents keys)) }
    {
        let FileBegun {
            begun,
            terms,
            columns,
            ..
        } = self;
        let mut out = begun;
        put_all(&mut out, terms.dictionary.into_vec())?;
        put_all(&mut out, terms.postings)?;
        put_all(&mut out, terms.positions)?;
        put_all(&mut out, columns.bytes)?;
        Ok(out)
    }

    /// The whole file, where it begins with the first four bytes of a split file and its documents. These stay where they are, and
    /// each other section is let go as it stands behind them.
    pub fn finish(self, alloc: Global) -> Result<Vec<u8>, AllocError>
        ensures { (documents : List ℕ) (keys : List (List ℕ)) → self.begun.items ≡ head ++ documents → self.terms.count ≡ length keys
            → IfOk result (λ file. IsFileOf (begun_parts self documents keys) file.items) }
    {
        let mut footer = Vec::new(alloc);
        self.put_footer(&mut footer)?;
        let mut out = self.put_sections()?;
        out.extend_from_slice(&footer)?;
        put_eight(&mut out, footer.len() as u64)?;
        out.extend_from_slice(&[0x51, 0x57, 0x46, 2])?;
        Ok(out)
    }
}

impl FileParts {
    ghost use Rattle.split_build.specs.Filed.{IsFileOf, parts_of};

    /// The file of these parts, for which room is made once. Each section is let go as it stands there.
    pub fn write_file(self, alloc: Global) -> Result<Vec<u8>, AllocError>
        ensures { (keys : List (List ℕ)) → self.terms.count ≡ length keys → IfOk result (λ file. IsFileOf (parts_of self keys) file.items) }
    {
        let FileParts {
            docs,
            documents,
            terms,
            columns,
            partitions,
        } = self;
        let mut begun = begin_file(alloc, documents.len(), &terms, &columns)?;
        put_all(&mut begun, documents)?;
        let file = FileBegun {
            docs,
            begun,
            terms,
            columns,
            partitions,
        };
        file.finish(alloc)
    }
}

//! A split file of which some pieces are there.

ghost use Rattle.std.specs.Prelude.{◌≡◌, ◌≤◌, ◌<◌, ◌+◌, ◌-◌, ◌*◌, ◌^◌, List, ℕ, Some, length, slice_get, IfOk, IsOk};
ghost use Rattle.doc_value.specs.declared.schema.Schema.{Schema};
ghost use Rattle.doc_value.specs.Documents.{IsOfSchema};
ghost use Rattle.term_dict.specs.Bounds.{block_terms};
ghost use Rattle.term_dict.specs.Terms.{lookup};
ghost use Rattle.term_postings.specs.Reading.{walk};
ghost use Rattle.split_bundle.specs.declared.placed.Placed.{Placed};
ghost use Rattle.split_bundle.specs.Files.{Parts, file_bytes};
ghost use Rattle.split_bundle.specs.Lists.{keeps_places, posting_list, terms_of};
ghost use Rattle.split_bundle.specs.Pieces.{start_of};
ghost use Rattle.split_bundle.specs.Splits.{IsSplitOf};
ghost use Rattle.split_bundle.specs.Views.{held};
ghost use Rattle.split_bundle.specs.Reading.{Gives, MayGive};
ghost use Rattle.split_bundle.specs.declared.pieces.Section.TheVariants as sections;

use crate::documents::{address_in, doc_range, placed_in};
use crate::footer::{Footer, check_head};
use crate::parts::{block_between, cursor_over, documents_over, fast_column};
use crate::pieces::{FilePiece, Pieces, Section};
use crate::{Address, Placed, SplitError};
use doc_value::Schema;
use fast_fields::Column;
use std::alloc::Global;
use term_dict::{Block, BlockIndex, TermInfo};
use term_postings::Cursor;

/// A split file of which some pieces are there. It copies nothing of them.
#[derive(Drop)]
pub struct PartView<'a> {
    pub(crate) footer: Footer,
    pub(crate) pieces: Pieces<'a>,
}

impl<'a> PartView<'a> {
    ghost use Rattle.split_bundle.specs.Lending.{IsPartOf, LendsBlock, LendsCursor, LendsDocuments, LendsFast, block_in, block_place, cursor_in, documents_in, column_read, parts_of, start_of_column, length_of_column};
    ghost use Rattle.split_bundle.specs.Documents.{placed_bytes};
    ghost use Rattle.split_bundle.specs.DocReading.{doc_range, address_in, placed_in};
    ghost use Rattle.split_bundle.specs.DocLending.{LendsAddress, LendsPlaced, LendsRange, starts_place, doc_place};
    ghost use Rattle.split_bundle.specs.Wholes.{whole_of, HasWhole, HaveAll, ReadsWhole, IsThere};

    /// The view of a file with this footer, of which these pieces are there.
    pub fn gather(footer: Footer, pieces: Pieces<'a>) -> PartView<'a>
        ensures footer { result.footer ≡ footer }
        ensures pieces { result.pieces ≡ pieces.entry }
    {
        PartView { footer, pieces }
    }

    /// The view of a whole file.
    pub fn whole(alloc: Global, bytes: &'a [u8]) -> Result<PartView<'a>, SplitError>
        // Of a split of documents.
        ensures only { (s : Schema) (documents : List Placed) (p : Parts) → IsSplitOf s documents p → bytes.now ≡ file_bytes p → ReadsWhole s documents p result }
        // Its pieces have every part of these bytes.
        ensures all { IfOk result (λ v. HaveAll bytes.now v.pieces) }
        // Over any bytes.
        ensures exact { MayGive (λ v. held v.footer) result (whole_of bytes.now) }
    {
        PartView::read_whole(alloc, bytes)
    }

    #[tactic(auto, unfolding(crate::specs::Wholes::whole_of))]
    fn read_whole(alloc: Global, bytes: &'a [u8]) -> Result<PartView<'a>, SplitError>
        ensures pieces { IfOk result (HasWhole bytes.now) }
        ensures exact { MayGive (λ v. held v.footer) result (whole_of bytes.now) }
    {
        check_head(bytes)?;
        let footer = Footer::read(alloc, bytes, bytes.len() as u64)?;
        let piece = FilePiece { start: 0, bytes };
        Ok(PartView {
            footer,
            pieces: Pieces::one(alloc, piece)?,
        })
    }

    /// What the file's footer says.
    pub fn footer(&self) -> &Footer
        ensures { result.now ≡ self.now.footer }
    {
        &self.footer
    }

    /// The first keys of the dictionary's blocks, and where these start.
    pub fn index(&self) -> &BlockIndex
        // Of a split of documents: the index of its dictionary, which a number of 32 bits counts.
        ensures only { (s : Schema) (documents : List Placed) (p : Parts) → IsPartOf self.now s documents p → result.now ≡ p.index }
        ensures few { (s : Schema) (documents : List Placed) (p : Parts) → IsPartOf self.now s documents p → length result.now < 2 ^ 32 }
        ensures exact { result.now ≡ self.now.footer.index }
    {
        self.footer.index()
    }

    /// How many documents the split has.
    pub fn doc_count(&self) -> u32
        ensures only { (s : Schema) (documents : List Placed) (p : Parts) → IsPartOf self.now s documents p → result ≡ length documents }
        ensures exact { result ≡ self.now.footer.layout.docs }
    {
        self.footer.doc_count()
    }

    /// The block of the dictionary with a number.
    #[tactic(auto, unfolding(crate::specs::Lending::block_in))]
    pub fn block(&self, number: u32) -> Result<Block<'a>, SplitError>
        requires { number < length self.now.footer.index }
        // Of a split of documents: its terms, unless no piece has its bytes.
        ensures only { (s : Schema) (documents : List Placed) (p : Parts) → IsPartOf self.now s documents p
            → LendsBlock self.now.pieces (block_place p (terms_of s documents p.keys) number) (block_terms (terms_of s documents p.keys) number) result }
        // Where the pieces have every part.
        ensures there { (s : Schema) (documents : List Placed) (p : Parts) → IsPartOf self.now s documents p → HaveAll (file_bytes p) self.now.pieces → IsOk result }
        // Over any bytes.
        ensures exact { Gives (λ b. b.bytes.now) result (block_in self.now.footer.layout.sections self.now.pieces self.now.footer.index number) }
    {
        let sections = self.footer.sections();
        match self
            .footer
            .index()
            .place_of(number as usize, sections.dictionary)
        {
            Ok((start, end)) => block_between(self.pieces.as_slice(), &sections, start, end),
            Err(_) => Err(SplitError::BadSection {
                number: Section::Dictionary.number(),
            }),
        }
    }

    /// A cursor over the documents of a term. `positions` says whether its list has positions.
    pub fn postings_at(&self, info: &TermInfo, positions: bool) -> Result<Cursor<'a>, SplitError>
        // Of a split of documents: the posting list of the term's key, unless no piece has its bytes or those of its positions.
        ensures only { (s : Schema) (documents : List Placed) (p : Parts) (key : List ℕ) → IsPartOf self.now s documents p
            → lookup key (terms_of s documents p.keys) ≡ Some info.now → positions ≡ keeps_places s key
            → LendsCursor self.now.footer.layout.sections self.now.pieces info.now positions (posting_list s documents key) result }
        // Where the pieces have every part.
        ensures there { (s : Schema) (documents : List Placed) (p : Parts) (key : List ℕ) → IsPartOf self.now s documents p → HaveAll (file_bytes p) self.now.pieces
            → lookup key (terms_of s documents p.keys) ≡ Some info.now → positions ≡ keeps_places s key → IsOk result }
        // Over any bytes.
        ensures exact { Gives walk result (cursor_in self.now.footer.layout.sections self.now.pieces info.now positions) }
    {
        let sections = self.footer.sections();
        cursor_over(self.pieces.as_slice(), &sections, info, positions)
    }

    /// A cursor over the documents of a term that gives no positions. `positions` says whether its list has positions.
    pub fn documents_at(&self, info: &TermInfo, positions: bool) -> Result<Cursor<'a>, SplitError>
        // Of a split of documents: the posting list of the term's key, unless no piece has its bytes. Positions are not asked for.
        ensures only { (s : Schema) (documents : List Placed) (p : Parts) (key : List ℕ) → IsPartOf self.now s documents p
            → lookup key (terms_of s documents p.keys) ≡ Some info.now → positions ≡ keeps_places s key
            → LendsDocuments self.now.footer.layout.sections self.now.pieces info.now (posting_list s documents key) result }
        // Where the pieces have every part.
        ensures there { (s : Schema) (documents : List Placed) (p : Parts) (key : List ℕ) → IsPartOf self.now s documents p → HaveAll (file_bytes p) self.now.pieces
            → lookup key (terms_of s documents p.keys) ≡ Some info.now → positions ≡ keeps_places s key → IsOk result }
        // Over any bytes.
        ensures exact { Gives walk result (documents_in self.now.footer.layout.sections self.now.pieces info.now positions) }
    {
        let sections = self.footer.sections();
        documents_over(self.pieces.as_slice(), &sections, info, positions)
    }

    /// The column of the field with a number, which is None exactly where the schema has no fast field of that number.
    pub fn column(&self, schema: &Schema, number: u32) -> Result<Option<Column<'a>>, SplitError>
        // Of a split of documents: the values of this field, unless no piece has the column's bytes.
        ensures only { (documents : List Placed) (p : Parts) → IsPartOf self.now schema.now documents p
            → LendsFast self.now.pieces (start_of sections.Columns self.now.footer.layout.sections + start_of_column number p.column_starts) (length_of_column number (length p.columns) p.column_starts)
            number documents (slice_get schema.now.fields number) result }
        // Where the pieces have every part.
        ensures there { (documents : List Placed) (p : Parts) → IsPartOf self.now schema.now documents p → HaveAll (file_bytes p) self.now.pieces → IsOk result }
        // Over any bytes.
        ensures exact { Gives parts_of result (column_read schema.now self.now.footer.layout.sections self.now.pieces self.now.footer.bytes self.now.footer.layout.columns number) }
    {
        let pieces = self.pieces.as_slice();
        let footer = self.footer.bytes();
        fast_column(pieces, &self.footer.layout, footer, schema, number)
    }

    /// Where the record of the document with a number stands, of which nothing more is read. It takes no memory.
    pub fn address(&self, doc: u32) -> Result<Address, SplitError>
        requires { doc < self.now.footer.layout.docs }
        // Of a split of documents: the partition and the offset of this document, unless no piece has where it starts and ends, or its bytes.
        ensures only { (s : Schema) (documents : List Placed) (p : Parts) (d : Placed) → IsPartOf self.now s documents p → slice_get documents doc ≡ Some d
            → LendsAddress self.now.pieces (starts_place doc) (doc_place p documents doc) (length (placed_bytes p.partitions d)) d result }
        // Where the pieces have every part.
        ensures there { (s : Schema) (documents : List Placed) (p : Parts) (d : Placed) → IsPartOf self.now s documents p → HaveAll (file_bytes p) self.now.pieces
            → slice_get documents doc ≡ Some d → IsOk result }
        // Over any bytes.
        ensures exact { Gives (λ a. a) result (address_in self.now.footer.layout self.now.footer.bytes self.now.pieces doc) }
    {
        let pieces = self.pieces.as_slice();
        let footer = self.footer.bytes();
        address_in(pieces, &self.footer.layout, footer, doc)
    }

    /// Where the bytes of the document with a number stand in the file, and how many they are, by where it and the next one start.
    pub fn doc_range(&self, doc: u32) -> Result<(u64, u64), SplitError>
        // Of a split of documents: these, unless no piece has where it starts and ends.
        ensures only { (s : Schema) (documents : List Placed) (p : Parts) (d : Placed) → IsPartOf self.now s documents p → slice_get documents doc ≡ Some d
            → LendsRange self.now.pieces (starts_place doc) (doc_place p documents doc) (length (placed_bytes p.partitions d)) result }
        // Over any bytes.
        ensures exact { result ≡ doc_range self.now.footer.layout self.now.pieces doc }
    {
        doc_range(self.pieces.as_slice(), &self.footer.layout, doc)
    }

    /// The document with a number, read back from its bytes.
    pub fn placed(&self, alloc: Global, schema: &Schema, doc: u32) -> Result<Placed, SplitError>
        requires { doc < self.now.footer.layout.docs }
        // Of a split of documents: this document, unless no piece has where it starts and ends, or its bytes.
        ensures only { (documents : List Placed) (p : Parts) (d : Placed) → IsPartOf self.now schema.now documents p → slice_get documents doc ≡ Some d
            → LendsPlaced self.now.pieces (starts_place doc) (doc_place p documents doc) (length (placed_bytes p.partitions d)) d result }
        // Where the pieces have every part.
        ensures there { (documents : List Placed) (p : Parts) (d : Placed) → IsPartOf self.now schema.now documents p → HaveAll (file_bytes p) self.now.pieces
            → slice_get documents doc ≡ Some d → IsThere result }
        // Over any bytes: a document of the schema, or a fault.
        ensures of_schema { IfOk result (λ d. IsOfSchema schema.now d.doc) }
        ensures exact { MayGive (λ d. d) result (placed_in schema.now.fields self.now.footer.layout self.now.footer.bytes self.now.pieces doc) }
    {
        let pieces = self.pieces.as_slice();
        let footer = self.footer.bytes();
        let layout = &self.footer.layout;
        placed_in(alloc, pieces, layout, footer, &schema.fields, doc)
    }
}

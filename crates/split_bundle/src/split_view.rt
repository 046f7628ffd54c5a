//! A split file whose bytes are all there, read in place.

ghost use Rattle.std.specs.Prelude.{◌≡◌, ◌≤◌, ◌<◌, ◌+◌, ◌^◌, List, ℕ, Some, length, slice_get, IfOk, IsOkAnd, Ok, true, false, []};
ghost use Rattle.doc_value.specs.declared.schema.Schema.{Schema};
ghost use Rattle.doc_value.specs.Documents.{IsOfSchema};
ghost use Rattle.term_dict.specs.declared.index.BlockStart.{BlockStart};
ghost use Rattle.term_dict.specs.Terms.{lookup};
ghost use Rattle.term_dict.specs.Readers.{IsOver};
ghost use Rattle.term_postings.specs.Cursors.{StandsBefore};
ghost use Rattle.term_postings.specs.Reading.{walk};
ghost use Rattle.split_bundle.specs.declared.placed.Placed.{Placed};
ghost use Rattle.split_bundle.specs.Documents.{placed_bytes, weight};
ghost use Rattle.split_bundle.specs.Files.{Parts};
ghost use Rattle.split_bundle.specs.Lists.{keeps_places, posting_list, terms_of};
ghost use Rattle.split_bundle.specs.Reading.{Gives, MayGive, IsWithin, total, of_section, block_starts_at};

use crate::documents::{doc_part, placed_in, weight_of};
use crate::footer::read_index;
use crate::layout::Layout;
use crate::parts::{cursor_over, dict_over, documents_over, fast_column};
use crate::pieces::FilePiece;
use crate::{Placed, SplitError};
use doc_value::Schema;
use fast_fields::Column;
use std::alloc::Global;
use term_dict::{BlockIndex, Dict, TermInfo};
use term_postings::Cursor;

/// A split file whose bytes are all there. It borrows them and copies nothing.
#[derive(Clone, Copy)]
pub struct SplitView<'a> {
    pub(crate) bytes: &'a [u8],
    pub(crate) footer: &'a [u8],
    pub(crate) layout: Layout,
    ghost within: { IsWithin footer.now layout },
    ghost room: { 4 + total layout.sections < 2 ^ 64 },
}

impl<'a> SplitView<'a> {
    ghost use Rattle.split_bundle.specs.Lending.{cursor_in, documents_in, column_read, parts_of};
    ghost use Rattle.split_bundle.specs.DocReading.{doc_part, weight_of, placed_in};
    ghost use Rattle.split_bundle.specs.SplitReading.{dict_read};
    ghost use Rattle.split_bundle.specs.SplitViews.{IsViewOf, ReadsIndex, ReadsPlaced, GivesFast, whole_piece, pieces_of};

    // The file as one piece.
    fn piece(&self) -> FilePiece<'a>
        ensures { result ≡ whole_piece self.now }
    {
        FilePiece {
            start: 0,
            bytes: self.bytes,
        }
    }

    /// How many documents the split has.
    pub fn doc_count(&self) -> u32
        ensures only { (s : Schema) (documents : List Placed) (p : Parts) → IsViewOf self.now s documents p → result ≡ length documents }
        ensures exact { result ≡ self.now.layout.docs }
    {
        self.layout.docs
    }

    /// The first keys of the dictionary's blocks, and where these start.
    pub fn block_index(&self, alloc: Global) -> Result<BlockIndex, SplitError>
        // Of a split of documents: the index of its dictionary, or want of memory.
        ensures only { (s : Schema) (documents : List Placed) (p : Parts) → IsViewOf self.now s documents p → ReadsIndex p.index result }
        // Over any bytes.
        ensures exact { MayGive (λ i. i) result (of_section 6 (block_starts_at self.now.layout.blocks.count self.now.footer.now self.now.layout.blocks.at)) }
    {
        read_index(alloc, self.footer, self.layout.blocks)
    }

    /// The dictionary, by the index of its blocks.
    pub fn dict<'b>(&'b self, index: &'b BlockIndex) -> Result<Dict<'b>, SplitError>
        // Of a split of documents, and by its index: its terms.
        ensures only { (s : Schema) (documents : List Placed) (p : Parts) → IsViewOf self.now s documents p → index.now ≡ p.index
            → IsOkAnd result (λ d. IsOver d (terms_of s documents p.keys)) }
        // Over any bytes and by any index.
        ensures exact { Gives {Y = List ℕ × List BlockStart} (λ d. (d.area.now, d.index.now)) result (dict_read self.now.layout.sections (pieces_of self.now) index.now) }
    {
        dict_over(&[self.piece()], &self.layout.sections, index)
    }

    /// A cursor over the documents of a term. `positions` says whether its list has positions.
    pub fn postings_at(&self, info: &TermInfo, positions: bool) -> Result<Cursor<'a>, SplitError>
        // Of a split of documents: the posting list of the term's key.
        ensures only { (s : Schema) (documents : List Placed) (p : Parts) (key : List ℕ) → IsViewOf self.now s documents p
            → lookup key (terms_of s documents p.keys) ≡ Some info.now → positions ≡ keeps_places s key
            → IsOkAnd result (λ c. StandsBefore true c (posting_list s documents key) []) }
        // Over any bytes.
        ensures exact { Gives walk result (cursor_in self.now.layout.sections (pieces_of self.now) info.now positions) }
    {
        cursor_over(&[self.piece()], &self.layout.sections, info, positions)
    }

    /// A cursor over the documents of a term that gives no positions. `positions` says whether its list has positions.
    pub fn documents_at(&self, info: &TermInfo, positions: bool) -> Result<Cursor<'a>, SplitError>
        // Of a split of documents: the posting list of the term's key.
        ensures only { (s : Schema) (documents : List Placed) (p : Parts) (key : List ℕ) → IsViewOf self.now s documents p
            → lookup key (terms_of s documents p.keys) ≡ Some info.now → positions ≡ keeps_places s key
            → IsOkAnd result (λ c. StandsBefore false c (posting_list s documents key) []) }
        // Over any bytes.
        ensures exact { Gives walk result (documents_in self.now.layout.sections (pieces_of self.now) info.now positions) }
    {
        documents_over(&[self.piece()], &self.layout.sections, info, positions)
    }

    /// The column of the field with a number, which is None exactly where the schema has no fast field of that number.
    pub fn column(&self, schema: &Schema, number: u32) -> Result<Option<Column<'a>>, SplitError>
        // Of a split of documents: the values of this field.
        ensures only { (documents : List Placed) (p : Parts) → IsViewOf self.now schema.now documents p → GivesFast number documents (slice_get schema.now.fields number) result }
        // Over any bytes.
        ensures exact { Gives parts_of result (column_read schema.now self.now.layout.sections (pieces_of self.now) self.now.footer.now self.now.layout.columns number) }
    {
        let pieces = [self.piece()];
        fast_column(&pieces, &self.layout, self.footer, schema, number)
    }

    /// The bytes of the document with a number.
    pub fn doc_bytes(&self, doc: u32) -> Result<&'a [u8], SplitError>
        requires { doc < self.now.layout.docs }
        // Of a split of documents: the bytes of this document.
        ensures only { (s : Schema) (documents : List Placed) (p : Parts) (d : Placed) → IsViewOf self.now s documents p → slice_get documents doc ≡ Some d
            → IsOkAnd result (λ b. b.now ≡ placed_bytes p.partitions d) }
        // Over any bytes.
        ensures exact { Gives (λ b. b.now) result (doc_part self.now.layout (pieces_of self.now) doc) }
    {
        doc_part(&[self.piece()], &self.layout, doc)
    }

    /// What the document with a number weighs, by the length of its bytes.
    pub fn doc_weight(&self, doc: u32) -> Result<u64, SplitError>
        requires { doc < self.now.layout.docs }
        // Of a split of documents: the weight of this document.
        ensures only { (s : Schema) (documents : List Placed) (p : Parts) (d : Placed) → IsViewOf self.now s documents p → slice_get documents doc ≡ Some d → result ≡ Ok (weight d) }
        // Over any bytes.
        ensures exact { result ≡ weight_of self.now.layout (pieces_of self.now) doc }
    {
        weight_of(&[self.piece()], &self.layout, doc)
    }

    /// The document with a number, read back from its bytes.
    pub fn placed(&self, alloc: Global, schema: &Schema, doc: u32) -> Result<Placed, SplitError>
        requires { doc < self.now.layout.docs }
        // Of a split of documents: this document, or want of memory.
        ensures only { (documents : List Placed) (p : Parts) (d : Placed) → IsViewOf self.now schema.now documents p → slice_get documents doc ≡ Some d → ReadsPlaced d result }
        // Over any bytes: a document of the schema, or a fault.
        ensures of_schema { IfOk result (λ d. IsOfSchema schema.now d.doc) }
        ensures exact { MayGive (λ d. d) result (placed_in schema.now.fields self.now.layout self.now.footer.now (pieces_of self.now) doc) }
    {
        let pieces = [self.piece()];
        placed_in(
            alloc,
            &pieces,
            &self.layout,
            self.footer,
            &schema.fields,
            doc,
        )
    }
}

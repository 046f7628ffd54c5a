//! What the sections of a split file lend, from pieces of the file.

ghost use Rattle.std.specs.Prelude.{◌≡◌, ◌≤◌, ◌<◌, ◌+◌, ◌-◌, ◌^◌, ℕ, List, Ok, Some, IsOk, IsOkAnd, length, slice_get};
ghost use Rattle.term_postings.specs.declared.list.Posting.{Posting};
ghost use Rattle.fast_fields.specs.declared.rows.ColumnRow.{ColumnRow};
ghost use Rattle.split_bundle.specs.Files.{Parts, file_bytes};
ghost use Rattle.split_bundle.specs.Views.{sections_of};
ghost use Rattle.split_bundle.specs.Pieces.{ArePieces, start_of};
ghost use Rattle.split_bundle.specs.declared.pieces.Section.TheVariants as parts_named;
ghost use Rattle.term_postings.specs.Reading.{walk};
ghost use Rattle.fast_fields.specs.Readers.{parts};
ghost use Rattle.doc_value.specs.declared.schema.Schema.{Schema};
ghost use Rattle.term_dict.specs.declared.index.BlockStart.{BlockStart};
ghost use Rattle.term_dict.specs.declared.term.Term.{Term};
ghost use Rattle.term_dict.specs.Readers.{IsOver};
ghost use Rattle.term_dict.specs.Terms.{IsDict};
ghost use Rattle.split_bundle.specs.declared.placed.Placed.{Placed};
ghost use Rattle.split_bundle.specs.Splits.{IsSplitOf};
ghost use Rattle.split_bundle.specs.SplitReading.{IsLaidOut, dict_read};
ghost use Rattle.split_bundle.specs.Wholes.{HaveAll};
ghost use Rattle.split_bundle.specs.Reading.{Gives, IsWithin, total, column_among};
ghost use Rattle.split_bundle.specs.Lending.{block_part, places_part, cursor_in, documents_in, column_part, column_in, column_read, parts_of, start_of_column, length_of_column, LendsFast, LendsCursor, LendsDocuments, LendsColumn, IsListAt, IsColumnAt};

use crate::SplitError;
use crate::footer::FOOTER;
use crate::layout::{Layout, Sections, Table, column_range};
use crate::pieces::{FilePiece, Section, section_part};
use doc_value::{Field, Schema};
use fast_fields::Column;
use term_dict::{Block, BlockIndex, Dict, TermInfo};
use term_postings::Cursor;

// The block from a place of the dictionary to another.
#[tactic(auto, unfolding(crate::specs::Lending::block_part))]
pub(crate) fn block_between<'a>(
    pieces: &[FilePiece<'a>],
    sections: &Sections,
    start: u64,
    end: u64,
) -> Result<Block<'a>, SplitError>
    requires { 4 + total sections.now < 2 ^ 64 }
    ensures { Gives (λ b. b.bytes.now) result (block_part sections.now pieces.now start end) }
{
    let len = end.saturating_sub(start);
    let bytes = section_part(pieces, sections, Section::Dictionary, start, len)?;
    match Block::read(bytes) {
        Ok(block) => Ok(block),
        Err(_) => Err(SplitError::BadSection {
            number: Section::Dictionary.number(),
        }),
    }
}

// The positions of a term, where they are wanted.
#[tactic(auto, unfolding(crate::specs::Lending::places_part))]
fn places_part<'a>(
    pieces: &[FilePiece<'a>],
    sections: &Sections,
    info: &TermInfo,
    wanted: bool,
) -> Result<&'a [u8], SplitError>
    requires { 4 + total sections.now < 2 ^ 64 }
    ensures { Gives (λ b. b.now) result (places_part wanted sections.now pieces.now info.now) }
{
    if !wanted {
        return Ok(&[]);
    }
    section_part(
        pieces,
        sections,
        Section::Positions,
        info.positions,
        info.positions_len,
    )
}

// A cursor over the list of a term.
#[tactic(auto, unfolding(crate::specs::Lending::cursor_in))]
pub(crate) fn cursor_over<'a>(
    pieces: &[FilePiece<'a>],
    sections: &Sections,
    info: &TermInfo,
    positions: bool,
) -> Result<Cursor<'a>, SplitError>
    requires { 4 + total sections.now < 2 ^ 64 }
    ensures only { (p : Parts) (list : List Posting) → ArePieces (file_bytes p) pieces.now → sections.now ≡ sections_of p → IsListAt p info.now positions list
        → LendsCursor sections.now pieces.now info.now positions list result }
    ensures exact { Gives walk result (cursor_in sections.now pieces.now info.now positions) }
{
    let (at, len) = (info.postings, info.postings_len);
    match section_part(pieces, sections, Section::Postings, at, len) {
        Ok(lists) => match places_part(pieces, sections, info, positions) {
            Ok(places) => Ok(Cursor::over(lists, places, info.docs, positions)),
            Err(fault) => Err(fault),
        },
        Err(fault) => Err(fault),
    }
}

// A cursor over the list of a term, which gives no positions. `counted` says whether the list counts them.
#[tactic(auto, unfolding(crate::specs::Lending::documents_in))]
pub(crate) fn documents_over<'a>(
    pieces: &[FilePiece<'a>],
    sections: &Sections,
    info: &TermInfo,
    counted: bool,
) -> Result<Cursor<'a>, SplitError>
    requires { 4 + total sections.now < 2 ^ 64 }
    ensures only { (p : Parts) (list : List Posting) → ArePieces (file_bytes p) pieces.now → sections.now ≡ sections_of p → IsListAt p info.now counted list
        → LendsDocuments sections.now pieces.now info.now list result }
    ensures exact { Gives walk result (documents_in sections.now pieces.now info.now counted) }
{
    let (at, len) = (info.postings, info.postings_len);
    match section_part(pieces, sections, Section::Postings, at, len) {
        Ok(lists) => Ok(Cursor::over(lists, &[], info.docs, counted)),
        Err(fault) => Err(fault),
    }
}

// The column from a place of the section to another.
#[tactic(auto, unfolding(crate::specs::Lending::column_part))]
fn column_between<'a>(
    pieces: &[FilePiece<'a>],
    sections: &Sections,
    field: &Field,
    start: u64,
    end: u64,
) -> Result<Column<'a>, SplitError>
    requires { 4 + total sections.now < 2 ^ 64 }
    ensures only { (p : Parts) (rows : List ColumnRow) → ArePieces (file_bytes p) pieces.now → sections.now ≡ sections_of p → IsColumnAt p field.now.kind rows start end
        → LendsColumn pieces.now (start_of parts_named.Columns sections.now + start) (end - start) rows result }
    ensures exact { Gives parts result (column_part field.now.kind sections.now pieces.now start end) }
{
    if end < start {
        return Err(SplitError::BadSection {
            number: Section::Columns.number(),
        });
    }
    match section_part(pieces, sections, Section::Columns, start, end - start) {
        Ok(bytes) => match Column::read(field, bytes) {
            Ok((column, _behind)) => Ok(column),
            Err(_) => Err(SplitError::BadSection {
                number: Section::Columns.number(),
            }),
        },
        Err(fault) => Err(fault),
    }
}

// The column of a field with a number.
#[tactic(auto, unfolding(crate::specs::Lending::column_in))]
pub(crate) fn column_of<'a>(
    pieces: &[FilePiece<'a>],
    sections: &Sections,
    footer: &[u8],
    table: Table,
    field: &Field,
    number: u64,
) -> Result<Column<'a>, SplitError>
    requires room { 4 + total sections.now < 2 ^ 64 }
    requires within { table.at ≤ length footer.now }
    ensures only { (p : Parts) (rows : List ColumnRow) (start end : ℕ) → ArePieces (file_bytes p) pieces.now → sections.now ≡ sections_of p → IsColumnAt p field.now.kind rows start end
        → column_among table.count number sections.now.columns footer.now table.at ≡ Ok (Some (start, end))
        → LendsColumn pieces.now (start_of parts_named.Columns sections.now + start) (end - start) rows result }
    ensures exact { Gives parts result (column_in field.now.kind sections.now pieces.now footer.now table number) }
{
    match column_range(footer, table, number, sections.columns) {
        Ok(Some((start, end))) => column_between(pieces, sections, field, start, end),
        Ok(None) | Err(_) => Err(SplitError::BadSection { number: FOOTER }),
    }
}

// The column of the field of a schema with a number, if it has a fast one.
#[tactic(auto, unfolding(crate::specs::Lending::column_read))]
pub(crate) fn fast_column<'a>(
    pieces: &[FilePiece<'a>],
    layout: &Layout,
    footer: &[u8],
    schema: &Schema,
    number: u32,
) -> Result<Option<Column<'a>>, SplitError>
    requires room { 4 + total layout.now.sections < 2 ^ 64 }
    requires within { IsWithin footer.now layout.now }
    ensures only { (documents : List Placed) (p : Parts) → IsSplitOf schema.now documents p → IsLaidOut p layout.now footer.now pieces.now
        → LendsFast pieces.now (start_of parts_named.Columns layout.now.sections + start_of_column number p.column_starts) (length_of_column number (length p.columns) p.column_starts)
        number documents (slice_get schema.now.fields number) result }
    ensures there { (documents : List Placed) (p : Parts) → IsSplitOf schema.now documents p → IsLaidOut p layout.now footer.now pieces.now → HaveAll (file_bytes p) pieces.now → IsOk result }
    ensures exact { Gives parts_of result (column_read schema.now layout.now.sections pieces.now footer.now layout.now.columns number) }
{
    if number as usize >= schema.fields.len() {
        return Ok(None);
    }
    let field = schema.fields.at(number as usize);
    if !field.fast {
        return Ok(None);
    }
    let sections = &layout.sections;
    let table = layout.columns;
    match column_of(pieces, sections, footer, table, field, u64::from(number)) {
        Ok(column) => Ok(Some(column)),
        Err(fault) => Err(fault),
    }
}

// The dictionary, by its index.
#[tactic(auto, unfolding(crate::specs::SplitReading::dict_read))]
pub(crate) fn dict_over<'a>(
    pieces: &[FilePiece<'a>],
    sections: &Sections,
    index: &'a BlockIndex,
) -> Result<Dict<'a>, SplitError>
    requires { 4 + total sections.now < 2 ^ 64 }
    ensures only { (p : Parts) (terms : List Term) → ArePieces (file_bytes p) pieces.now → sections.now ≡ sections_of p → HaveAll (file_bytes p) pieces.now → IsDict p.dictionary index.now terms
        → IsOkAnd result (λ d. IsOver d terms) }
    ensures exact { Gives {Y = List ℕ × List BlockStart} (λ d. (d.area.now, d.index.now)) result (dict_read sections.now pieces.now index.now) }
{
    let size = sections.dictionary;
    match section_part(pieces, sections, Section::Dictionary, 0, size) {
        Ok(area) => match Dict::read(area, index) {
            Ok(dict) => Ok(dict),
            Err(_) => Err(SplitError::BadSection {
                number: Section::Dictionary.number(),
            }),
        },
        Err(fault) => Err(fault),
    }
}

//! What is asked of a file, and the answers.

ghost use Rattle.std.specs.Prelude.{◌<◌};

use super::fields::schema;
use super::whole::{counted, whole};
use doc_value::{Schema, Value};
use split_bundle::{Footer, PartView, Placed, SplitError};
use std::alloc::{AllocError, Global};
use term_postings::Cursor;

/// The answer to a line, over the schema of two fields.
pub fn answer(alloc: Global, file: &[u8], line: &str) -> Result<String, AllocError> {
    let schema = schema(alloc)?;
    answered(alloc, &schema, file, line)
}

fn answered(alloc: Global, schema: &Schema, file: &[u8], line: &str) -> Result<String, AllocError> {
    if let Some(word) = line.strip_prefix("word ") {
        return told(alloc, word_in(alloc, file, word));
    }
    if let Some(word) = line.strip_prefix("count ") {
        return told(alloc, counted(alloc, file, word));
    }
    match line {
        "read" => told(alloc, parts(alloc, file)),
        "documents" => told(alloc, documents(alloc, schema, file)),
        "whole" => told(alloc, whole(alloc, schema, file)),
        "level" => told(alloc, level(alloc, schema, file)),
        "cuts" => cuts(alloc, file),
        "flips" => flips(alloc, schema, file),
        _ => String::from_str(alloc, "what?"),
    }
}

// An answer, or why there is none.
fn told(alloc: Global, answer: Result<String, SplitError>) -> Result<String, AllocError> {
    match answer {
        Ok(text) => Ok(text),
        Err(SplitError::Memory(refused)) => Err(refused),
        Err(fault) => format!(in alloc; "{fault}"),
    }
}

// How many documents there are, and how many bytes the sections have.
fn parts(alloc: Global, file: &[u8]) -> Result<String, SplitError> {
    let footer = Footer::read(alloc, file, file.len() as u64)?;
    let docs = PartView::whole(alloc, file)?.doc_count();
    let s = footer.sections();
    let (documents, dictionary) = (s.documents, s.dictionary);
    let (postings, positions, columns) = (s.postings, s.positions, s.columns);
    let text = format!(in alloc;
        "{docs} documents, sections {documents} {dictionary} {postings} {positions} {columns}"
    )?;
    Ok(text)
}

// A document: its partition, its offset there, and its texts.
fn put_placed(out: &mut String, alloc: Global, placed: &Placed) -> Result<(), AllocError> {
    let partition = placed.partition.copy();
    let offset = placed.offset;
    out.push_str(format!(in alloc; "{partition} {offset}")?.as_str())?;
    for number in 0..placed.doc.len() {
        let field = placed.doc.at(number);
        for place in 0..field.values.len() {
            if let Value::Text(text) = field.values.at(place) {
                out.push_str(" ")?;
                out.push_str(text.as_str())?;
            }
        }
    }
    Ok(())
}

fn documents(alloc: Global, schema: &Schema, file: &[u8]) -> Result<String, SplitError> {
    let view = PartView::whole(alloc, file)?;
    let mut out = String::new(alloc);
    for doc in 0..view.doc_count() {
        put_document(&mut out, alloc, schema, &view, doc)?;
    }
    Ok(out)
}

fn put_document(
    out: &mut String,
    alloc: Global,
    schema: &Schema,
    view: &PartView<'_>,
    doc: u32,
) -> Result<(), SplitError>
    requires { doc < view.now.footer.layout.docs }
{
    let placed = view.placed(alloc, schema, doc)?;
    if doc > 0 {
        out.push_str(", ")?;
    }
    put_placed(out, alloc, &placed)?;
    Ok(())
}

/// The key of a word of the body.
pub fn key_of(alloc: Global, word: &[u8]) -> Result<Vec<u8>, AllocError> {
    let mut key = Vec::from_slice(alloc, &[0, 0])?;
    key.extend_from_slice(word)?;
    Ok(key)
}

// The documents of a word of the body, and where it stands in them.
fn word_in(alloc: Global, file: &[u8], word: &str) -> Result<String, SplitError> {
    let key = key_of(alloc, word.as_bytes())?;
    let view = PartView::whole(alloc, file)?;
    word_of(alloc, &view, key.as_slice())
}

fn word_of(alloc: Global, view: &PartView<'_>, key: &[u8]) -> Result<String, SplitError> {
    let Some(number) = view.footer().index().block_of(key) else {
        return Ok(String::from_str(alloc, "no block")?);
    };
    let Ok(number) = u32::try_from(number) else {
        return Ok(String::from_str(alloc, "too many blocks")?);
    };
    match view.block(number)?.find(key) {
        Ok(Some(info)) => Ok(listed(alloc, view.postings_at(&info, true)?, info.docs)?),
        Ok(None) => Ok(String::from_str(alloc, "no term")?),
        Err(_fault) => Ok(String::from_str(alloc, "no block of its form")?),
    }
}

fn listed(alloc: Global, mut cursor: Cursor<'_>, docs: u32) -> Result<String, AllocError> {
    let mut out = String::new(alloc);
    for _ in 0..docs {
        let Ok(Some(document)) = cursor.next() else {
            return Ok(out);
        };
        out.push_str(format!(in alloc; "{document}:")?.as_str())?;
        if let Ok(Some(position)) = cursor.next_position() {
            out.push_str(format!(in alloc; "{position} ")?.as_str())?;
        }
    }
    Ok(out)
}

// How many values the column of the levels has.
fn level(alloc: Global, schema: &Schema, file: &[u8]) -> Result<String, SplitError> {
    match PartView::whole(alloc, file)?.column(schema, 1)? {
        Some(column) => {
            let count = column.len();
            Ok(format!(in alloc; "{count} values")?)
        }
        None => Ok(String::from_str(alloc, "no column")?),
    }
}

// How many of some files are refused, and how many are read.
#[derive(Clone, Copy)]
struct Tally {
    refused: u32,
    read: u32,
}

impl Tally {
    fn add(&mut self, is_read: bool) {
        if is_read {
            self.read = self.read.saturating_add(1);
        } else {
            self.refused = self.refused.saturating_add(1);
        }
    }

    fn text(&self, alloc: Global) -> Result<String, AllocError> {
        let (refused, read) = (self.refused, self.read);
        format!(in alloc; "{refused} refused, {read} read")
    }
}

// Every shorter front of the file.
fn cuts(alloc: Global, file: &[u8]) -> Result<String, AllocError> {
    let mut tally = Tally {
        refused: 0,
        read: 0,
    };
    for len in 0..file.len() {
        match PartView::whole(alloc, &file[..len]) {
            Ok(_view) => tally.add(true),
            Err(SplitError::Memory(refused)) => return Err(refused),
            Err(_fault) => tally.add(false),
        }
    }
    tally.text(alloc)
}

// The file with each of its bits turned.
fn flips(alloc: Global, schema: &Schema, file: &[u8]) -> Result<String, AllocError> {
    let mut tally = Tally {
        refused: 0,
        read: 0,
    };
    let mut turned = Vec::from_slice(alloc, file)?;
    for place in 0..file.len() {
        for bit in 0..8u32 {
            if place < turned.len() {
                turned[place] ^= 1u8 << bit;
                tally.add(is_read(alloc, schema, turned.as_slice())?);
                turned[place] ^= 1u8 << bit;
            }
        }
    }
    tally.text(alloc)
}

// Whether these bytes are read; if so each reader of the view is asked, and what it answers is let go.
fn is_read(alloc: Global, schema: &Schema, bytes: &[u8]) -> Result<bool, AllocError> {
    let view = match PartView::whole(alloc, bytes) {
        Ok(view) => view,
        Err(SplitError::Memory(refused)) => return Err(refused),
        Err(_fault) => return Ok(false),
    };
    for doc in 0..view.doc_count().min(8) {
        let _placed = view.placed(alloc, schema, doc);
    }
    let _column = view.column(schema, 1);
    for key in [b"fox", b"hen", b"red"] {
        let _answer = ask(alloc, &view, key)?;
    }
    Ok(true)
}

fn ask(alloc: Global, view: &PartView<'_>, word: &[u8]) -> Result<bool, AllocError> {
    let key = key_of(alloc, word)?;
    Ok(has_documents(view, key.as_slice()))
}

// Whether a first document of the key is read; each reader on the way is asked.
fn has_documents(view: &PartView<'_>, key: &[u8]) -> bool {
    let Some(number) = view.footer().index().block_of(key) else {
        return false;
    };
    let Ok(number) = u32::try_from(number) else {
        return false;
    };
    let Ok(block) = view.block(number) else {
        return false;
    };
    let Ok(Some(info)) = block.find(key) else {
        return false;
    };
    let Ok(cursor) = view.postings_at(&info, true) else {
        return false;
    };
    walks(cursor, info.docs.min(8))
}

// Whether one of so many documents is read, with its first position.
fn walks(mut cursor: Cursor<'_>, docs: u32) -> bool {
    let mut is_found = false;
    for _ in 0..docs {
        if let Ok(Some(_document)) = cursor.next() {
            is_found = true;
            let _position = cursor.next_position();
        }
    }
    is_found
}

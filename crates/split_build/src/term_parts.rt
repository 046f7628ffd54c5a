//! The dictionary, the postings and the positions of the keys that were taken.

ghost use Rattle.std.specs.Prelude.{◌≡◌, ◌≤◌, ◌∷◌, ◌++◌, [], ℕ, List, length, true, IfOk, OnOk, if◌then◌else◌};
ghost use Rattle.doc_value.specs.declared.schema.Schema.{Schema};
ghost use Rattle.split_bundle.specs.declared.placed.Placed.{Placed};
ghost use Rattle.split_bundle.specs.Splits.{AreRising};
ghost use Rattle.term_postings.specs.Rows.{lent};
ghost use Rattle.split_bundle.specs.Lists.{keeps_places};
ghost use Rattle.split_build.specs.Grouped.{grouped, run_of};
ghost use Rattle.split_build.specs.HeldKeys.{key_bytes};
ghost use Rattle.split_build.specs.WrittenTerms.{AreGrouped, AreTermParts, IsLogOf, HasWritten, IsListOf};

use crate::key_groups::{KeyGroups, groups_of};
use crate::key_order::in_order;
use crate::terms::TermLog;
use byte_fields::Bytes;
use doc_value::Schema;
use std::alloc::{AllocError, Global};
use term_dict::{BlockIndex, DictBuilder, TermInfo};
use term_postings::{Row, append_postings};

// How many of the first numbers are this one.
fn run_length(document: u32, documents: &[u32]) -> usize
    ensures run { result ≡ run_of document documents.now }
    ensures within { result ≤ length documents.now }
{
    let mut count = 0;
    for other in documents {
        if *other != document {
            return count;
        }
        count += 1;
    }
    count
}

// How many places so many occurrences have.
fn places_of(kept: bool, count: usize) -> usize
    ensures { result ≡ (if kept then count else 0) }
{
    if kept { count } else { 0 }
}

// A row for each document of some occurrences, with its places where they are kept.
pub(crate) fn rows_of<'a>(
    alloc: Global,
    kept: bool,
    documents: &[u32],
    places: &'a [u64],
) -> Result<Vec<Row<'a>>, AllocError>
    requires { kept ≡ true → length places.now ≡ length documents.now }
    ensures { IfOk result (λ rows. lent rows.items ≡ grouped kept documents.now places.now) }
{
    let mut rows = Vec::new(alloc);
    let mut left = documents;
    let mut rest = places;
    while let Some((document, _)) = left.split_first() {
        let count = run_length(*document, left);
        let (_, later) = left.split_at(count);
        let (positions, behind) = rest.split_at(places_of(kept, count));
        rows.push(Row {
            document: *document,
            positions,
        })?;
        left = later;
        rest = behind;
    }
    Ok(rows)
}

// Whether the lists of a key have positions: those of a field that keeps them.
pub(crate) fn keeps_places(schema: &Schema, key: &[u8]) -> bool
    ensures { result ≡ keeps_places schema.now key.now }
{
    match key {
        [high, low, ..] => {
            let number = usize::from(*high) * 256 + usize::from(*low);
            schema
                .fields
                .as_slice()
                .get(number)
                .is_some_and(|field| field.positions)
        }
        _ => false,
    }
}

/// The dictionary, the postings and the positions of some keys, and how many they are.
#[derive(Drop)]
pub struct TermParts {
    pub count: u64,
    pub dictionary: Bytes,
    pub index: BlockIndex,
    pub postings: Vec<u8>,
    pub positions: Vec<u8>,
}

// The same, as far as they are written.
#[derive(Drop)]
struct TermWriter {
    dictionary: DictBuilder,
    postings: Vec<u8>,
    positions: Vec<u8>,
}

impl TermWriter {
    fn vacant(alloc: Global) -> TermWriter
        ensures { (s : Schema) (documents : List Placed) → HasWritten result s documents [] }
    {
        TermWriter {
            dictionary: DictBuilder::vacant(alloc),
            postings: Vec::new(alloc),
            positions: Vec::new(alloc),
        }
    }

    // Writes a key, which is above those that are written, with its list.
    fn write(
        &mut self,
        alloc: Global,
        schema: &Schema,
        key: &[u8],
        documents: &[u32],
        places: &[u64],
    ) -> Result<(), AllocError>
        requires { ∥ ((ds : List Placed) × IsListOf schema.now ds key.now documents.now places.now) ∥₁ }
        ensures { (ds : List Placed) (keys : List (List ℕ)) → IsListOf schema.now ds key.now documents.now places.now → AreRising (keys ++ key.now ∷ [])
            → HasWritten self.old schema.now ds keys → OnOk result (HasWritten self.new schema.now ds (keys ++ key.now ∷ [])) }
    {
        let kept = keeps_places(schema, key);
        let rows = rows_of(alloc, kept, documents, places)?;
        let postings = self.postings.len();
        let positions = self.positions.len();
        append_postings(alloc, &rows, kept, &mut self.postings, &mut self.positions)?;
        let info = TermInfo {
            docs: rows.len() as u32,
            postings: postings as u64,
            postings_len: (self.postings.len() - postings) as u64,
            positions: positions as u64,
            positions_len: (self.positions.len() - positions) as u64,
        };
        self.dictionary.append(alloc, key, &info)?;
        Ok(())
    }
}

// The occurrences of a key whose places are kept, or not.
fn groups_for<'a>(kept: bool, placed: &'a KeyGroups, plain: &'a KeyGroups) -> &'a KeyGroups
    ensures { result.now ≡ (if kept then placed.now else plain.now) }
{
    if kept { placed } else { plain }
}

// The parts of a split that these keys make, whose occurrences stand together.
fn write_groups(
    alloc: Global,
    schema: &Schema,
    keys: &[Vec<u8>],
    placed: &KeyGroups,
    plain: &KeyGroups,
) -> Result<TermParts, AllocError>
    requires { ∥ ((documents : List Placed) × AreGrouped schema.now documents (key_bytes keys.now) placed.now plain.now) ∥₁ }
    ensures { (documents : List Placed) → AreGrouped schema.now documents (key_bytes keys.now) placed.now plain.now → IfOk result (AreTermParts schema.now documents) }
{
    let order = in_order(alloc, keys)?;
    let mut writer = TermWriter::vacant(alloc);
    let mut documents = Vec::new(alloc);
    let mut places = Vec::new(alloc);
    for i in 0..order.len() {
        let (key, number) = order[i];
        let kept = keeps_places(schema, key);
        groups_for(kept, placed, plain).put_group(kept, number, &mut documents, &mut places)?;
        writer.write(alloc, schema, key, &documents, &places)?;
    }
    let TermWriter {
        dictionary,
        postings,
        positions,
    } = writer;
    let (dictionary, index) = dictionary.finish();
    Ok(TermParts {
        count: order.len() as u64,
        dictionary,
        index,
        postings,
        positions,
    })
}

/// The parts of a split that the keys of the documents make.
pub fn write_terms(alloc: Global, schema: &Schema, log: TermLog) -> Result<TermParts, AllocError>
    requires { ∥ ((documents : List Placed) × IsLogOf log schema.now documents) ∥₁ }
    ensures { (documents : List Placed) → IsLogOf log schema.now documents → IfOk result (AreTermParts schema.now documents) }
{
    let TermLog {
        keys,
        placed,
        plain,
        ..
    } = log;
    let plain = groups_of(alloc, keys.len(), plain)?;
    let placed = groups_of(alloc, keys.len(), placed)?;
    write_groups(alloc, schema, keys.as_slice(), &placed, &plain)
}

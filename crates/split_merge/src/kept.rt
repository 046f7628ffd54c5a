//! The documents that are kept, read in place: in bytes, with the values of their fast fields and their facts.

ghost use Rattle.std.specs.Prelude.{◌≡◌, ◌<◌, ◌++◌, [], List, Ok, IfOk, OnOk};
ghost use Rattle.doc_value.specs.Documents.{IsSchema};
ghost use Rattle.sha2.specs.Sha256.{sha256};
ghost use Rattle.split_bundle.specs.declared.placed.Placed.{Placed};
ghost use Rattle.split_bundle.specs.DocReading.{doc_part, partition_in};
ghost use Rattle.split_bundle.specs.Documents.{documents_section};
ghost use Rattle.split_bundle.specs.Files.{head};
ghost use Rattle.split_bundle.specs.Reading.{MayGive};
ghost use Rattle.split_bundle.specs.SplitViews.{pieces_of};
ghost use Rattle.split_build.specs.Builders.{IsBuilt};
ghost use Rattle.split_build.specs.Limits.{AreWithin};
ghost use Rattle.split_build.specs.WrittenTerms.{AreTermParts};
ghost use Rattle.split_merge.specs.Kept.{AreSectionsOf, AreToWrite};
ghost use Rattle.split_merge.specs.LentDocuments.{HasLent};
ghost use Rattle.split_merge.specs.Merging.{HoldsDocuments};
ghost use Rattle.split_merge.specs.Places.{ArePlaces, HasPlace};
ghost use Rattle.split_merge.specs.Reading.{alone, behind, document_of};

use crate::facts::FieldFacts;
use crate::lent_documents::LentDocuments;
use crate::places::{KnownPlace, known_at};
use doc_value::{Bytes, Schema};
use sha2::{Digest, Sha256};
use source_checkpoint::Partition;
use split_build::{
    BuiltSplit, ColumnLog, ColumnSection, FileBegun, TermParts, begin_file, tag_facts,
    write_columns,
};
use split_bundle::{SplitError, SplitView};
use split_states::RowFacts;
use std::alloc::{AllocError, Global};
use std::mem;

// What a document weighs beside its bytes: one for the place of its partition, and 256.
const WEIGHT_BESIDE: u64 = 257;

/// The documents that are kept so far: what they weigh, their bytes, their facts, and the values of their fast fields.
#[derive(Drop)]
pub(crate) struct KeptDocuments<'a> {
    pub(crate) weight: u64,
    pub(crate) documents: LentDocuments<'a>,
    pub(crate) facts: FieldFacts,
}

// The partition of a document of a view, which stands at a place among those of its footer. One that is not known is read,
// and then it is.
fn partition_at(
    alloc: Global,
    schema: &Schema,
    view: &SplitView<'_>,
    known: &mut Vec<KnownPlace>,
    place: u64,
    doc: u32,
) -> Result<Partition, SplitError>
    requires { doc < view.now.layout.docs }
    ensures places { ArePlaces view.now known.old.items → HasPlace schema.now view.now doc place → OnOk result (ArePlaces view.now known.new.items) }
    ensures exact { ArePlaces view.now known.old.items → HasPlace schema.now view.now doc place → MayGive (λ p. p) result (partition_in view.now.footer.now view.now.layout.partitions place) }
{
    if let Some(partition) = known_at(known, place) {
        return Ok(partition);
    }
    match view.placed(alloc, schema, doc) {
        Ok(placed) => {
            let partition = placed.partition;
            known.push(KnownPlace { place, partition })?;
            Ok(partition)
        }
        Err(fault) => Err(fault),
    }
}

fn digest_of(bytes: &[u8]) -> [u8; 32]
    ensures { result ≡ sha256 bytes.now }
{
    let mut hasher = Sha256::new();
    hasher.update(bytes);
    hasher.finalize()
}

// How many bytes documents of this weight take: each weighs 257 beside its bytes, and takes nine, for where it begins and for
// the place of its partition.
fn room_for(weight: u64, count: u32) -> usize {
    let count = u64::from(count);
    weight.saturating_sub(count.saturating_mul(WEIGHT_BESIDE - 9)) as usize
}

// The bytes of a file up to the end of its documents, with room for what is written behind them.
fn file_front(
    alloc: Global,
    room: usize,
    documents: LentDocuments<'_>,
    partitions: &[Partition],
    terms: &TermParts,
    columns: &ColumnSection,
) -> Result<Vec<u8>, AllocError>
    requires { ∥ ((ds : List Placed) × HasLent documents ds) ∥₁ }
    ensures { (ds : List Placed) → HasLent documents.entry ds → IfOk result (λ out. out.items ≡ head ++ documents_section partitions.now ds) }
{
    let mut out = begin_file(alloc, room, terms, columns)?;
    documents.put_section(alloc, partitions, &mut out)?;
    mem::drop(documents);
    Ok(out)
}

// The file of so many documents, whose terms are there, up to the end of the documents.
fn begun_of(
    alloc: Global,
    schema: &Schema,
    count: u32,
    room: usize,
    documents: LentDocuments<'_>,
    columns: Vec<ColumnLog>,
    terms: TermParts,
) -> Result<FileBegun, AllocError>
    requires { ∥ ((ds : List Placed) × AreToWrite schema.now ds documents columns.items) ∥₁ }
    ensures docs { IfOk result (λ f. f.docs ≡ count) }
    ensures terms { IfOk result (λ f. f.terms ≡ terms) }
    ensures sections { (ds : List Placed) → AreToWrite schema.now ds documents.entry columns.items → IfOk result (AreSectionsOf schema.now ds) }
{
    let section = write_columns(alloc, schema, &columns)?;
    // The values are let go before the documents are copied.
    mem::drop(columns);
    let partitions = documents.partitions(alloc)?;
    let begun = file_front(alloc, room, documents, &partitions, &terms, &section)?;
    Ok(FileBegun {
        docs: count,
        begun,
        terms,
        columns: section,
        partitions,
    })
}

impl<'a> KeptDocuments<'a> {
    ghost use Rattle.split_merge.specs.Kept.{HasKept, Keeps};

    /// No documents.
    pub(crate) fn vacant(alloc: Global, schema: &Schema) -> Result<KeptDocuments<'a>, AllocError>
        requires { IsSchema schema.now }
        ensures { IfOk result (λ k. HasKept k schema.now []) }
    {
        Ok(KeptDocuments {
            weight: 0,
            documents: LentDocuments::vacant(alloc),
            facts: FieldFacts::vacant(alloc, schema)?,
        })
    }

    /// How many documents there are, and what they weigh.
    pub(crate) fn count_and_weight(&self) -> (u32, u64)
        ensures count { result.0 ≡ self.now.facts.count }
        ensures weight { result.1 ≡ self.now.weight }
    {
        (self.facts.count, self.weight)
    }

    // Takes the document of a view with a number, which has these bytes. After an `Err` nothing is said of what is held.
    fn take_bytes(
        &mut self,
        alloc: Global,
        schema: &Schema,
        view: &SplitView<'a>,
        known: &mut Vec<KnownPlace>,
        doc: u32,
        bytes: &'a [u8],
    ) -> Result<(), SplitError>
        requires { doc < view.now.layout.docs }
        ensures places { (before : List Placed) → HasKept self.old schema.now before → ArePlaces view.now known.old.items → doc_part view.now.layout (pieces_of view.now) doc ≡ Ok bytes.now → OnOk result (ArePlaces view.now known.new.items) }
        ensures exact { (before : List Placed) → HasKept self.old schema.now before → ArePlaces view.now known.old.items → doc_part view.now.layout (pieces_of view.now) doc ≡ Ok bytes.now
            → Keeps self.new schema.now result (behind (Ok before) (alone (document_of schema.now view.now doc))) }
    {
        match self.facts.take_document(alloc, &schema.fields, bytes) {
            Ok((place, from)) => match partition_at(alloc, schema, view, known, place, doc) {
                Ok(partition) => {
                    let (_place, body) = bytes.split_at(from);
                    self.documents.add(&partition, body)?;
                    self.weight = self
                        .weight
                        .saturating_add(WEIGHT_BESIDE + body.len() as u64);
                    Ok(())
                }
                Err(fault) => Err(fault),
            },
            Err(fault) => Err(fault),
        }
    }

    /// Takes the document of a view with a number. The partitions that are known are those of this view. After an `Err` nothing
    /// is said of what is held.
    pub(crate) fn take(
        &mut self,
        alloc: Global,
        schema: &Schema,
        view: &SplitView<'a>,
        known: &mut Vec<KnownPlace>,
        doc: u32,
    ) -> Result<(), SplitError>
        requires { doc < view.now.layout.docs }
        ensures places { (before : List Placed) → HasKept self.old schema.now before → ArePlaces view.now known.old.items → OnOk result (ArePlaces view.now known.new.items) }
        ensures exact { (before : List Placed) → HasKept self.old schema.now before → ArePlaces view.now known.old.items
            → Keeps self.new schema.now result (behind (Ok before) (alone (document_of schema.now view.now doc))) }
    {
        match view.doc_bytes(doc) {
            Ok(bytes) => self.take_bytes(alloc, schema, view, known, doc, bytes),
            Err(fault) => Err(fault),
        }
    }

    /// The split of the documents with these terms, and its facts.
    pub(crate) fn finish(
        self,
        alloc: Global,
        schema: &Schema,
        terms: TermParts,
    ) -> Result<BuiltSplit, AllocError>
        requires schema { IsSchema schema.now }
        requires kept { (documents : List Placed) × HasKept self schema.now documents × AreWithin documents }
        // With any terms: a file of these documents.
        ensures holds { (documents : List Placed) → HasKept self.entry schema.now documents → AreWithin documents → IfOk result (HoldsDocuments schema.now documents) }
        // With theirs: their split.
        ensures built { (documents : List Placed) → HasKept self.entry schema.now documents → AreWithin documents → AreTermParts schema.now documents terms → IfOk result (IsBuilt schema.now documents) }
    {
        let KeptDocuments {
            weight,
            documents,
            facts,
        } = self;
        let FieldFacts {
            count,
            tags,
            times,
            columns,
            ..
        } = facts;
        let room = room_for(weight, count);
        let begun = begun_of(alloc, schema, count, room, documents, columns, terms)?;
        let file = begun.finish(alloc)?;
        let facts = RowFacts {
            docs: u64::from(count),
            rejected: 0,
            weight,
            size: file.len() as u64,
            digest: digest_of(&file),
            times,
            tags: tag_facts(alloc, tags)?,
        };
        Ok(BuiltSplit {
            bytes: Bytes::from_vec(file),
            facts,
        })
    }
}

//! The documents that are kept, in the bytes of their splits, and the section of documents that they make.

ghost use Rattle.std.specs.Prelude.{◌≡◌, ◌<◌, ◌+◌, ◌++◌, ◌∷◌, [], List, length, map, IfOk, OnOk};
ghost use Rattle.std.specs.List.{AllByRecursion, flat_map};
ghost use Rattle.byte_fields.specs.Spelling.{eight, varint};
ghost use Rattle.split_bundle.specs.declared.placed.Placed.{Placed};
ghost use Rattle.split_bundle.specs.Documents.{documents_section, joined, starts};
ghost use Rattle.split_bundle.specs.Splits.{ArePartitions};
ghost use Rattle.split_build.specs.Bodies.{body_of};
ghost use Rattle.split_merge.specs.LentDocuments.{HasLent, IsNumbered, in_bytes};

use byte_fields::{Bytes, put_eight, put_varint};
use source_checkpoint::Partition;
use split_build::{name_number, places_of, rising_names};
use std::alloc::{AllocError, Global};

/// A document in the bytes of its split, without the place of its partition, and the number of its partition among the names.
#[derive(Clone, Copy)]
pub(crate) struct LentDocument<'a> {
    pub(crate) name: usize,
    pub(crate) body: &'a [u8],
}

/// Documents in the bytes of their splits, each without the place of its partition, which is known when all partitions are.
#[derive(Drop)]
pub(crate) struct LentDocuments<'a> {
    pub(crate) names: Vec<Partition>,
    pub(crate) documents: Vec<LentDocument<'a>>,
}

// Numbers, each spelled.
fn spelled(alloc: Global, numbers: &[u64]) -> Result<Vec<Bytes>, AllocError>
    ensures { IfOk result (λ all. all.items ≡ map varint numbers.now) }
{
    let mut all = Vec::new(alloc);
    for number in numbers {
        let mut bytes = Vec::new(alloc);
        put_varint(&mut bytes, *number)?;
        all.push(Bytes::from_vec(bytes))?;
    }
    Ok(all)
}

// Where the next document begins. There is no room for 2^64 bytes.
fn next_start(start: u64, place: &Bytes, body: &[u8]) -> Result<u64, AllocError>
    ensures { IfOk result (λ next. next ≡ start + length (place.now ++ body.now)) }
{
    let len = place.as_slice().len() as u64 + body.len() as u64;
    match start.checked_add(len) {
        Some(next) => Ok(next),
        None => Err(AllocError),
    }
}

// Appends where documents begin, each behind the place of its partition, and where the last one ends.
fn put_starts(
    documents: &[LentDocument<'_>],
    places: &[Bytes],
    out: &mut Vec<u8>,
) -> Result<(), AllocError>
    requires { AllByRecursion (IsNumbered places.now) documents.now }
    ensures { OnOk result (out.new.items ≡ out.old.items ++ flat_map eight (starts 0 (in_bytes places.now documents.now))) }
{
    let mut start = 0;
    for document in documents {
        let LentDocument { name, body } = *document;
        put_eight(out, start)?;
        let next = next_start(start, &places[name], body)?;
        start = next;
    }
    put_eight(out, start)?;
    Ok(())
}

// Appends documents, each behind the place of its partition.
fn put_documents(
    documents: &[LentDocument<'_>],
    places: &[Bytes],
    out: &mut Vec<u8>,
) -> Result<(), AllocError>
    requires { AllByRecursion (IsNumbered places.now) documents.now }
    ensures { OnOk result (out.new.items ≡ out.old.items ++ joined (in_bytes places.now documents.now)) }
{
    for document in documents {
        let LentDocument { name, body } = *document;
        let place = &places[name];
        out.extend_from_slice(place.as_slice())?;
        out.extend_from_slice(body)?;
    }
    Ok(())
}

impl<'a> LentDocuments<'a> {
    /// No documents.
    pub(crate) fn vacant(alloc: Global) -> LentDocuments<'a>
        ensures { HasLent result [] }
    {
        LentDocuments {
            names: Vec::new(alloc),
            documents: Vec::new(alloc),
        }
    }

    /// Adds a document of a partition. After an `Err` nothing is said of what is held.
    pub(crate) fn add(&mut self, partition: &Partition, body: &'a [u8]) -> Result<(), AllocError>
        ensures { (documents : List Placed) (d : Placed) → partition.now ≡ d.partition → body.now ≡ body_of d → HasLent self.old documents
            → OnOk result (HasLent self.new (documents ++ d ∷ [])) }
    {
        let name = name_number(&mut self.names, partition)?;
        self.documents.push(LentDocument { name, body })?;
        Ok(())
    }

    /// The partitions that have a document, in the order of their bytes.
    pub(crate) fn partitions(&self, alloc: Global) -> Result<Vec<Partition>, AllocError>
        ensures { (documents : List Placed) → HasLent self.now documents → IfOk result (λ sorted. ArePartitions documents sorted.items) }
    {
        rising_names(alloc, &self.names)
    }

    /// Appends the section of documents.
    pub(crate) fn put_section(
        &self,
        alloc: Global,
        partitions: &[Partition],
        out: &mut Vec<u8>,
    ) -> Result<(), AllocError>
        requires { ∥ ((documents : List Placed) × HasLent self.now documents) ∥₁ }
        ensures { (documents : List Placed) → HasLent self.now documents → OnOk result (out.new.items ≡ out.old.items ++ documents_section partitions.now documents) }
    {
        let numbers = places_of(alloc, &self.names, partitions)?;
        let places = spelled(alloc, &numbers)?;
        put_starts(&self.documents, &places, out)?;
        put_documents(&self.documents, &places, out)?;
        Ok(())
    }
}

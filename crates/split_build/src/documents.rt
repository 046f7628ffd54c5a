//! The documents taken so far in bytes, and the section of documents.

ghost use Rattle.std.specs.Prelude.{◌≡◌, ◌≤◌, ◌∷◌, ◌++◌, [], ℕ, List, Some, length, map, slice_get, MatchOption, IfOk, OnOk};
ghost use Rattle.std.specs.List.{AllByRecursion, insert};
ghost use Rattle.split_bundle.specs.declared.placed.Placed.{Placed};
ghost use Rattle.split_bundle.specs.Documents.{place_among, documents_section};
ghost use Rattle.split_build.specs.Bodies.{body_of};
ghost use Rattle.split_bundle.specs.Splits.{ArePartitions};
ghost use Rattle.source_checkpoint.specs.Names.{IsPartition};
ghost use Rattle.split_build.specs.HeldDocuments.{AreNamesOf, HasDocuments, with_name};

use byte_fields::{put_eight, put_varint};
use source_checkpoint::Partition;
use std::alloc::{AllocError, Global};
use std::cmp::Ordering;

/// A document's partition by its number among the names, and its length behind the place of the partition.
#[derive(Clone, Copy)]
pub struct Piece {
    pub name: usize,
    pub len: usize,
}

/// Documents in bytes, each without the place of its partition, which is known when all partitions are.
#[derive(Drop)]
pub struct DocumentLog {
    pub names: Vec<Partition>,
    pub pieces: Vec<Piece>,
    pub bodies: Vec<u8>,
}

/// The number of a name, which is put behind the others where it is none of them.
pub fn name_number(names: &mut Vec<Partition>, name: &Partition) -> Result<usize, AllocError>
    ensures grown { OnOk result ((more : List (List ℕ)) × (names.new.items ≡ names.old.items ++ more) × AllByRecursion (λ m. m ≡ name.now) more) }
    ensures number { IfOk result (λ n. slice_get names.new.items n ≡ Some name.now) }
{
    for (number, other) in names.iter().enumerate() {
        if other.is(name) {
            return Ok(number);
        }
    }
    let number = names.len();
    names.push(*name)?;
    Ok(number)
}

impl DocumentLog {
    pub fn vacant(alloc: Global) -> DocumentLog
        ensures { HasDocuments result [] }
    {
        DocumentLog {
            names: Vec::new(alloc),
            pieces: Vec::new(alloc),
            bodies: Vec::new(alloc),
        }
    }

    /// Adds a document of a partition in bytes. After an `Err` nothing is said of what is held.
    pub fn add(&mut self, partition: &Partition, body: &[u8]) -> Result<(), AllocError>
        ensures { (documents : List Placed) (d : Placed) → partition.now ≡ d.partition → body.now ≡ body_of d → HasDocuments self.old documents
            → OnOk result (HasDocuments self.new (documents ++ d ∷ [])) }
    {
        let name = name_number(&mut self.names, partition)?;
        self.bodies.extend_from_slice(body)?;
        self.pieces.push(Piece {
            name,
            len: body.len(),
        })?;
        Ok(())
    }

    /// The partitions that have a document, in the order of their bytes.
    pub fn partitions(&self, alloc: Global) -> Result<Vec<Partition>, AllocError>
        ensures { (documents : List Placed) → HasDocuments self.now documents → IfOk result (λ sorted. ArePartitions documents sorted.items) }
    {
        rising_names(alloc, &self.names)
    }

    // Appends where the documents begin, and gives them one behind the other. What is held is let go.
    fn put_starts(
        self,
        alloc: Global,
        partitions: &[Partition],
        out: &mut Vec<u8>,
    ) -> Result<Vec<u8>, AllocError>
        requires { ∥ ((documents : List Placed) × HasDocuments self documents) ∥₁ }
        ensures { (documents : List Placed) → HasDocuments self documents → IfOk result (λ area. out.new.items ++ area.items ≡ out.old.items ++ documents_section partitions.now documents) }
    {
        let places = places_of(alloc, &self.names, partitions)?;
        let mut area = Vec::new(alloc);
        let mut pieces = self.pieces.as_slice();
        let mut rest = self.bodies.as_slice();
        while let Some((piece, behind)) = pieces.split_first() {
            let (body, others) = rest.split_at(piece.len);
            put_eight(out, area.len() as u64)?;
            put_varint(&mut area, places[piece.name])?;
            area.extend_from_slice(body)?;
            pieces = behind;
            rest = others;
        }
        put_eight(out, area.len() as u64)?;
        Ok(area)
    }

    /// Appends the section of documents.
    pub fn put_section(
        self,
        alloc: Global,
        partitions: &[Partition],
        out: &mut Vec<u8>,
    ) -> Result<(), AllocError>
        requires { ∥ ((documents : List Placed) × HasDocuments self documents) ∥₁ }
        ensures { (documents : List Placed) → HasDocuments self documents → OnOk result (out.new.items ≡ out.old.items ++ documents_section partitions.now documents) }
    {
        let area = self.put_starts(alloc, partitions, out)?;
        out.extend_from_slice(&area)
    }
}

// Where a name belongs among these, or none where it stands there.
fn place_for(names: &[Partition], name: &[u8]) -> Option<usize>
    ensures { MatchOption result (with_name name.now names.now ≡ names.now)
        (λ place. (place ≤ length names.now) × (with_name name.now names.now ≡ insert names.now place name.now)) }
{
    for (i, other) in names.iter().enumerate() {
        match name.cmp(other.as_bytes()) {
            Ordering::Less => return Some(i),
            Ordering::Equal => return None,
            Ordering::Greater => {}
        }
    }
    Some(names.len())
}

// Puts a name at its place in the order of the bytes, where it isn't there yet.
fn insert_name(names: &mut Vec<Partition>, name: &Partition) -> Result<(), AllocError>
    ensures put { OnOk result (names.new.items ≡ with_name name.now names.old.items) }
    ensures good { IsPartition name.now }
{
    if let Some(place) = place_for(names.as_slice(), name.as_bytes()) {
        names.insert(place, *name)?;
    }
    Ok(())
}

/// The names of the partitions of documents in the order of their bytes, each once.
pub fn rising_names(alloc: Global, names: &[Partition]) -> Result<Vec<Partition>, AllocError>
    ensures { (documents : List Placed) → AreNamesOf documents names.now → IfOk result (λ sorted. ArePartitions documents sorted.items) }
{
    let mut sorted = Vec::new(alloc);
    let mut rest = names;
    while let Some((name, behind)) = rest.split_first() {
        insert_name(&mut sorted, name)?;
        rest = behind;
    }
    Ok(sorted)
}

// The place of a partition among these, or their count where it is none of them.
fn place_of(partitions: &[Partition], name: &Partition) -> usize
    ensures { result ≡ place_among partitions.now name.now }
{
    for (i, other) in partitions.iter().enumerate() {
        if other.is(name) {
            return i;
        }
    }
    partitions.len()
}

/// The places of names among partitions.
pub fn places_of(
    alloc: Global,
    names: &[Partition],
    partitions: &[Partition],
) -> Result<Vec<u64>, AllocError>
    ensures { IfOk result (λ places. places.items ≡ map (place_among partitions.now) names.now) }
{
    let mut places = Vec::new(alloc);
    for name in names {
        places.push(place_of(partitions, name) as u64)?;
    }
    Ok(places)
}

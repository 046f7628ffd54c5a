//! A split built from a list of placed documents.

ghost use Rattle.std.specs.Prelude.{◌≡◌, ◌≤◌, ◌<◌, ◌++◌, List, MatchResult, length};
ghost use Rattle.std.specs.List.{AllByRecursion};
ghost use Rattle.doc_value.specs.Documents.{IsSchema, IsOfSchema};
ghost use Rattle.split_build.specs.Builders.{IsBuilt, HasTaken};
ghost use Rattle.split_build.specs.Limits.{MakeNone, max_documents};
ghost use Rattle.split_bundle.specs.declared.placed.Placed.{Placed};
ghost use Rattle.split_bundle.specs.Documents.{total_weight};
ghost use Rattle.split_bundle.specs.Splits.{max_weight};

use crate::build_error::BuildError;
use crate::builder::{Builder, BuiltSplit};
use crate::weights::weight_of;
use doc_value::Schema;
use split_bundle::{Placed, PlacedList};
use std::alloc::Global;

// A split has at most so many documents.
const MAX_DOCUMENTS: usize = 16_777_216;

// What documents weigh that are too large.
fn too_large(alloc: Global, documents: &[Placed]) -> BuildError
    requires { length documents.now ≤ max_documents }
    ensures { max_weight < total_weight documents.now → MakeNone documents.now result }
{
    match weight_of(alloc, documents) {
        Ok(weight) => BuildError::TooLarge { weight },
        Err(refused) => BuildError::Memory(refused),
    }
}

// Why documents make no split, if the first of them make none.
fn refusal_of(alloc: Global, documents: &[Placed], refusal: BuildError) -> BuildError
    requires { length documents.now ≤ max_documents }
    ensures { (front behind : List Placed) → front ++ behind ≡ documents.now → MakeNone front refusal → MakeNone documents.now result }
{
    match refusal {
        BuildError::TooLarge { weight: _ } => too_large(alloc, documents),
        BuildError::Memory(refused) => BuildError::Memory(refused),
        BuildError::TooManyDocs { count } => BuildError::TooManyDocs { count },
    }
}

// What takes these documents, one after the other.
fn taken(alloc: Global, schema: &Schema, documents: &[Placed]) -> Result<Builder, BuildError>
    requires schema { IsSchema schema.now }
    requires documents { AllByRecursion (λ d. IsOfSchema schema.now d.doc) documents.now }
    requires few { length documents.now ≤ max_documents }
    ensures { MatchResult result (λ b. HasTaken b schema.now documents.now) (MakeNone documents.now) }
{
    let mut builder = Builder::vacant(alloc, schema)?;
    let mut rest = documents;
    while let Some((placed, behind)) = rest.split_first() {
        match builder.add(alloc, placed) {
            Ok(()) => rest = behind,
            Err(refusal) => return Err(refusal_of(alloc, documents, refusal)),
        }
    }
    Ok(builder)
}

/// The split of these documents, in this order. Its facts have `rejected` 0.
pub fn build(
    alloc: Global,
    schema: &Schema,
    documents: &PlacedList,
) -> Result<BuiltSplit, BuildError>
    requires schema { IsSchema schema.now }
    requires documents { AllByRecursion (λ d. IsOfSchema schema.now d.doc) documents.now }
    ensures { MatchResult result (IsBuilt schema.now documents.now) (MakeNone documents.now) }
{
    if documents.len() > MAX_DOCUMENTS {
        return Err(BuildError::TooManyDocs {
            count: documents.len() as u64,
        });
    }
    match taken(alloc, schema, documents.as_slice()) {
        Ok(builder) => Ok(builder.finish(alloc)?),
        Err(refusal) => Err(refusal),
    }
}

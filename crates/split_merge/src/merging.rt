//! A split made of splits.

ghost use Rattle.std.specs.Prelude.{◌≡◌, List, IfErr, IfOk, MatchResult, length, min};
ghost use Rattle.doc_value.specs.Documents.{IsSchema};
ghost use Rattle.split_build.specs.Builders.{IsBuilt};
ghost use Rattle.split_build.specs.Limits.{AreWithin, MakeNone, most};
ghost use Rattle.split_bundle.specs.declared.placed.Placed.{Placed};
ghost use Rattle.split_bundle.specs.Documents.{total_weight};
ghost use Rattle.split_merge.specs.Keeping.{kept, joined, RiseFrom, AreViewsOf};
ghost use Rattle.split_merge.specs.Kept.{HasKept};
ghost use Rattle.split_merge.specs.Merging.{Blames, IsMergeFault, HoldsDocuments, IsMemory, Merges, MergesAs, MergesRead, refusal_of};
ghost use Rattle.split_merge.specs.Reading.{read_kept};

use crate::MergeError;
use crate::keeping::kept_documents;
use crate::kept::KeptDocuments;
use crate::numbers::numbers_of;
use crate::terms::join_terms;
use doc_value::Schema;
use split_build::{BuildError, BuiltSplit};
use split_bundle::SplitView;
use split_states::MAX_WEIGHT;
use std::alloc::Global;

// A split has at most so many documents.
const MAX_DOCUMENTS: u32 = 16_777_216;

// What a refusal of the builder is to the merge.
fn refusal_of(refusal: BuildError) -> MergeError
    ensures { result ≡ refusal_of refusal }
{
    match refusal {
        BuildError::Memory(refused) => MergeError::Memory(refused),
        BuildError::TooManyDocs { count } => MergeError::Build(BuildError::TooManyDocs { count }),
        BuildError::TooLarge { weight } => MergeError::Build(BuildError::TooLarge { weight }),
    }
}

// Whether so many documents of this weight are within the limits of a split.
fn within_limits(count: u32, weight: u64) -> Result<(), BuildError>
    ensures { (documents : List Placed) → count ≡ length documents → weight ≡ min (total_weight documents) most → MatchResult result (λ _. AreWithin documents) (MakeNone documents) }
{
    if count > MAX_DOCUMENTS {
        return Err(BuildError::TooManyDocs {
            count: u64::from(count),
        });
    }
    if weight > MAX_WEIGHT {
        return Err(BuildError::TooLarge { weight });
    }
    Ok(())
}

// The split of documents that are within the limits: what was taken of them, with the terms of their splits.
fn join_within(
    alloc: Global,
    schema: &Schema,
    views: &[SplitView<'_>],
    dropped: &[u64],
    documents: KeptDocuments<'_>,
) -> Result<BuiltSplit, MergeError>
    requires schema { IsSchema schema.now }
    requires rise { RiseFrom 0 dropped.now }
    requires kept { (ds : List Placed) × HasKept documents schema.now ds × AreWithin ds }
    ensures only { (lists : List (List Placed)) → HasKept documents.entry schema.now (kept dropped.now (joined lists)) → AreWithin (kept dropped.now (joined lists)) → AreViewsOf schema.now views.now lists
        → MatchResult result (IsBuilt schema.now (kept dropped.now (joined lists))) IsMemory }
    ensures holds { (ds : List Placed) → HasKept documents.entry schema.now ds → AreWithin ds → IfOk result (HoldsDocuments schema.now ds) }
    ensures cause { IfErr result (Blames schema.now views.now) }
{
    let numbers = numbers_of(alloc, views, dropped)?;
    match join_terms(alloc, schema, views, &numbers) {
        Ok(terms) => Ok(documents.finish(alloc, schema, terms)?),
        Err(fault) => Err(fault),
    }
}

// The split of documents, or that they pass the limits.
fn join_documents(
    alloc: Global,
    schema: &Schema,
    views: &[SplitView<'_>],
    dropped: &[u64],
    documents: KeptDocuments<'_>,
) -> Result<BuiltSplit, MergeError>
    requires schema { IsSchema schema.now }
    requires rise { RiseFrom 0 dropped.now }
    requires kept { (ds : List Placed) × HasKept documents schema.now ds }
    ensures only { (lists : List (List Placed)) → HasKept documents.entry schema.now (kept dropped.now (joined lists)) → AreViewsOf schema.now views.now lists → Merges schema.now (kept dropped.now (joined lists)) result }
    ensures read { (ds : List Placed) → HasKept documents.entry schema.now ds → MergesRead schema.now ds result }
    ensures cause { IfErr result (IsMergeFault schema.now views.now) }
{
    let (count, weight) = documents.count_and_weight();
    match within_limits(count, weight) {
        Ok(()) => join_within(alloc, schema, views, dropped, documents),
        Err(refusal) => Err(refusal_of(refusal)),
    }
}

/// The split of the documents of these splits one behind another, without those at the places that are dropped. A place
/// counts the documents of all splits from 0 on; the places rise.
pub fn merge(
    alloc: Global,
    schema: &Schema,
    views: &[SplitView<'_>],
    dropped: &[u64],
) -> Result<BuiltSplit, MergeError>
    requires schema { IsSchema schema.now }
    requires rise { RiseFrom 0 dropped.now }
    // Of views of splits: what is built of the documents that are kept.
    ensures only { (lists : List (List Placed)) → AreViewsOf schema.now views.now lists → Merges schema.now (kept dropped.now (joined lists)) result }
    // Of any views: one that is named is of no split of documents.
    ensures cause { IfErr result (IsMergeFault schema.now views.now) }
    // Of any views: what is read of them, document by document. Where each document that is kept reads, the file is of exactly
    // these and the limits count exactly these; where one does not, the first of those is the answer, with its view and its fault.
    ensures exact { MergesAs schema.now (read_kept schema.now dropped.now views.now) result }
{
    match kept_documents(alloc, schema, views, dropped) {
        Ok(documents) => join_documents(alloc, schema, views, dropped, documents),
        Err(fault) => Err(fault),
    }
}

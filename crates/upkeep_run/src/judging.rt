//! What fetched files say, whatever their bytes are.

ghost use Rattle.std.specs.Prelude.{◌≡◌, ◌↔◌, ◌<◌, ◌==◌, ◌&&◌, ℕ, List, Option, Some, length, IfErr, IsTrue};
ghost use Rattle.doc_value.specs.Documents.{IsSchema};
ghost use Rattle.doc_value.specs.declared.schema.Schema.{Schema};
ghost use Rattle.meta_store.specs.declared.planning.RowWork.{RowWork as Known};
ghost use Rattle.split_bundle.specs.declared.placed.Placed.{Placed};
ghost use Rattle.split_bundle.specs.Documents.{total_weight};
ghost use Rattle.split_bundle.specs.Files.{Parts, file_bytes};
ghost use Rattle.split_bundle.specs.SplitViews.{IsViewOf};
ghost use Rattle.split_bundle.specs.Splits.{IsSplitOf};
ghost use Rattle.split_merge.specs.Keeping.{RiseFrom, joined, kept};
ghost use Rattle.split_merge.specs.Merging.{Merges, fault_of};
ghost use Rattle.upkeep_run.specs.Judging.{AgreesWith, AreSplits, HasNoSplit, IsJudged, MergesFiles, weights_of};

use byte_fields::Bytes;
use doc_value::Schema;
use meta_store::{PlanRow, RowWork};
use split_build::BuiltSplit;
use split_bundle::{SplitError, SplitView, read_split};
use split_merge::{MergeError, merge};
use std::alloc::{AllocError, Global};

// What the documents of a view weigh together; none where one of them doesn't read.
fn weights(view: &SplitView<'_>) -> Option<u128>
    ensures exact { result ≡ weights_of view.now 0 view.now.layout.docs }
    ensures only { (s : Schema) (documents : List Placed) (p : Parts) → IsViewOf view.now s documents p → result ≡ Some (total_weight documents) }
{
    let mut weights: u128 = 0;
    for doc in 0..view.doc_count() {
        match view.doc_weight(doc) {
            Ok(weight) => weights += u128::from(weight),
            Err(_) => return None,
        }
    }
    Some(weights)
}

// Whether a view has as many documents as a row, of the same weight.
fn agrees(view: &SplitView<'_>, work: &RowWork) -> bool
    ensures exact { IsTrue result ↔ AgreesWith view.now (Some work.now) }
    ensures only { (s : Schema) (documents : List Placed) (p : Parts) → IsViewOf view.now s documents p → result ≡ ((length documents == work.now.docs) && (total_weight documents == work.now.weight)) }
{
    match weights(view) {
        Some(weight) => {
            u64::from(view.doc_count()) == work.docs && weight == u128::from(work.weight)
        }
        None => false,
    }
}

/// Whether these bytes are taken for the file of a planned row.
pub(crate) fn is_file_of(bytes: &[u8], row: &PlanRow) -> bool
    ensures judged { IsJudged bytes.now row.now result }
    // A split is taken exactly where the row says as many documents of the same weight.
    ensures only { (s : Schema) (documents : List Placed) (p : Parts) (work : Known) → IsSplitOf s documents p → bytes.now ≡ file_bytes p → row.now.work ≡ Some work →
        result ≡ ((length documents == work.docs) && (total_weight documents == work.weight)) }
{
    let Some(work) = &row.work else {
        return false;
    };
    match read_split(bytes) {
        Ok(view) => agrees(&view, work),
        Err(_) => false,
    }
}

// A file without a footer, by its number.
fn unread(number: usize, error: SplitError) -> MergeError
    ensures { result ≡ fault_of number error }
{
    match error {
        SplitError::Memory(refused) => MergeError::Memory(refused),
        error => MergeError::Split {
            view: number,
            error,
        },
    }
}

/// The split of the documents of these files one behind another, without those whose places are dropped.
pub(crate) fn merged(
    alloc: Global,
    schema: &Schema,
    files: &[Bytes],
    dropped: &[u64],
) -> Result<BuiltSplit, MergeError>
    requires schema { IsSchema schema.now }
    requires rise { RiseFrom 0 dropped.now }
    // Of files of splits: what is built of the documents that are kept.
    ensures only { (lists : List (List Placed)) → AreSplits schema.now files.now lists → Merges schema.now (kept dropped.now (joined lists)) result }
    // Of any files: one that is named is a split of no documents.
    ensures cause { IfErr result (HasNoSplit schema.now files.now) }
    // Of any files: what is merged of what is read of them.
    ensures exact { MergesFiles schema.now dropped.now files.now result }
{
    let mut views = Vec::new(alloc);
    for (number, file) in files.iter().enumerate() {
        let view = match read_split(file.as_slice()) {
            Ok(view) => view,
            Err(error) => return Err(unread(number, error)),
        };
        match views.push(view) {
            Ok(()) => {}
            Err(refused) => return Err(AllocError::from(refused).into()),
        }
    }
    merge(alloc, schema, views.as_slice(), dropped)
}

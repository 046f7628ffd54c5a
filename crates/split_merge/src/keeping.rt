//! The documents that are kept of splits one behind another.

ghost use Rattle.std.specs.Prelude.{◌≡◌, ◌+◌, ◌<◌, ◌^◌, ℕ, List, Ok, IfOk, IfErr, OnOk};
ghost use Rattle.doc_value.specs.Documents.{IsSchema};
ghost use Rattle.split_bundle.specs.declared.placed.Placed.{Placed};
ghost use Rattle.split_merge.specs.Keeping.{is_named, RiseFrom};
ghost use Rattle.split_merge.specs.Kept.{HasKept, Keeps, KeepsAll};
ghost use Rattle.split_merge.specs.Merging.{IsMergeFault, fault_of};
ghost use Rattle.split_merge.specs.Places.{ArePlaces};
ghost use Rattle.split_merge.specs.Reading.{behind, document_of, documents_of, read_kept, unless};

use crate::MergeError;
use crate::kept::KeptDocuments;
use crate::places::KnownPlace;
use doc_value::Schema;
use split_bundle::{SplitError, SplitView};
use std::alloc::Global;

// Whether a place is one of some that rise from it on, and those behind it.
pub(crate) fn passed(places: &[u64], place: u128) -> (bool, &[u64])
    requires { RiseFrom place places.now }
    ensures named { result.0 ≡ is_named place places.now }
    ensures rise { RiseFrom (place + 1) result.1.now }
    ensures same { (m : ℕ) → place < m → is_named m result.1.now ≡ is_named m places.now }
{
    match places.split_first() {
        Some((first, behind)) => {
            if u128::from(*first) == place {
                (true, behind)
            } else {
                (false, places)
            }
        }
        None => (false, places),
    }
}

// Takes a document, unless it is dropped.
fn take_next<'a>(
    alloc: Global,
    schema: &Schema,
    view: &SplitView<'a>,
    doc: u32,
    dropped: bool,
    known: &mut Vec<KnownPlace>,
    documents: &mut KeptDocuments<'a>,
) -> Result<(), SplitError>
    requires { doc < view.now.layout.docs }
    ensures places { (before : List Placed) → HasKept documents.old schema.now before → ArePlaces view.now known.old.items → OnOk result (ArePlaces view.now known.new.items) }
    ensures exact { (before : List Placed) → HasKept documents.old schema.now before → ArePlaces view.now known.old.items
        → Keeps documents.new schema.now result (behind (Ok before) (unless dropped (document_of schema.now view.now doc))) }
{
    if dropped {
        return Ok(());
    }
    documents.take(alloc, schema, view, known, doc)
}

// Takes the documents of a split, of which the first has a place, without those whose places are named. It gives the
// places behind them.
fn take_view<'a, 'b>(
    alloc: Global,
    schema: &Schema,
    view: &SplitView<'b>,
    places: &'a [u64],
    first: u128,
    documents: &mut KeptDocuments<'b>,
) -> Result<&'a [u64], SplitError>
    requires rise { RiseFrom first places.now }
    requires room { first + 2 ^ 32 < 2 ^ 128 }
    ensures behind { IfOk result (λ b. RiseFrom (first + view.now.layout.docs) b.now) }
    ensures same { IfOk result (λ b. (m : ℕ) → first + view.now.layout.docs < m + 1 → is_named m b.now ≡ is_named m places.now) }
    ensures exact { (before : List Placed) → HasKept documents.old schema.now before
        → Keeps documents.new schema.now result (behind (Ok before) (documents_of schema.now places.now view.now first 0 view.now.layout.docs)) }
{
    let mut known = Vec::new(alloc);
    let mut rest = places;
    let mut place = first;
    for doc in 0..view.doc_count() {
        let (dropped, behind) = passed(rest, place);
        match take_next(alloc, schema, view, doc, dropped, &mut known, documents) {
            Ok(()) => rest = behind,
            Err(fault) => return Err(fault),
        }
        place += 1;
    }
    Ok(rest)
}

// What a fault of the view with a number is to the merge.
pub(crate) fn fault_of(view: usize, error: SplitError) -> MergeError
    ensures { result ≡ fault_of view error }
{
    match error {
        SplitError::Memory(refused) => MergeError::Memory(refused),
        SplitError::BadMagic => MergeError::Split {
            view,
            error: SplitError::BadMagic,
        },
        SplitError::Truncated { at } => MergeError::Split {
            view,
            error: SplitError::Truncated { at },
        },
        SplitError::BadSection { number } => MergeError::Split {
            view,
            error: SplitError::BadSection { number },
        },
        SplitError::BadVersion { number } => MergeError::Split {
            view,
            error: SplitError::BadVersion { number },
        },
    }
}

/// The documents of splits one behind another, without those whose places are dropped.
pub(crate) fn kept_documents<'a>(
    alloc: Global,
    schema: &Schema,
    views: &[SplitView<'a>],
    dropped: &[u64],
) -> Result<KeptDocuments<'a>, MergeError>
    requires schema { IsSchema schema.now }
    requires rise { RiseFrom 0 dropped.now }
    ensures exact { KeepsAll schema.now result (read_kept schema.now dropped.now views.now) }
    ensures cause { IfErr result (IsMergeFault schema.now views.now) }
{
    let mut documents = KeptDocuments::vacant(alloc, schema)?;
    let mut rest = dropped;
    let mut first = 0;
    for (number, view) in views.iter().enumerate() {
        match take_view(alloc, schema, view, rest, first, &mut documents) {
            Ok(behind) => rest = behind,
            Err(error) => return Err(fault_of(number, error)),
        }
        first += u128::from(view.doc_count());
    }
    Ok(documents)
}

//! What is fetched of split files.

ghost use Rattle.std.specs.Prelude.{◌≡◌, ◌≤◌, IfOk, List, length};
ghost use Rattle.std.specs.Bool.{OnTrue};
ghost use Rattle.std.specs.List.{AllZip};
ghost use Rattle.root_search.specs.PartAnswers.{IsViewOfPart};
ghost use Rattle.root_search.specs.FetchedSplits.{HasDocuments, IsLentBy, IsLentOf, IsParted};
ghost use Rattle.root_search.specs.declared.fetched_splits.FetchedSplit.{FetchedSplit as Part};

use byte_fields::{Bytes, List};
use split_bundle::{FilePiece, Footer, PartView, Pieces};
use std::alloc::{AllocError, Global};
use std::collections::VecDeque;

/// Bytes of a file, and where they start.
#[derive(Drop)]
pub(crate) struct KeptPiece {
    pub start: u64,
    pub bytes: Bytes,
}

/// Pieces of a file.
pub(crate) type KeptPieces = List<KeptPiece>;

/// What is fetched of a split: its footer, and the pieces of its file that are needed.
#[derive(Drop)]
pub(crate) struct FetchedSplit {
    pub number: u64,
    pub footer: Footer,
    pub pieces: KeptPieces,
}

/// Parts of splits in their order.
pub(crate) type FetchedSplits = List<FetchedSplit>;

// What is kept of a split beside its footer.
#[derive(Drop)]
pub(crate) struct FetchedPieces {
    pub(crate) number: u64,
    pub(crate) pieces: KeptPieces,
}

// Footers, and what else is kept of their splits, in the same order.
#[derive(Drop)]
pub(crate) struct PartedSplits {
    pub(crate) footers: Vec<Footer>,
    pub(crate) splits: List<FetchedPieces>,
}

// Parts footers from what else is kept, so that a view can have its footer and borrow its pieces.
pub(crate) fn split_footers(alloc: Global, parts: FetchedSplits) -> Result<PartedSplits, AllocError>
    ensures { IfOk result (λ parted. IsParted parts parted.footers.items parted.splits) }
{
    let mut left = VecDeque::from_vec(parts.into_vec());
    let mut footers = Vec::new(alloc);
    let mut splits = List::vacant(alloc);
    while let Some(part) = left.pop_front() {
        footers.push(part.footer)?;
        splits.push(FetchedPieces {
            number: part.number,
            pieces: part.pieces,
        })?;
    }
    Ok(PartedSplits { footers, splits })
}

// The pieces as a view takes them.
pub(crate) fn lent_pieces(alloc: Global, pieces: &[KeptPiece]) -> Result<Pieces<'_>, AllocError>
    ensures { IfOk result (λ lent. AllZip IsLentOf pieces.now lent) }
{
    let mut lent = Pieces::vacant(alloc);
    for piece in pieces {
        lent.push(FilePiece {
            start: piece.start,
            bytes: piece.bytes.as_slice(),
        })?;
    }
    Ok(lent)
}

// The view of what was fetched of a split.
fn view_of(alloc: Global, footer: Footer, pieces: &[KeptPiece]) -> Result<PartView<'_>, AllocError>
    ensures { (part : Part) → part.footer ≡ footer → part.pieces ≡ pieces.now → IfOk result (IsViewOfPart part) }
{
    let pieces = lent_pieces(alloc, pieces)?;
    Ok(PartView::gather(footer, pieces))
}

// The views of what was fetched of splits. Each footer is moved into its view.
pub(crate) fn views_of(
    alloc: Global,
    footers: Vec<Footer>,
    splits: &[FetchedPieces],
) -> Result<List<PartView<'_>>, AllocError>
    ensures { (parts : List Part) → IsParted parts footers.items splits.now → IfOk result (AllZip IsViewOfPart parts) }
{
    let mut left = VecDeque::from_vec(footers);
    let mut views = List::vacant(alloc);
    for split in splits {
        let Some(footer) = left.pop_front() else {
            return Ok(views);
        };
        views.push(view_of(alloc, footer, split.pieces.as_slice())?)?;
    }
    Ok(views)
}

// The section of documents starts here in a split file.
const DOCUMENTS: u64 = 4;

// Whether a piece has the section of documents, which has so many bytes.
fn is_section(piece: &KeptPiece, size: u64) -> bool
    ensures { OnTrue result ((piece.now.start ≡ 4) × (size ≤ length piece.now.bytes)) }
{
    piece.start == DOCUMENTS && piece.bytes.len() as u64 >= size
}

// Whether the whole section of documents was fetched of the split of a view.
pub(crate) fn has_documents(view: &PartView<'_>, split: &FetchedPieces) -> bool
    requires { IsLentBy split.now view.now }
    ensures { OnTrue result (HasDocuments view.now) }
{
    let size = view.footer().sections().documents;
    for piece in split.pieces.as_slice() {
        if is_section(piece, size) {
            return true;
        }
    }
    false
}

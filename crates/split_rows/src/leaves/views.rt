//! Views of a file.

use doc_sets::LeafError;
use split_bundle::{FilePiece, Footer, PartView, Pieces};
use std::alloc::Global;

// The view of a file of which everything before the dictionary is missing.
fn without_documents(alloc: Global, file: &[u8]) -> Result<PartView<'_>, LeafError> {
    let footer = Footer::read(alloc, file, file.len() as u64)?;
    let start = footer.sections().documents.saturating_add(4);
    let bytes = file.get(start as usize..).unwrap_or(&[]);
    let pieces = Pieces::one(alloc, FilePiece { start, bytes })?;
    Ok(PartView::gather(footer, pieces))
}

/// The view of a file, with or without its documents.
pub fn view_of(alloc: Global, file: &[u8], light: bool) -> Result<PartView<'_>, LeafError> {
    if light {
        return without_documents(alloc, file);
    }
    Ok(PartView::whole(alloc, file)?)
}

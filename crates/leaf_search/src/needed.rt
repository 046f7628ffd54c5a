//! The ranges of a split file that a request needs.

ghost use Rattle.std.specs.Prelude.{◌≡◌, ◌≤◌, List, length, IfOk, OnOk, MatchResult};
ghost use Rattle.split_bundle.specs.declared.part_view.PartView.{PartView};
ghost use Rattle.split_bundle.specs.declared.placed.Placed.{Placed};
ghost use Rattle.split_bundle.specs.Files.{Parts};
ghost use Rattle.split_bundle.specs.Lending.{IsPartOf};
ghost use Rattle.doc_sets.specs.Faults.{LacksPart};
ghost use Rattle.leaf_search.specs.Answers.{IsAsked};
ghost use Rattle.leaf_search.specs.FileRanges.{AddsParts, AreApart, AreRangesOf};
ghost use Rattle.leaf_search.specs.Needs.{AreFound, NeedsBlocks, NeedsDocuments, NeedsLists};
ghost use Rattle.leaf_search.specs.Counts as counts;
ghost use Rattle.leaf_search.specs.Shown.{NeedsListed};

use crate::block_ranges::name_blocks;
use crate::column_ranges::name_columns;
use crate::file_ranges::Ranges;
use crate::joining::{joined, name_part};
use crate::list_ranges::name_lists;
use crate::lookups::request_lookups;
use crate::request::LeafRequest;
use doc_sets::LeafError;
use doc_value::Schema;
use split_bundle::{Footer, PartView};
use std::alloc::{AllocError, Global};

/// The blocks of the dictionary that a request asks for, as ranges that rise and do not touch.
pub fn blocks_needed(
    alloc: Global,
    schema: &Schema,
    request: &LeafRequest,
    footer: &Footer,
) -> Result<Ranges, AllocError>
    requires { length schema.now.fields ≤ 256 }
    // Of a split of documents: the ranges of exactly the blocks that are asked for.
    ensures only { (v : PartView) (documents : List Placed) (p : Parts) → v.footer ≡ footer.now → IsPartOf v schema.now documents p
        → IfOk result (AreRangesOf (NeedsBlocks v schema.now documents p request.now)) }
    // Over any footer.
    ensures apart { IfOk result AreApart }
{
    let lookups = request_lookups(alloc, footer, schema, request)?;
    let mut ranges = Ranges::vacant(alloc);
    name_blocks(footer, &mut ranges, lookups.as_slice())?;
    joined(alloc, ranges)
}

// Names the section of documents where hits are wanted.
pub(crate) fn name_documents(
    part: &PartView,
    request: &LeafRequest,
    ranges: &mut Ranges,
) -> Result<(), AllocError>
    ensures { OnOk result (AddsParts (NeedsDocuments part.now request.now) ranges.old ranges.new) }
{
    if request.wanted == 0 {
        return Ok(());
    }
    name_part(ranges, 4, part.footer().sections().documents)
}

/// The lists, positions and columns that a request asks for, as ranges that rise and do not touch. The view needs the ranges of
/// `blocks_needed`.
pub fn lists_and_columns(
    alloc: Global,
    schema: &Schema,
    request: &LeafRequest,
    view: &PartView,
) -> Result<Ranges, LeafError>
    requires { length schema.now.fields ≤ 256 }
    // Of a split of documents: the ranges of exactly these parts, or want of memory, or that no piece has a block that is asked for.
    ensures only { (documents : List Placed) (p : Parts) → IsPartOf view.now schema.now documents p → IsAsked schema.now request.now
        → MatchResult result (AreRangesOf (NeedsListed view.now schema.now documents p request.now)) (LacksPart (NeedsBlocks view.now schema.now documents p request.now) view.now.pieces) }
    // Over any bytes.
    ensures apart { IfOk result AreApart }
    // The dictionary is read at each key whose list is named.
    ensures read { IfOk result (λ r. AreFound view.now (counts.request_lookups view.now.footer schema.now request.now)) }
{
    let lookups = request_lookups(alloc, view.footer(), schema, request)?;
    let mut ranges = Ranges::vacant(alloc);
    name_lists(alloc, view, schema, &mut ranges, lookups.as_slice())?;
    name_columns(alloc, view, schema, request, &mut ranges)?;
    Ok(joined(alloc, ranges)?)
}

/// The lists, positions and columns that a request asks for, and the section of documents where hits are wanted, as ranges that
/// rise and do not touch. The view needs the ranges of `blocks_needed`.
pub fn lists_needed(
    alloc: Global,
    schema: &Schema,
    request: &LeafRequest,
    view: &PartView,
) -> Result<Ranges, LeafError>
    requires { length schema.now.fields ≤ 256 }
    // Of a split of documents: the ranges of exactly these parts, or want of memory, or that no piece has a block that is asked for.
    ensures only { (documents : List Placed) (p : Parts) → IsPartOf view.now schema.now documents p → IsAsked schema.now request.now
        → MatchResult result (AreRangesOf (NeedsLists view.now schema.now documents p request.now)) (LacksPart (NeedsBlocks view.now schema.now documents p request.now) view.now.pieces) }
    // Over any bytes.
    ensures apart { IfOk result AreApart }
    // The dictionary is read at each key whose list is named.
    ensures read { IfOk result (λ r. AreFound view.now (counts.request_lookups view.now.footer schema.now request.now)) }
{
    let lookups = request_lookups(alloc, view.footer(), schema, request)?;
    let mut ranges = Ranges::vacant(alloc);
    name_lists(alloc, view, schema, &mut ranges, lookups.as_slice())?;
    name_columns(alloc, view, schema, request, &mut ranges)?;
    name_documents(view, request, &mut ranges)?;
    Ok(joined(alloc, ranges)?)
}

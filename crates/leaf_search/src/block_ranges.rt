// The blocks of the dictionary that are asked for.

ghost use Rattle.std.specs.Prelude.{◌≡◌, ◌<◌, ◌≤◌, ℕ, List, length, OnOk};
ghost use Rattle.doc_value.specs.declared.schema.Schema.{Schema};
ghost use Rattle.split_bundle.specs.declared.part_view.PartView.{PartView};
ghost use Rattle.split_bundle.specs.declared.placed.Placed.{Placed};
ghost use Rattle.split_bundle.specs.Files.{Parts};
ghost use Rattle.split_bundle.specs.Lending.{IsPartOf};
ghost use Rattle.doc_sets.specs.Asking.{AsksBlockOf, AsksBlocks};
ghost use Rattle.doc_sets.specs.Needed.{IsBlockFor};
ghost use Rattle.doc_sets.specs.Walks.{AsksWalkBlock, IsBlock};
ghost use Rattle.leaf_search.specs.FileRanges.{AddsParts};

use crate::file_ranges::Ranges;
use crate::joining::name_part;
use doc_sets::Lookup;
use split_bundle::Footer;
use std::alloc::AllocError;

// Names the block with a number.
fn name_block(footer: &Footer, ranges: &mut Ranges, number: usize) -> Result<(), AllocError>
    requires { number < length footer.now.index }
    ensures { (v : PartView) (s : Schema) (documents : List Placed) (p : Parts) → v.footer ≡ footer.now → IsPartOf v s documents p
        → OnOk result (AddsParts (IsBlock s documents p number) ranges.old ranges.new) }
{
    let sections = footer.sections();
    match footer.index().place_of(number, sections.dictionary) {
        Ok((start, end)) => {
            let at = sections.documents.saturating_add(start).saturating_add(4);
            name_part(ranges, at, end.saturating_sub(start))
        }
        Err(_) => Ok(()),
    }
}

// Names the block of a key.
fn name_key_block(footer: &Footer, ranges: &mut Ranges, key: &[u8]) -> Result<(), AllocError>
    ensures { (v : PartView) (s : Schema) (documents : List Placed) (p : Parts) → v.footer ≡ footer.now → IsPartOf v s documents p
        → OnOk result (AddsParts (IsBlockFor v s documents p key.now) ranges.old ranges.new) }
{
    match footer.index().block_of(key) {
        Some(number) => name_block(footer, ranges, number),
        None => Ok(()),
    }
}

// Names the blocks that can have keys which begin so.
fn name_walk_blocks(footer: &Footer, ranges: &mut Ranges, prefix: &[u8]) -> Result<(), AllocError>
    ensures { (v : PartView) (s : Schema) (documents : List Placed) (p : Parts) → v.footer ≡ footer.now → IsPartOf v s documents p
        → OnOk result (AddsParts (AsksWalkBlock v s documents p prefix.now) ranges.old ranges.new) }
{
    let blocks = footer.index().blocks_with(prefix);
    for number in blocks.start..blocks.end {
        name_block(footer, ranges, number)?;
    }
    Ok(())
}

// Names the blocks of what is looked up.
fn name_lookup_blocks(
    footer: &Footer,
    ranges: &mut Ranges,
    lookup: &Lookup,
) -> Result<(), AllocError>
    ensures { (v : PartView) (s : Schema) (documents : List Placed) (p : Parts) → v.footer ≡ footer.now → IsPartOf v s documents p
        → OnOk result (AddsParts (AsksBlockOf v s documents p lookup.now) ranges.old ranges.new) }
{
    match lookup {
        Lookup::Count(key) => name_key_block(footer, ranges, key.as_slice()),
        Lookup::Documents(key) => name_key_block(footer, ranges, key.as_slice()),
        Lookup::Places(key) => name_key_block(footer, ranges, key.as_slice()),
        Lookup::Walk(prefix, _wanted) => name_walk_blocks(footer, ranges, prefix.as_slice()),
        Lookup::Values(_number, _range) => Ok(()),
    }
}

// Names the blocks of all that is looked up.
pub(crate) fn name_blocks(
    footer: &Footer,
    ranges: &mut Ranges,
    lookups: &[Lookup],
) -> Result<(), AllocError>
    ensures { (v : PartView) (s : Schema) (documents : List Placed) (p : Parts) → v.footer ≡ footer.now → IsPartOf v s documents p
        → OnOk result (AddsParts (AsksBlocks v s documents p lookups.now) ranges.old ranges.new) }
{
    for lookup in lookups {
        name_lookup_blocks(footer, ranges, lookup)?;
    }
    Ok(())
}

// The lists and positions of the terms that are asked for, and the columns of ranges.

ghost use Rattle.std.specs.Prelude.{◌≡◌, ◌<◌, ◌≤◌, ◌⊎◌, ℕ, List, [], Ok, Some, true, length, IfOk, OnOk, MatchResult};
ghost use Rattle.std.specs.List.{AllByRecursion};
ghost use Rattle.doc_value.specs.declared.schema.Schema.{Schema};
ghost use Rattle.term_dict.specs.Readers.{Lends, is_before_end};
ghost use Rattle.term_dict.specs.Terms.{lookup};
ghost use Rattle.term_dict.specs.declared.term.Term.{Term};
ghost use Rattle.split_bundle.specs.declared.placed.Placed.{Placed};
ghost use Rattle.split_bundle.specs.Files.{Parts};
ghost use Rattle.split_bundle.specs.Lending.{IsPartOf};
ghost use Rattle.split_bundle.specs.Lists.{keeps_places, terms_of};
ghost use Rattle.doc_sets.specs.Asking.{AsksBlockOf, AsksBlocks, AsksListOf, AsksLists};
ghost use Rattle.doc_sets.specs.Faults.{LacksPart, IsMemory};
ghost use Rattle.doc_sets.specs.Needed.{ArePlacesFor, IsBlockFor, IsColumnFor, IsListFor, IsSearched};
ghost use Rattle.doc_sets.specs.Reads.{ReadsBlock, terms_read};
ghost use Rattle.doc_sets.specs.Walks.{AsksIf, AsksTerms, AsksWalkBlock, AsksWalkList, IsBlock, begun_in};
ghost use Rattle.doc_sets.specs.declared.dictionary_lookup.Lookup.TheVariants.{Documents, Places};
ghost use Rattle.leaf_search.specs.FileRanges.{AddsParts};
ghost use Rattle.leaf_search.specs.Needs.{AreFound, IsFound, IsWalkFound};

use crate::column_ranges::name_column;
use crate::fields::field_at;
use crate::file_ranges::Ranges;
use crate::joining::name_part;
use doc_sets::{LeafError, Lookup, Wanted, term_at};
use doc_value::Schema;
use split_bundle::{PartView, Pieces};
use std::alloc::{AllocError, Global};
use term_dict::{TermInfo, TermRange};

const DICTIONARY: u8 = 2;

// Names the list of a term.
fn name_list(part: &PartView, ranges: &mut Ranges, info: &TermInfo) -> Result<(), AllocError>
    ensures { (s : Schema) (documents : List Placed) (p : Parts) (key : List ℕ) → IsSearched part.now s documents p → lookup key (terms_of s documents p.keys) ≡ Some info.now
        → OnOk result (AddsParts (IsListFor part.now s documents p key) ranges.old ranges.new) }
{
    let sections = part.footer().sections();
    let at = sections
        .documents
        .saturating_add(sections.dictionary)
        .saturating_add(info.postings)
        .saturating_add(4);
    name_part(ranges, at, info.postings_len)
}

// Whether the lists of a key have positions.
fn keeps_places(schema: &Schema, key: &[u8]) -> bool
    ensures { result ≡ keeps_places schema.now key.now }
{
    match key {
        [high, low, ..] => {
            let number = usize::from(*high) * 256 + usize::from(*low);
            number < schema.fields.len() && schema.fields.at(number).positions
        }
        _ => false,
    }
}

// Names the positions of a term.
fn name_places(part: &PartView, ranges: &mut Ranges, info: &TermInfo) -> Result<(), AllocError>
    ensures { (s : Schema) (documents : List Placed) (p : Parts) (key : List ℕ) → IsSearched part.now s documents p → lookup key (terms_of s documents p.keys) ≡ Some info.now → keeps_places s key ≡ true
        → OnOk result (AddsParts (ArePlacesFor part.now s documents p key) ranges.old ranges.new) }
{
    let sections = part.footer().sections();
    let at = sections
        .documents
        .saturating_add(sections.dictionary)
        .saturating_add(sections.postings)
        .saturating_add(info.positions)
        .saturating_add(4);
    name_part(ranges, at, info.positions_len)
}

// Names the list of a key.
fn name_key_list(part: &PartView, ranges: &mut Ranges, key: &[u8]) -> Result<(), LeafError>
    ensures only { (s : Schema) (documents : List Placed) (p : Parts) → IsSearched part.now s documents p
        → MatchResult result (λ u. AddsParts (IsListFor part.now s documents p key.now) ranges.old ranges.new) (LacksPart (IsBlockFor part.now s documents p key.now) part.now.pieces) }
    ensures read { IfOk result (λ u. IsFound part.now (Documents key.now)) }
{
    match term_at(part.footer().index(), part, key)? {
        Some(info) => Ok(name_list(part, ranges, &info)?),
        None => Ok(()),
    }
}

// Names the list of a term and, where they are kept, its positions.
fn name_both(
    part: &PartView,
    schema: &Schema,
    ranges: &mut Ranges,
    key: &[u8],
    info: &TermInfo,
) -> Result<(), AllocError>
    ensures { (documents : List Placed) (p : Parts) → IsSearched part.now schema.now documents p → lookup key.now (terms_of schema.now documents p.keys) ≡ Some info.now
        → OnOk result (AddsParts (λ at len. IsListFor part.now schema.now documents p key.now at len ⊎ ArePlacesFor part.now schema.now documents p key.now at len) ranges.old ranges.new) }
{
    name_list(part, ranges, info)?;
    if keeps_places(schema, key) {
        name_places(part, ranges, info)?;
    }
    Ok(())
}

// Names the list of a key and, where they are kept, its positions.
fn name_key_places(
    part: &PartView,
    schema: &Schema,
    ranges: &mut Ranges,
    key: &[u8],
) -> Result<(), LeafError>
    ensures only { (documents : List Placed) (p : Parts) → IsSearched part.now schema.now documents p
        → MatchResult result (λ u. AddsParts (λ at len. IsListFor part.now schema.now documents p key.now at len ⊎ ArePlacesFor part.now schema.now documents p key.now at len) ranges.old ranges.new)
        (LacksPart (IsBlockFor part.now schema.now documents p key.now) part.now.pieces) }
    ensures read { IfOk result (λ u. IsFound part.now (Places key.now)) }
{
    match term_at(part.footer().index(), part, key)? {
        Some(info) => Ok(name_both(part, schema, ranges, key, &info)?),
        None => Ok(()),
    }
}

// Names the list of a term if its key is wanted.
fn name_if_wanted(
    part: &PartView,
    ranges: &mut Ranges,
    key: &[u8],
    info: &TermInfo,
    wanted: Wanted,
) -> Result<(), AllocError>
    ensures { (s : Schema) (documents : List Placed) (p : Parts) → IsSearched part.now s documents p → lookup key.now (terms_of s documents p.keys) ≡ Some info.now
        → OnOk result (AddsParts (AsksIf part.now s documents p wanted key.now) ranges.old ranges.new) }
{
    if wanted.takes(key) {
        name_list(part, ranges, info)
    } else {
        Ok(())
    }
}

// Names the lists of the wanted ones of some terms. A block has at most 64 terms.
fn name_terms(
    part: &PartView,
    ranges: &mut Ranges,
    mut terms: TermRange,
    wanted: Wanted,
) -> Result<(), LeafError>
    ensures only { (s : Schema) (documents : List Placed) (p : Parts) (lent : List Term) → IsSearched part.now s documents p
        → Lends terms.entry lent → length lent ≤ 64 → AllByRecursion (λ t. lookup t.key (terms_of s documents p.keys) ≡ Some t.info) lent
        → MatchResult result (λ u. AddsParts (AsksTerms part.now s documents p wanted lent) ranges.old ranges.new) IsMemory }
    // Over any bytes: each term is read.
    ensures read { IfOk result (λ u. terms_read (λ t. Ok []) 65 (is_before_end terms.entry.end) terms.entry.area.now terms.entry.at ≡ Ok []) }
{
    for taken in 0..65u32 {
        match terms.next() {
            Ok(Some((key, info))) => name_if_wanted(part, ranges, key, &info, wanted)?,
            Ok(None) => return Ok(()),
            Err(_) => {
                return Err(LeafError::Corrupt {
                    section: DICTIONARY,
                });
            }
        }
    }
    Err(LeafError::Corrupt {
        section: DICTIONARY,
    })
}

// Names the lists of the wanted terms of a block whose keys begin so.
fn name_block_lists(
    part: &PartView,
    ranges: &mut Ranges,
    number: usize,
    prefix: &[u8],
    wanted: Wanted,
) -> Result<(), LeafError>
    requires { number < length part.now.footer.index }
    ensures only { (s : Schema) (documents : List Placed) (p : Parts) → IsSearched part.now s documents p
        → MatchResult result (λ u. AddsParts (AsksTerms part.now s documents p wanted (begun_in prefix.now (terms_of s documents p.keys) number)) ranges.old ranges.new)
        (LacksPart (IsBlock s documents p number) part.now.pieces) }
    ensures read { IfOk result (λ u. ReadsBlock part.now (λ t. Ok []) prefix.now number (Ok [])) }
{
    if number > u32::MAX as usize {
        return Err(LeafError::Corrupt {
            section: DICTIONARY,
        });
    }
    let block = part.block(number as u32)?;
    match block.prefix_range(prefix) {
        Ok(terms) => name_terms(part, ranges, terms, wanted),
        Err(_) => Err(LeafError::Corrupt {
            section: DICTIONARY,
        }),
    }
}

// Names the lists of the wanted keys that begin so.
fn name_walk_lists(
    part: &PartView,
    ranges: &mut Ranges,
    prefix: &[u8],
    wanted: Wanted,
) -> Result<(), LeafError>
    ensures only { (s : Schema) (documents : List Placed) (p : Parts) → IsSearched part.now s documents p
        → MatchResult result (λ u. AddsParts (AsksWalkList part.now s documents p prefix.now wanted) ranges.old ranges.new) (LacksPart (AsksWalkBlock part.now s documents p prefix.now) part.now.pieces) }
    ensures read { IfOk result (λ u. IsWalkFound part.now prefix.now) }
{
    let blocks = part.footer().index().blocks_with(prefix);
    for number in blocks.start..blocks.end {
        name_block_lists(part, ranges, number, prefix, wanted)?;
    }
    Ok(())
}

// Names the column of a field if it is a fast one.
fn name_values(
    alloc: Global,
    part: &PartView,
    schema: &Schema,
    ranges: &mut Ranges,
    number: usize,
) -> Result<(), AllocError>
    requires { length schema.now.fields ≤ 256 }
    ensures { (documents : List Placed) (p : Parts) → IsPartOf part.now schema.now documents p
        → OnOk result (AddsParts (IsColumnFor part.now schema.now p number) ranges.old ranges.new) }
{
    match field_at(schema, number) {
        Some(field) => {
            if !field.fast {
                return Ok(());
            }
            let bare = PartView::gather(part.footer().copy(alloc)?, Pieces::vacant(alloc));
            name_column(&bare, schema, ranges, number)
        }
        None => Ok(()),
    }
}

// Names the lists and the columns of what is looked up.
fn name_lookup_lists(
    alloc: Global,
    part: &PartView,
    schema: &Schema,
    ranges: &mut Ranges,
    lookup: &Lookup,
) -> Result<(), LeafError>
    requires { length schema.now.fields ≤ 256 }
    ensures only { (documents : List Placed) (p : Parts) → IsSearched part.now schema.now documents p
        → MatchResult result (λ u. AddsParts (AsksListOf part.now schema.now documents p lookup.now) ranges.old ranges.new) (LacksPart (AsksBlockOf part.now schema.now documents p lookup.now) part.now.pieces) }
    ensures read { IfOk result (λ u. IsFound part.now lookup.now) }
{
    match lookup {
        Lookup::Count(_key) => Ok(()),
        Lookup::Documents(key) => name_key_list(part, ranges, key.as_slice()),
        Lookup::Places(key) => name_key_places(part, schema, ranges, key.as_slice()),
        Lookup::Walk(prefix, wanted) => name_walk_lists(part, ranges, prefix.as_slice(), *wanted),
        Lookup::Values(number, _range) => {
            name_values(alloc, part, schema, ranges, *number)?;
            Ok(())
        }
    }
}

// Names the lists and the columns of all that is looked up.
pub(crate) fn name_lists(
    alloc: Global,
    part: &PartView,
    schema: &Schema,
    ranges: &mut Ranges,
    lookups: &[Lookup],
) -> Result<(), LeafError>
    requires { length schema.now.fields ≤ 256 }
    ensures only { (documents : List Placed) (p : Parts) → IsSearched part.now schema.now documents p
        → MatchResult result (λ u. AddsParts (AsksLists part.now schema.now documents p lookups.now) ranges.old ranges.new) (LacksPart (AsksBlocks part.now schema.now documents p lookups.now) part.now.pieces) }
    ensures read { IfOk result (λ u. AreFound part.now lookups.now) }
{
    for lookup in lookups {
        name_lookup_lists(alloc, part, schema, ranges, lookup)?;
    }
    Ok(())
}

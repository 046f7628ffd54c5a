// How much of a split file is needed.

ghost use Rattle.std.specs.Prelude.{◌≡◌, ◌+◌, ◌-◌, ◌≤◌, ◌⊎◌, true, ℕ, List, Option, Some, length};
ghost use Rattle.std.specs.Option.{option_map_or};
ghost use Rattle.doc_value.specs.declared.schema.Schema.{Schema};
ghost use Rattle.term_dict.specs.Bounds.{IsBlockOf, block_terms};
ghost use Rattle.term_dict.specs.Terms.{area};
ghost use Rattle.split_bundle.specs.declared.part_view.PartView.{PartView};
ghost use Rattle.split_bundle.specs.declared.placed.Placed.{Placed};
ghost use Rattle.split_bundle.specs.Files.{Parts, file_bytes};
ghost use Rattle.split_bundle.specs.Lending.{IsPartOf};
ghost use Rattle.split_bundle.specs.Lists.{terms_of};
ghost use Rattle.leaf_search.specs.Answers.{IsAsked};
ghost use Rattle.leaf_search.specs.Counts.{counted_key};
ghost use Rattle.leaf_search.specs.FileRanges.{AreRangesOf, HasByte, SomeRange, total};
ghost use Rattle.leaf_search.specs.Needs.{NeedsBlocks, NeedsLists};
ghost use Rattle.leaf_search.specs.Shown.{NeedsListed, NeedsShown, NeedsStarts, are_few, shown_cost};
ghost use Rattle.leaf_search.specs.declared.file_ranges.FileRange.{FileRange};
ghost use Rattle.leaf_search.specs.declared.request.LeafRequest.{LeafRequest};

/// A request that only counts the documents of one token needs no more bytes than the block has in which the token's key would
/// stand, and none where there is no such block.
pub fn counts_need_a_block()
    ensures whole { (v : PartView) (s : Schema) (documents : List Placed) (p : Parts) (r : LeafRequest) (key : List ℕ) (number : Option ℕ) (blocks lists : List FileRange) → IsPartOf v s documents p
        → counted_key s r ≡ Some key → IsBlockOf v.footer.index key number → AreRangesOf (NeedsBlocks v s documents p r) blocks → AreRangesOf (NeedsLists v s documents p r) lists
        → total blocks + total lists ≤ option_map_or (λ n. length (area (block_terms (terms_of s documents p.keys) n))) number 0 }
    // The same of the ranges that are named in rounds.
    ensures rounds { (v : PartView) (s : Schema) (documents : List Placed) (p : Parts) (r : LeafRequest) (key : List ℕ) (number : Option ℕ) (blocks listed starts shown : List FileRange) → IsPartOf v s documents p
        → counted_key s r ≡ Some key → IsBlockOf v.footer.index key number → AreRangesOf (NeedsBlocks v s documents p r) blocks → AreRangesOf (NeedsListed v s documents p r) listed
        → AreRangesOf (NeedsStarts v s documents r) starts → AreRangesOf (NeedsShown s documents p r) shown
        → total blocks + total listed + (total starts + total shown) ≤ option_map_or (λ n. length (area (block_terms (terms_of s documents p.keys) n))) number 0 }
{}

/// A request that wants no hits needs no byte of the section of documents, and no more bytes than the file has beside it.
pub fn counts_need_no_documents()
    ensures behind { (v : PartView) (s : Schema) (documents : List Placed) (p : Parts) (r : LeafRequest) (blocks lists : List FileRange) → IsPartOf v s documents p → r.wanted ≡ 0 → IsAsked s r
        → AreRangesOf (NeedsBlocks v s documents p r) blocks → AreRangesOf (NeedsLists v s documents p r) lists
        → (place : ℕ) → SomeRange (HasByte place) blocks ⊎ SomeRange (HasByte place) lists → 4 + length p.documents ≤ place }
    ensures bound { (v : PartView) (s : Schema) (documents : List Placed) (p : Parts) (r : LeafRequest) (blocks lists : List FileRange) → IsPartOf v s documents p → r.wanted ≡ 0 → IsAsked s r
        → AreRangesOf (NeedsBlocks v s documents p r) blocks → AreRangesOf (NeedsLists v s documents p r) lists
        → total blocks + total lists ≤ length (file_bytes p) - length p.documents }
    // Of the ranges that are named in rounds none is of documents, and the others are those of all.
    ensures rounds { (v : PartView) (s : Schema) (documents : List Placed) (p : Parts) (r : LeafRequest) (starts shown : List FileRange) → r.wanted ≡ 0
        → AreRangesOf (NeedsStarts v s documents r) starts → AreRangesOf (NeedsShown s documents p r) shown → total starts + total shown ≡ 0 }
    ensures listed { (v : PartView) (s : Schema) (documents : List Placed) (p : Parts) (r : LeafRequest) (listed : List FileRange) → r.wanted ≡ 0
        → AreRangesOf (NeedsListed v s documents p r) listed → AreRangesOf (NeedsLists v s documents p r) listed }
{}

/// A request needs no more bytes for the hits that it shows than the few documents have that may be shown, with their entries in the
/// table of starts, and beside these no more than the file has without its section of documents.
pub fn pages_need_few_documents()
    ensures { (v : PartView) (s : Schema) (documents : List Placed) (p : Parts) (r : LeafRequest) (blocks listed starts shown : List FileRange) → IsPartOf v s documents p → IsAsked s r → are_few s r documents ≡ true
        → AreRangesOf (NeedsBlocks v s documents p r) blocks → AreRangesOf (NeedsListed v s documents p r) listed → AreRangesOf (NeedsStarts v s documents r) starts → AreRangesOf (NeedsShown s documents p r) shown
        → total blocks + total listed + (total starts + total shown) ≤ length (file_bytes p) - length p.documents + shown_cost s r documents p }
{}

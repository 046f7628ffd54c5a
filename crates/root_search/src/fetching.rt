// What is fetched of a planned split: its footer, and the ranges of its file that a request needs.

ghost use Rattle.std.specs.Prelude.{◌≡◌, ◌==◌, ◌&&◌, ◌+◌, ◌-◌, ◌<◌, ◌≤◌, ◌++◌, ℕ, List, [], drop, length, slice_get, None, Some, Result, Ok, Err, IfErr, IsErr, MatchOption, MatchResult, ⊤, ◌≢◌, false};
ghost use Rattle.doc_value.specs.declared.schema.Schema.{Schema};
ghost use Rattle.index_config.specs.declared.config.IndexConfig as configs;
ghost use Rattle.index_world.specs.Core.{Core, IsConfigured};
ghost use Rattle.index_world.specs.Gate.{grace_of};
ghost use Rattle.doc_sets.specs.Faults.{IsMemory};
ghost use Rattle.leaf_search.specs.Answers.{IsAsked};
ghost use Rattle.leaf_search.specs.FileRanges.{AreRangesOf};
ghost use Rattle.leaf_search.specs.Shown.{AreFew, NeedsListed, NeedsShown, TellsShown, are_few};
ghost use Rattle.leaf_search.specs.declared.request.LeafRequest.{LeafRequest as Asked};
ghost use Rattle.meta_store.specs.declared.planning.PlanRow.{PlanRow};
ghost use Rattle.source_log.specs.Log.{Log};
ghost use Rattle.split_bundle.specs.declared.placed.Placed.{Placed};
ghost use Rattle.split_bundle.specs.Files.{Parts, file_bytes};
ghost use Rattle.split_bundle.specs.Lending.{IsPartOf};
ghost use Rattle.split_bundle.specs.Pieces.{held_in};
ghost use Rattle.split_bundle.specs.Reading.{Held, MayGive, footer_of};
ghost use Rattle.split_bundle.specs.Splits.{IsSplitOf};
ghost use Rattle.split_bundle.specs.Views.{IsFooterOf, ReadsCut, held};
ghost use Rattle.root_search.specs.FetchCalls.{AreKeptBehind, IsFaultWhere, IsFooterGiven, IsNoFooter, IsNoPart, IsPartLooked, IsPartRead, IsPieceRead, NeverRefused, ReadsAs, start_of};
ghost use Rattle.root_search.specs.Fetching.{AreBlocksFetched, AreListsFetched, AreRangesFetched, AreShownFetched, AreStartsNamed, FetchesAs, IsFileAt, IsFooterFetched, IsLooked, IsPartFetched, IsPieceFetched, IsWant, WantsRoom, needed_calls, part_calls};
ghost use Rattle.root_search.specs.FetchedSplits.{HoldsBlocks, HoldsListed, HoldsStarts, IsFile, IsFooterIn, IsKnown, StartsFooter, over};

use crate::fetched_splits::{FetchedSplit, KeptPiece, KeptPieces, lent_pieces};
use doc_sets::LeafError;
use doc_value::Schema;
use index_world::{Gate, Plan, WorldError};
use leaf_search::{
    FileRange, LeafRequest, Ranges, blocks_needed, documents_needed, lists_and_columns,
    shown_documents, starts_needed,
};
use split_bundle::{Footer, PartView, SplitError};
use std::alloc::{AllocError, Global};
use std::mem;

// How many bytes stand behind the footer: its length, and the foot.
const TRAILER: u64 = 12;

// Why nothing is fetched of a split.
#[derive(Drop)]
pub(crate) enum FetchError {
    Memory(AllocError),
    // A call of the world gave nothing.
    World(WorldError),
    // The bytes are not of a split's form.
    Corrupt,
}

impl From<AllocError> for FetchError {
    ghost use Rattle.std.specs.Prelude.{◌≡◌};
    ghost use Rattle.root_search.specs.declared.fetching.FetchError.TheVariants.{Memory};

    ghost from_gives = { λ a e. e ≡ Memory a };

    fn from(refused: AllocError) -> Self {
        FetchError::Memory(refused)
    }
}

// One fetch: so many bytes of the file from a place on, as far as it has them.
fn fetch_piece<G: Gate>(
    alloc: Global,
    gate: &mut G,
    plan: &Plan,
    place: u32,
    start: u64,
    len: u64,
) -> Result<KeptPiece, FetchError>
    requires { place < length plan.now.rows }
    ensures later { G.since gate.old gate.new }
    ensures step { (config : configs.IndexConfig) (bytes : List ℕ) (core : Core) (log : Log) → G.Stands gate.old core log → IsConfigured config core → (file : IsFileAt core (grace_of config plan.now).until plan.now place bytes) →
        FetchesAs (grace_of config plan.now) file.row.number G.Stands G.Between G.Adds G.bytes_fetched (IsPieceFetched bytes start len) result core log gate.old gate.new }
    ensures reads { ReadsAs G.Stands G.Between G.Owns G.Adds G.bytes_fetched G.told G.Answers plan.now place (IsPieceRead start len) NeverRefused result gate.old gate.new }
{
    match gate.fetch(alloc, plan, place, start, len) {
        Ok(piece) => Ok(KeptPiece {
            start: start.min(piece.size),
            bytes: piece.bytes,
        }),
        Err(error) => Err(FetchError::World(error)),
    }
}

// Where a footer starts, by what is read where it isn't there.
fn start_in(read: Result<Footer, SplitError>) -> Result<u64, FetchError>
    ensures step { (place : ℕ) → ReadsCut place read → MatchResult result (λ start. start ≡ place) WantsRoom }
    ensures exact { (given : Result Held SplitError) → MayGive held read given → MatchResult result (λ start. start_of given ≡ Some start) (IsFaultWhere (start_of given ≡ None)) }
{
    match read {
        Ok(footer) => {
            mem::drop(footer);
            Err(FetchError::Corrupt)
        }
        Err(SplitError::Memory(refused)) => Err(FetchError::Memory(refused)),
        Err(SplitError::Truncated { at }) => Ok(at),
        Err(SplitError::BadMagic) => Err(FetchError::Corrupt),
        Err(SplitError::BadSection { .. }) => Err(FetchError::Corrupt),
        Err(SplitError::BadVersion { .. }) => Err(FetchError::Corrupt),
    }
}

// Where the footer starts, by what stands behind it.
fn footer_start(alloc: Global, trailer: &[u8], size: u64) -> Result<u64, FetchError>
    ensures step { (bytes : List ℕ) → IsFile bytes → size ≡ length bytes → trailer.now ≡ drop (size - 12) bytes →
        MatchResult result (StartsFooter bytes) WantsRoom }
    ensures exact { let given = footer_of size trailer.now in MatchResult result (λ start. start_of given ≡ Some start) (IsFaultWhere (start_of given ≡ None)) }
{
    start_in(Footer::read(alloc, trailer, size))
}

// The fault of a footer.
fn footer_fault(fault: SplitError) -> FetchError
    ensures step { IsWant fault → WantsRoom result }
    ensures exact { (given : Result Held SplitError) → MayGive held (Err fault) given → IsFaultWhere (IsErr given) result }
{
    match fault {
        SplitError::Memory(refused) => FetchError::Memory(refused),
        SplitError::Truncated { .. } => FetchError::Corrupt,
        SplitError::BadMagic => FetchError::Corrupt,
        SplitError::BadSection { .. } => FetchError::Corrupt,
        SplitError::BadVersion { .. } => FetchError::Corrupt,
    }
}

// The footer at the end of a file.
fn footer_at(alloc: Global, tail: &[u8], size: u64) -> Result<Footer, FetchError>
    ensures step { (bytes : List ℕ) (start : ℕ) → IsFile bytes → size ≡ length bytes → StartsFooter bytes start → tail.now ≡ drop start bytes →
        MatchResult result (IsFooterIn bytes) WantsRoom }
    ensures exact { let given = footer_of size tail.now in MatchResult result (λ footer. given ≡ Ok (held footer)) (IsFaultWhere (IsErr given)) }
{
    match Footer::read(alloc, tail, size) {
        Ok(footer) => Ok(footer),
        Err(fault) => Err(footer_fault(fault)),
    }
}

// The footer of a split: what stands behind it is fetched first, and then the footer.
fn read_footer<G: Gate>(
    alloc: Global,
    gate: &mut G,
    plan: &Plan,
    place: u32,
    size: u64,
) -> Result<Footer, FetchError>
    requires { place < length plan.now.rows }
    ensures later { G.since gate.old gate.new }
    ensures step { (config : configs.IndexConfig) (s : Schema) (documents : List Placed) (p : Parts) (core : Core) (log : Log) → G.Stands gate.old core log → IsConfigured config core →
        (file : IsFileAt core (grace_of config plan.now).until plan.now place (file_bytes p)) → IsSplitOf s documents p → size ≡ length (file_bytes p) →
        FetchesAs (grace_of config plan.now) file.row.number G.Stands G.Between G.Adds G.bytes_fetched (IsFooterFetched None p) result core log gate.old gate.new }
    ensures reads { ReadsAs G.Stands G.Between G.Owns G.Adds G.bytes_fetched G.told G.Answers plan.now place (IsFooterGiven None size) (IsNoFooter None size) result gate.old gate.new }
{
    let end = size.saturating_sub(TRAILER);
    let trailer = fetch_piece(alloc, gate, plan, place, end, TRAILER)?;
    let start = footer_start(alloc, trailer.bytes.as_slice(), size)?;
    let footer = fetch_piece(alloc, gate, plan, place, start, end.saturating_sub(start))?;
    let mut tail = footer.bytes;
    tail.append(trailer.bytes.as_slice())?;
    footer_at(alloc, tail.as_slice(), size)
}

// The footer of a split, if it isn't known yet.
fn footer_of<G: Gate>(
    alloc: Global,
    gate: &mut G,
    plan: &Plan,
    place: u32,
    known: Option<Footer>,
) -> Result<Footer, FetchError>
    requires { place < length plan.now.rows }
    ensures later { G.since gate.old gate.new }
    ensures step { (config : configs.IndexConfig) (s : Schema) (documents : List Placed) (p : Parts) (core : Core) (log : Log) → G.Stands gate.old core log → IsConfigured config core →
        (file : IsFileAt core (grace_of config plan.now).until plan.now place (file_bytes p)) → IsSplitOf s documents p → IsKnown (file_bytes p) known →
        FetchesAs (grace_of config plan.now) file.row.number G.Stands G.Between G.Adds G.bytes_fetched (IsFooterFetched known p) result core log gate.old gate.new }
    ensures reads { (row : PlanRow) → slice_get plan.now.rows place ≡ Some row →
        ReadsAs G.Stands G.Between G.Owns G.Adds G.bytes_fetched G.told G.Answers plan.now place (IsFooterGiven known row.size) (IsNoFooter known row.size) result gate.old gate.new }
{
    match known {
        Some(footer) => Ok(footer),
        None => {
            let size = plan.rows.at(place as usize).size;
            read_footer(alloc, gate, plan, place, size)
        }
    }
}

// Fetches ranges of the file, one after another.
fn fetch_ranges<G: Gate>(
    alloc: Global,
    gate: &mut G,
    plan: &Plan,
    place: u32,
    ranges: &[FileRange],
    pieces: &mut KeptPieces,
) -> Result<(), FetchError>
    requires { place < length plan.now.rows }
    ensures later { G.since gate.old gate.new }
    ensures step { (config : configs.IndexConfig) (bytes : List ℕ) (core : Core) (log : Log) → G.Stands gate.old core log → IsConfigured config core → (file : IsFileAt core (grace_of config plan.now).until plan.now place bytes) →
        FetchesAs (grace_of config plan.now) file.row.number G.Stands G.Between G.Adds G.bytes_fetched (λ done. AreRangesFetched bytes ranges.now pieces.old pieces.new) result core log gate.old gate.new }
    ensures reads { ReadsAs G.Stands G.Between G.Owns G.Adds G.bytes_fetched G.told G.Answers plan.now place (λ done. AreKeptBehind pieces.old pieces.new) NeverRefused result gate.old gate.new }
{
    for range in ranges {
        let piece = fetch_piece(alloc, gate, plan, place, range.start, range.len)?;
        pieces.push(piece)?;
    }
    Ok(())
}

// The fault of a leaf.
fn leaf_fault(fault: LeafError) -> FetchError
    ensures memory { IsMemory fault → WantsRoom result }
    ensures other { IsFaultWhere (¬ IsMemory fault) result }
{
    match fault {
        LeafError::Memory(refused) => FetchError::Memory(refused),
        LeafError::Missing { .. } => FetchError::Corrupt,
        LeafError::Corrupt { .. } => FetchError::Corrupt,
    }
}

// The ranges of the lists and the columns that a request needs, of a split whose blocks were fetched.
fn lists_of(
    alloc: Global,
    schema: &Schema,
    request: &LeafRequest,
    footer: &Footer,
    blocks: &[KeptPiece],
) -> Result<Ranges, FetchError>
    requires { length schema.now.fields ≤ 256 }
    ensures step { (documents : List Placed) (p : Parts) → IsSplitOf schema.now documents p → IsFooterOf p footer.now → IsAsked schema.now request.now →
        HoldsBlocks schema.now request.now documents p footer.now blocks.now →
        MatchResult result (AreRangesOf (NeedsListed (over footer.now) schema.now documents p request.now)) WantsRoom }
    ensures fault { IfErr result (IsFaultWhere ⊤) }
{
    let pieces = lent_pieces(alloc, blocks)?;
    let view = PartView::gather(footer.copy(alloc)?, pieces);
    let lists = lists_and_columns(alloc, schema, request, &view);
    mem::drop(view);
    match lists {
        Ok(lists) => Ok(lists),
        Err(fault) => Err(leaf_fault(fault)),
    }
}

// Fetches the blocks of the dictionary that a request needs.
fn fetch_blocks<G: Gate>(
    alloc: Global,
    gate: &mut G,
    plan: &Plan,
    place: u32,
    request: &LeafRequest,
    footer: &Footer,
) -> Result<KeptPieces, FetchError>
    requires { place < length plan.now.rows }
    ensures later { G.since gate.old gate.new }
    ensures step { (config : configs.IndexConfig) (documents : List Placed) (p : Parts) (core : Core) (log : Log) → G.Stands gate.old core log → IsConfigured config core →
        (file : IsFileAt core (grace_of config plan.now).until plan.now place (file_bytes p)) → IsSplitOf config.schema documents p → IsFooterOf p footer.now →
        FetchesAs (grace_of config plan.now) file.row.number G.Stands G.Between G.Adds G.bytes_fetched (AreBlocksFetched config.schema request.now documents p footer.now) result core log gate.old gate.new }
    ensures reads { ReadsAs G.Stands G.Between G.Owns G.Adds G.bytes_fetched G.told G.Answers plan.now place (AreKeptBehind []) NeverRefused result gate.old gate.new }
{
    let blocks = blocks_needed(alloc, &gate.config().schema, request, footer)?;
    let mut pieces = KeptPieces::vacant(alloc);
    fetch_ranges(alloc, gate, plan, place, blocks.as_slice(), &mut pieces)?;
    Ok(pieces)
}

// Fetches the lists and the columns that a request needs, behind the blocks.
fn fetch_lists<G: Gate>(
    alloc: Global,
    gate: &mut G,
    plan: &Plan,
    place: u32,
    request: &LeafRequest,
    footer: &Footer,
    blocks: KeptPieces,
) -> Result<KeptPieces, FetchError>
    requires { place < length plan.now.rows }
    ensures later { G.since gate.old gate.new }
    ensures step { (config : configs.IndexConfig) (documents : List Placed) (p : Parts) (core : Core) (log : Log) → G.Stands gate.old core log → IsConfigured config core →
        (file : IsFileAt core (grace_of config plan.now).until plan.now place (file_bytes p)) → IsSplitOf config.schema documents p → IsFooterOf p footer.now → IsAsked config.schema request.now →
        HoldsBlocks config.schema request.now documents p footer.now blocks →
        FetchesAs (grace_of config plan.now) file.row.number G.Stands G.Between G.Adds G.bytes_fetched (AreListsFetched config.schema request.now documents p footer.now blocks) result core log gate.old gate.new }
    ensures reads { ReadsAs G.Stands G.Between G.Owns G.Adds G.bytes_fetched G.told G.Answers plan.now place (AreKeptBehind blocks) (λ calls. ⊤) result gate.old gate.new }
{
    let schema = &gate.config().schema;
    let lists = lists_of(alloc, schema, request, footer, blocks.as_slice())?;
    let mut pieces = blocks;
    fetch_ranges(alloc, gate, plan, place, lists.as_slice(), &mut pieces)?;
    Ok(pieces)
}

// Which documents of a split may be shown, where they are few, and the ranges of their starts, or else of the section of documents.
#[derive(Drop)]
struct ShownStarts {
    few: Option<Vec<u32>>,
    starts: Ranges,
}

// The starts that are named of a split, by its view.
fn starts_in(
    alloc: Global,
    schema: &Schema,
    request: &LeafRequest,
    view: &PartView,
) -> Result<ShownStarts, FetchError>
    requires { length schema.now.fields ≤ 256 }
    ensures step { (documents : List Placed) (p : Parts) → IsPartOf view.now schema.now documents p → IsAsked schema.now request.now →
        ((at len : ℕ) → TellsShown view.now schema.now documents p request.now at len → held_in view.now.pieces at len ≢ None) →
        MatchResult result (AreStartsNamed view.now schema.now request.now documents) WantsRoom }
    ensures fault { IfErr result (IsFaultWhere ⊤) }
{
    match shown_documents(alloc, schema, request, view) {
        Ok(few) => {
            let starts = starts_needed(alloc, request, view, &few)?;
            Ok(ShownStarts { few, starts })
        }
        Err(fault) => Err(leaf_fault(fault)),
    }
}

// The same, of a split whose lists and columns were fetched.
fn starts_of(
    alloc: Global,
    schema: &Schema,
    request: &LeafRequest,
    footer: &Footer,
    listed: &[KeptPiece],
) -> Result<ShownStarts, FetchError>
    requires { length schema.now.fields ≤ 256 }
    ensures step { (documents : List Placed) (p : Parts) → IsSplitOf schema.now documents p → IsFooterOf p footer.now → IsAsked schema.now request.now →
        HoldsListed schema.now request.now documents p footer.now listed.now →
        MatchResult result (AreStartsNamed (over footer.now) schema.now request.now documents) WantsRoom }
    ensures fault { IfErr result (IsFaultWhere ⊤) }
{
    let pieces = lent_pieces(alloc, listed)?;
    let view = PartView::gather(footer.copy(alloc)?, pieces);
    let named = starts_in(alloc, schema, request, &view);
    mem::drop(view);
    named
}

// The ranges of the few documents that may be shown, of a split of which their starts were fetched.
fn documents_of(
    alloc: Global,
    footer: &Footer,
    kept: &[KeptPiece],
    few: &Option<Vec<u32>>,
) -> Result<Ranges, FetchError>
    ensures step { (s : Schema) (r : Asked) (documents : List Placed) (p : Parts) → IsSplitOf s documents p → IsFooterOf p footer.now → HoldsStarts s r documents p footer.now kept.now →
        MatchOption few.now (are_few s r documents ≡ false) (λ ns. AreFew s r documents ns.items) →
        MatchResult result (AreRangesOf (NeedsShown s documents p r)) WantsRoom }
    ensures fault { IfErr result (IsFaultWhere ⊤) }
{
    let pieces = lent_pieces(alloc, kept)?;
    let view = PartView::gather(footer.copy(alloc)?, pieces);
    let shown = documents_needed(alloc, &view, few);
    mem::drop(view);
    match shown {
        Ok(shown) => Ok(shown),
        Err(fault) => Err(leaf_fault(fault)),
    }
}

// Fetches what is needed only to show hits, behind the lists and the columns: where the documents that may be shown are few their starts
// and then their bytes, and else the section of documents.
fn fetch_shown<G: Gate>(
    alloc: Global,
    gate: &mut G,
    plan: &Plan,
    place: u32,
    request: &LeafRequest,
    footer: &Footer,
    listed: KeptPieces,
) -> Result<KeptPieces, FetchError>
    requires { place < length plan.now.rows }
    ensures later { G.since gate.old gate.new }
    ensures step { (config : configs.IndexConfig) (documents : List Placed) (p : Parts) (core : Core) (log : Log) → G.Stands gate.old core log → IsConfigured config core →
        (file : IsFileAt core (grace_of config plan.now).until plan.now place (file_bytes p)) → IsSplitOf config.schema documents p → IsFooterOf p footer.now → IsAsked config.schema request.now →
        HoldsListed config.schema request.now documents p footer.now listed →
        FetchesAs (grace_of config plan.now) file.row.number G.Stands G.Between G.Adds G.bytes_fetched (AreShownFetched config.schema request.now documents p footer.now listed) result core log gate.old gate.new }
    ensures reads { ReadsAs G.Stands G.Between G.Owns G.Adds G.bytes_fetched G.told G.Answers plan.now place (AreKeptBehind listed) (λ calls. ⊤) result gate.old gate.new }
{
    if request.wanted == 0 {
        return Ok(listed);
    }
    let schema = &gate.config().schema;
    let named = starts_of(alloc, schema, request, footer, listed.as_slice())?;
    let mut pieces = listed;
    fetch_ranges(
        alloc,
        gate,
        plan,
        place,
        named.starts.as_slice(),
        &mut pieces,
    )?;
    let shown = documents_of(alloc, footer, pieces.as_slice(), &named.few)?;
    fetch_ranges(alloc, gate, plan, place, shown.as_slice(), &mut pieces)?;
    Ok(pieces)
}

// What a request needs of a split: its footer, if it isn't known yet, the blocks of its dictionary, the lists and columns, and then what
// is shown.
fn fetch_needed<G: Gate>(
    alloc: Global,
    gate: &mut G,
    plan: &Plan,
    place: u32,
    request: &LeafRequest,
    known: Option<Footer>,
) -> Result<FetchedSplit, FetchError>
    requires { place < length plan.now.rows }
    ensures later { G.since gate.old gate.new }
    ensures step { (config : configs.IndexConfig) (documents : List Placed) (p : Parts) (core : Core) (log : Log) → G.Stands gate.old core log → IsConfigured config core →
        (file : IsFileAt core (grace_of config plan.now).until plan.now place (file_bytes p)) → IsSplitOf config.schema documents p → IsAsked config.schema request.now → IsKnown (file_bytes p) known →
        FetchesAs (grace_of config plan.now) file.row.number G.Stands G.Between G.Adds G.bytes_fetched (IsPartFetched config.schema request.now known documents p (needed_calls known)) result core log gate.old gate.new }
    ensures reads { (row : PlanRow) → slice_get plan.now.rows place ≡ Some row →
        ReadsAs G.Stands G.Between G.Owns G.Adds G.bytes_fetched G.told G.Answers plan.now place (IsPartRead known row.number row.size) (IsNoPart known row.size) result gate.old gate.new }
{
    let number = plan.rows.at(place as usize).number;
    let footer = footer_of(alloc, gate, plan, place, known)?;
    let blocks = fetch_blocks(alloc, gate, plan, place, request, &footer)?;
    let listed = fetch_lists(alloc, gate, plan, place, request, &footer, blocks)?;
    let pieces = fetch_shown(alloc, gate, plan, place, request, &footer, listed)?;
    Ok(FetchedSplit {
        number,
        footer,
        pieces,
    })
}

// Whether no fetch was made: the footer was known, and no piece is needed.
fn asked_nothing(was_known: bool, pieces: &KeptPieces) -> bool
    ensures { result ≡ (was_known && (length pieces.now == 0)) }
{
    was_known && pieces.as_slice().is_empty()
}

// Fetches no byte, in one fetch.
fn look<G: Gate>(
    alloc: Global,
    gate: &mut G,
    plan: &Plan,
    place: u32,
    part: FetchedSplit,
) -> Result<FetchedSplit, FetchError>
    requires { place < length plan.now.rows }
    ensures later { G.since gate.old gate.new }
    ensures step { (config : configs.IndexConfig) (bytes : List ℕ) (core : Core) (log : Log) → G.Stands gate.old core log → IsConfigured config core → (file : IsFileAt core (grace_of config plan.now).until plan.now place bytes) →
        FetchesAs (grace_of config plan.now) file.row.number G.Stands G.Between G.Adds G.bytes_fetched (IsLooked part) result core log gate.old gate.new }
    ensures reads { ReadsAs G.Stands G.Between G.Owns G.Adds G.bytes_fetched G.told G.Answers plan.now place (IsPartLooked part) NeverRefused result gate.old gate.new }
{
    match fetch_piece(alloc, gate, plan, place, 0, 0) {
        Ok(_) => Ok(part),
        Err(error) => {
            mem::drop(part);
            Err(error)
        }
    }
}

/// What a request needs of a planned split. Where it needs nothing more than a footer that is known, no byte is fetched, in one
/// fetch, so that the file is asked for all the same.
pub(crate) fn fetch_part<G: Gate>(
    alloc: Global,
    gate: &mut G,
    plan: &Plan,
    place: u32,
    request: &LeafRequest,
    known: Option<Footer>,
) -> Result<FetchedSplit, FetchError>
    requires { place < length plan.now.rows }
    ensures later { G.since gate.old gate.new }
    ensures step { (config : configs.IndexConfig) (documents : List Placed) (p : Parts) (core : Core) (log : Log) → G.Stands gate.old core log → IsConfigured config core →
        (file : IsFileAt core (grace_of config plan.now).until plan.now place (file_bytes p)) → IsSplitOf config.schema documents p → IsAsked config.schema request.now → IsKnown (file_bytes p) known →
        FetchesAs (grace_of config plan.now) file.row.number G.Stands G.Between G.Adds G.bytes_fetched (IsPartFetched config.schema request.now known documents p (part_calls known)) result core log gate.old gate.new }
    ensures reads { (row : PlanRow) → slice_get plan.now.rows place ≡ Some row →
        ReadsAs G.Stands G.Between G.Owns G.Adds G.bytes_fetched G.told G.Answers plan.now place (IsPartRead known row.number row.size) (IsNoPart known row.size) result gate.old gate.new }
{
    let was_known = known.is_some();
    let part = fetch_needed(alloc, gate, plan, place, request, known)?;
    if asked_nothing(was_known, &part.pieces) {
        return look(alloc, gate, plan, place, part);
    }
    Ok(part)
}

ghost use Rattle.std.specs.Prelude.{◌≡◌, ◌≤◌, ◌<◌, ◌+◌, ◌/◌, ◌-◌, ◌^◌, ◌++◌, [], List, ℕ, length, drop, take, Bool, true, false, None, IfOk, IsOkAnd, IsErr, OnOk, IsOk, Ok, Some, ◌∷◌, min};
ghost use Rattle.std.specs.List.{AllByRecursion};
ghost use Rattle.byte_fields.specs.Spelling.{varint};
ghost use Rattle.term_postings.specs.Postings.{AreDocuments, list_bytes, position_bytes, head_bytes, head_list, document_bytes, count_bytes, Fits, varints};
ghost use Rattle.term_postings.specs.Cursors.{AreBehind, IsHead, PositionsAt};
ghost use Rattle.term_postings.specs.Reading.{head_at, heads_behind, count_at, position_at, skipped_behind};
ghost use Rattle.term_postings.specs.declared.list.Posting.{Posting};

use crate::cursor::{Cursor, Place};
use byte_fields::{Corrupt, take_varint};

pub(crate) const BLOCK: u32 = 128;

/// What a block's head says.
#[derive(Clone, Copy)]
pub(crate) struct Head {
    /// From the document before the block to its last one.
    gap: u64,
    len: u64,
    positions_len: u64,
    /// The place behind the head.
    next: usize,
}

// The head at a place.
#[tactic(auto, unfolding(crate::specs::Reading::head_at))]
pub(crate) fn read_head(postings: &[u8], at: usize) -> Result<Head, Corrupt>
    requires { at ≤ length postings.now }
    ensures within { IfOk result (λ h. h.next ≤ length postings.now) }
    ensures only { (counted : Bool) (before : ℕ) (block : List Posting) (rest : List ℕ) → AreBehind counted before block
        → drop at postings.now ≡ head_bytes counted before block ++ rest
        → IsOkAnd result (λ h. IsHead counted before block h.gap h.len h.positions_len × (drop h.next postings.now ≡ rest)) }
    ensures exact { result ≡ head_at postings.now at }
{
    let (gap, behind_gap) = take_varint(postings, at)?;
    let (len, behind_len) = take_varint(postings, behind_gap)?;
    let (positions_len, next) = take_varint(postings, behind_len)?;
    Ok(Head {
        gap,
        len,
        positions_len,
        next,
    })
}

// The place behind so many heads.
fn behind_heads(postings: &[u8], count: u32) -> Result<usize, Corrupt>
    ensures within { IfOk result (λ at. at ≤ length postings.now) }
    ensures only { (counted : Bool) (before : ℕ) (ps : List Posting) (rest : List ℕ) → AreBehind counted before ps → count ≡ (length ps - 1) / 128
        → postings.now ≡ head_list count counted before ps ++ rest → IsOkAnd result (λ at. drop at postings.now ≡ rest) }
    ensures exact { result ≡ heads_behind count postings.now 0 }
{
    let mut at = 0;
    for _number in 0..count {
        at = read_head(postings, at)?.next;
    }
    Ok(at)
}

// The count of a document's positions at a place, where the field has positions.
#[inline(always)]
fn read_count(postings: &[u8], at: usize, counted: bool) -> Result<(u64, usize), Corrupt>
    requires { at ≤ length postings.now }
    ensures within { IfOk result (λ x. x.1 ≤ length postings.now) }
    ensures only { (p : Posting) (rest : List ℕ) → Fits counted p → length p.positions < 2 ^ 64 → drop at postings.now ≡ count_bytes counted p.positions ++ rest
        → IsOkAnd result (λ x. (x.0 ≡ length p.positions) × (drop x.1 postings.now ≡ rest)) }
    ensures exact { result ≡ count_at counted postings.now at }
{
    if !counted {
        return Ok((0, at));
    }
    Ok(take_varint(postings, at)?)
}

impl<'a> Cursor<'a> {
    ghost use Rattle.term_postings.specs.Cursors.{StandsBefore, StandsAt, StandsFrom, IsHeadOf, first_positions, first_document, from_document, first_number, PassesMany, GivesMany};
    ghost use Rattle.byte_fields.specs.Steps.{Gives};
    ghost use Rattle.term_postings.specs.Reading.{walk, answered, reached, bytes_left, starting, over_of, passed_one, left_by, in_block, step_of, next_of, LeavesBlocks, IsSought, IsPast, last_given, next_position_of, passed_many, passed_all, last_of, next_block_of, PutsInFront};

    /// Before the first of `docs` documents. Both slices begin where the term's bytes start.
    pub fn over(
        postings: &'a [u8],
        positions: &'a [u8],
        docs: u32,
        with_positions: bool,
    ) -> Cursor<'a>
        ensures only { (told : Bool) (list : List Posting) (more more_positions : List ℕ) → AreDocuments with_positions list → docs ≡ length list
            → postings.now ≡ list_bytes with_positions list ++ more → (told ≡ true → positions.now ≡ position_bytes list ++ more_positions)
            → StandsBefore told result list [] }
        // Over any bytes, and which fault it has.
        ensures exact { walk result ≡ over_of postings.now positions.now docs with_positions }
        ensures given { result.given ≡ None }
    {
        let later = docs.saturating_sub(1) / BLOCK;
        match behind_heads(postings, later) {
            Ok(block) => {
                Cursor::starting(postings, positions, docs, with_positions, block, None)
            }
            Err(corrupt) => {
                Cursor::starting(postings, positions, docs, with_positions, 0, Some(corrupt))
            }
        }
    }

    // Before the first document, where the blocks start at a place.
    fn starting(
        postings: &'a [u8],
        positions: &'a [u8],
        docs: u32,
        counted: bool,
        block: usize,
        fault: Option<Corrupt>,
    ) -> Cursor<'a>
        requires { block ≤ length postings.now }
        ensures only { (told : Bool) (list : List Posting) (more more_positions : List ℕ) → AreDocuments counted list → docs ≡ length list → fault ≡ None
            → postings.now ≡ list_bytes counted list ++ more → drop block postings.now ≡ document_bytes counted 0 list ++ more
            → (told ≡ true → positions.now ≡ position_bytes list ++ more_positions) → StandsBefore told result list [] }
        ensures exact { walk result ≡ starting postings.now positions.now docs counted block fault }
    {
        Cursor {
            postings,
            positions,
            counted,
            fault,
            left: docs,
            passed: 0,
            head: 0,
            block,
            at: block,
            block_before: 0,
            before: 0,
            given: None,
            positions_block: 0,
            place: Place {
                at: 0,
                skipped: 0,
                count: 0,
                last: 0,
            },
        }
    }

    /// The next document, if there is one. After an `Err` nothing is said of what the cursor gives.
    #[inline]
    pub fn next(&mut self) -> Result<Option<u32>, Corrupt>
        ensures only { (told : Bool) (after : List Posting) (left : List ℕ) → StandsBefore told self.old after left
            → (result ≡ Ok (first_document after)) × StandsBefore told self.new (drop 1 after) (first_positions after left) }
        // Over any bytes, and which fault it is.
        ensures exact { answered result (walk self.new) ≡ next_of (walk self.old) }
        // The document that was given, or where none was, the one from before.
        ensures given { IfOk result (λ found. self.new.given ≡ last_given found self.old.given) }
    {
        if let Some(corrupt) = self.fault {
            return Err(corrupt);
        }
        if self.left == 0 {
            return Ok(None);
        }
        let document = self.step()?;
        Ok(Some(document))
    }

    /// The documents to come of the block of the next one, in front of `found`, and how many they are: at most 128, and 0
    /// where none are to come. The positions to come are then those of the last of them. After an `Err` nothing is said
    /// of what the cursor gives, nor of `found`.
    pub fn next_block(&mut self, found: &mut [u32; 128]) -> Result<usize, Corrupt>
        ensures only { (told : Bool) (after : List Posting) (left : List ℕ) → StandsBefore told self.old after left
            → IsOkAnd result (λ count. GivesMany told self.new after left (take count found.new)) }
        // Over any bytes, and which fault it is.
        ensures exact { PutsInFront found.old found.new result (walk self.new) (next_block_of (walk self.old)) }
        // The last of them, or where there is none, the one from before.
        ensures given { IfOk result (λ count. self.new.given ≡ last_of (take count found.new) self.old.given) }
    {
        if let Some(corrupt) = self.fault {
            return Err(corrupt);
        }
        if self.left == 0 {
            return Ok(0);
        }
        self.begin_block()?;
        let count = self.left.min(BLOCK - self.passed) as usize;
        self.pass_all(&mut found[..count])?;
        Ok(count)
    }

    // Passes as many documents of the block as there are places for.
    fn pass_all(&mut self, found: &mut [u32]) -> Result<(), Corrupt>
        requires some { length found.old ≤ self.old.left }
        requires room { length found.old + self.old.passed ≤ 128 }
        ensures only { (told : Bool) (after : List Posting) (left : List ℕ) → StandsBefore told self.old after left
            → IsOk result × PassesMany told self.new after left found.new }
        ensures exact { passed_all result found.new (walk self.new) ≡ passed_many (length found.old) (walk self.old) }
        ensures given { OnOk result (self.new.given ≡ last_of found.new self.old.given) }
    {
        // The walk is over a copy, whose fields stay in registers, and is written back once.
        let mut cursor = *self;
        for number in 0..found.len() {
            found[number] = cursor.pass()?;
        }
        *self = cursor;
        Ok(())
    }

    /// The document given last, if it is not below `document`, or else the first one to come that is not, if there is
    /// one. Whole blocks before it are passed over by their heads. After an `Err` nothing is said of what the cursor
    /// gives.
    pub fn seek(&mut self, document: u32) -> Result<Option<u32>, Corrupt>
        // Where the document given last serves, the cursor stays.
        ensures stays { (given : ℕ) → self.old.given ≡ Some given → document ≤ given → (result ≡ Ok (Some given)) × (self.new ≡ self.old) }
        ensures only { (told : Bool) (after : List Posting) (left : List ℕ) → IsPast document self.old.given → StandsBefore told self.old after left
            → (result ≡ Ok (first_document (from_document document after)))
            × StandsBefore told self.new (drop 1 (from_document document after)) (first_positions (from_document document after) left) }
        // Over any bytes, and which fault it is.
        ensures exact { IsPast document self.old.given → IsSought document (walk self.old) (answered result (walk self.new)) }
        ensures given { IfOk result (λ found. self.new.given ≡ last_given found self.old.given) }
    {
        match self.given {
            Some(given) if given >= document => Ok(Some(given)),
            _ => self.seek_on(document),
        }
    }

    // The first document to come that is not below a document.
    fn seek_on(&mut self, document: u32) -> Result<Option<u32>, Corrupt>
        ensures only { (told : Bool) (after : List Posting) (left : List ℕ) → StandsBefore told self.old after left
            → (result ≡ Ok (first_document (from_document document after)))
            × StandsBefore told self.new (drop 1 (from_document document after)) (first_positions (from_document document after) left) }
        ensures exact { IsSought document (walk self.old) (answered result (walk self.new)) }
        ensures given { IfOk result (λ found. self.new.given ≡ last_given found self.old.given) }
    {
        if let Some(corrupt) = self.fault {
            return Err(corrupt);
        }
        let given = self.given;
        let place = self.place;
        self.skip_blocks(document)?;
        while self.left > 0 {
            let found = self.step()?;
            if found >= document {
                return Ok(Some(found));
            }
        }
        // The positions of the document given last are still to come.
        self.given = given;
        self.place = place;
        Ok(None)
    }

    /// The next position of the document given last, if there is one. After an `Err` nothing is said of what the
    /// cursor gives.
    pub fn next_position(&mut self) -> Result<Option<u64>, Corrupt>
        ensures only { (after : List Posting) (left : List ℕ) → StandsBefore true self.old after left
            → (result ≡ Ok (first_number left)) × StandsBefore true self.new after (drop 1 left) }
        // Over any bytes, and which fault it is.
        ensures exact { answered result (walk self.new) ≡ next_position_of (walk self.old) }
        ensures given { self.new.given ≡ self.old.given }
    {
        if let Some(corrupt) = self.fault {
            return Err(corrupt);
        }
        if self.place.count == 0 {
            return Ok(None);
        }
        let (position, place) = read_position(self.positions, self.place)?;
        self.place = place;
        Ok(Some(position))
    }

    /// How many positions of the document given last are to come.
    #[inline]
    pub fn position_count(&self) -> u64
        ensures only { (after : List Posting) (left : List ℕ) → StandsBefore true self.now after left → result ≡ length left }
        // Over any bytes.
        ensures exact { result ≡ (walk self.now).place.count }
    {
        self.place.count
    }

    /// The bytes of the positions to come, where none of the document given last is: those of the documents to come, and what
    /// stands behind them.
    pub fn position_bytes(&self) -> Result<&'a [u8], Corrupt>
        ensures only { (after : List Posting) → StandsBefore true self.now after []
            → IsOkAnd result (λ bytes. (behind : List ℕ) × (bytes.now ≡ position_bytes after ++ behind)) }
        // Over any bytes, and which fault it is.
        ensures exact { Gives (λ bytes. bytes.now) result (bytes_left (walk self.now)) }
    {
        if let Some(corrupt) = self.fault {
            return Err(corrupt);
        }
        let from = self.place.at.min(self.positions.len() as u64);
        let at = behind_numbers(self.positions, from, self.place.skipped)?;
        Ok(&self.positions[at..])
    }

    // Leaves the blocks whose last document is below a document.
    fn skip_blocks(&mut self, document: u32) -> Result<(), Corrupt>
        ensures same { self.new.positions.now ≡ self.old.positions.now }
        ensures fault { self.new.fault ≡ self.old.fault }
        ensures only { (told : Bool) (after : List Posting) (left : List ℕ) → StandsBefore told self.old after left
            → IsOk result × (StandsFrom told document after self.new) }
        ensures exact { LeavesBlocks document (walk self.old) (reached result (walk self.new)) }
    {
        while u64::from(self.left) + u64::from(self.passed) > u64::from(BLOCK) {
            let head = read_head(self.postings, self.head)?;
            if head.last(self.block_before) >= u64::from(document) {
                break;
            }
            self.leave_block(head)?;
        }
        Ok(())
    }

    // The next document, of those that are to come.
    #[inline(always)]
    fn step(&mut self) -> Result<u32, Corrupt>
        requires { 0 < self.old.left }
        ensures moves { OnOk result (self.new.left + 1 ≡ self.old.left) }
        ensures same { self.new.positions.now ≡ self.old.positions.now }
        ensures fault { self.new.fault ≡ self.old.fault }
        ensures only { (told : Bool) (after : List Posting) (left : List ℕ) → StandsBefore told self.old after left
            → IsOkAnd result (λ document. first_document after ≡ Some document) × StandsBefore told self.new (drop 1 after) (first_positions after left) }
        ensures exact { answered result (walk self.new) ≡ step_of (walk self.old) }
        ensures given { IfOk result (λ document. self.new.given ≡ Some document) }
    {
        self.begin_block()?;
        self.pass()
    }

    // Goes on to the block of the next document.
    #[inline(always)]
    fn begin_block(&mut self) -> Result<(), Corrupt>
        requires { 0 < self.old.left }
        ensures moves { OnOk result ((self.new.left ≡ self.old.left) × (self.new.passed < 128)) }
        ensures same { self.new.positions.now ≡ self.old.positions.now }
        ensures fault { self.new.fault ≡ self.old.fault }
        ensures only { (told : Bool) (after : List Posting) (left : List ℕ) → StandsBefore told self.old after left
            → IsOk result × ((now : List ℕ) × StandsBefore told self.new after now) }
        ensures exact { reached result (walk self.new) ≡ in_block (walk self.old) }
        ensures given { self.new.given ≡ self.old.given }
    {
        if self.passed < BLOCK {
            return Ok(());
        }
        let head = read_head(self.postings, self.head)?;
        self.leave_block(head)
    }

    // Leaves a block by its head. An `Err` changes nothing.
    #[tactic(auto, unfolding(crate::specs::Reading::left_by))]
    fn leave_block(&mut self, head: Head) -> Result<(), Corrupt>
        requires whole { 128 ≤ self.old.left + self.old.passed }
        requires within { head.next ≤ length self.old.postings.now }
        ensures same { self.new.positions.now ≡ self.old.positions.now }
        ensures fault { self.new.fault ≡ self.old.fault }
        ensures moves { OnOk result ((self.new.left + 128 ≡ self.old.left + self.old.passed) × (self.new.passed ≡ 0)) }
        ensures only { (told : Bool) (passed after : List Posting) (left rest : List ℕ) → StandsAt told self.old passed after left
            → IsHeadOf self.old passed after head rest → IsOk result × StandsAt told self.new [] (drop 128 (passed ++ after)) [] }
        ensures exact { reached result (walk self.new) ≡ left_by head (walk self.old) }
        ensures given { self.new.given ≡ self.old.given }
    {
        let last = head.last(self.block_before);
        let Some(positions_block) = self.positions_block.checked_add(head.positions_len) else {
            return Err(Corrupt { at: self.head });
        };
        if last > u64::from(u32::MAX) || head.len > (self.postings.len() - self.block) as u64 {
            return Err(Corrupt { at: self.head });
        }
        self.left -= BLOCK - self.passed;
        self.passed = 0;
        self.head = head.next;
        self.block += head.len as usize;
        self.at = self.block;
        self.block_before = last as u32;
        self.before = last as u32;
        self.positions_block = positions_block;
        self.place = Place {
            at: positions_block,
            skipped: 0,
            count: 0,
            last: 0,
        };
        Ok(())
    }

    // Passes the next document of the block. An `Err` changes nothing.
    #[inline(always)]
    #[tactic(auto, unfolding(crate::specs::Reading::passed_one))]
    fn pass(&mut self) -> Result<u32, Corrupt>
        requires some { 0 < self.old.left }
        requires room { self.old.passed < 128 }
        ensures same { self.new.positions.now ≡ self.old.positions.now }
        ensures fault { self.new.fault ≡ self.old.fault }
        ensures moves { OnOk result ((self.new.left + 1 ≡ self.old.left) × (self.new.passed ≡ self.old.passed + 1)) }
        ensures only { (told : Bool) (passed after : List Posting) (p : Posting) (left : List ℕ) → StandsAt told self.old passed (p ∷ after) left
            → (result ≡ Ok p.document) × StandsAt told self.new (passed ++ p ∷ []) after p.positions }
        ensures exact { answered result (walk self.new) ≡ passed_one (walk self.old) }
        ensures given { IfOk result (λ document. self.new.given ≡ Some document) }
    {
        let (gap, behind_gap) = take_varint(self.postings, self.at)?;
        let (count, next) = read_count(self.postings, behind_gap, self.counted)?;
        if gap > u64::from(u32::MAX - self.before) {
            return Err(Corrupt { at: self.at });
        }
        let Some(skipped) = self.place.skipped.checked_add(self.place.count) else {
            return Err(Corrupt { at: self.at });
        };
        self.at = next;
        self.before += gap as u32;
        self.given = Some(self.before);
        self.left -= 1;
        self.passed += 1;
        self.place = Place {
            at: self.place.at,
            skipped,
            count,
            last: 0,
        };
        Ok(self.before)
    }
}

impl Head {
    // The last document of the block, where this is the one before it.
    fn last(&self, before: u32) -> u64
        ensures { result ≡ min (before + self.now.gap) (2 ^ 64 - 1) }
    {
        u64::from(before).saturating_add(self.gap)
    }
}

// The next position, and where the one behind it is found.
#[tactic(auto, unfolding(crate::specs::Reading::position_at))]
fn read_position(positions: &[u8], place: Place) -> Result<(u64, Place), Corrupt>
    requires { 0 < place.count }
    ensures moves { IfOk result (λ x. (x.1.skipped ≡ 0) × (x.1.count + 1 ≡ place.count)) }
    ensures only { (position : ℕ) (left : List ℕ) (after : List Posting) → PositionsAt positions.now place (position ∷ left) after
        → IsOkAnd result (λ x. (x.0 ≡ position) × PositionsAt positions.now x.1 left after) }
    ensures exact { result ≡ position_at positions.now place }
{
    let at = behind_numbers(positions, place.at, place.skipped)?;
    let (gap, next) = take_varint(positions, at)?;
    let Some(position) = place.last.checked_add(gap) else {
        return Err(Corrupt { at });
    };
    let place = Place {
        at: next as u64,
        skipped: 0,
        count: place.count - 1,
        last: position,
    };
    Ok((position, place))
}

// The place behind so many numbers.
fn behind_numbers(bytes: &[u8], from: u64, count: u64) -> Result<usize, Corrupt>
    ensures within { IfOk result (λ at. at ≤ length bytes.now) }
    ensures only { (numbers rest : List ℕ) → count ≡ length numbers → AllByRecursion (λ n. n < 2 ^ 64) numbers → from ≤ length bytes.now
        → drop from bytes.now ≡ varints numbers ++ rest → IsOkAnd result (λ at. drop at bytes.now ≡ rest) }
    ensures exact { result ≡ skipped_behind count bytes.now from }
{
    if from > bytes.len() as u64 {
        return Err(Corrupt { at: bytes.len() });
    }
    let mut at = from as usize;
    for _number in 0..count {
        at = take_varint(bytes, at)?.1;
    }
    Ok(at)
}

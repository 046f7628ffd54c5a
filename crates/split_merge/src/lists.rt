//! The list of a key, gathered of several splits.

ghost use Rattle.std.specs.Prelude.{◌≡◌, ◌-◌, ◌<◌, ◌^◌, ◌++◌, [], ◌↔◌, ℕ, Bool, List, true, false, length, IfErr, IfOk, OnOk, IsTrue, MatchResult};
ghost use Rattle.term_postings.specs.Cursors.{StandsBefore};
ghost use Rattle.term_postings.specs.Postings.{AreRising, documents, gaps, position_bytes, varints};
ghost use Rattle.term_postings.specs.declared.list.Posting.{Posting};
ghost use Rattle.term_postings.specs.Rows.{AppendsList};
ghost use Rattle.split_merge.specs.Faults.{IsWant};
ghost use Rattle.split_merge.specs.Joining.{CanHave, CanSpell, Lists, is_above, last_or_zero};
ghost use Rattle.split_merge.specs.Numbering.{number_in};

use crate::numbers::Numbers;
use crate::spelling::put_list;
use byte_fields::put_varint;
use split_bundle::{Section, SplitError};
use std::alloc::{AllocError, Global};
use term_dict::TermInfo;
use term_postings::Cursor;

/// A document of a list, and how many positions it has.
#[derive(Clone, Copy)]
pub(crate) struct Listed {
    pub(crate) document: u32,
    pub(crate) positions: u32,
}

/// The documents of a key so far, and the bytes of their positions, which contracts see as a list.
#[derive(Drop)]
pub(crate) struct KeyList {
    entries: Vec<Listed>,
    places: Vec<u8>,
}

// A section that is not of its form.
pub(crate) fn fault_in(section: Section) -> SplitError {
    SplitError::BadSection {
        number: section.number(),
    }
}

// Whether a number is above the last one, if there is one.
fn is_above(last: Option<u64>, number: u64) -> bool
    ensures { result ≡ is_above last number }
{
    match last {
        Some(last) => last < number,
        None => true,
    }
}

// How far a number is from the last one, or from 0 where there is none. Numbers rise, so that nothing is cut off.
fn gap_behind(last: Option<u64>, number: u64) -> u64
    ensures { result ≡ number - last_or_zero last }
{
    match last {
        Some(last) => number.saturating_sub(last),
        None => number,
    }
}

// A document with so many positions.
fn with_positions(document: u32, positions: u32) -> Listed
    ensures listed { result ≡ record { document = document; positions = positions } }
    ensures fits { document < 2 ^ 32 }
{
    Listed {
        document,
        positions,
    }
}

// Puts the positions that a cursor still has to give of the document given last behind others, each by its difference to the one
// before, and gives their number. There is no room for 2^32 positions of a document.
fn take_places(cursor: &mut Cursor, places: &mut Vec<u8>) -> Result<u32, SplitError>
    ensures { (after : List Posting) (left : List ℕ) → StandsBefore true cursor.old after left → AreRising left
        → MatchResult result (λ count. (places.new.items ≡ places.old.items ++ varints (gaps 0 left)) × (length left ≡ count) × StandsBefore true cursor.new after []) IsWant }
{
    let mut last = None;
    for count in 0..u32::MAX {
        match cursor.next_position() {
            Ok(Some(place)) => {
                if !is_above(last, place) {
                    return Err(fault_in(Section::Positions));
                }
                put_varint(places, gap_behind(last, place))?;
                last = Some(place);
            }
            Ok(None) => return Ok(count),
            Err(_fault) => return Err(fault_in(Section::Positions)),
        }
    }
    Err(SplitError::Memory(AllocError))
}

// The count of the positions of a document in 32 bits. There is no room for 2^32 positions of a document.
fn narrow_count(count: u64) -> Result<u32, AllocError>
    ensures { IfOk result (λ n. n ≡ count) }
{
    match u32::try_from(count) {
        Ok(narrow) => Ok(narrow),
        Err(_) => Err(AllocError),
    }
}

// Lists the documents of a list with positions behind others, so many of which are to come, up to the first that has no
// number, and says whether each has one. Over any bytes documents that do not rise are a fault.
fn list_counts(
    entries: &mut Vec<Listed>,
    mut cursor: Cursor<'_>,
    docs: u32,
    numbers: &Numbers,
) -> Result<bool, SplitError>
    ensures front { OnOk result ((more : List Listed) × (entries.new.items ≡ entries.old.items ++ more)) }
    ensures only { (list : List Posting) → StandsBefore true cursor.entry list [] → docs ≡ length list → CanSpell true list
        → MatchResult result (λ whole. whole ≡ true → Lists (number_in numbers.now) entries.old.items entries.new.items list) IsWant }
{
    let mut last = None;
    for taken in 0..docs {
        match cursor.next() {
            Ok(Some(document)) => {
                if !is_above(last, u64::from(document)) {
                    return Err(fault_in(Section::Postings));
                }
                let Some(number) = numbers.get(document) else {
                    return Ok(false);
                };
                let count = narrow_count(cursor.position_count())?;
                entries.push(with_positions(number, count))?;
                last = Some(u64::from(document));
            }
            Ok(None) => return Err(fault_in(Section::Postings)),
            Err(_fault) => return Err(fault_in(Section::Postings)),
        }
    }
    Ok(true)
}

// Puts so many bytes of the positions that are to come behind others.
fn copy_places(places: &mut Vec<u8>, cursor: &Cursor<'_>, len: u64) -> Result<(), SplitError>
    ensures { (list : List Posting) → StandsBefore true cursor.now list [] → len ≡ length (position_bytes list)
        → MatchResult result (λ _. places.new.items ≡ places.old.items ++ position_bytes list) IsWant }
{
    match cursor.position_bytes() {
        Ok(bytes) => {
            if len > bytes.len() as u64 {
                return Err(fault_in(Section::Positions));
            }
            places.extend_from_slice(&bytes[..len as usize])?;
            Ok(())
        }
        Err(_fault) => Err(fault_in(Section::Positions)),
    }
}

impl KeyList {
    ghost use Rattle.term_postings.specs.Reading.{last_of};
    ghost use Rattle.split_merge.specs.Joining.{Adds, AreAbove, Holds, bare, renumbered, with_number};

    /// No documents.
    pub(crate) fn vacant(alloc: Global) -> KeyList
        ensures { (kept : Bool) → Holds kept result [] }
    {
        KeyList {
            entries: Vec::new(alloc),
            places: Vec::new(alloc),
        }
    }

    /// Lets all documents go.
    pub(crate) fn clear(&mut self)
        ensures { (kept : Bool) → Holds kept self.new [] }
    {
        self.entries.clear();
        self.places.clear();
    }

    pub(crate) fn is_empty(&self) -> bool
        ensures { IsTrue result ↔ (self.now.entries.items ≡ []) }
    {
        self.entries.is_empty()
    }

    // Adds a document, if it has a number, with the positions that a cursor still has to give of the document given last. After an
    // `Err` nothing is said of what is held.
    fn push(&mut self, number: Option<u32>, cursor: &mut Cursor) -> Result<(), SplitError>
        ensures { (after : List Posting) (left : List ℕ) → StandsBefore true cursor.old after left → CanHave true left
            → MatchResult result (λ _. Adds true self.old self.new (with_number number left []) × ((now : List ℕ) × StandsBefore true cursor.new after now)) IsWant }
    {
        let Some(document) = number else {
            return Ok(());
        };
        match take_places(cursor, &mut self.places) {
            Ok(positions) => {
                self.entries.push(with_positions(document, positions))?;
                Ok(())
            }
            Err(fault) => Err(fault),
        }
    }

    // Adds the documents of a list with positions that have a number, so many of which are to come, one by one. Over any bytes
    // documents that do not rise are a fault. After an `Err` nothing is said of what is held.
    fn put(
        &mut self,
        mut cursor: Cursor<'_>,
        docs: u32,
        numbers: &Numbers,
    ) -> Result<(), SplitError>
        ensures { (list : List Posting) → StandsBefore true cursor.entry list [] → docs ≡ length list → CanSpell true list
            → MatchResult result (λ _. Adds true self.old self.new (renumbered (number_in numbers.now) list)) IsWant }
    {
        let mut last = None;
        for taken in 0..docs {
            match cursor.next() {
                Ok(Some(document)) => {
                    if !is_above(last, u64::from(document)) {
                        return Err(fault_in(Section::Postings));
                    }
                    match self.push(numbers.get(document), &mut cursor) {
                        Ok(()) => last = Some(u64::from(document)),
                        Err(fault) => return Err(fault),
                    }
                }
                Ok(None) => return Err(fault_in(Section::Postings)),
                Err(_fault) => return Err(fault_in(Section::Postings)),
            }
        }
        Ok(())
    }

    /// Adds the documents of a term's list with positions that have a number. Where each has one, the bytes of their positions
    /// are taken as they stand. Over any bytes documents that do not rise are a fault. After an `Err` nothing is said of what is
    /// held.
    pub(crate) fn put_kept(
        &mut self,
        cursor: Cursor<'_>,
        info: &TermInfo,
        numbers: &Numbers,
    ) -> Result<(), SplitError>
        ensures { (list : List Posting) → StandsBefore true cursor.entry list [] → info.now.docs ≡ length list → info.now.positions_len ≡ length (position_bytes list) → CanSpell true list
            → MatchResult result (λ _. Adds true self.old self.new (renumbered (number_in numbers.now) list)) IsWant }
    {
        let start = self.entries.len();
        match list_counts(&mut self.entries, cursor, info.docs, numbers) {
            Ok(true) => copy_places(&mut self.places, &cursor, info.positions_len),
            Ok(false) => {
                self.entries.truncate(start);
                self.put(cursor, info.docs, numbers)
            }
            Err(fault) => Err(fault),
        }
    }

    // Adds a document without positions, if it has a number.
    fn push_bare(&mut self, number: Option<u32>) -> Result<(), AllocError>
        ensures { OnOk result (Adds false self.old self.new (with_number number [] [])) }
    {
        if let Some(document) = number {
            self.entries.push(with_positions(document, 0))?;
        }
        Ok(())
    }

    // Adds the documents of a block without positions that have a number, of which the first is to be above a last one, and gives
    // the last one behind them. Over any bytes documents that do not rise are a fault. After an `Err` nothing is said of what is
    // held.
    fn put_block(
        &mut self,
        block: &[u32],
        before: Option<u64>,
        numbers: &Numbers,
    ) -> Result<Option<u64>, SplitError>
        ensures last { IfOk result (λ last. AreAbove before block.now × (last ≡ last_of block.now before)) }
        ensures added { OnOk result (Adds false self.old self.new (renumbered (number_in numbers.now) (bare block.now))) }
        ensures cause { AreAbove before block.now → IfErr result IsWant }
    {
        let mut last = before;
        for document in block {
            if !is_above(last, u64::from(*document)) {
                return Err(fault_in(Section::Postings));
            }
            self.push_bare(numbers.get(*document))?;
            last = Some(u64::from(*document));
        }
        Ok(last)
    }

    /// Adds the documents of a list without positions that have a number, so many of which are to come. Over any bytes documents
    /// that do not rise are a fault. After an `Err` nothing is said of what is held.
    pub(crate) fn put_bare(
        &mut self,
        mut cursor: Cursor<'_>,
        docs: u32,
        numbers: &Numbers,
    ) -> Result<(), SplitError>
        ensures { (list : List Posting) → StandsBefore false cursor.entry list [] → docs ≡ length list → CanSpell false list
            → MatchResult result (λ _. Adds false self.old self.new (renumbered (number_in numbers.now) list)) IsWant }
    {
        let mut found = [0; 128];
        let mut last = None;
        let mut left = docs as usize;
        while left > 0 {
            match cursor.next_block(&mut found) {
                Ok(count) => {
                    if count == 0 || count > left {
                        return Err(fault_in(Section::Postings));
                    }
                    match self.put_block(&found[..count], last, numbers) {
                        Ok(now) => last = now,
                        Err(fault) => return Err(fault),
                    }
                    left -= count;
                }
                Err(_fault) => return Err(fault_in(Section::Postings)),
            }
        }
        Ok(())
    }

    /// How many documents there are.
    pub(crate) fn len(&self) -> usize
        ensures { (kept : Bool) (ps : List Posting) → Holds kept self.now ps → result ≡ length ps }
    {
        self.entries.len()
    }

    /// Appends the bytes of the list, and those of its positions. `blocks` holds bytes meanwhile. After an `Err` nothing is said
    /// of what they hold.
    pub(crate) fn append(
        &self,
        kept: bool,
        blocks: &mut Vec<u8>,
        postings: &mut Vec<u8>,
        positions: &mut Vec<u8>,
    ) -> Result<(), AllocError>
        ensures { (ps : List Posting) → Holds kept self.now ps → AreRising (documents ps) → OnOk result (AppendsList kept ps postings.old.items positions.old.items postings.new.items positions.new.items) }
    {
        put_list(&self.entries, kept, &self.places, blocks, postings)?;
        positions.extend_from_slice(&self.places)
    }
}

//! The lines of a log's file.

ghost use Rattle.std.specs.Prelude.{◌≡◌, ◌≤◌, ◌<◌, ◌^◌, ◌==◌, ◌++◌, ◌∷◌, [], true, false, List, ℕ, Ok, length, take, IfOk, IfSome, OnOk};
ghost use Rattle.std.specs.List.{position_or_len};
ghost use Rattle.source_log.specs.Log.{IsSliceOf};
ghost use Rattle.real_edge.specs.Growing.{bytes_of};
ghost use Rattle.real_edge.specs.Lines.{longest, records_in, IsMark, IsReadTo, HasFilled};

use crate::faults::Trouble;
use crate::growing_files::GrowingFiles;
use byte_fields::Bytes;
use source_checkpoint::Partition;
use source_log::{RecordList, Records};
use std::alloc::{AllocError, Global};

/// How many bytes of a line are kept: those of the longest record, and one that tells that it is longer.
const KEPT: usize = 1_048_577;

/// A file is read by so many bytes.
const PIECE: u64 = 65_536;

/// Where a record begins in its file.
#[derive(Clone, Copy)]
pub struct Mark {
    pub record: u64,
    pub byte: u64,
}

impl Mark {
    pub const FRONT: Mark = Mark { record: 0, byte: 0 };
}

/// What was read of a file up to some place.
#[derive(Drop)]
pub struct Reading {
    /// The records that are wanted.
    list: RecordList,
    /// What is kept of the line that has not ended.
    line: Vec<u8>,
    /// The place behind the last line that ended.
    behind: Mark,
    /// The place of the next byte.
    next: u64,
}

// How many bytes stand before the first line feed, or all, where there is none.
fn front_len(bytes: &[u8]) -> usize
    ensures value { result ≡ position_or_len (λ b. b == 10) bytes.now }
    ensures within { result ≤ length bytes.now }
{
    for place in 0..bytes.len() {
        if bytes[place] == b'\n' {
            return place;
        }
    }
    bytes.len()
}

// Adds a piece to a line, of which no more is kept than that.
fn keep(line: &mut Vec<u8>, piece: &[u8]) -> Result<(), AllocError>
    ensures { OnOk result ((whole : List ℕ) → line.old.items ≡ take longest whole → line.new.items ≡ take longest (whole ++ piece.now)) }
{
    let room = KEPT.saturating_sub(line.len());
    line.extend_from_slice(&piece[..piece.len().min(room)])?;
    Ok(())
}

impl Reading {
    // From a place on.
    fn from(alloc: Global, start: Mark) -> Reading
        ensures reads { (bytes : List ℕ) (from most : ℕ) → IsMark bytes start → start.record ≤ from → IsReadTo from most (take start.byte bytes) result }
        ensures few { result.list ≡ [] }
    {
        Reading {
            list: RecordList::vacant(alloc),
            line: Vec::new(alloc),
            behind: start,
            next: start.byte,
        }
    }

    // Adds bytes of which none is a line feed.
    fn add(&mut self, front: &[u8]) -> Result<(), AllocError>
        requires { position_or_len (λ b. b == 10) front.now ≡ length front.now }
        ensures reads { OnOk result ((bytes : List ℕ) (from most : ℕ) → length (bytes ++ front.now) < 2 ^ 63 → IsReadTo from most bytes self.old → IsReadTo from most (bytes ++ front.now) self.new) }
        ensures list { self.new.list ≡ self.old.list }
    {
        keep(&mut self.line, front)?;
        self.next = self.next.saturating_add(front.len() as u64);
        Ok(())
    }

    // A line feed ends the line. Whether there is room for it, where it is wanted.
    fn end_line(&mut self, alloc: Global, from: u64, most: u64) -> Result<bool, AllocError>
        ensures goes { result ≡ Ok true → (bytes : List ℕ) → length (bytes ++ 10 ∷ []) < 2 ^ 63 → IsReadTo from most bytes self.old → IsReadTo from most (bytes ++ 10 ∷ []) self.new }
        ensures full { result ≡ Ok false → (bytes : List ℕ) → IsReadTo from most bytes self.old → HasFilled from most (bytes ++ 10 ∷ []) self.new }
        ensures few { length self.old.list ≤ most → length self.new.list ≤ most }
    {
        if self.behind.record >= from {
            if self.list.len() as u64 >= most {
                return Ok(false);
            }
            let record = Bytes::from_slice(alloc, self.line.as_slice())?;
            self.list.push(record)?;
        }
        self.next = self.next.saturating_add(1);
        self.behind = Mark {
            record: self.behind.record.saturating_add(1),
            byte: self.next,
        };
        self.line.clear();
        Ok(true)
    }

    // Takes a piece in. Whether a record stands behind as many as there may be.
    fn take(
        &mut self,
        alloc: Global,
        piece: &[u8],
        from: u64,
        most: u64,
    ) -> Result<bool, AllocError>
        ensures goes { result ≡ Ok false → (bytes : List ℕ) → length (bytes ++ piece.now) < 2 ^ 63 → IsReadTo from most bytes self.old → IsReadTo from most (bytes ++ piece.now) self.new }
        ensures full { result ≡ Ok true → (bytes : List ℕ) → length (bytes ++ piece.now) < 2 ^ 63 → IsReadTo from most bytes self.old → HasFilled from most (bytes ++ piece.now) self.new }
        ensures few { length self.old.list ≤ most → length self.new.list ≤ most }
    {
        let mut rest = piece;
        while !rest.is_empty() {
            let count = front_len(rest);
            self.add(&rest[..count])?;
            if count == rest.len() {
                return Ok(false);
            }
            if !self.end_line(alloc, from, most)? {
                return Ok(true);
            }
            rest = &rest[count + 1..];
        }
        Ok(false)
    }
}

// What was read of a file that ends here. None where it ends before a record that is asked for.
fn ended(reading: Reading, from: u64) -> Option<(Records, Mark)>
    ensures records { IfSome result (λ read. (bytes : List ℕ) (most : ℕ) → IsReadTo from most bytes reading → IsSliceOf (records_in bytes) from most read.0) }
    ensures mark { IfSome result (λ read. read.1 ≡ reading.behind) }
    ensures list { IfSome result (λ read. read.0.list ≡ reading.list) }
{
    let Reading {
        list,
        line: _,
        behind,
        next: _,
    } = reading;
    if behind.record < from {
        return None;
    }
    Some((Records { list, end: true }, behind))
}

// The records that were read, where one more stands behind them.
fn filled(reading: Reading) -> (Records, Mark)
    ensures records { (bytes : List ℕ) (from most : ℕ) → HasFilled from most bytes reading → IsSliceOf (records_in bytes) from most result.0 }
    ensures mark { result.1 ≡ reading.behind }
    ensures list { result.0.list ≡ reading.list }
{
    let Reading {
        list,
        line: _,
        behind,
        next: _,
    } = reading;
    (Records { list, end: false }, behind)
}

fn ends_before() -> Trouble {
    Trouble::of("reading", "it ends before the record that is asked for")
}

// Whether a line feed stands before a place of a file, or nothing does.
fn is_front<G: GrowingFiles>(
    files: &mut G,
    alloc: Global,
    partition: &Partition,
    at: u64,
) -> Result<bool, Trouble>
    ensures { G.told files.new ≡ G.told files.old }
{
    match at.checked_sub(1) {
        Some(before) => {
            let byte = files.read(alloc, partition, before, 1)?;
            Ok(byte.as_slice().first() == Some(&b'\n'))
        }
        None => Ok(true),
    }
}

/// So many records of a partition's file from `from` on, and the place behind them, where so many bytes of it count. The start is that
/// of a record that is not behind `from`. A file that ends before the record `from` is a failure.
pub fn read_records<G: GrowingFiles>(
    files: &mut G,
    alloc: Global,
    partition: &Partition,
    size: u64,
    start: Mark,
    from: u64,
    most: u64,
) -> Result<(Records, Mark), Trouble>
    requires size { IfSome (G.told files.old) (λ told. size ≡ length (bytes_of told partition.now)) }
    requires start { IfSome (G.told files.old) (λ told. IsMark (bytes_of told partition.now) start) }
    requires before { start.record ≤ from }
    ensures same { G.told files.new ≡ G.told files.old }
    ensures records { IfOk result (λ read. IfSome (G.told files.old) (λ told. IsSliceOf (records_in (bytes_of told partition.now)) from most read.0)) }
    ensures mark { IfOk result (λ read. IfSome (G.told files.old) (λ told. IsMark (bytes_of told partition.now) read.1)) }
    ensures few { IfOk result (λ read. length read.0.list ≤ most) }
{
    if !is_front(files, alloc, partition, start.byte)? {
        return Err(ends_before());
    }
    let mut reading = Reading::from(alloc, start);
    for _ in 0..u64::MAX {
        if reading.next >= size {
            break;
        }
        let len = PIECE.min(size - reading.next);
        let piece = files.read(alloc, partition, reading.next, len)?;
        if piece.is_empty() {
            return Err(ends_before());
        }
        if reading.take(alloc, piece.as_slice(), from, most)? {
            return Ok(filled(reading));
        }
    }
    if reading.next < size {
        return Err(ends_before());
    }
    match ended(reading, from) {
        Some(read) => Ok(read),
        None => Err(ends_before()),
    }
}

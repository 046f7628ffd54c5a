//! The lines of an input, within the limits.

ghost use Rattle.std.specs.Prelude.{◌≡◌, ◌<◌, ◌≤◌, ◌+◌, true, false, IfOk, IfErr, MatchResult, IsErr, IsOkAnd, Some, ℕ, [], List, ◌++◌, vec_len, length, take, drop};
ghost use Rattle.byte_fields.specs.Causes.{HasCause};
ghost use Rattle.input_lines.specs.Reading.{max_line, max_input};
ghost use Rattle.input_lines.specs.Pieces.{GoesOn, IsLine, IsFed, IsFault, EndsWith, Splits, Takes, Comes};

use byte_fields::{Failed, Source};
use std::alloc::{AllocError, Global};

pub const MAX_INPUT: u64 = 1_073_741_824;

pub const MAX_LINE: u64 = 2_097_152;

const CHUNK: usize = 65_536;

/// What comes next of an input.
#[derive(Clone, Copy)]
pub enum Next {
    /// A line with its line feed.
    Line,
    /// A line without one. The input told its end behind it, so nothing more is read.
    Last,
    /// The input was read to its end.
    End,
    /// The line is too long.
    LineOver,
    /// The input is too long.
    InputOver,
    /// The input failed.
    Fault,
}

/// Reads an input line by line. A line ends with a line feed, which the last may lack.
#[derive(Drop)]
pub struct Lines {
    chunk: Vec<u8>,
    // What is left of the chunk.
    from: usize,
    to: usize,
    // How many bytes of the input were taken.
    taken: u64,
    line: Vec<u8>,
    ghost order: { from ≤ to },
    ghost within: { to ≤ vec_len chunk },
    ghost room: { 0 < vec_len chunk },
    ghost limit: { taken ≤ 1073741824 },
}

impl Lines {
    ghost use Rattle.input_lines.specs.Held.{held};

    pub fn start(alloc: Global) -> Result<Lines, AllocError>
        ensures taken { IfOk result (λ lines. lines.taken ≡ 0) }
        ensures held { IfOk result (λ lines. held lines ≡ []) }
    {
        let mut chunk = Vec::new(alloc);
        chunk.resize(CHUNK, 0)?;
        Ok(Lines {
            chunk,
            from: 0,
            to: 0,
            taken: 0,
            line: Vec::new(alloc),
        })
    }

    /// The line that came last, without its line feed.
    pub fn line(&self) -> &[u8]
        ensures { result.now ≡ self.now.line.items }
    {
        self.line.as_slice()
    }
}

// What a piece of the input did to the line.
#[derive(Clone, Copy)]
enum Taken {
    More,
    Whole,
    LineOver,
    InputOver,
}

// How many bytes of the piece are the line's, and whether its line feed stands behind them.
fn front_of(piece: &[u8]) -> (usize, bool)
    requires { 0 < length piece.now }
    ensures within { result.0 ≤ length piece.now }
    ensures splits { Splits piece.now result.0 result.1 }
{
    for (i, byte) in piece.iter().enumerate() {
        if *byte == b'\n' {
            return (i, true);
        }
    }
    (piece.len(), false)
}

// Takes the front of a piece onto the line, behind so many bytes of the input. Gives how many bytes were taken.
fn take_piece(line: &mut Vec<u8>, piece: &[u8], before: u64) -> Result<(Taken, usize), AllocError>
    requires some { 0 < length piece.now }
    requires limit { before ≤ 1073741824 }
    ensures within { IfOk result (λ x. x.1 ≤ length piece.now) }
    ensures limit { IfOk result (λ x. before + x.1 ≤ 1073741824) }
    ensures goes_on { IfOk result (λ x. GoesOn x.0 → 0 < x.1) }
    ensures takes { length line.old.items ≤ max_line → IfOk result (λ x. Takes x.0 before x.1 piece.now line.old.items line.new.items) }
{
    let (len, has_feed) = front_of(piece);
    let total = if has_feed { len + 1 } else { len };
    let room = MAX_INPUT - before;
    let line_room = MAX_LINE.saturating_sub(line.len() as u64);
    if line_room < len as u64 && line_room <= room {
        return Ok((Taken::LineOver, 0));
    }
    if room < total as u64 {
        return Ok((Taken::InputOver, 0));
    }
    line.extend_from_slice(&piece[..len])?;
    if has_feed {
        return Ok((Taken::Whole, total));
    }
    Ok((Taken::More, total))
}

impl Lines {
    ghost use Rattle.input_lines.specs.Held.{held};

    // Reads the next chunk. Gives how many bytes it has, 0 at the end.
    fn refill<R: Source>(&mut self, input: &mut R) -> Result<usize, Failed>
        ensures taken { self.new.taken ≡ self.old.taken }
        ensures line { self.new.line ≡ self.old.line }
        ensures left { IfOk result (λ count. self.new.to ≡ self.new.from + count) }
        ensures kept { IfErr result (λ _. (self.new.from ≡ self.old.from) × (self.new.to ≡ self.old.to)) }
        ensures reads { (more : List ℕ) → R.left input.old ≡ Some more → MatchResult result
            (λ count. (behind : List ℕ) × (R.left input.new ≡ Some behind)
            × (more ≡ held self.new ++ behind) × (count ≡ 0 → more ≡ []))
            (λ _. R.left input.new ≡ Some more) }
        ensures cause { HasCause (R.fault_count input.old) (R.fault_count input.new) (IsErr result) }
    {
        let count = input.read(self.chunk.as_mut_slice())?;
        self.from = 0;
        self.to = count;
        Ok(count)
    }

    // Reads the next chunk where nothing is left of the last one. Says whether there is more.
    fn fill<R: Source>(&mut self, input: &mut R) -> Result<bool, Failed>
        ensures taken { self.new.taken ≡ self.old.taken }
        ensures line { self.new.line ≡ self.old.line }
        ensures some { IfOk result (λ some. some ≡ true → self.new.from < self.new.to) }
        // Where the input failed nothing was left of the last chunk, and nothing is.
        ensures failed { IfErr result (λ _. (held self.old ≡ []) × (held self.new ≡ [])) }
        ensures stays { (more : List ℕ) → R.left input.old ≡ Some more → IfErr result (λ _. R.left input.new ≡ Some more) }
        ensures reads { (more : List ℕ) → R.left input.old ≡ Some more → (behind : List ℕ) × (R.left input.new ≡ Some behind)
            × IfOk result (λ some. (held self.old ++ more
            ≡ held self.new ++ behind)
            × (some ≡ false → held self.new ++ behind ≡ [])) }
        ensures cause { HasCause (R.fault_count input.old) (R.fault_count input.new) (IsErr result) }
    {
        if self.from < self.to {
            return Ok(true);
        }
        Ok(self.refill(input)? > 0)
    }

    fn take(&mut self) -> Result<Taken, AllocError>
        requires { self.old.from < self.old.to }
        ensures goes_on { IfOk result (λ taken. GoesOn taken → self.old.taken < self.new.taken) }
        ensures kept { (self.new.chunk ≡ self.old.chunk) × (self.new.to ≡ self.old.to) }
        ensures takes { IfOk result (λ taken. (count : ℕ) × (self.new.from ≡ self.old.from + count) × (self.new.taken ≡ self.old.taken + count)
            × (length self.old.line.items ≤ max_line →
            Takes taken self.old.taken count (held self.old) self.old.line.items self.new.line.items)) }
    {
        let (taken, count) = take_piece(
            &mut self.line,
            &self.chunk[self.from..self.to],
            self.taken,
        )?;
        self.from += count;
        self.taken += count as u64;
        Ok(taken)
    }

    /// What comes next. Where it is a line, `line` gives it.
    pub fn next<R: Source>(&mut self, input: &mut R) -> Result<Next, AllocError>
        ensures moves { IfOk result (λ next. IsLine next → self.old.taken < self.new.taken) }
        ensures comes { (more : List ℕ) → R.left input.old ≡ Some more → IfOk result (λ next. (behind : List ℕ) × (R.left input.new ≡ Some behind)
            × Comes next self.old.taken (held self.old ++ more)
            self.new.line.items self.new.taken (held self.new ++ behind)) }
        // Over every input: a line that is not the last one came with its line feed.
        ensures fed { IfOk result (λ next. IsFed next → self.new.taken ≡ self.old.taken + length self.new.line.items + 1) }
        ensures none { IfOk result (λ next. IsFault next → held self.new ≡ []) }
        ensures cause { HasCause (R.fault_count input.old) (R.fault_count input.new) (IsOkAnd result IsFault) }
    {
        self.line.clear();
        let before = self.taken;
        'pieces: loop {
            match self.fill(input) {
                Ok(true) => {}
                Ok(false) => return Ok(last(before, self.taken)),
                Err(_) => return Ok(Next::Fault),
            }
            match self.take()? {
                Taken::More => {}
                Taken::Whole => return Ok(Next::Line),
                Taken::LineOver => return Ok(Next::LineOver),
                Taken::InputOver => return Ok(Next::InputOver),
            }
        }
    }
}

// What comes at the end of the input, of which so many bytes were taken before the line and so many are now.
fn last(before: u64, taken: u64) -> Next
    ensures { EndsWith result before taken }
{
    if before < taken {
        return Next::Last;
    }
    Next::End
}

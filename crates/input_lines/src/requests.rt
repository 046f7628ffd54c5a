//! The requests of an input, all of them before any is answered.

ghost use Rattle.std.specs.Prelude.{◌≡◌, ◌+◌, ℕ, List, [], Some, None, IfOk, IsOkAnd, length};
ghost use Rattle.byte_fields.specs.Causes.{HasCause};
ghost use Rattle.input_lines.specs.Asking.{AreClients, EndsByFault, GoesOrEnds, HasRoom, IsGoing, TakesLine, or_whole};
ghost use Rattle.input_lines.specs.Held.{held as in_hand};
ghost use Rattle.input_lines.specs.Request.{Asks};
ghost use Rattle.input_lines.specs.Requests.{HasRead, IsFault, Reads};
ghost use Rattle.input_lines.specs.declared.requests.ReadEnd.{ReadEnd as End};
ghost use Rattle.run_plan.specs.declared.clients.Request.{Request as Asked};
ghost use Rattle.run_plan.specs.declared.clients.Request.{Request as Line};

use crate::lines::{Lines, Next};
use crate::request::{LineError, read_request};
use byte_fields::{Client, Source};
use run_plan::Request;
use std::alloc::{AllocError, Global};
use std::collections::BTreeSet;

/// How many requests an input may have.
pub const MAX_REQUESTS: usize = 1_000_000;

/// How many clients an input may name.
pub const MAX_CLIENTS: usize = 10_000;

/// How the reading of an input ends.
#[derive(Clone, Copy)]
pub enum ReadEnd {
    /// Each of its lines is a request.
    Whole,
    /// The line with this number, counted from 1, is none.
    BadLine(u64),
    RequestsOver,
    ClientsOver,
    LineOver,
    InputOver,
    /// The input failed.
    Fault,
}

// The requests that were read, and the names of their clients.
#[derive(Drop)]
struct Taken {
    requests: Vec<Request>,
    clients: BTreeSet<Client>,
}

impl Taken {
    fn vacant(alloc: Global) -> Taken
        ensures none { result.requests.items ≡ [] }
        ensures clients { AreClients result.clients.keys [] }
    {
        Taken {
            requests: Vec::new(alloc),
            clients: BTreeSet::new(alloc),
        }
    }

    // Why a client's request may not stand behind those before it, where it may not.
    fn refusal_of(&self, client: &Client) -> Option<ReadEnd>
        ensures room { AreClients self.now.clients.keys self.now.requests.items → (request : Line) → request.client ≡ client.now → HasRoom self.now.requests.items request result }
        ensures none { EndsByFault result → ⊥ }
    {
        if self.requests.len() >= MAX_REQUESTS {
            return Some(ReadEnd::RequestsOver);
        }
        if self.clients.len() >= MAX_CLIENTS && !self.clients.contains(client) {
            return Some(ReadEnd::ClientsOver);
        }
        None
    }

    // Takes the request that a line is. Gives how the reading ends, where it ends with this line.
    fn take(&mut self, alloc: Global, line: &[u8]) -> Result<Option<ReadEnd>, AllocError>
        ensures takes { AreClients self.old.clients.keys self.old.requests.items → IfOk result (λ end.
            TakesLine line.now self.old.requests.items self.new.requests.items end × AreClients self.new.clients.keys self.new.requests.items) }
        ensures none { IfOk result (λ end. EndsByFault end → ⊥) }
    {
        let request = match read_request(alloc, line) {
            Ok(request) => request,
            Err(LineError::BadLine) => {
                let number = self.requests.len() as u64 + 1;
                return Ok(Some(ReadEnd::BadLine(number)));
            }
            Err(LineError::Memory(refused)) => return Err(refused),
        };
        if let Some(refusal) = self.refusal_of(&request.client) {
            return Ok(Some(refusal));
        }
        self.clients.insert(request.client)?;
        self.requests.push(request)?;
        Ok(None)
    }
}

// Behind the last line all is read.
fn or_whole(end: Option<ReadEnd>) -> ReadEnd
    ensures { result ≡ or_whole end }
{
    end.unwrap_or(ReadEnd::Whole)
}

// Takes the next line of an input. Gives how the reading ends, where it ends here.
fn take_next<R: Source>(
    alloc: Global,
    lines: &mut Lines,
    taken: &mut Taken,
    input: &mut R,
) -> Result<Option<ReadEnd>, AllocError>
    // It goes on behind a line with its line feed alone.
    ensures moves { IfOk result (λ end. end ≡ None → lines.new.taken ≡ lines.old.taken + length lines.new.line.items + 1) }
    ensures cause { HasCause (R.fault_count input.old) (R.fault_count input.new) (IsOkAnd result EndsByFault) }
    ensures goes { (text : List ℕ) → IsGoing text (R.left input.old) (in_hand lines.old) lines.old.taken taken.old.requests.items taken.old.clients.keys →
        IfOk result (GoesOrEnds text (R.left input.new) (in_hand lines.new) lines.new.taken taken.new.requests.items taken.new.clients.keys) }
{
    match lines.next(input)? {
        Next::Line => taken.take(alloc, lines.line()),
        Next::Last => {
            let end = taken.take(alloc, lines.line())?;
            Ok(Some(or_whole(end)))
        }
        Next::End => Ok(Some(ReadEnd::Whole)),
        Next::LineOver => Ok(Some(ReadEnd::LineOver)),
        Next::InputOver => Ok(Some(ReadEnd::InputOver)),
        Next::Fault => Ok(Some(ReadEnd::Fault)),
    }
}

/// Reads an input to its end, or to the first line that is no request within the limits. Gives the requests before that.
pub fn read_requests<R: Source>(
    alloc: Global,
    input: &mut R,
) -> Result<(Vec<Request>, ReadEnd), AllocError>
    ensures reads { (text : List ℕ) → R.left input.old ≡ Some text → IfOk result (λ read. HasRead text (R.left input.new) read.0.items read.1) }
    ensures cause { HasCause (R.fault_count input.old) (R.fault_count input.new) (IsOkAnd result (λ read. IsFault read.1)) }
{
    let mut lines = Lines::start(alloc)?;
    let mut taken = Taken::vacant(alloc);
    'lines: loop {
        if let Some(end) = take_next(alloc, &mut lines, &mut taken, input)? {
            return Ok((taken.requests, end));
        }
    }
}

/// An input is read as requests in one way.
pub fn requests_are_read_in_one_way()
    ensures { (input : List ℕ) (ones others : List Asked) (end other : End) → (IsFault end → ⊥) → (IsFault other → ⊥) → Reads input ones end → Reads input others other → (ones ≡ others) × (end ≡ other) }
{}

//! How a call of `serve` ends, its status and its last line.

ghost use Rattle.std.specs.Prelude.{◌≡◌, ◌∷◌, [], IfOk, OnOk, decimal, codes};
ghost use Rattle.index_world.specs.Saying.{with_words};
ghost use Rattle.quick_node.specs.Ending.{opening_status as status_of_opening, making_status as status_of_making, ended_status, limit_words, cause_words, last_line};

use crate::creating::MAX_CONFIG;
use byte_fields::Bytes;
use index_world::{WorldError, put_fault, put_number, put_word};
use input_lines::{MAX_INPUT, MAX_LINE, MAX_REQUESTS};
use node_run::MAX_CLIENTS;
use std::alloc::{AllocError, Global};

/// The status of want of memory.
pub const NO_MEMORY: u8 = 11;

/// How a call ends.
#[derive(Drop)]
pub enum End {
    /// Every line was answered.
    Done,
    BadWords,
    /// The line with this number, counted from 1, is none.
    BadLine(u64),
    ClientsOver,
    LineOver,
    InputOver,
    RequestsOver,
    ConfigOver,
    /// The index was not opened.
    NotOpened(WorldError),
    /// It was not made.
    NotMade(WorldError),
    ReadFault,
    WriteFault,
    /// Want of memory.
    Memory,
}

fn opening_status(error: &WorldError) -> u8
    ensures { result ≡ status_of_opening error.now }
{
    match error {
        WorldError::Memory(_) => 11,
        WorldError::StoreFault { .. } => 4,
        WorldError::NoIndex => 8,
        _ => 7,
    }
}

fn making_status(error: &WorldError) -> u8
    ensures { result ≡ status_of_making error.now }
{
    match error {
        WorldError::Memory(_) => 11,
        WorldError::StoreFault { .. } => 4,
        WorldError::IndexExists => 9,
        WorldError::BadConfig(_) => 2,
        _ => 7,
    }
}

pub fn status_of(end: &End) -> u8
    ensures { result ≡ ended_status end.now }
{
    match end {
        End::Done => 0,
        End::BadWords => 1,
        End::BadLine(_) => 3,
        End::ClientsOver => 10,
        End::LineOver => 10,
        End::InputOver => 10,
        End::RequestsOver => 10,
        End::ConfigOver => 10,
        End::NotOpened(error) => opening_status(error),
        End::NotMade(error) => making_status(error),
        End::ReadFault => 5,
        End::WriteFault => 6,
        End::Memory => 11,
    }
}

fn put_limit(alloc: Global, out: &mut Bytes, name: &[u8], number: u64) -> Result<(), AllocError>
    ensures { OnOk result (out.new ≡ with_words out.old (limit_words name.now number)) }
{
    put_word(out, b"limit")?;
    put_word(out, name)?;
    put_number(alloc, out, number)
}

fn put_cause(alloc: Global, out: &mut Bytes, end: &End) -> Result<(), AllocError>
    ensures { OnOk result (out.new ≡ with_words out.old (cause_words end.now)) }
{
    match end {
        End::Done => Ok(()),
        End::BadWords => put_word(out, b"badwords"),
        End::BadLine(number) => {
            put_word(out, b"badline")?;
            put_number(alloc, out, *number)
        }
        End::ClientsOver => put_limit(alloc, out, b"clients", MAX_CLIENTS),
        End::LineOver => put_limit(alloc, out, b"line", MAX_LINE),
        End::InputOver => put_limit(alloc, out, b"input", MAX_INPUT),
        End::RequestsOver => put_limit(alloc, out, b"requests", MAX_REQUESTS as u64),
        End::ConfigOver => put_limit(alloc, out, b"config", MAX_CONFIG as u64),
        End::NotOpened(error) => put_fault(alloc, out, error),
        End::NotMade(error) => put_fault(alloc, out, error),
        End::ReadFault => put_word(out, b"readfault"),
        End::WriteFault => Ok(()),
        End::Memory => Ok(()),
    }
}

/// The last line, with its line feed; nothing with the statuses 0, 6 and 11.
pub fn print_end(alloc: Global, end: &End) -> Result<Bytes, AllocError>
    ensures { IfOk result (λ text. text ≡ last_line end.now) }
{
    let mut out = Bytes::vacant(alloc);
    let status = status_of(end);
    if status == 0 || status == 6 || status == 11 {
        return Ok(out);
    }
    put_word(&mut out, b"error")?;
    put_number(alloc, &mut out, u64::from(status))?;
    put_cause(alloc, &mut out, end)?;
    out.push(b'\n')?;
    Ok(out)
}

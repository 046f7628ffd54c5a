//! The standard streams.

ghost use Rattle.std.specs.Prelude.{◌<◌, None, IfOk, length};
ghost use Rattle.std.specs.Io.{ReadsAtMost, WritesAtMost};

use crate::faults::{Faults, Reason, Trouble};
use byte_fields::{Failed, Sink, Source};
use std::io::{self, ErrorKind, Read, Write};

// One read that no signal cut off.
fn read_some<R: Read>(reader: &mut R, buffer: &mut [u8]) -> io::Result<usize>
    ensures { ReadsAtMost result buffer.new }
{
    for _ in 0..u64::MAX {
        match reader.read(buffer) {
            Err(fault) if fault.kind() == ErrorKind::Interrupted => {}
            given => return given,
        }
    }
    Err(io::Error::from(ErrorKind::Interrupted))
}

// One write that no signal cut off, of some of a piece that is not empty.
fn write_some<W: Write>(writer: &mut W, piece: &[u8]) -> io::Result<usize>
    ensures bound { WritesAtMost result piece.now }
    ensures some { IfOk result (λ n. 0 < length piece.now → 0 < n) }
{
    for _ in 0..u64::MAX {
        match writer.write(piece) {
            Ok(count) if count > 0 || piece.is_empty() => return Ok(count),
            Ok(_) => return Err(io::Error::from(ErrorKind::WriteZero)),
            Err(fault) if fault.kind() == ErrorKind::Interrupted => {}
            Err(fault) => return Err(fault),
        }
    }
    Err(io::Error::from(ErrorKind::Interrupted))
}

/// What is read, with its count of faults. It tells nothing.
#[derive(Drop)]
pub struct StdSource<R: Read + Drop> {
    reader: R,
    faults: Faults,
}

impl<R: Read + Drop> StdSource<R> {
    pub fn over(reader: R) -> StdSource<R> {
        StdSource {
            reader,
            faults: Faults::without_path(),
        }
    }

    /// Why it failed first, if it did.
    pub fn first_reason(&self) -> Option<&Reason> {
        self.faults.first()
    }
}

impl<R: Read + Drop> Source for StdSource<R> {
    ghost left = { λ _. None };

    ghost fault_count = { λ s. s.faults.count };

    fn read(&mut self, buffer: &mut [u8]) -> Result<usize, Failed> {
        match read_some(&mut self.reader, buffer) {
            Ok(count) => Ok(count),
            Err(error) => {
                let doing = "reading the input";
                self.faults.add("", Trouble { doing, error });
                Err(Failed)
            }
        }
    }

    fn faults(&self) -> u64 {
        self.faults.count
    }
}

/// What is written to, with its count of faults. It tells nothing.
#[derive(Drop)]
pub struct StdSink<W: Write + Drop> {
    writer: W,
    faults: Faults,
}

impl<W: Write + Drop> StdSink<W> {
    pub fn over(writer: W) -> StdSink<W> {
        StdSink {
            writer,
            faults: Faults::without_path(),
        }
    }

    /// Why it failed first, if it did.
    pub fn first_reason(&self) -> Option<&Reason> {
        self.faults.first()
    }
}

impl<W: Write + Drop> Sink for StdSink<W> {
    ghost content = { λ _. None };

    ghost fault_count = { λ s. s.faults.count };

    fn write(&mut self, piece: &[u8]) -> Result<usize, Failed> {
        match write_some(&mut self.writer, piece) {
            Ok(count) => Ok(count),
            Err(error) => {
                let doing = "writing the output";
                self.faults.add("", Trouble { doing, error });
                Err(Failed)
            }
        }
    }

    fn faults(&self) -> u64 {
        self.faults.count
    }
}

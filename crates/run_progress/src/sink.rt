//! An output before which progress is ended.

ghost use Rattle.std.specs.Prelude.{◌≡◌};

use crate::Progress;
use byte_fields::{Failed, Sink};
use std::marker::Model;
use std::time::Clock;

/// A sink, which contracts see as the one to which it writes. Progress is finished before its first write, so that on a terminal
/// what is written begins a line.
#[derive(Drop)]
pub struct EndingSink<'a, W: Sink, R: Eprint + Clock> {
    sink: W,
    progress: &'a Progress<'a, R>,
}

impl<'a, W: Sink, R: Eprint + Clock> Model for EndingSink<'a, W, R> {
    ghost Value = { W };

    ghost coded = { W.code };

    ghost view = { λ it. it.sink };
}

impl<'a, W: Sink, R: Eprint + Clock> EndingSink<'a, W, R> {
    pub fn over(sink: W, progress: &'a Progress<'a, R>) -> EndingSink<'a, W, R>
        ensures { result ≡ sink }
    {
        EndingSink { sink, progress }
    }

    /// The sink to which it writes.
    pub fn sink(&self) -> &W
        ensures { result.now ≡ self.now }
    {
        &self.sink
    }
}

impl<'a, W: Sink, R: Eprint + Clock> Sink for EndingSink<'a, W, R> {
    ghost content = { W.content };

    ghost fault_count = { W.fault_count };

    fn write(&mut self, piece: &[u8]) -> Result<usize, Failed> {
        self.progress.finish();
        self.sink.write(piece)
    }

    fn faults(&self) -> u64 {
        self.sink.faults()
    }
}

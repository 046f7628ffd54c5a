//! A clock behind which progress is shown.

ghost use Rattle.std.specs.Prelude.{◌≡◌};

use crate::Progress;
use clock_time::Clock;
use std::marker::Model;
use std::time;

/// A clock, which contracts see as the one that it asks.
#[derive(Drop)]
pub struct ProgressClock<'a, C: Clock, R: Eprint + time::Clock> {
    clock: C,
    progress: &'a Progress<'a, R>,
}

impl<'a, C: Clock, R: Eprint + time::Clock> Model for ProgressClock<'a, C, R> {
    ghost Value = { C };

    ghost coded = { C.code };

    ghost view = { λ it. it.clock };
}

impl<'a, C: Clock, R: Eprint + time::Clock> ProgressClock<'a, C, R> {
    pub fn over(clock: C, progress: &'a Progress<'a, R>) -> ProgressClock<'a, C, R>
        ensures { result ≡ clock }
    {
        ProgressClock { clock, progress }
    }
}

impl<'a, C: Clock, R: Eprint + time::Clock> Clock for ProgressClock<'a, C, R> {
    ghost told = { C.told };

    fn now(&mut self) -> u64 {
        let moment = self.clock.now();
        self.progress.tick();
        moment
    }
}

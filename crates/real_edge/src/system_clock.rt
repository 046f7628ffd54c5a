//! The clock of the system.

ghost use Rattle.std.specs.Prelude.{◌<◌, ◌^◌, None};

use clock_time::{Clock, LAST_MOMENT};
use std::time::{self, SystemTime, UNIX_EPOCH};

/// The seconds since 1970 by the system. Where the system doesn't tell them, or stands before 1970, it gives the moment that
/// it gave last, from 0. It tells contracts nothing.
#[derive(Drop)]
pub struct SystemClock<'a, C: time::Clock> {
    system: &'a C,
    last: u64,
}

impl<'a, C: time::Clock> SystemClock<'a, C> {
    pub fn over(system: &'a C) -> SystemClock<'a, C> {
        SystemClock { system, last: 0 }
    }
}

impl<'a, C: time::Clock> Clock for SystemClock<'a, C> {
    ghost told = { λ _. None };

    fn now(&mut self) -> u64 {
        if let Ok(time) = SystemTime::now(self.system) {
            if let Ok(since) = time.duration_since(UNIX_EPOCH) {
                self.last = since.as_secs();
            }
        }
        self.last.min(LAST_MOMENT)
    }
}

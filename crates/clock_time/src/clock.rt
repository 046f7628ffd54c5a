ghost use Rattle.std.specs.Prelude.{◌≡◌, ◌<◌, ◌^◌, IfSome, IsSome};

use std::marker::Model;

/// Each moment is below it.
pub const MOMENT_END: u64 = 1 << 62;

/// The greatest moment that there is.
pub const LAST_MOMENT: u64 = (1 << 62) - 1;

/// A clock, which gives moments in whole seconds. It tells the moment that its next `now` gives, if contracts know it.
/// It never fails and takes no memory.
pub trait Clock: Drop {
    ghost use Rattle.std.specs.Prelude.{Option, ℕ};

    ghost told: { Self → Option ℕ };

    fn now(&mut self) -> u64
        ensures told { IfSome (told self.old) (λ moment. result ≡ moment) }
        ensures still_tells { IsSome (told self.old) → IsSome (told self.new) }
        ensures below { result < 2 ^ 62 };
}

/// A clock that gives the moment that it was set to, and stays as it is.
#[derive(Drop)]
pub struct ScriptClock {
    moment: u64,
}

impl Model for ScriptClock {
    ghost use Rattle.std.specs.Prelude.{ℕ, ◌<◌, ◌^◌};

    ghost Value = { ℕ };

    ghost view = { λ c. c.moment };

    ghost invariant = { λ c. c.moment < 2 ^ 62 };
}

impl ScriptClock {
    pub fn at(moment: u64) -> ScriptClock
        requires { moment < 2 ^ 62 }
        ensures { result ≡ moment }
    {
        ScriptClock { moment }
    }

    pub fn set(&mut self, moment: u64)
        requires { moment < 2 ^ 62 }
        ensures { self.new ≡ moment }
    {
        self.moment = moment;
    }
}

impl Clock for ScriptClock {
    ghost use Rattle.std.specs.Prelude.{Some};

    ghost told = { λ c. Some c };

    fn now(&mut self) -> u64
        ensures told { result ≡ self.old }
        ensures same { self.new ≡ self.old }
        ensures below { result < 2 ^ 62 }
    {
        self.moment
    }
}

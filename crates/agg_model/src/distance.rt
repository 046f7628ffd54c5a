//! How far apart whole numbers are.

ghost use Rattle.std.specs.Prelude.{◌≡◌, ◌<◌, ◌^◌, pos};
ghost use Rattle.std.specs.Int.RustNames.{unsigned_abs};

use std::marker::Model;

/// A whole number with a sign, of less than 2^96 in size: more than a request can name. Contracts see that number.
#[derive(Clone, Copy)]
pub struct Distance {
    held: i128,
}

impl Model for Distance {
    ghost use Rattle.std.specs.Prelude.{ℤ, ◌<◌, ◌^◌};
    ghost use Rattle.std.specs.Int.RustNames.{unsigned_abs};

    ghost Value = { ℤ };

    ghost view = { λ d. d.held };

    ghost invariant = { λ d. unsigned_abs d.held < 2 ^ 96 };

    ghost inverse = { λ z. record { held = z } };
}

impl Distance {
    pub fn new(whole: i128) -> Distance
        requires { unsigned_abs whole < 2 ^ 96 }
        ensures { result ≡ whole }
    {
        Distance { held: whole }
    }

    pub fn whole(self) -> i128
        ensures value { result ≡ self }
        ensures near { unsigned_abs result < 2 ^ 96 }
    {
        self.held
    }
}

impl From<i64> for Distance {
    ghost from_gives = { λ whole distance. distance ≡ whole };

    fn from(whole: i64) -> Distance {
        Distance {
            held: i128::from(whole),
        }
    }
}

impl From<u64> for Distance {
    ghost from_gives = { λ whole distance. distance ≡ pos whole };

    fn from(whole: u64) -> Distance {
        Distance {
            held: i128::from(whole),
        }
    }
}

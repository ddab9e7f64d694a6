//! When beats are due.
ghost use Rattle.std.specs.Prelude.{◌≡◌, ◌≤◌, pos};
ghost use Rattle.tdl_fraction.specs.Rational.{whole, ◌<ℚ◌};
ghost use Rattle.tdl_fraction.specs.Units.{last_units};

use std::marker::Model;
use std::time::Duration;
use tdl_fraction::{Frac, TICK_UNITS};

// A second in nanoseconds.
const SECOND: u128 = 1_000_000_000;

// How many cycles go by in a second, which is more than none.
#[derive(Drop)]
pub(crate) struct Speed {
    cps: Frac,
}

impl Model for Speed {
    ghost use Rattle.std.specs.Prelude.{pos};
    ghost use Rattle.tdl_fraction.specs.Rational.{Rational, whole, ◌<ℚ◌};

    ghost Value = { Rational };

    ghost view = { λ s. s.cps };

    ghost invariant = { λ s. whole (pos 0) <ℚ s.cps };
}

impl Speed {
    pub(crate) fn of(cps: Frac) -> Speed
        requires { whole (pos 0) <ℚ cps }
        ensures { result ≡ cps }
    {
        Speed { cps }
    }

    // How long after cycle 0 a time in tick units comes.
    pub(crate) fn time_of(&self, units: u64) -> Duration
        requires { units ≤ last_units }
    {
        let scaled = u128::from(units) * u128::from(self.cps.denominator()) * SECOND;
        let nanos = scaled / (u128::from(TICK_UNITS) * self.cps.numerator().unsigned_abs());
        let seconds = u64::try_from(nanos / SECOND).unwrap_or(u64::MAX);
        Duration::new(seconds, (nanos % SECOND) as u32)
    }
}

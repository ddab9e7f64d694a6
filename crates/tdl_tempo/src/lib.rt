//! The tempo, and what times and lengths in cycles come to on a wire: OSC time tags and
//! microseconds.
#![tactic(auto)]

ghost use Rattle.std.specs.Prelude.{◌≡◌, ◌↔◌, ℕ, ◌*◌, ◌^◌, ◌≤◌, pos, IsTrue, IsSome, IfSome, unsigned_abs};
ghost use Rattle.tdl_fraction.specs.Rational.{whole, ◌*ℚ◌, ◌/ℚ◌, ◌≤ℚ◌, ◌<ℚ◌, floor};
ghost use Rattle.tdl_tempo.specs.Tempo.{IsCps, timetag, micros, max_part};

use std::marker::Model;
use tdl_fraction::Frac;

const MAX_PART: u64 = 65_535;

const SECOND_UNITS: u64 = 1 << 32;

const TIMETAG_MODULUS: u128 = 1 << 64;

const SECOND_MICROS: u64 = 1_000_000;

/// How fast cycles go by, in cycles a second, and the second since 1900-01-01 at which cycle 0
/// begins.
#[derive(Clone, Copy)]
pub struct Tempo {
    cps: Frac,
    origin: u32,
}

impl Model for Tempo {
    ghost use Rattle.tdl_tempo.specs.Tempo.{Pace, IsCps};

    ghost Value = { Pace };

    ghost view = { λ t. record { cps = t.cps; origin = t.origin } };

    ghost invariant = { λ t. IsCps t.cps };

    ghost inverse = { λ t. record { cps = t.cps; origin = t.origin } };
}

impl Tempo {
    /// The tempo of so many cycles a second, from a second on. None where `cps` is not above 0, or
    /// its numerator or its denominator is above 65,535.
    pub fn of(cps: Frac, origin: u32) -> Option<Tempo>
        ensures found { IsSome result ↔ IsCps cps }
        ensures value { IfSome result (λ t. (t.cps ≡ cps) × (t.origin ≡ origin)) }
    {
        if is_cps(cps) {
            Some(Tempo { cps, origin })
        } else {
            None
        }
    }

    /// Cycles a second.
    pub fn cps(self) -> Frac
        ensures value { result ≡ self.cps }
        ensures allowed { IsCps result }
    {
        self.cps
    }

    /// The second since 1900-01-01 at which cycle 0 begins.
    pub fn origin(self) -> u32
        ensures { result ≡ self.origin }
    {
        self.origin
    }

    /// The OSC 1.0 time tag of a time in cycles: seconds since 1900-01-01 in the upper 32 bits, and
    /// 2^32 parts to the second, rounded down. It goes on from 0 where the upper bits are full.
    pub fn timetag(self, at: Frac) -> u64
        requires from_zero { whole (pos 0) ≤ℚ at }
        requires to_last { at ≤ℚ whole (pos (2 ^ 20)) }
        ensures { pos result ≡ timetag self at }
    {
        let start = self.origin as u128 * SECOND_UNITS as u128;
        ((start + scaled(at, SECOND_UNITS, self.cps)) % TIMETAG_MODULUS) as u64
    }

    /// A length in cycles as microseconds, rounded down, and 2^31 - 1 where it is more.
    pub fn micros(self, length: Frac) -> i32
        requires { whole (pos 0) <ℚ length }
        ensures { result ≡ micros self length }
    {
        let exact = scaled(length, SECOND_MICROS, self.cps);
        if exact < i32::MAX as u128 {
            exact as i32
        } else {
            i32::MAX
        }
    }
}

// Whether a tempo may have so many cycles a second.
fn is_cps(cps: Frac) -> bool
    ensures { IsTrue result ↔ IsCps cps }
{
    Frac::whole(0).is_less(cps) && has_short_parts(cps)
}

fn has_short_parts(number: Frac) -> bool
    ensures { IsTrue result ↔ ((unsigned_abs number.num ≤ max_part) × (number.den ≤ max_part)) }
{
    number.numerator().unsigned_abs() <= MAX_PART as u128 && number.denominator() <= MAX_PART
}

// A time from 0 on as seconds, at `scale` parts to the second, rounded down.
fn scaled(time: Frac, scale: u64, cps: Frac) -> u128
    requires from_zero { whole (pos 0) ≤ℚ time }
    requires fine { scale ≤ 2 ^ 32 }
    requires allowed { IsCps cps }
    ensures value { pos result ≡ floor (time *ℚ whole (pos scale) /ℚ cps) }
    ensures bound { result ≤ 2 ^ 112 * max_part }
{
    let above = time.numerator().unsigned_abs() * scale as u128 * cps.denominator() as u128;
    let below = time.denominator() as u128 * cps.numerator().unsigned_abs();
    above / below
}

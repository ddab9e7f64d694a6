ghost use Rattle.std.specs.Prelude.{◌≡◌, ◌<◌, ◌≤◌, ◌^◌, pos, ◌+ℤ◌, ◌-ℤ◌, ◌≤ℤ◌, nat_abs};
ghost use Rattle.tdl_fraction.specs.Rational.{whole, floor, ceil};
ghost use Rattle.tdl_meaning.specs.Pattern.{cycle_arc, rounds, turn};
ghost use Rattle.tdl_meaning.specs.Values.{meets};

use std::marker::Model;
use tdl_expr::Test;
use tdl_fraction::{Frac, TimeArc};

/// A whole cycle, by its number: the times from the number up to the next one.
#[derive(Clone, Copy, Debug)]
pub struct Cycle {
    number: i64,
}

impl Model for Cycle {
    ghost use Rattle.std.specs.Prelude.{ℤ, ◌≤◌, ◌^◌, nat_abs};

    ghost Value = { ℤ };

    ghost view = { λ c. c.number };

    ghost invariant = { λ c. nat_abs c.number ≤ 2 ^ 36 };

    ghost inverse = { λ z. record { number = z } };
}

impl Cycle {
    /// The cycle in which the time is.
    pub fn of(time: Frac) -> Cycle
        ensures { result ≡ floor time }
    {
        Cycle {
            number: time.floor(),
        }
    }

    /// The cycle of this number.
    pub fn numbered(number: i64) -> Cycle
        requires { nat_abs number ≤ 2 ^ 36 }
        ensures { result ≡ number }
    {
        Cycle { number }
    }

    /// The first cycle that does not begin before the time.
    pub fn not_before(time: Frac) -> Cycle
        ensures { result ≡ ceil time }
    {
        Cycle {
            number: time.ceil(),
        }
    }

    /// The cycle's number.
    pub fn number(self) -> i64
        ensures value { result ≡ self }
        ensures bound { nat_abs result ≤ 2 ^ 36 }
    {
        self.number
    }

    /// The time at which the cycle begins.
    pub fn start(self) -> Frac
        ensures { result ≡ whole self }
    {
        Frac::whole(self.number)
    }

    /// The time from its start up to the next cycle.
    pub fn arc(self) -> TimeArc
        requires { nat_abs (self +ℤ pos 1) ≤ 2 ^ 36 }
        ensures { result ≡ cycle_arc self }
    {
        TimeArc::of(self.start(), self.later(1).start()).unwrap()
    }

    /// The cycle that is so many later.
    pub fn later(self, count: usize) -> Cycle
        requires { nat_abs (self +ℤ pos count) ≤ 2 ^ 36 }
        ensures { result ≡ self +ℤ pos count }
    {
        Cycle {
            number: self.number + count as i64,
        }
    }

    /// How many cycles there are from this one up to the other.
    pub fn count_to(self, stop: Cycle) -> usize
        requires { self ≤ℤ stop }
        ensures { self +ℤ pos result ≡ stop }
    {
        (stop.number - self.number) as usize
    }

    /// How many cycles this one is after the other.
    pub fn since(self, other: Cycle) -> i64
        ensures { result ≡ self -ℤ other }
    {
        self.number - other.number
    }

    /// How often so many patterns went round before this cycle, which is the cycle that each has then.
    pub fn rounds(self, patterns: usize) -> Cycle
        requires some { 0 < patterns }
        requires few { patterns ≤ 2 ^ 32 }
        ensures { result ≡ rounds self patterns }
    {
        Cycle {
            number: self.number.div_euclid(patterns as i64),
        }
    }

    /// Which of so many patterns has its turn in this cycle, from 0.
    pub fn turn(self, patterns: usize) -> usize
        requires some { 0 < patterns }
        requires few { patterns ≤ 2 ^ 32 }
        ensures turn { result ≡ turn self patterns }
        ensures within { result < patterns }
    {
        self.number.rem_euclid(patterns as i64) as usize
    }

    /// Whether the cycles that have passed before it in its round, of so many cycles, meet the test.
    pub fn meets(self, test: Test, modulus: u32) -> bool
        requires { 0 < modulus }
        ensures { result ≡ meets test (turn self modulus) }
    {
        let passed = self.turn(modulus as usize);
        match test {
            Test::Equal(count) => passed == count as usize,
            Test::AtLeast(count) => passed >= count as usize,
        }
    }
}

ghost use Rattle.std.specs.Prelude.{◌≡◌, ◌<◌, ◌≤◌, ◌^◌, pos, ◌+ℤ◌, ◌-ℤ◌, ◌*ℤ◌, nat_abs};
ghost use Rattle.tdl_fraction.specs.Rational.{whole, ◌*ℚ◌, floor, ceil};

use tdl_fraction::Frac;
use tdl_meaning::Cycle;

/// So many cycles as a count of the unit.
pub fn count_of(cycles: i64, unit: u128) -> i128
    requires few { nat_abs cycles ≤ 2 ^ 38 }
    requires small { unit ≤ 2 ^ 88 }
    ensures value { result ≡ cycles *ℤ pos unit }
    ensures bound { nat_abs result ≤ 2 ^ 126 }
{
    cycles as i128 * unit as i128
}

/// What the counts of a cycle are taken from where it is turned round: its start and its stop together.
pub fn count_turned(cycle: Cycle, unit: u128) -> i128
    requires { unit ≤ 2 ^ 88 }
    ensures value { result ≡ (cycle +ℤ cycle +ℤ pos 1) *ℤ pos unit }
    ensures bound { nat_abs result ≤ 2 ^ 126 }
{
    count_of(2 * cycle.number() + 1, unit)
}

/// The first count of the unit that is not before the time.
pub fn count_from(time: Frac, unit: u128) -> i128
    requires positive { 0 < unit }
    requires small { unit ≤ 2 ^ 88 }
    ensures value { result ≡ ceil (time *ℚ whole (pos unit)) }
    ensures bound { nat_abs result ≤ 2 ^ 124 }
{
    let parts = time.denominator() as u128;
    let rest = rest_of(time);
    let begun = rest * (unit / parts) + (rest * (unit % parts)).div_ceil(parts);
    count_of(time.floor(), unit) + begun as i128
}

// The numerator of what is left of the time after the cycles that it has.
fn rest_of(time: Frac) -> u128
    ensures value { pos result ≡ time.num -ℤ floor time *ℤ pos time.den }
    ensures below { result < time.den }
{
    time.numerator()
        .rem_euclid(time.denominator() as i128)
        .unsigned_abs()
}

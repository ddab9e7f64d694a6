ghost use Rattle.std.specs.Prelude.{◌≡◌, ℕ, ◌<◌, ◌≤◌, ◌*◌, ◌^◌, pos, ◌*ℤ◌, nat_abs};
ghost use Rattle.std.specs.Int.{◌∣◌};
ghost use Rattle.tdl_fraction.specs.Rational.{frac, whole, ◌<ℚ◌, floor, ceil};
ghost use Rattle.tdl_fraction.specs.Range.{InRange};
ghost use Rattle.tdl_grid.specs.inside.Rates.{IsRateOf};

use tdl_fraction::Frac;
use tdl_meaning::Cycle;

/// The unit of a child at a rate: a count of it is what a count of the unit is after the rate.
pub(crate) fn unit_at_rate(unit: u128, rate: Frac) -> u128
    requires { IsRateOf rate unit }
    ensures { (p : ℕ) → rate.num ≡ pos p → result * p ≡ unit * rate.den }
{
    unit / rate.numerator().unsigned_abs() * rate.denominator() as u128
}

/// A time as a count of a unit that its denominator divides.
pub(crate) fn count_at(time: Frac, unit: u128) -> i128
    requires divides { time.den ∣ unit }
    requires positive { 0 < unit }
    requires small { unit ≤ 2 ^ 88 }
    ensures value { (x : ℕ) → x * time.den ≡ unit → result ≡ time.num *ℤ pos x }
    ensures bound { nat_abs result ≤ 2 ^ 126 }
{
    time.numerator() * (unit / time.denominator() as u128) as i128
}

/// The cycle in which the count is.
pub(crate) fn cycle_of(count: i128, unit: u128) -> Cycle
    requires positive { 0 < unit }
    requires small { unit ≤ 2 ^ 88 }
    requires in_range { InRange (frac count unit) }
    ensures { result ≡ floor (frac count unit) }
{
    Cycle::numbered(count.div_euclid(unit as i128) as i64)
}

/// The first cycle that does not begin before the count.
pub(crate) fn cycle_not_before(count: i128, unit: u128) -> Cycle
    requires positive { 0 < unit }
    requires small { unit ≤ 2 ^ 88 }
    requires in_range { InRange (frac count unit) }
    ensures { result ≡ ceil (frac count unit) }
{
    Cycle::numbered(-(-count).div_euclid(unit as i128) as i64)
}

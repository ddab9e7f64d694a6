// Fractions that are known to be in range.
ghost use Rattle.std.specs.Prelude.{◌≡◌, ◌≢◌, ◌<◌, pos};
ghost use Rattle.tdl_fraction.specs.Range.{InRange};
ghost use Rattle.tdl_fraction.specs.Rational.{frac, whole, inverse, neg_ℚ};
ghost use Rattle.tdl_rows.specs.Arguments.{HasBoundedParts};

use tdl_fraction::Frac;

/// A fraction that is in range.
pub fn fraction(num: i128, den: u64) -> Frac
    requires positive { 0 < den }
    requires in_range { InRange (frac num den) }
    ensures { result ≡ frac num den }
{
    Frac::of(num, den).unwrap()
}

/// The number below 0 for one above it, and the other way round.
pub fn negative(number: Frac) -> Frac
    ensures { result ≡ neg_ℚ number }
{
    fraction(-number.numerator(), number.denominator())
}

/// One over a bounded number that is not 0.
pub fn inverse(number: Frac) -> Frac
    requires bounded { HasBoundedParts number }
    requires divides { number ≢ whole (pos 0) }
    ensures { result ≡ inverse number }
{
    let above = number.numerator();
    let below = i128::from(number.denominator());
    let size = above.unsigned_abs() as u64;
    if above < 0 {
        fraction(-below, size)
    } else {
        fraction(below, size)
    }
}

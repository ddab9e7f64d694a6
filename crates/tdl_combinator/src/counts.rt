// Whole numbers of fractions with bounded parts.
ghost use Rattle.std.specs.Prelude.{◌≡◌, ◌≤◌, ◌^◌, nat_abs};
ghost use Rattle.tdl_rows.specs.Arguments.{HasBoundedParts};
ghost use Rattle.tdl_combinator.specs.Makings.{from_zero};

use tdl_fraction::Frac;

/// The size of a number above the line.
pub(crate) fn size(number: Frac) -> u32
    requires { HasBoundedParts number }
    ensures value { result ≡ nat_abs number.num }
    ensures few { result ≤ 2 ^ 30 }
{
    number.numerator().unsigned_abs() as u32
}

/// The same, where what is below 0 counts as 0.
pub(crate) fn from_zero(number: Frac) -> u32
    requires { HasBoundedParts number }
    ensures { result ≡ from_zero number.num }
{
    if number.numerator() < 0 {
        return 0;
    }
    size(number)
}

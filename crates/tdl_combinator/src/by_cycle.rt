// The rounds in which functions are applied: in none, the function is not applied.
ghost use Rattle.std.specs.Prelude.{◌≡◌, ◌<◌, IfSome};
ghost use Rattle.tdl_rows.specs.Arguments.{HasBoundedParts};
ghost use Rattle.tdl_combinator.specs.Makings.{every_round, every_at_round, when_mod_round};

use crate::counts::{from_zero, size};
use tdl_expr::Test;
use tdl_fraction::Frac;

/// How many cycles a round has, and those in which a function is applied.
#[derive(Clone, Copy, PartialEq, Eq)]
pub struct Round {
    pub modulus: u32,
    pub test: Test,
}

// The first of so many cycles.
pub(crate) fn every_round(count: Frac) -> Option<Round>
    requires { HasBoundedParts count }
    ensures is { result ≡ every_round count.num }
    ensures some { IfSome result (λ round. 0 < round.modulus) }
{
    if count.numerator() <= 0 {
        return None;
    }
    let modulus = size(count);
    let test = Test::Equal(0);
    Some(Round { modulus, test })
}

// One of so many cycles.
pub(crate) fn every_at_round(count: Frac, place: Frac) -> Option<Round>
    requires count { HasBoundedParts count }
    requires place { HasBoundedParts place }
    ensures is { result ≡ every_at_round count.num place.num }
    ensures some { IfSome result (λ round. 0 < round.modulus) }
{
    let at = place.numerator();
    if at < 0 || at >= count.numerator() {
        return None;
    }
    let modulus = size(count);
    let test = Test::Equal(size(place));
    Some(Round { modulus, test })
}

// The last of so many cycles, from one of them on.
pub(crate) fn when_mod_round(count: Frac, from: Frac) -> Option<Round>
    requires count { HasBoundedParts count }
    requires from { HasBoundedParts from }
    ensures is { result ≡ when_mod_round count.num from.num }
    ensures some { IfSome result (λ round. 0 < round.modulus) }
{
    if count.numerator() <= 0 {
        return None;
    }
    let modulus = size(count);
    let test = Test::AtLeast(from_zero(from));
    Some(Round { modulus, test })
}

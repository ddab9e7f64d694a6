// The rules on numbers.
ghost use Rattle.std.specs.Prelude.{◌≡◌, ◌<◌, ◌≤◌, ◌*◌, ◌^◌, nat_lt, unsigned_abs, is_some, IfSome};
ghost use Rattle.tdl_fraction.specs.Rational.{frac};
ghost use Rattle.tdl_mini_tree.specs.Numbers.{is_whole, is_decimal_tail, divides_tail, weight_parts, number_value, is_ratio, is_count, is_weight};
ghost use Rattle.tdl_mini_tree.specs.Values.{integer_of};
ghost use Rattle.tdl_mini_tree.specs.Sizes.{range_length};

use crate::leaves::{Number, Tail};
use crate::limits::{MAX_COUNT, MAX_RATIO, MAX_WEIGHT, UNIT};
use tdl_fraction::Frac;

impl Number {
    /// Whether it has no `.` and no `%`.
    pub fn is_whole(self) -> bool
        ensures { result ≡ is_whole self }
    {
        matches!(self.tail, Tail::Whole)
    }

    /// How many ten-thousandths it is, its sign and its `%` left out.
    pub fn weight_parts(self) -> u64
        ensures value { result ≡ weight_parts self }
        ensures small { result < 2 ^ 47 }
    {
        let parts = match self.tail {
            Tail::Decimals(parts) => parts,
            Tail::Whole | Tail::Over(_) => 0,
        };
        u64::from(self.whole) * UNIT + u64::from(parts)
    }

    /// What it is before its `.` or `%`, with its sign.
    pub fn integer(self) -> i64
        ensures value { result ≡ integer_of self }
        ensures small { unsigned_abs result < 2 ^ 32 }
    {
        let whole = i64::from(self.whole);
        if self.is_negative { -whole } else { whole }
    }

    /// How many whole numbers there are from this one to another.
    pub fn range_length(self, last: Number) -> u64
        ensures value { result ≡ range_length self last }
        ensures small { result < 2 ^ 34 }
    {
        (last.integer() - self.integer()).unsigned_abs() + 1
    }

    /// The number that it writes; none where its denominator is zero.
    pub fn value(self) -> Option<Frac>
        ensures found { is_some result ≡ divides_tail self.tail }
        ensures value { IfSome result (λ x. x ≡ number_value self) }
    {
        let integer = i128::from(self.integer());
        match self.tail {
            Tail::Whole => quotient(integer, 1),
            Tail::Decimals(_) => {
                let parts = i128::from(self.weight_parts());
                let above = if self.is_negative { -parts } else { parts };
                quotient(above, UNIT)
            }
            Tail::Over(denominator) => quotient(integer, u64::from(denominator)),
        }
    }
}

// A fraction that is in range where it is one.
fn quotient(above: i128, below: u64) -> Option<Frac>
    requires fine { below ≤ 2 ^ 44 }
    requires near { 0 < below → unsigned_abs above ≤ 2 ^ 36 * below }
    ensures found { is_some result ≡ nat_lt 0 below }
    ensures value { IfSome result (λ x. x ≡ frac above below) }
{
    Frac::of(above, below)
}

fn is_decimal(tail: Tail) -> bool
    ensures { result ≡ is_decimal_tail tail }
{
    matches!(tail, Tail::Whole | Tail::Decimals(_))
}

fn divides(tail: Tail) -> bool
    ensures { result ≡ divides_tail tail }
{
    match tail {
        Tail::Whole | Tail::Decimals(_) => true,
        Tail::Over(denominator) => denominator > 0,
    }
}

/// Whether a number can be a factor, or a value of an argument.
pub fn is_ratio(number: Number) -> bool
    ensures { result ≡ is_ratio number }
{
    number.whole <= MAX_RATIO && divides(number.tail)
}

/// Whether a number can be a count after `!`.
pub fn is_count(number: Number) -> bool
    ensures { result ≡ is_count number }
{
    !number.is_negative && number.is_whole() && number.whole > 0 && number.whole <= MAX_COUNT
}

/// Whether a number can be a weight after `@`.
pub fn is_weight(number: Number) -> bool
    ensures { result ≡ is_weight number }
{
    !number.is_negative
        && is_decimal(number.tail)
        && number.weight_parts() > 0
        && number.whole <= MAX_WEIGHT
}

// Numbers that are no patterns.
ghost use Rattle.std.specs.Prelude.{◌≡◌, IsTrue};
ghost use Rattle.tdl_fraction.specs.Rational.{frac};
ghost use Rattle.tdl_rows.specs.Arguments.{HasBoundedParts};
ghost use Rattle.tdl_mini_tree.specs.Numbers.{is_ratio, number_value};
ghost use Rattle.tdl_mini_tree.specs.Valid.{is_factor};
ghost use Rattle.tdl_mini_tree.specs.Values.{integer_of};
ghost use Rattle.tdl_prepare.specs.Numbers.{negated, plain_value};
ghost use Rattle.tdl_command.specs.Rules.{is_below};
ghost use Rattle.tdl_command.specs.Valid.{IsValidPlain};

use tdl_command::Plain;
use tdl_fraction::Frac;
use tdl_mini_tree::Number;
use tdl_rows::{fraction, negative};

pub(crate) fn plain_value(plain: Plain) -> Frac
    requires { IsValidPlain plain }
    ensures value { result ≡ plain_value plain }
    ensures bounded { HasBoundedParts result }
{
    match plain {
        Plain::Bare(number) => number_value(number),
        Plain::Signed {
            is_negative,
            number,
        } => negated(is_negative, number_value(number)),
        Plain::Quotient {
            is_negative,
            above,
            below,
        } => negated(is_negative, quotient(above, below)),
    }
}

fn number_value(number: Number) -> Frac
    requires { IsTrue (is_factor number) }
    ensures value { result ≡ number_value number }
    ensures bounded { HasBoundedParts result }
{
    number.value().unwrap()
}

// A whole number over another.
fn quotient(above: Number, below: Number) -> Frac
    requires above { IsTrue (is_ratio above) }
    requires below { IsTrue (is_below below) }
    ensures value { result ≡ frac (integer_of above) below.whole }
    ensures bounded { HasBoundedParts result }
{
    fraction(i128::from(above.integer()), u64::from(below.whole))
}

fn negated(is_negative: bool, number: Frac) -> Frac
    requires { HasBoundedParts number }
    ensures value { result ≡ negated is_negative number }
    ensures bounded { HasBoundedParts result }
{
    if is_negative {
        negative(number)
    } else {
        number
    }
}

// Reading and printing numbers.
ghost use Rattle.std.specs.Prelude.{◌≡◌, ◌≢◌, ℕ, ◌^◌, ◌≤◌, ◌<◌, length, ℤ, unsigned_abs, IfSome, IfNone};
ghost use Rattle.std.specs.Option.{SomeIff, option_copied};
ghost use Rattle.std.specs.Str.Parse.{digits_value};
ghost use Rattle.tdl_fraction.specs.Rational.{Rational};
ghost use Rattle.tdl_fraction.specs.Range.{InRange};
ghost use Rattle.tdl_fraction.specs.Reading.{IsShortNumeral, Writes, Reads};
ghost use Rattle.tdl_fraction.specs.Printing.{text_of, print_of};
ghost use Rattle.tdl_fraction.specs.Digits.{digits_bytes};
ghost use Rattle.tdl_fraction.specs.inside.Cut.{IsCutNumber};

use crate::digits::Digits;
use crate::fraction::Frac;
use itoa::Buffer;

// The most digits of a numerator.
const NUMERATOR_DIGITS: usize = 25;

// The most digits of a denominator.
const DENOMINATOR_DIGITS: usize = 14;

// The number that one to `most` decimal digits write.
fn number(digits: &[u8], most: usize) -> Option<u128>
    requires { most ≤ 38 }
    ensures value { SomeIff result (IsShortNumeral most digits.now) (digits_value 10 digits.now) }
    ensures bound { IfSome result (λ n. n < 10 ^ most) }
{
    if digits.is_empty() || digits.len() > most {
        return None;
    }
    let mut value = 0;
    for digit in digits {
        if !digit.is_ascii_digit() {
            return None;
        }
        value = value * 10 + u128::from(*digit - b'0');
    }
    Some(value)
}

// A text cut into its sign, the digits of its numerator and those of its denominator.
#[derive(Clone, Copy)]
struct Parts<'a> {
    is_negative: bool,
    numerator: &'a [u8],
    denominator: Option<&'a [u8]>,
}

// Cuts a text behind its sign, and at the first `/` after that.
fn cut(text: &[u8]) -> Parts<'_>
    ensures { IsCutNumber text.now result.is_negative result.numerator.now (option_copied result.denominator) }
{
    let (is_negative, unsigned) = match text {
        [b'-', rest @ ..] => (true, rest),
        _ => (false, text),
    };
    match unsigned.iter().position(|byte| *byte == b'/') {
        Some(at) => Parts {
            is_negative,
            numerator: &unsigned[..at],
            denominator: Some(&unsigned[at + 1..]),
        },
        None => Parts {
            is_negative,
            numerator: unsigned,
            denominator: None,
        },
    }
}

// The number over its denominator that a text writes.
fn parse(text: &[u8]) -> Option<(i128, u64)>
    ensures some { IfSome result (λ parts. Writes text.now parts.0 parts.1) }
    ensures none { IfNone result ((n : ℤ) (d : ℕ) → Writes text.now n d → ⊥) }
{
    let parts = cut(text);
    let numerator = number(parts.numerator, NUMERATOR_DIGITS)? as i128;
    let denominator = match parts.denominator {
        Some(digits) => number(digits, DENOMINATOR_DIGITS)? as u64,
        None => 1,
    };
    let signed = if parts.is_negative {
        -numerator
    } else {
        numerator
    };
    Some((signed, denominator))
}

// The text of a number over its denominator, which is left out where it is 1.
fn written(numerator: i128, denominator: u64) -> Digits
    requires few { unsigned_abs numerator < 10 ^ 25 }
    requires fine { denominator < 10 ^ 14 }
    ensures { digits_bytes result ≡ text_of numerator denominator }
{
    let mut buffer = Buffer::new();
    let whole = Digits::new().append(buffer.format(numerator).as_bytes());
    if denominator == 1 {
        return whole;
    }
    whole
        .append(b"/")
        .append(buffer.format(denominator).as_bytes())
}

impl Frac {
    /// The fraction that a text writes: an optional `-`, 1 to 25 digits, and optionally `/` and
    /// 1 to 14 digits, in lowest terms or not. None where the text has another form, the
    /// denominator is 0, or the value is out of range.
    pub fn read(text: &[u8]) -> Option<Frac>
        ensures reads { IfSome result (Reads text.now) }
        ensures only { IfSome result (λ x. (q : Rational) → Reads text.now q → q ≡ x) }
        ensures in_range { IfSome result InRange }
        ensures none { IfNone result ((q : Rational) → Reads text.now q → InRange q → ⊥) }
    {
        let (numerator, denominator) = parse(text)?;
        Frac::of(numerator, denominator)
    }

    /// The text of the fraction, `n` or `n/d` in lowest terms, which reads as the fraction again.
    pub fn print(self) -> Digits
        ensures text { digits_bytes result ≡ print_of self }
        ensures reads_back { Reads (digits_bytes result) self }
        ensures only { (q : Rational) → Reads (digits_bytes result) q → q ≡ self }
    {
        written(self.numerator(), self.denominator())
    }
}

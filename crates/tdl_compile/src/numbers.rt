//! Numbers that stand at the greatest word where they are greater.
ghost use Rattle.std.specs.Prelude.{◌≡◌, ◌/◌, ◌<◌};
ghost use Rattle.std.specs.Int.{div_ceil};
ghost use Rattle.tdl_fraction.specs.Divisor.{gcd, lcm};
ghost use Rattle.tdl_expr.specs.Bounds.{shared_out};
ghost use Rattle.tdl_compile.specs.Compiled.{capped};

use tdl_fraction::greatest_divisor_of_words;

const WORD: u128 = u64::MAX as u128;

pub(crate) fn capped(n: u128) -> u64
    ensures { result ≡ capped n }
{
    n.min(WORD) as u64
}

// A number that divides the other is found without their greatest common divisor, and 1 without a division.
pub(crate) fn least_multiple(a: u64, b: u64) -> u64
    requires first { 0 < a }
    requires second { 0 < b }
    ensures value { result ≡ capped (lcm a b) }
    ensures positive { 0 < result }
{
    if a == 1 || a == b {
        return b;
    }
    if b == 1 {
        return a;
    }
    if b % a == 0 {
        return b;
    }
    a.saturating_mul(b / greatest_divisor_of_words(a, b))
}

// `number * factor`, with what it shares with the divisor taken out before it is multiplied.
pub(crate) fn shared_out(number: u64, factor: u128, divisor: u128) -> u64
    requires number { 0 < number }
    requires factor { 0 < factor }
    requires lowest { gcd factor divisor ≡ 1 }
    ensures value { result ≡ capped (shared_out number factor divisor) }
    ensures positive { 0 < result }
{
    let quotient = without_shared(number, divisor);
    if factor == 1 {
        return quotient;
    }
    capped(factor.saturating_mul(quotient as u128))
}

// The number without what it shares with the other.
fn without_shared(number: u64, other: u128) -> u64
    requires { 0 < number }
    ensures { result ≡ number / gcd number other }
{
    if number == 1 || other == 1 {
        return number;
    }
    number / greatest_divisor_of_word(number, other)
}

// The greatest common divisor of a word and a number of up to two words. One word needs no remainder.
fn greatest_divisor_of_word(number: u64, other: u128) -> u64
    requires { 0 < number }
    ensures { result ≡ gcd number other }
{
    if other <= WORD {
        return greatest_divisor_of_words(number, other as u64);
    }
    greatest_divisor_of_words(number, (other % number as u128) as u64)
}

// The quotient, rounded up. Numbers of one word are divided as such.
pub(crate) fn quotient_up(number: u128, divisor: u128) -> u128
    requires { 0 < divisor }
    ensures { result ≡ div_ceil number divisor }
{
    if number == 0 || divisor == 1 {
        return number;
    }
    if number <= WORD && divisor <= WORD {
        return (number as u64).div_ceil(divisor as u64) as u128;
    }
    number.div_ceil(divisor)
}

ghost use Rattle.std.specs.Prelude.{◌≡◌, ◌*◌, ◌/◌, ◌%◌, ◌<◌, ◌^◌, min};
ghost use Rattle.std.specs.Int.{trailing_zeros, w64};
ghost use Rattle.tdl_fraction.specs.Divisor.{gcd};
ghost use Rattle.tdl_fraction.specs.Rational.{frac};
ghost use Rattle.tdl_fraction.specs.Reading.{signed};

const WORD: u128 = u64::MAX as u128;

/// The greatest common divisor of two numbers, and of 0 and a number that number.
pub fn greatest_divisor_of_words(a: u64, b: u64) -> u64
    ensures { result ≡ gcd a b }
{
    if a == 0 {
        return b;
    }
    if b == 0 {
        return a;
    }
    odd_divisor(odd_part(a), odd_part(b)) << common_twos(a, b)
}

/// The greatest common divisor. Steps on numbers of two words last while the lesser has two.
pub(crate) fn greatest_divisor(a: u128, b: u128) -> u128
    ensures { result ≡ gcd a b }
{
    let mut x = a;
    let mut y = b;
    while y > WORD {
        let rest = x % y;
        x = y;
        y = rest;
    }
    if y == 0 {
        return x;
    }
    greatest_divisor_of_words(y as u64, (x % y) as u64) as u128
}

/// Both numbers without their greatest common divisor. A divisor that is a power of two takes shifts alone.
pub(crate) fn without_divisor(a: u64, b: u64) -> (u64, u64)
    requires { 0 < b }
    ensures first { result.0 ≡ a / gcd a b }
    ensures second { result.1 ≡ b / gcd a b }
{
    if a == 1 || b == 1 {
        return (a, b);
    }
    if a == 0 {
        return (0, 1);
    }
    let divisor = odd_divisor(odd_part(a), odd_part(b));
    let twos = common_twos(a, b);
    let (a, b) = (a >> twos, b >> twos);
    if divisor == 1 {
        return (a, b);
    }
    (a / divisor, b / divisor)
}

// The number without its factors of two.
fn odd_part(number: u64) -> u64
    requires { 0 < number }
    ensures odd { result % 2 ≡ 1 }
    ensures value { number ≡ result * 2 ^ trailing_zeros w64 number }
{
    number >> number.trailing_zeros()
}

// How many factors of two both numbers have.
fn common_twos(a: u64, b: u64) -> u32
    ensures { result ≡ min (trailing_zeros w64 a) (trailing_zeros w64 b) }
{
    a.trailing_zeros().min(b.trailing_zeros())
}

// The greatest common divisor of two odd numbers. A first remainder brings numbers of unlike sizes near each other.
fn odd_divisor(a: u64, b: u64) -> u64
    requires first { a % 2 ≡ 1 }
    requires second { b % 2 ≡ 1 }
    ensures { result ≡ gcd a b }
{
    if a == 1 || b == 1 {
        return 1;
    }
    let rest = a % b;
    if rest == 0 {
        return b;
    }
    divisor_by_differences(b, odd_part(rest))
}

// The greatest common divisor of two odd numbers, by differences and shifts.
fn divisor_by_differences(a: u64, b: u64) -> u64
    requires first { a % 2 ≡ 1 }
    requires second { b % 2 ≡ 1 }
    ensures { result ≡ gcd a b }
{
    let mut x = a;
    let mut y = b;
    while x != y && y > 1 {
        let difference = x.abs_diff(y);
        y = x.min(y);
        x = odd_part(difference);
    }
    y
}

// The whole number of this size, below 0 or not.
fn with_sign(is_negative: bool, size: u64) -> i128
    ensures { result ≡ signed is_negative size }
{
    if is_negative {
        -(size as i128)
    } else {
        size as i128
    }
}

/// The parts of `num / den` in lowest terms. Numbers of one word are divided as such.
pub(crate) fn lowest_terms(num: i128, den: u128) -> (i128, u128)
    requires positive { 0 < den }
    requires signed { den < 2 ^ 127 }
    ensures numerator { result.0 ≡ (frac num den).num }
    ensures denominator { result.1 ≡ (frac num den).den }
{
    if den == 1 {
        return (num, 1);
    }
    let size = num.unsigned_abs();
    if size <= WORD && den <= WORD {
        let (size, den) = without_divisor(size as u64, den as u64);
        return (with_sign(num < 0, size), den as u128);
    }
    let divisor = greatest_divisor(size, den);
    if divisor == 1 {
        return (num, den);
    }
    (num / divisor as i128, den / divisor)
}

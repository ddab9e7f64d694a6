// The number that a text begins with.
ghost use Rattle.std.specs.Prelude.{◌≡◌, ◌≤◌, ◌^◌, nat_le, length, drop, IsTrue};
ghost use Rattle.std.specs.List.{list_all};
ghost use Rattle.std.specs.Char.{is_ascii_digit};
ghost use Rattle.std.specs.Str.Parse.{digits_value};
ghost use Rattle.tdl_lexer.specs.Numbers.{tail_fits};
ghost use Rattle.tdl_lexer.specs.inside.FindNumber.{run_of, tail_of, number_of, number_lexeme};

use crate::bytes::{begins_with_digit, digits_len};
use crate::lexemes::Lexeme;
use crate::signs::{LexKind, Sign};
use tdl_control::{MAX_DECIMALS, MAX_DENOMINATOR, MAX_WHOLE};

// So few digits write less than ten thousand, which no limit refuses.
const FEW_DIGITS: usize = 4;

/// The tail of a number whose first digits stand before this text: `.` or `%` and the digits
/// directly after it, or nothing.
fn tail_of(text: &[u8]) -> &[u8]
    ensures { result.now ≡ tail_of text.now }
{
    match text {
        [b'.' | b'%', rest @ ..] if begins_with_digit(rest) => &text[..1 + digits_len(rest)],
        _ => &[],
    }
}

/// Whether the number that digits write is at most so large.
fn is_at_most(digits: &[u8], most: u32) -> bool
    requires digits { IsTrue (list_all is_ascii_digit digits.now) }
    requires most { 10 ^ 4 ≤ most }
    ensures { result ≡ nat_le (digits_value 10 digits.now) most }
{
    if digits.len() <= FEW_DIGITS {
        return true;
    }
    let limit = u64::from(most);
    let mut value = 0;
    for digit in digits {
        value = value * 10 + u64::from(*digit - b'0');
        if value > limit {
            return false;
        }
    }
    true
}

/// Whether a number's tail has at most four decimals, or a denominator of at most 65,535.
fn tail_fits(tail: &[u8]) -> bool
    requires { IsTrue (list_all is_ascii_digit (drop 1 tail.now)) }
    ensures { result ≡ tail_fits tail.now }
{
    match tail {
        [] => true,
        [b'.', decimals @ ..] => decimals.len() <= MAX_DECIMALS,
        [_, denominator @ ..] => is_at_most(denominator, MAX_DENOMINATOR),
    }
}

/// The number with these first digits, with which the text begins; a sign before it counts.
pub fn number(is_negative: bool, text: &[u8], whole: &[u8]) -> Result<Lexeme, LexKind>
    requires short { length text.now ≤ 2 ^ 24 }
    requires run { whole.now ≡ run_of text.now }
    requires digits { IsTrue (list_all is_ascii_digit whole.now) }
    ensures { result ≡ number_lexeme (number_of is_negative text.now) }
{
    let tail = tail_of(&text[whole.len()..]);
    if !is_at_most(whole, MAX_WHOLE) || !tail_fits(tail) {
        return Err(LexKind::NumberTooLarge);
    }
    let digits = whole.len() + tail.len();
    Ok(Lexeme {
        sign: Sign::Number,
        len: if is_negative { 1 + digits } else { digits },
    })
}

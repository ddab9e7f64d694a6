// The tokens of a text.
ghost use Rattle.std.specs.Prelude.{◌≡◌, ◌≤◌, ◌<◌, ◌-◌, ◌*◌, ◌^◌, length, IsTrue};
ghost use Rattle.std.specs.List.{list_all, take_while};
ghost use Rattle.std.specs.Char.{is_ascii_digit};
ghost use Rattle.std.specs.Str.Parse.{digits_value};
ghost use Rattle.tdl_control.specs.Limits.{max_decimals};
ghost use Rattle.tdl_mini_grammar.specs.Texts.{tok_of, is_count_at, number_of, unsigned_of, tail_of, mark_of, byte_mark};
ghost use Rattle.tdl_mini_grammar.specs.NumberTexts.{fits_tail, fits_unsigned, fits_number};
ghost use Rattle.tdl_mini_reader.specs.TokenView.{tok_value};
ghost use Rattle.tdl_mini_grammar.specs.inside.Readable.{IsPiece};

use tdl_control::MAX_DECIMALS;
use tdl_lexer::{Sign, Token};
use tdl_mini_machine::Mark;
use tdl_mini_reader::Tok;
use tdl_mini_tree::{Bracket, Number, Tail};

/// The token of the text that is cut there.
pub(crate) fn tok_at(text: &[u8], token: Token) -> Tok
    requires { IsPiece text.now token }
    ensures { tok_value result ≡ tok_of text.now token }
{
    let bytes = &text[token.at as usize..token.end as usize];
    match token.sign {
        Sign::Number => Tok::Number {
            number: number_of(bytes),
            text: bytes,
            is_count: is_count_at(text, token.at as usize, bytes),
        },
        Sign::Word => Tok::Word {
            text: bytes,
            is_count: is_count_at(text, token.at as usize, bytes),
        },
        Sign::Mark => Tok::Mark(mark_of(bytes)),
        Sign::Quoted | Sign::End => Tok::End,
    }
}

// Whether the bytes of a token at this offset begin with a digit directly after `!`.
fn is_count_at(text: &[u8], at: usize, bytes: &[u8]) -> bool
    requires { at ≤ length text.now }
    ensures { result ≡ is_count_at text.now at bytes.now }
{
    at > 0 && text[at - 1] == b'!' && matches!(bytes, [first, ..] if first.is_ascii_digit())
}

/// The number that the bytes of a token write.
pub fn number_of(bytes: &[u8]) -> Number
    requires { IsTrue (fits_number bytes.now) }
    ensures { result ≡ number_of bytes.now }
{
    match bytes {
        [digit @ b'0'..=b'9'] => Number {
            is_negative: false,
            whole: u32::from(*digit - b'0'),
            tail: Tail::Whole,
        },
        [b'-', rest @ ..] => unsigned_of(true, rest),
        _ => unsigned_of(false, bytes),
    }
}

fn unsigned_of(is_negative: bool, bytes: &[u8]) -> Number
    requires { IsTrue (fits_unsigned bytes.now) }
    ensures { result ≡ unsigned_of is_negative bytes.now }
{
    let whole = digits_of(bytes);
    Number {
        is_negative,
        whole: digits_value(whole),
        tail: tail_of(&bytes[whole.len()..]),
    }
}

// How many digits a text begins with.
fn digits_len(text: &[u8]) -> usize
    ensures { result ≡ length (take_while is_ascii_digit text.now) }
{
    text.iter().take_while(|byte| byte.is_ascii_digit()).count()
}

// The digits that a text begins with.
fn digits_of(text: &[u8]) -> &[u8]
    ensures value { result.now ≡ take_while is_ascii_digit text.now }
    ensures plain { IsTrue (list_all is_ascii_digit result.now) }
{
    &text[..digits_len(text)]
}

fn tail_of(bytes: &[u8]) -> Tail
    requires { IsTrue (fits_tail bytes.now) }
    ensures { result ≡ tail_of bytes.now }
{
    match bytes {
        [] => Tail::Whole,
        [b'.', decimals @ ..] => Tail::Decimals(ten_thousandths(decimals)),
        [_, denominator @ ..] => Tail::Over(digits_value(denominator)),
    }
}

// How many ten-thousandths the digits after a `.` write.
fn ten_thousandths(digits: &[u8]) -> u32
    requires plain { IsTrue (list_all is_ascii_digit digits.now) }
    requires short { length digits.now ≤ max_decimals }
    ensures { result ≡ digits_value 10 digits.now * 10 ^ (max_decimals - length digits.now) }
{
    digits_value(digits) * 10u32.pow((MAX_DECIMALS - digits.len()) as u32)
}

// The number that digits write.
fn digits_value(digits: &[u8]) -> u32
    requires plain { IsTrue (list_all is_ascii_digit digits.now) }
    requires fits { digits_value 10 digits.now < 2 ^ 32 }
    ensures { result ≡ digits_value 10 digits.now }
{
    let mut value = 0;
    for digit in digits {
        value = value * 10 + u32::from(*digit - b'0');
    }
    value
}

// The mark that bytes are; `..` is the one mark of two bytes.
fn mark_of(bytes: &[u8]) -> Mark
    ensures { result ≡ mark_of bytes.now }
{
    match bytes {
        [] => Mark::Caret,
        [byte] => byte_mark(*byte),
        _ => Mark::Range,
    }
}

fn byte_mark(byte: u8) -> Mark
    ensures { result ≡ byte_mark byte }
{
    match byte {
        b'~' => Mark::Rest,
        b'[' => Mark::Open(Bracket::Square),
        b']' => Mark::Close(Bracket::Square),
        b'<' => Mark::Open(Bracket::Angle),
        b'>' => Mark::Close(Bracket::Angle),
        b'{' => Mark::Open(Bracket::Brace),
        b'}' => Mark::Close(Bracket::Brace),
        b'(' => Mark::OpenRound,
        b')' => Mark::CloseRound,
        b',' => Mark::Comma,
        b'!' => Mark::Repeat,
        b'*' => Mark::Star,
        b'/' => Mark::Slash,
        b'@' => Mark::At,
        b':' => Mark::Colon,
        b'%' => Mark::Percent,
        b'?' => Mark::Question,
        b'|' => Mark::Bar,
        b'_' => Mark::Hold,
        b'.' => Mark::Dot,
        _ => Mark::Caret,
    }
}

// What lines look like: their fields are told apart by blanks, and each is looked at by itself.
ghost use Rattle.std.specs.Prelude.{◌≡◌, ◌<◌, ◌^◌, ◌%◌, true};
ghost use Rattle.std.specs.Char.{is_ascii_digit};
ghost use Rattle.std.specs.List.{list_all};
ghost use Rattle.std.specs.Str.{all_ascii_digits};
ghost use Rattle.std.specs.Str.Parse.{digits_value};
ghost use Rattle.tdl_log.specs.LineKinds.{is_called, is_decimal, is_deed, is_end_word, is_entry, is_last, is_numbered, is_over, is_part};
ghost use Rattle.tdl_log.specs.LineKinds.{is_place, is_port, is_split, is_swap, is_tick, is_timed, is_unpadded};

use crate::fronts::cut_at;
use crate::heads::read_number;
use tdl_fraction::{TICK_UNITS, greatest_divisor_of_words};

// The last line.
pub(crate) fn is_last(line: &[u8]) -> bool
    ensures { result ≡ is_last line.now }
{
    match cut_at(b' ', line) {
        Some((word, entries)) => word == b"end".as_slice() && is_decimal(entries),
        None => false,
    }
}

// A port's line.
pub(crate) fn is_port(line: &[u8]) -> bool
    ensures { result ≡ is_port line.now }
{
    match cut_at(b' ', line) {
        Some((word, ended)) => word == b"port".as_slice() && is_numbered_end(ended),
        None => false,
    }
}

// A port's number, and how it ended.
fn is_numbered_end(ended: &[u8]) -> bool
    ensures { result ≡ is_split is_decimal is_end_word ended.now }
{
    match cut_at(b' ', ended) {
        Some((port, end)) => is_decimal(port) && is_end_word(end),
        None => false,
    }
}

fn is_end_word(word: &[u8]) -> bool
    ensures { result ≡ is_end_word word.now }
{
    word == b"eof".as_slice()
        || word == b"finish".as_slice()
        || word == b"fault".as_slice()
        || word == b"spent".as_slice()
        || word == b"memory".as_slice()
        || word == b"stopped".as_slice()
}

// An entry's line, of whatever place, caller and time.
pub(crate) fn is_entry(line: &[u8]) -> bool
    ensures { result ≡ is_entry line.now }
{
    match cut_at(b' ', line) {
        Some((place, called)) => is_decimal(place) && is_called(called),
        None => false,
    }
}

// A caller's number, a time and what was done.
fn is_called(text: &[u8]) -> bool
    ensures { result ≡ is_called text.now }
{
    match cut_at(b' ', text) {
        Some((who, timed)) => is_decimal(who) && is_timed(timed),
        None => false,
    }
}

// A time and what was done.
fn is_timed(text: &[u8]) -> bool
    ensures { result ≡ is_timed text.now }
{
    match cut_at(b' ', text) {
        Some((frontier, deed)) => is_place(frontier) && is_deed(deed),
        None => false,
    }
}

fn is_deed(text: &[u8]) -> bool
    ensures { result ≡ is_deed text.now }
{
    text == b"look".as_slice() || text == b"finish".as_slice() || is_tick(text) || is_swap(text)
}

fn is_tick(text: &[u8]) -> bool
    ensures { result ≡ is_tick text.now }
{
    match cut_at(b' ', text) {
        Some((word, to)) => word == b"tick".as_slice() && is_place(to),
        None => false,
    }
}

fn is_swap(text: &[u8]) -> bool
    ensures { result ≡ is_swap text.now }
{
    match cut_at(b' ', text) {
        Some((word, said)) => word == b"swap".as_slice() && is_numbered(said),
        None => false,
    }
}

// A number, a blank and whatever text.
fn is_numbered(said: &[u8]) -> bool
    ensures { result ≡ is_numbered said.now }
{
    match cut_at(b' ', said) {
        Some((number, _)) => is_decimal(number),
        None => false,
    }
}

// A time on the grid, in lowest terms, of whatever size.
fn is_place(text: &[u8]) -> bool
    ensures { result ≡ is_place text.now }
{
    match cut_at(b'/', text) {
        Some((above, below)) => is_decimal(above) && is_over(above, below),
        None => is_decimal(text),
    }
}

// Whether digits over others are on the grid, in lowest terms and no whole number. A number that 32 bits do not hold
// divides no cycle.
fn is_over(above: &[u8], below: &[u8]) -> bool
    requires { all_ascii_digits above.now ≡ true }
    ensures { result ≡ is_over above.now below.now }
{
    match read_number(below) {
        Some(divisor) => is_part(above, u64::from(divisor)),
        None => false,
    }
}

// Whether the number with these digits over another is on the grid, in lowest terms and no whole number.
#[tactic(auto, using(crate::proofs::LineForms::rest_gcd))]
fn is_part(above: &[u8], divisor: u64) -> bool
    requires digits { all_ascii_digits above.now ≡ true }
    requires word { divisor < 2 ^ 32 }
    ensures { result ≡ is_part (digits_value 10 above.now) divisor }
{
    1 < divisor
        && TICK_UNITS % divisor == 0
        && greatest_divisor_of_words(remainder(above, divisor), divisor) == 1
}

// What is left of the number with these digits when it is divided.
fn remainder(digits: &[u8], divisor: u64) -> u64
    requires digits { all_ascii_digits digits.now ≡ true }
    requires some { 0 < divisor }
    requires word { divisor < 2 ^ 32 }
    ensures { result ≡ digits_value 10 digits.now % divisor }
{
    let mut left = 0;
    for digit in digits {
        left = (left * 10 + u64::from(*digit - b'0')) % divisor;
    }
    left
}

// A number in decimal digits, with no leading zero, of whatever size.
fn is_decimal(text: &[u8]) -> bool
    ensures { result ≡ is_decimal text.now }
{
    are_digits(text) && is_unpadded(text)
}

fn are_digits(text: &[u8]) -> bool
    ensures { result ≡ list_all is_ascii_digit text.now }
{
    text.iter().all(|byte| byte.is_ascii_digit())
}

fn is_unpadded(text: &[u8]) -> bool
    ensures { result ≡ is_unpadded text.now }
{
    match text.split_first() {
        Some((first, others)) => *first != b'0' || others.is_empty(),
        None => false,
    }
}

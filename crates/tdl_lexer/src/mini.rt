// The lexeme of mini-notation that stands at the front of what is left of a text.
ghost use Rattle.std.specs.Prelude.{◌≡◌, ◌≤◌, ◌^◌, if◌then◌else◌, length};
ghost use Rattle.tdl_lexer.specs.declared.signs.LexKind.TheVariants.{UnknownSign};
ghost use Rattle.tdl_lexer.specs.Bytes.{is_run_byte};
ghost use Rattle.tdl_lexer.specs.inside.FindMini.{run_form, signed_form, dot_form, form_lexeme_or, lexeme_after};
ghost use Rattle.tdl_lexer.specs.inside.Lexeme.{mini_lexeme};

use crate::bytes::{
    begins_with, begins_with_digit, begins_with_run, is_all_digits, is_plain_mark, is_run_byte,
    is_word, run_of,
};
use crate::lexemes::{Flaw, Lexeme, at_front, mark};
use crate::numbers::number;
use crate::signs::{LexKind, Sign};
use tdl_control::MAX_WORD;

// What the run at the front begins, after the byte `last`.
fn run(last: u8, text: &[u8]) -> Result<Lexeme, LexKind>
    requires { length text.now ≤ 2 ^ 24 }
    ensures { result ≡ form_lexeme_or UnknownSign (if is_run_byte last then None else run_form text.now) }
{
    if is_run_byte(last) {
        return Err(LexKind::UnknownSign);
    }
    let run = run_of(text);
    if is_all_digits(run) {
        return number(false, text, run);
    }
    if let [b'_'] = run {
        return Ok(mark(1));
    }
    if !is_word(run) {
        return Err(LexKind::UnknownSign);
    }
    if run.len() > MAX_WORD {
        return Err(LexKind::WordTooLong);
    }
    Ok(Lexeme {
        sign: Sign::Word,
        len: run.len(),
    })
}

// What a `-` before this text begins.
fn signed(text: &[u8]) -> Result<Lexeme, LexKind>
    requires { length text.now ≤ 2 ^ 24 }
    ensures { result ≡ form_lexeme_or UnknownSign (signed_form text.now) }
{
    let digits = run_of(text);
    if begins_with_digit(text) && is_all_digits(digits) {
        number(true, text, digits)
    } else {
        Err(LexKind::UnknownSign)
    }
}

// What a `.` before this text begins, with `last` before the `.`.
fn dot(last: u8, text: &[u8]) -> Result<Lexeme, LexKind>
    ensures { result ≡ form_lexeme_or UnknownSign (dot_form last text.now) }
{
    if begins_with(text, b'.') {
        return Ok(mark(2));
    }
    if is_run_byte(last) || begins_with_run(text) {
        return Err(LexKind::UnknownSign);
    }
    Ok(mark(1))
}

// The lexeme that stands after the byte `last`, or the kind of the fault.
fn lexeme_after(last: u8, rest: &[u8]) -> Result<Lexeme, LexKind>
    requires { length rest.now ≤ 2 ^ 24 }
    ensures { result ≡ lexeme_after last rest.now }
{
    let [first, after @ ..] = rest else {
        return Err(LexKind::UnknownSign);
    };
    if is_run_byte(*first) {
        return run(last, rest);
    }
    match *first {
        b'-' => signed(after),
        b'.' => dot(last, after),
        byte if is_plain_mark(byte) => Ok(mark(1)),
        byte if byte.is_ascii() => Err(LexKind::UnknownSign),
        _ => Err(LexKind::NotAscii),
    }
}

/// The lexeme at the front of what is left of a text, after the byte `last`, or its fault.
pub fn mini_lexeme(last: u8, rest: &[u8]) -> Result<Lexeme, Flaw>
    requires { length rest.now ≤ 2 ^ 24 }
    ensures { result ≡ mini_lexeme last rest.now }
{
    match lexeme_after(last, rest) {
        Ok(lexeme) => Ok(lexeme),
        Err(kind) => Err(at_front(kind)),
    }
}

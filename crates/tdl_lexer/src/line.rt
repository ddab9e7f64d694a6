// The lexeme of a performer's line that stands at the front of what is left of it.
ghost use Rattle.std.specs.Prelude.{◌≡◌, ◌∷◌, ◌≤◌, ◌^◌, true, length};
ghost use Rattle.std.specs.Char.{is_ascii_digit};
ghost use Rattle.tdl_lexer.specs.Bytes.{begins};
ghost use Rattle.tdl_lexer.specs.LineForms.{Name, mark_of, line_notation};
ghost use Rattle.tdl_lexer.specs.Tokens.{unlisted};
ghost use Rattle.tdl_lexer.specs.inside.FindLine.{name_of, unsigned_form, quoted_form, marked};
ghost use Rattle.tdl_lexer.specs.inside.Lexeme.{lexeme_of, lexeme_or, line_lexeme};

use crate::bytes::{begins_with, begins_with_run, is_all_digits, name_len, run_of, text_len};
use crate::lexemes::{Flaw, Lexeme, at_front, mark};
use crate::marks::mark_len;
use crate::numbers::number;
use crate::signs::{LexKind, Sign};

fn name(text: &[u8]) -> Lexeme
    ensures { Ok result ≡ lexeme_of line_notation text.now (Name (name_of text.now)) }
{
    Lexeme {
        sign: Sign::Word,
        len: name_len(text),
    }
}

fn unsigned(text: &[u8]) -> Result<Lexeme, Flaw>
    requires short { length text.now ≤ 2 ^ 24 }
    requires digit { begins is_ascii_digit text.now ≡ true }
    ensures { result ≡ lexeme_or line_notation text.now (unsigned_form text.now) }
{
    let digits = run_of(text);
    if !is_all_digits(digits) {
        return Err(at_front(LexKind::UnknownSign));
    }
    let number = match number(false, text, digits) {
        Ok(number) => number,
        Err(kind) => return Err(at_front(kind)),
    };
    if begins_with_run(&text[number.len..]) {
        return Err(Flaw {
            kind: LexKind::UnknownSign,
            past: number.len,
        });
    }
    Ok(number)
}

// What a `"` before this text begins.
fn quoted(text: &[u8]) -> Result<Lexeme, Flaw>
    requires { length text.now ≤ 2 ^ 24 }
    ensures { result ≡ lexeme_of line_notation (34 ∷ text.now) (quoted_form text.now) }
{
    let len = text_len(text);
    if begins_with(&text[len..], b'"') {
        Ok(Lexeme {
            sign: Sign::Quoted,
            len: 1 + len + 1,
        })
    } else {
        Err(at_front(LexKind::Unclosed))
    }
}

// The fault of a byte that begins nothing.
fn unlisted(text: &[u8]) -> LexKind
    ensures { result ≡ unlisted text.now }
{
    match text {
        [first, ..] if !first.is_ascii() => LexKind::NotAscii,
        _ => LexKind::UnknownSign,
    }
}

fn marked(text: &[u8]) -> Result<Lexeme, Flaw>
    ensures { result ≡ lexeme_or line_notation text.now (marked (mark_of text.now)) }
{
    match mark_len(text) {
        Some(len) => Ok(mark(len)),
        None => Err(at_front(unlisted(text))),
    }
}

/// The lexeme at the front of what is left of a line, or its fault.
pub fn line_lexeme(rest: &[u8]) -> Result<Lexeme, Flaw>
    requires { length rest.now ≤ 2 ^ 24 }
    ensures { result ≡ line_lexeme rest.now }
{
    let [first, after @ ..] = rest else {
        return Err(at_front(LexKind::UnknownSign));
    };
    match *first {
        byte if byte.is_ascii_lowercase() => Ok(name(rest)),
        byte if byte.is_ascii_digit() => unsigned(rest),
        b'"' => quoted(after),
        _ => marked(rest),
    }
}

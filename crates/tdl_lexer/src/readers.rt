ghost use Rattle.std.specs.Prelude.{◌≡◌, ◌+◌, ◌<◌, ◌≤◌, ◌^◌, ℕ, ◌⊎◌, List, length, drop, IfOk, IfErr, MatchResult};
ghost use Rattle.tdl_lexer.specs.declared.signs.Token.{Token};
ghost use Rattle.tdl_lexer.specs.declared.signs.LexKind.{LexKind};
ghost use Rattle.tdl_lexer.specs.declared.signs.Mode.{Mode};
ghost use Rattle.tdl_lexer.specs.Tokens.{language, byte_before, IsCut, IsFaultAt, Refuses};
ghost use Rattle.tdl_lexer.specs.inside.Lexeme.{lexeme_at};

use crate::bytes::{blanks_len, byte_before, comment_len};
use crate::lexemes::{Flaw, Lexeme};
use crate::line::line_lexeme;
use crate::mini::mini_lexeme;
use crate::signs::{LexKind, Mode, Sign, Token, Tokens};
use std::alloc::Global;
use tdl_control::Faulted;

// The list of tokens has room for so many, or for as many as the text may have, before it grows.
const FIRST_ROOM: usize = 80;

/// Cuts a text of a language into its tokens, each the longest that the language has at its
/// offset. Only blanks lie between them, and in a line a comment behind them; the last is `End` at
/// the text's end. `At` is the first fault: such tokens lead to it, or to the number before it
/// where a letter, `_` or `#` follows a number of a line.
pub fn tokens(alloc: Global, text: &[u8], mode: Mode) -> Result<Tokens, Faulted<LexKind>>
    requires { length text.now ≤ 2 ^ 24 }
    ensures { MatchResult result (IsCut (language mode) text.now) (Refuses (language mode) text.now) }
{
    let room = (text.len() + 1).min(FIRST_ROOM);
    let mut tokens = Tokens::of(Vec::with_capacity(alloc, room)?);
    let mut at = blank_len(mode, text);
    while at < text.len() {
        let lexeme = match lexeme_at(mode, text, at) {
            Ok(lexeme) => lexeme,
            Err(flaw) => return Err(Faulted::At {
                kind: flaw.kind,
                at: (at + flaw.past) as u32,
            }),
        };
        let end = at + lexeme.len;
        tokens.push(token(lexeme.sign, at, end))?;
        at = end + blank_len(mode, &text[end..]);
    }
    tokens.push(token(Sign::End, at, at))?;
    Ok(tokens)
}

// How many bytes the blank space has that a text begins with.
fn blank_len(mode: Mode, text: &[u8]) -> usize
    ensures is { result ≡ length ((language mode).blank text.now) }
    ensures within { result ≤ length text.now }
{
    let blanks = blanks_len(text);
    match mode {
        Mode::Mini => blanks,
        Mode::Line => blanks + comment_len(&text[blanks..]),
    }
}

// The lexeme that stands at an offset of the text, or its fault.
fn lexeme_at(mode: Mode, text: &[u8], at: usize) -> Result<Lexeme, Flaw>
    requires short { length text.now ≤ 2 ^ 24 }
    requires inside { at < length text.now }
    ensures is { result ≡ lexeme_at mode (byte_before text.now at) (drop at text.now) }
    ensures within { IfOk result (λ x. (0 < x.len) × (at + x.len ≤ length text.now)) }
    ensures past { IfErr result (λ flaw. at + flaw.past ≤ length text.now) }
{
    let rest = &text[at..];
    match mode {
        Mode::Mini => mini_lexeme(byte_before(text, at), rest),
        Mode::Line => line_lexeme(rest),
    }
}

fn token(sign: Sign, at: usize, end: usize) -> Token
    requires at_fits { at ≤ 2 ^ 24 }
    requires end_fits { end ≤ 2 ^ 24 }
    ensures { result ≡ record { sign = sign; at = at; end = end } }
{
    Token {
        sign,
        at: at as u32,
        end: end as u32,
    }
}

/// In each language a text has one list of tokens at most, no fault where it has one, and one first
/// fault at most.
pub fn texts_are_cut_in_one_way()
    ensures one_cut { (mode : Mode) (text : List ℕ) (a b : List Token) → IsCut (language mode) text a → IsCut (language mode) text b → a ≡ b }
    ensures not_both { (mode : Mode) (text : List ℕ) (tokens : List Token) (kind : LexKind) (at : ℕ) → IsCut (language mode) text tokens →
        IsFaultAt (language mode) text kind at → ⊥ }
    ensures one_fault { (mode : Mode) (text : List ℕ) (k l : LexKind) (m n : ℕ) → IsFaultAt (language mode) text k m → IsFaultAt (language mode) text l n →
        (k ≡ l) × (m ≡ n) }
{}

/// In each language a text is cut into tokens, or has a first fault.
pub fn texts_are_cut_or_faulty()
    ensures { (mode : Mode) (text : List ℕ) → ((tokens : List Token) × IsCut (language mode) text tokens) ⊎
        ((kind : LexKind) × (at : ℕ) × IsFaultAt (language mode) text kind at) }
{}

// What stands at the front of what is left of a text.
ghost use Rattle.std.specs.Prelude.{◌≡◌};
ghost use Rattle.tdl_lexer.specs.declared.signs.Sign.TheVariants as sign;
ghost use Rattle.tdl_lexer.specs.Languages.{at_front};

use crate::signs::{LexKind, Sign};

/// The sign of a token, and how many bytes it has.
#[derive(Clone, Copy)]
pub struct Lexeme {
    pub sign: Sign,
    pub len: usize,
}

/// Why there is no token, and how many bytes stand before the fault.
#[derive(Clone, Copy)]
pub struct Flaw {
    pub kind: LexKind,
    pub past: usize,
}

pub fn mark(len: usize) -> Lexeme
    ensures { result ≡ record { sign = sign.Mark; len = len } }
{
    Lexeme {
        sign: Sign::Mark,
        len,
    }
}

/// A fault of this kind at the first byte.
pub fn at_front(kind: LexKind) -> Flaw
    ensures { result ≡ at_front kind }
{
    Flaw { kind, past: 0 }
}

// The marks of lines.
use tdl_command::{Operator, Way};

/// A mark of a line.
#[derive(Clone, Copy, PartialEq, Eq)]
pub enum Mark {
    /// `$`
    Dollar,
    /// `(` and `)`
    OpenRound,
    CloseRound,
    /// `[` and `]`
    OpenSquare,
    CloseSquare,
    /// `,`
    Comma,
    /// `.`
    Dot,
    /// `/`
    Slash,
    /// `-`
    Minus,
    /// `<~` and `~>`
    Shift(Way),
    /// Any other operator.
    Operator(Operator),
}

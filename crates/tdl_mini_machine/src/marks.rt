use tdl_mini_tree::Bracket;

/// A mark of the mini-notation.
#[derive(Clone, Copy, PartialEq, Eq)]
pub enum Mark {
    /// `~`
    Rest,
    /// `[`, `<` and `{`
    Open(Bracket),
    /// `]`, `>` and `}`
    Close(Bracket),
    /// `(` and `)`
    OpenRound,
    CloseRound,
    /// `,`
    Comma,
    /// `!`
    Repeat,
    /// `*`
    Star,
    /// `/`
    Slash,
    /// `@`
    At,
    /// `:`
    Colon,
    /// `%`
    Percent,
    /// `?`
    Question,
    /// `|`
    Bar,
    /// `^`
    Caret,
    /// `_`
    Hold,
    /// `.`
    Dot,
    /// `..`
    Range,
}

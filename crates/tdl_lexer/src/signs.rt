use tdl_control::List;

/// Which language a text is in: mini-notation, or that of performers' lines.
#[derive(Clone, Copy, Debug, PartialEq, Eq)]
pub enum Mode {
    Mini,
    Line,
}

/// What a token is. In a line a name is a `Word`, and a text between two `"` is `Quoted`. `End`
/// stands at the text's end alone.
#[derive(Clone, Copy, Debug, PartialEq, Eq)]
pub enum Sign {
    Number,
    Word,
    Quoted,
    Mark,
    End,
}

/// A token: the bytes of the text from the offset `at` up to `end`, without it, counted from 0.
#[derive(Clone, Copy, PartialEq, Eq)]
pub struct Token {
    pub sign: Sign,
    pub at: u32,
    pub end: u32,
}

/// Tokens, in the order in which they stand in a text.
pub type Tokens = List<Token>;

/// Why a text has no tokens. `NotAscii` is a byte above 127 that begins no token. `UnknownSign` is
/// any other byte or form that the language does not have. A number is too large above
/// 2,147,483,647 before its `.` or `%`, with more than four decimals or with a denominator above
/// 65,535; a word of mini-notation is too long above 32 bytes; a `"` of a line is unclosed where no
/// other follows.
#[derive(Clone, Copy, Debug, PartialEq, Eq)]
pub enum LexKind {
    NotAscii,
    UnknownSign,
    NumberTooLarge,
    WordTooLong,
    Unclosed,
}

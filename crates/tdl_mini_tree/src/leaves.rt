use tdl_control::{Key, Word};

/// What the values of a text are.
#[derive(Clone, Copy, PartialEq, Eq)]
pub enum Kind {
    /// Words without `#` and plain digits, each with a sample number after `:` if one is written.
    Sound,
    /// Whole numbers and note names, of a key.
    Note { key: Key },
    /// Whole numbers, of a key.
    Int { key: Key },
    /// Words without `#`, of a key.
    Word { key: Key },
    /// `t`, `true` and `1`; `f`, `false` and `0`.
    Bool,
    /// Whole numbers, as an argument.
    Count,
    /// Any numbers, as an argument.
    Ratio,
}

/// What follows the digits that a number begins with.
#[derive(Clone, Copy, PartialEq, Eq)]
pub enum Tail {
    /// Nothing.
    Whole,
    /// `.` and digits: so many ten-thousandths.
    Decimals(u32),
    /// `%` and a denominator.
    Over(u32),
}

/// A number as it is written.
#[derive(Clone, Copy, PartialEq, Eq)]
pub struct Number {
    pub is_negative: bool,
    pub whole: u32,
    pub tail: Tail,
}

/// A bracket round layers.
#[derive(Clone, Copy, Debug, PartialEq, Eq)]
pub enum Bracket {
    Square,
    Angle,
    Brace,
}

/// What a step may play.
#[derive(Clone, Copy, PartialEq, Eq)]
pub enum Value {
    /// A word or plain digits, and the number after `:` if one is written.
    Sound { word: Word, number: Option<Number> },
    /// A word.
    Name(Word),
    /// A note by its name.
    Note(i32),
    /// A truth value.
    Truth(bool),
    /// A number.
    Number(Number),
}

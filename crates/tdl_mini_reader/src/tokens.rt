// Tokens as the machine sees them.
use tdl_mini_machine::Mark;
use tdl_mini_tree::Number;

/// A token of a text. A number or a word directly after `!` that begins with a digit is a count.
#[derive(Clone, Copy)]
pub enum Tok<'a> {
    /// Its bytes go with it.
    Number {
        number: Number,
        text: &'a [u8],
        is_count: bool,
    },
    /// A run of letters, digits, `_` and `#` that is no number.
    Word {
        text: &'a [u8],
        is_count: bool,
    },
    /// A mark.
    Mark(Mark),
    /// The end of the text.
    End,
}

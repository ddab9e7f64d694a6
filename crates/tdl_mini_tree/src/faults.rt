ghost use Rattle.std.specs.Prelude.{◌≡◌};
ghost use Rattle.tdl_mini_tree.specs.KindNames.{kind_name};

/// Why a text is not read. A fault stands at the first byte of a token, but a fault of the bytes at the byte
/// or the form that is at fault.
#[derive(Clone, Copy, Debug, PartialEq, Eq)]
pub enum MiniKind {
    /// A byte above 127.
    NotAscii,
    /// A byte or a form that the notation does not have.
    UnknownSign,
    /// A number above 2,147,483,647 before its `.` or `%`, with more than four decimals, or with a
    /// denominator above 65,535.
    NumberTooLarge,
    /// A word of more than 32 bytes.
    WordTooLong,
    /// A token with which no text goes on from here, and which no other kind names. It is the end where a
    /// bracket is open or a step is not finished.
    Unexpected,
    /// `?` or `|`: what is chosen at random is not read.
    Random,
    /// `^`: variables are not read.
    Variable,
    /// A number with `.` or `%` where whole numbers alone serve: a value, an end of a range, or a sample's
    /// number.
    FloatValue,
    /// The `)` of a Euclid of which some choice of arguments has no rhythm.
    BadEuclid,
    /// A number out of its range. A factor, or a number in a Euclid's arguments, is at most 65,535 before its
    /// `.` or `%`, with no denominator 0. A weight has no sign and no `%`, and is above 0 and below 16,384. A
    /// count is a whole number from 1 to 1,024.
    BadFactor,
    /// A bracket inside 16 others.
    TooDeep,
    /// The element, the `!` before a count, or the `.` with which a sequence has more than 1,024 steps or
    /// groups, or the weights of a group sum to more than 16,384.
    TooManySteps,
}

// The name of every kind, in order.
static KIND_NAMES: [&[u8]; 12] = [
    b"NotAscii",
    b"UnknownSign",
    b"NumberTooLarge",
    b"WordTooLong",
    b"Unexpected",
    b"Random",
    b"Variable",
    b"FloatValue",
    b"BadEuclid",
    b"BadFactor",
    b"TooDeep",
    b"TooManySteps",
];

impl MiniKind {
    /// The kind's name, as it stands in a reply.
    pub fn name(self) -> &'static [u8]
        ensures { result.now ≡ kind_name self }
    {
        KIND_NAMES[usize::from(self as u8)]
    }
}

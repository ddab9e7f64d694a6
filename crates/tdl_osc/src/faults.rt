ghost use Rattle.std.specs.Prelude.{◌≡◌};

/// What is wrong with bytes that are no bundle of OSC 1.0.
#[derive(Clone, Copy, Debug, PartialEq, Eq)]
pub enum OscKind {
    /// The bytes do not begin with `#bundle` and a zero byte.
    BadHead,
    /// The bytes end within a time tag, a size or a message, or a message within a string or a number,
    /// which begins there.
    Short,
    /// A byte of padding is not zero.
    BadPad,
    /// The tags do not begin with `,`, or one of them is neither `i` nor `s`.
    BadTag,
    /// A size is not above 0, or is no multiple of 4; or the message that begins there goes on past its
    /// arguments.
    BadSize,
    /// An address does not begin with `/`.
    BadAddress,
    /// A byte of a string is above 0x7F.
    NotAscii,
}

/// The first fault of bytes that are no bundle, and the offset of the byte at which it stands, counted
/// from 0.
#[derive(Clone, Copy, Debug, PartialEq, Eq)]
pub struct BundleFault {
    pub kind: OscKind,
    pub at: u32,
}

impl OscKind {
    // A fault of this kind at the offset.
    pub(crate) fn at(self, at: u32) -> BundleFault
        ensures { result ≡ record { kind = self; at = at } }
    {
        BundleFault { kind: self, at }
    }
}

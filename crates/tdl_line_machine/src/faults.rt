ghost use Rattle.std.specs.Prelude.{◌≡◌};
ghost use Rattle.tdl_line_machine.specs.KindNames.{line_kind_name};

use tdl_mini_tree::MiniKind;

/// Why a line is not read.
#[derive(Clone, Copy, Debug, PartialEq, Eq)]
pub enum LineKind {
    /// A fault that texts of mini-notation have too, in a quoted text or outside of one.
    Mini(MiniKind),
    /// A quoted text without its end. It stands at the `"` that begins it.
    Unclosed,
    /// A name that lines do not have.
    UnknownName,
    /// More than 2,048 bytes. It stands at 2,048.
    LineTooLong,
    /// An orbit outside 1 to 16.
    BadOrbit,
    /// A count of cycles of `jumpMod` outside 1 to 4,096.
    BadEvery,
}

impl LineKind {
    /// The kind's name, as it stands in a reply.
    pub fn name(self) -> &'static [u8]
        ensures { result.now ≡ line_kind_name self }
    {
        match self {
            LineKind::Mini(kind) => kind.name(),
            LineKind::Unclosed => b"Unclosed",
            LineKind::UnknownName => b"UnknownName",
            LineKind::LineTooLong => b"LineTooLong",
            LineKind::BadOrbit => b"BadOrbit",
            LineKind::BadEvery => b"BadEvery",
        }
    }
}

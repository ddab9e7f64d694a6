// What kind of fault a line has.
ghost use Rattle.std.specs.Prelude.{◌≡◌, List};
ghost use Rattle.tdl_log.specs.Pieces.{Piece};
ghost use Rattle.tdl_log.specs.LineKinds.{line_kind};
ghost use Rattle.tdl_log.specs.inside.Fronts.{ShowsFront};

use crate::forms::{is_entry, is_last, is_port};

/// Why a text is no log, from the first line with which no log goes on.
#[derive(Clone, Copy, Debug, PartialEq, Eq)]
pub enum LogKind {
    /// It is one of the first three lines.
    Head,
    /// It has the form of no line, or the text ends too early, or the log ended before it.
    Form,
    /// It breaks a rule of the history or of the ports.
    Order,
    /// It ends the log, and does not tell how many entries there are.
    Count,
}

// How far a log was read: how many lines, whether a port's is among them, and whether the last line is.
#[derive(Clone, Copy)]
pub(crate) struct Front {
    pub(crate) lines: u32,
    pub(crate) ports: bool,
    pub(crate) ended: bool,
}

// The kind of the fault in a line with which no log goes on.
pub(crate) fn line_kind(front: Front, line: &[u8]) -> LogKind
    ensures { (pieces : List Piece) → ShowsFront front pieces → result ≡ line_kind pieces line.now }
{
    if front.lines < 3 {
        return LogKind::Head;
    }
    if front.ended {
        return LogKind::Form;
    }
    if is_last(line) {
        return LogKind::Count;
    }
    if is_port(line) {
        return LogKind::Order;
    }
    if is_entry(line) && !front.ports {
        return LogKind::Order;
    }
    LogKind::Form
}

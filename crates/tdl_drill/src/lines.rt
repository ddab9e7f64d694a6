// The lines of a drill.
ghost use Rattle.std.specs.Prelude.{◌≡◌, ◌≤◌, ◌+◌, ◌++◌, length};
ghost use Rattle.std.specs.Fmt.{decimal};
ghost use Rattle.tdl_fraction.specs.Units.{most_units};
ghost use Rattle.tdl_drill.specs.Drill.{drum_line, jump_line, line_of_kind, solo_line, tick_line};

use arrayvec::ArrayVec;
use itoa::Buffer;
use std::marker::Model;
use tdl_fraction::print_units;

// More bytes than a line has.
const ROOM: usize = 128;

/// A line of a script, held without memory, with no line feed.
#[derive(Drop)]
pub struct DrillLine {
    text: ArrayVec<u8, ROOM>,
}

impl Model for DrillLine {
    ghost use Rattle.std.specs.Prelude.{ℕ, List};

    ghost Value = { List ℕ };

    ghost view = { λ line. line.text.items };
}

impl DrillLine {
    /// The bytes of the line.
    pub fn bytes(&self) -> &[u8]
        ensures { result.now ≡ self.now }
    {
        &self.text
    }

    // A line that begins so.
    pub(crate) fn of(front: &[u8]) -> DrillLine
        requires { length front.now ≤ 128 }
        ensures { result ≡ front.now }
    {
        let mut text = ArrayVec::new();
        text.try_extend_from_slice(front).unwrap();
        DrillLine { text }
    }

    // Adds a piece.
    fn add(&mut self, piece: &[u8])
        requires { length self.old + length piece.now ≤ 128 }
        ensures text { self.new ≡ self.old ++ piece.now }
        ensures long { length self.new ≡ length self.old + length piece.now }
    {
        self.text.try_extend_from_slice(piece).unwrap();
    }

    // Adds a number.
    fn add_number(&mut self, number: u32)
        requires { length self.old ≤ 88 }
        ensures text { self.new ≡ self.old ++ decimal number }
        ensures long { length self.new ≤ length self.old + 40 }
    {
        self.add(Buffer::new().format(number).as_bytes());
    }
}

// The line of a kind, with so much of it, where the last tick is then.
pub(crate) fn line_of_kind(kind: u32, amount: u32, place: u32) -> DrillLine
    requires { place ≤ most_units }
    ensures { result ≡ line_of_kind kind amount place }
{
    match kind {
        0 => tick_line(place),
        1 => drum_line(amount),
        2 => jump_line(amount),
        3 => solo_line(amount),
        _ => DrillLine::of(b"p4 look"),
    }
}

// A tick to this place.
fn tick_line(place: u32) -> DrillLine
    requires { place ≤ most_units }
    ensures { result ≡ tick_line place }
{
    let mut line = DrillLine::of(b"tick ");
    line.add(print_units(u64::from(place)).bytes());
    line
}

// A drum from 1 to 16 times, and a snare.
fn drum_line(amount: u32) -> DrillLine
    ensures { result ≡ drum_line amount }
{
    let mut line = DrillLine::of(b"p1 d1 $ s \"bd*");
    line.add_number(1 + amount % 16);
    line.add(b" sn\"");
    line
}

// A note, from a multiple of 1 to 8 cycles on.
fn jump_line(amount: u32) -> DrillLine
    ensures { result ≡ jump_line amount }
{
    let mut line = DrillLine::of(b"p2 jumpMod 2 ");
    line.add_number(1 + amount % 8);
    line.add(b" $ note \"0 ");
    line.add_number(amount % 12);
    line.add(b"\" # s \"midi\"");
    line
}

fn solo_line(amount: u32) -> DrillLine
    ensures { result ≡ solo_line amount }
{
    if amount % 2 == 0 {
        DrillLine::of(b"p3 solo 1")
    } else {
        DrillLine::of(b"p3 unsolo 1")
    }
}

// Lines that are drawn from a number.
ghost use Rattle.std.specs.Prelude.{◌≡◌, ◌<◌, ◌≤◌, ◌^◌, [], ◌∷◌, IfSome, IfNone};
ghost use Rattle.tdl_drill.specs.Drill.{drill_lines, next_number};

use crate::lines::{DrillLine, line_of_kind};
use std::marker::Model;

const MULTIPLIER: u64 = 1_103_515_245;

const INCREMENT: u64 = 12_345;

// Numbers are below it.
const MODULUS: u64 = 1 << 31;

// The lower bits of a number draw nothing.
const UNUSED: u32 = 65_536;

const KINDS: u32 = 5;

/// The lines of a drill that are left, the finish last.
#[derive(Drop)]
pub struct DrillLines {
    // The number of the line that was drawn last, at first the one that the words name.
    number: u32,
    // Where the last tick is, in units of 1/46,080 cycle.
    place: u32,
    // How many lines are left, the finish too.
    left: u32,
}

impl Model for DrillLines {
    ghost use Rattle.std.specs.Prelude.{ℕ, ◌+◌, ◌-◌, ◌*◌, ◌<◌, ◌≤◌, ◌^◌, ◌==◌, if◌then◌else◌, List, []};
    ghost use Rattle.tdl_drill.specs.Drill.{lines_from};

    ghost Value = { List (List ℕ) };

    ghost view = { λ d. if d.left == 0 then [] else lines_from d.number d.place (d.left - 1) };

    ghost invariant = { λ d. record {
      small : d.number < 2 ^ 31;
      near : d.place + d.left * 6554 ≤ 2 ^ 28;
    } };
}

impl DrillLines {
    /// So many lines, at most 16,384, that are drawn from a number, and then the finish.
    pub fn of(start: u32, lines: u32) -> DrillLines
        requires small { start < 2 ^ 31 }
        requires few { lines ≤ 16384 }
        ensures { result ≡ drill_lines start lines }
    {
        DrillLines {
            number: start,
            place: 0,
            left: lines + 1,
        }
    }

    /// The next line. None where the finish was given.
    pub fn next_line(&mut self) -> Option<DrillLine>
        ensures some { IfSome result (λ line. self.old ≡ line ∷ self.new) }
        ensures none { IfNone result (self.old ≡ []) }
    {
        if self.left == 0 {
            return None;
        }
        self.left -= 1;
        if self.left == 0 {
            return Some(DrillLine::of(b"finish"));
        }
        self.number = next_number(self.number);
        let drawn = self.number / UNUSED;
        let (kind, amount) = (drawn % KINDS, drawn / KINDS);
        if kind == 0 {
            self.place += 1 + amount;
        }
        Some(line_of_kind(kind, amount, self.place))
    }
}

// The number that comes after a number.
fn next_number(number: u32) -> u32
    requires { number < 2 ^ 31 }
    ensures value { result ≡ next_number number }
    ensures small { result < 2 ^ 31 }
{
    ((MULTIPLIER * u64::from(number) + INCREMENT) % MODULUS) as u32
}

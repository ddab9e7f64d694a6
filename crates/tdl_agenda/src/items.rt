// What waits in an agenda.
ghost use Rattle.std.specs.Prelude.{◌≡◌, IsTrue, ◌↔◌};
ghost use Rattle.tdl_fraction.specs.Rational.{floor};
ghost use Rattle.tdl_agenda.specs.Agenda.{is_below};

use std::cmp::Ordering;
use tdl_fraction::Frac;
use tdl_midi::Note;

/// A note that ends at a time, in cycles. Among the ends of one time the order number decides.
#[derive(Clone, Copy, PartialEq, Eq)]
pub struct Item {
    pub time: Frac,
    pub order: u64,
    pub note: Note,
}

impl Item {
    /// Whether its turn is before that of another.
    pub(crate) fn is_below(&self, other: &Item) -> bool
        ensures { result ≡ is_below self.now other.now }
    {
        match self.time.compare(other.time) {
            Ordering::Less => true,
            Ordering::Equal => self.order < other.order,
            Ordering::Greater => false,
        }
    }

    /// Whether it ends in the cycle in which another ends.
    pub(crate) fn is_in_cycle_of(&self, other: &Item) -> bool
        ensures { IsTrue result ↔ (floor self.now.time ≡ floor other.now.time) }
    {
        let cycle = self.time.floor();
        cycle == other.time.floor()
    }
}

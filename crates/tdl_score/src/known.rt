// A history that is checked as it grows.
ghost use Rattle.std.specs.Prelude.{◌+◌, ◌^◌, ◌<◌, ◌≤◌, List, [], ◌∷◌, ◌++◌, IsTrue, ◌↔◌};
ghost use Rattle.tdl_fraction.specs.Units.{last_units};
ghost use Rattle.tdl_score.specs.declared.histories.Entry.{Entry as EntryValue};
ghost use Rattle.tdl_score.specs.History.{IsFinishAfter, IsPerformedAfter, IsTickAfter};
ghost use Rattle.tdl_score.specs.Known.{Tells};

use crate::histories::{Deed, Entry};
use tdl_fraction::{LAST_UNITS, TICK_UNITS};

const PERFORMERS: u32 = 8;

const MAX_PERFORMED: u32 = 1 << 14;

const MAX_TICKS: u32 = 1 << 22;

/// How far a history has come: how many entries it has, up to where its last tick played, in tick units, how many swaps
/// and looks and how many ticks there are, and whether the finish is among them.
#[derive(Clone, Copy)]
pub struct Known {
    pub place: u32,
    pub frontier: u64,
    pub performed: u32,
    pub ticks: u32,
    pub finished: bool,
}

impl Known {
    /// Nothing was accepted yet.
    pub fn of_nothing() -> Known
        ensures { Tells result [] }
    {
        Known {
            place: 0,
            frontier: 0,
            performed: 0,
            ticks: 0,
            finished: false,
        }
    }

    /// What is known with one entry more.
    pub fn with(self, entry: &Entry) -> Known
        requires place { self.place + 1 < 2 ^ 32 }
        requires performed { self.performed + 1 < 2 ^ 32 }
        requires ticks { self.ticks + 1 < 2 ^ 32 }
        ensures { (entries : List EntryValue) → Tells self entries → Tells result (entries ++ entry.now ∷ []) }
    {
        let place = self.place + 1;
        match &entry.deed {
            Deed::Swap { .. } | Deed::Look => Known {
                place,
                performed: self.performed + 1,
                ..self
            },
            Deed::Tick { to } => Known {
                place,
                frontier: *to,
                ticks: self.ticks + 1,
                ..self
            },
            Deed::Finish => Known {
                place,
                finished: true,
                ..self
            },
        }
    }

    /// Whether a caller may swap or look next.
    pub fn may_perform(&self, who: u32) -> bool
        ensures { (entries : List EntryValue) → Tells self.now entries → IsTrue result ↔ IsPerformedAfter entries who }
    {
        1 <= who && who <= PERFORMERS && self.performed < MAX_PERFORMED
    }

    /// Whether a caller may tick up to a time next, in tick units.
    pub fn may_tick(&self, who: u32, to: u64) -> bool
        requires { self.now.frontier ≤ last_units }
        ensures { (entries : List EntryValue) → Tells self.now entries → IsTrue result ↔ IsTickAfter entries who to }
    {
        who == 0
            && !self.finished
            && self.frontier < to
            && to <= self.frontier + TICK_UNITS
            && to <= LAST_UNITS
            && self.ticks < MAX_TICKS
    }

    /// Whether a caller may finish next.
    pub fn may_finish(&self, who: u32) -> bool
        ensures { (entries : List EntryValue) → Tells self.now entries → IsTrue result ↔ IsFinishAfter entries who }
    {
        who == 0 && !self.finished
    }
}

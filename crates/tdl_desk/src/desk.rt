// What plays at a cycle, by the changes that were made.
ghost use Rattle.std.specs.Prelude.{◌≡◌, ◌≤◌, List, [], ◌∷◌, ◌++◌, OnOk};
ghost use Rattle.std.specs.List.{list_any};
ghost use Rattle.std.specs.Option.{option_copied};
ghost use Rattle.tdl_desk.specs.declared.changes.Dated.{Dated as DatedOf};
ghost use Rattle.tdl_desk.specs.Desk.{HasOrbit, IsOrbit, desk, is_audible, orbits};
ghost use Rattle.tdl_desk.specs.Kept.{StandsFor};

use crate::changes::Change;
use crate::places::Places;
use std::alloc::Global;
use std::marker::Model;
use tdl_control::{MAX_ORBIT, NoMemory};

// For so many changes more room is made at once.
const ROOM: usize = 16;

/// What plays, what is muted and what is soloed, from the settled cycle on.
#[derive(Drop)]
pub struct Desk<P> {
    places: Places<P>,
    settled: u32,
    // for so many changes there is room in each list
    spare: usize,
    alloc: Global,
}

impl<P> Model for Desk<P> {
    ghost use Rattle.tdl_desk.specs.Kept.{IsKept, Kept};

    ghost Value = { Kept P };

    ghost view = { λ d. record {
      patterns = d.places.patterns.fields.items;
      muted = d.places.muted.fields.items;
      soloed = d.places.soloed.fields.items;
      settled = d.settled;
      spare = d.spare;
    } };

    ghost invariant = { λ d. IsKept d.places.patterns.fields.items d.places.muted.fields.items d.places.soloed.fields.items d.spare };
}

impl<P: Drop> Desk<P> {
    /// Nothing is set, muted or soloed; cycle 0 is settled. What it grows by comes from the allocator.
    pub fn new(alloc: Global) -> Desk<P>
        ensures stands { StandsFor result [] }
        ensures settled { result.settled ≡ 0 }
    {
        Desk {
            places: Places::new(alloc),
            settled: 0,
            spare: 0,
            alloc,
        }
    }

    /// Makes room for a change more.
    pub fn reserve(&mut self) -> Result<(), NoMemory>
        ensures ok { OnOk result (1 ≤ self.new.spare) }
        ensures stands { (changes : List (DatedOf P)) → StandsFor self.old changes → StandsFor self.new changes }
        ensures settled { self.new.settled ≡ self.old.settled }
    {
        if self.spare == 0 {
            self.places.make_room(self.alloc, ROOM)?;
            self.spare = ROOM;
        }
        Ok(())
    }

    /// Adds a change that holds from a cycle on which is not before the settled one.
    pub fn add(&mut self, boundary: u32, change: Change<P>)
        requires room { 1 ≤ self.old.spare }
        requires later { self.old.settled ≤ boundary }
        requires orbit { HasOrbit change }
        ensures stands { (changes : List (DatedOf P)) → StandsFor self.old changes
            → StandsFor self.new (changes ++ record { boundary = boundary; change = change } ∷ []) }
        ensures settled { self.new.settled ≡ self.old.settled }
    {
        self.places.make(self.settled, boundary, change);
        self.spare -= 1;
    }

    /// Settles what holds up to a cycle: none before it is asked for any more.
    pub fn settle(&mut self, cycle: u32)
        requires { self.old.settled ≤ cycle }
        ensures stands { (changes : List (DatedOf P)) → StandsFor self.old changes → StandsFor self.new changes }
        ensures settled { self.new.settled ≡ cycle }
        ensures spare { self.old.spare ≤ self.new.spare }
    {
        if self.settled < cycle {
            self.settled = cycle;
            self.places.settle(cycle);
        }
    }

    /// The cycle before which nothing is asked for any more.
    pub fn settled(&self) -> u32
        ensures { result ≡ self.now.settled }
    {
        self.settled
    }

    /// The pattern of an orbit at a cycle.
    pub fn pattern(&self, cycle: u32, orbit: u8) -> Option<&P>
        requires later { self.now.settled ≤ cycle }
        requires orbit { IsOrbit orbit }
        ensures { (changes : List (DatedOf P)) → StandsFor self.now changes → option_copied result ≡ (desk changes cycle).pattern orbit }
    {
        self.places.patterns.at(cycle, orbit)
    }

    /// Whether an orbit is muted at a cycle.
    pub fn muted(&self, cycle: u32, orbit: u8) -> bool
        requires later { self.now.settled ≤ cycle }
        requires orbit { IsOrbit orbit }
        ensures { (changes : List (DatedOf P)) → StandsFor self.now changes → result ≡ (desk changes cycle).muted orbit }
    {
        self.places.muted.at(cycle, orbit).is_some()
    }

    /// Whether an orbit is soloed at a cycle.
    pub fn soloed(&self, cycle: u32, orbit: u8) -> bool
        requires later { self.now.settled ≤ cycle }
        requires orbit { IsOrbit orbit }
        ensures { (changes : List (DatedOf P)) → StandsFor self.now changes → result ≡ (desk changes cycle).soloed orbit }
    {
        self.places.soloed.at(cycle, orbit).is_some()
    }

    /// Whether an orbit is heard at a cycle: it is soloed, or none is and it is not muted.
    pub fn audible(&self, cycle: u32, orbit: u8) -> bool
        requires later { self.now.settled ≤ cycle }
        requires orbit { IsOrbit orbit }
        ensures { (changes : List (DatedOf P)) → StandsFor self.now changes → result ≡ is_audible (desk changes cycle) orbit }
    {
        self.audible_among(cycle, orbit, self.any_soloed(cycle))
    }

    /// The same, if it is known whether any orbit is soloed at the cycle.
    pub fn audible_among(&self, cycle: u32, orbit: u8, any_soloed: bool) -> bool
        requires later { self.now.settled ≤ cycle }
        requires orbit { IsOrbit orbit }
        ensures { (changes : List (DatedOf P)) → StandsFor self.now changes → any_soloed ≡ list_any (desk changes cycle).soloed orbits
            → result ≡ is_audible (desk changes cycle) orbit }
    {
        if any_soloed {
            self.soloed(cycle, orbit)
        } else {
            !self.muted(cycle, orbit)
        }
    }

    /// Whether any orbit is soloed at a cycle.
    pub fn any_soloed(&self, cycle: u32) -> bool
        requires { self.now.settled ≤ cycle }
        ensures { (changes : List (DatedOf P)) → StandsFor self.now changes → result ≡ list_any (desk changes cycle).soloed orbits }
    {
        for orbit in 1..=MAX_ORBIT {
            if self.soloed(cycle, orbit) {
                return true;
            }
        }
        false
    }
}

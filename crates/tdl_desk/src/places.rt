// The three things of each orbit.
ghost use Rattle.std.specs.Prelude.{◌≤◌, ℕ, suc, nat_le, if◌then◌else◌, OnOk};
ghost use Rattle.tdl_desk.specs.Desk.{AreSame, HasOrbit, empty_desk, with_change};
ghost use Rattle.tdl_desk.specs.inside.Settled.{HasRoomFor, desk_at};

use crate::changes::Change;
use crate::fields::Mark;
use crate::orbits::Orbits;
use std::alloc::Global;
use tdl_control::NoMemory;

/// What the orbits play, and which are muted and soloed.
#[derive(Drop)]
pub struct Places<P> {
    pub patterns: Orbits<P>,
    pub muted: Orbits<Mark>,
    pub soloed: Orbits<Mark>,
}

impl<P: Drop> Places<P> {
    /// Nothing is set, muted or soloed.
    pub fn new(alloc: Global) -> Places<P>
        ensures same { (cycle : ℕ) → AreSame empty_desk (desk_at result cycle) }
        ensures room { HasRoomFor result 0 }
    {
        Places {
            patterns: Orbits::new(alloc),
            muted: Orbits::new(alloc),
            soloed: Orbits::new(alloc),
        }
    }

    /// Makes room for so many changes. What was made stays where memory runs out.
    pub fn make_room(&mut self, alloc: Global, n: usize) -> Result<(), NoMemory>
        ensures same { (cycle : ℕ) → AreSame (desk_at self.old cycle) (desk_at self.new cycle) }
        ensures room { (spare : ℕ) → HasRoomFor self.old spare → HasRoomFor self.new spare }
        ensures ok { OnOk result (HasRoomFor self.new n) }
    {
        self.patterns.make_room(alloc, n)?;
        self.muted.make_room(alloc, n)?;
        self.soloed.make_room(alloc, n)
    }

    /// Makes a change that holds from a boundary on.
    pub fn make(&mut self, settled: u32, boundary: u32, change: Change<P>)
        requires room { HasRoomFor self.old 1 }
        requires orbit { HasOrbit change }
        ensures desk { (cycle : ℕ) → settled ≤ cycle
            → AreSame (if nat_le boundary cycle then with_change change (desk_at self.old cycle) else desk_at self.old cycle) (desk_at self.new cycle) }
        ensures room { (spare : ℕ) → HasRoomFor self.old (suc spare) → HasRoomFor self.new spare }
    {
        match change {
            Change::Set { orbit, pattern } => {
                self.patterns.set(settled, boundary, orbit, Some(pattern));
            }
            Change::Hush => self.patterns.clear(settled, boundary),
            Change::Mute { orbit } => self.muted.set(settled, boundary, orbit, Some(Mark)),
            Change::Unmute { orbit } => self.muted.set(settled, boundary, orbit, None),
            Change::Solo { orbit } => self.soloed.set(settled, boundary, orbit, Some(Mark)),
            Change::Unsolo { orbit } => self.soloed.set(settled, boundary, orbit, None),
            Change::UnmuteAll => self.muted.clear(settled, boundary),
            Change::UnsoloAll => self.soloed.clear(settled, boundary),
        }
    }

    /// What has come by a cycle is there now.
    pub fn settle(&mut self, cycle: u32)
        ensures same { (later : ℕ) → cycle ≤ later → AreSame (desk_at self.old later) (desk_at self.new later) }
        ensures room { (spare : ℕ) → HasRoomFor self.old spare → HasRoomFor self.new spare }
    {
        self.patterns.settle(cycle);
        self.muted.settle(cycle);
        self.soloed.settle(cycle);
    }
}

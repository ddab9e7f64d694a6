// A field of each orbit.
ghost use Rattle.std.specs.Prelude.{◌≡◌, ◌≤◌, ◌-◌, ℕ, suc, [], length, nat_le, if◌then◌else◌, None, OnOk};
ghost use Rattle.std.specs.Option.{option_copied};
ghost use Rattle.tdl_control.specs.Limits.{max_orbit};
ghost use Rattle.tdl_desk.specs.Desk.{IsOrbit, at_orbit};
ghost use Rattle.tdl_desk.specs.Fields.{HasRoom, held_at};

use crate::fields::Field;
use std::alloc::Global;
use tdl_control::{MAX_ORBIT, NoMemory};

// How many orbits there are.
const ORBITS: usize = MAX_ORBIT as usize;

/// By orbit, the first at place 0. What has no place yet is nothing.
#[derive(Drop)]
pub struct Orbits<T> {
    pub fields: Vec<Field<T>>,
}

// The place of an orbit.
fn place(orbit: u8) -> usize
    requires { IsOrbit orbit }
    ensures { result ≡ orbit - 1 }
{
    usize::from(orbit) - 1
}

impl<T: Drop> Orbits<T> {
    /// No orbit has anything.
    pub fn new(alloc: Global) -> Orbits<T>
        ensures { result.fields.items ≡ [] }
    {
        Orbits {
            fields: Vec::new(alloc),
        }
    }

    /// Makes a place for each orbit, and room for so many changes in each. What was made stays where memory runs out.
    pub fn make_room(&mut self, alloc: Global, n: usize) -> Result<(), NoMemory>
        ensures same { (orbit cycle : ℕ) → held_at self.new.fields.items orbit cycle ≡ held_at self.old.fields.items orbit cycle }
        ensures room { (spare : ℕ) → HasRoom self.old.fields.items spare → HasRoom self.new.fields.items spare }
        ensures ok { OnOk result (HasRoom self.new.fields.items n) }
    {
        self.make_places(alloc)?;
        for field in self.fields.iter_mut() {
            field.reserve(n)?;
        }
        Ok(())
    }

    // Makes a place for each orbit.
    fn make_places(&mut self, alloc: Global) -> Result<(), NoMemory>
        ensures same { (orbit cycle : ℕ) → held_at self.new.fields.items orbit cycle ≡ held_at self.old.fields.items orbit cycle }
        ensures room { (spare : ℕ) → HasRoom self.old.fields.items spare → HasRoom self.new.fields.items spare }
        ensures ok { OnOk result (max_orbit ≤ length self.new.fields.items) }
    {
        while self.fields.len() < ORBITS {
            self.fields.push(Field::new(alloc))?;
        }
        Ok(())
    }

    /// From a boundary on an orbit has this.
    pub fn set(&mut self, settled: u32, boundary: u32, orbit: u8, value: Option<T>)
        requires room { HasRoom self.old.fields.items 1 }
        requires orbit { IsOrbit orbit }
        ensures value { (o cycle : ℕ) → IsOrbit o → settled ≤ cycle → held_at self.new.fields.items o cycle
            ≡ (if nat_le boundary cycle then at_orbit orbit value (λ p. held_at self.old.fields.items p cycle) o else held_at self.old.fields.items o cycle) }
        ensures room { (spare : ℕ) → HasRoom self.old.fields.items (suc spare) → HasRoom self.new.fields.items spare }
    {
        self.fields[place(orbit)].set(settled, boundary, value);
    }

    /// From a boundary on no orbit has anything.
    pub fn clear(&mut self, settled: u32, boundary: u32)
        requires room { HasRoom self.old.fields.items 1 }
        ensures value { (o cycle : ℕ) → IsOrbit o → settled ≤ cycle → held_at self.new.fields.items o cycle
            ≡ (if nat_le boundary cycle then None else held_at self.old.fields.items o cycle) }
        ensures room { (spare : ℕ) → HasRoom self.old.fields.items (suc spare) → HasRoom self.new.fields.items spare }
    {
        for field in self.fields.iter_mut() {
            field.set(settled, boundary, None);
        }
    }

    /// What has come by a cycle is there now.
    pub fn settle(&mut self, cycle: u32)
        ensures value { (o later : ℕ) → cycle ≤ later → held_at self.new.fields.items o later ≡ held_at self.old.fields.items o later }
        ensures room { (spare : ℕ) → HasRoom self.old.fields.items spare → HasRoom self.new.fields.items spare }
    {
        for field in self.fields.iter_mut() {
            field.settle(cycle);
        }
    }

    /// What an orbit has at a cycle.
    pub fn at(&self, cycle: u32, orbit: u8) -> Option<&T>
        requires { IsOrbit orbit }
        ensures { option_copied result ≡ held_at self.now.fields.items orbit cycle }
    {
        match self.fields.get(place(orbit)) {
            Some(field) => field.at(cycle),
            None => None,
        }
    }
}

// What was accepted.
ghost use Rattle.std.specs.Prelude.{◌≡◌, ◌+◌, ◌<◌, ◌^◌, true, false, [], ◌∷◌, ◌++◌, length, IsTrue, ◌↔◌, OnOk};
ghost use Rattle.std.specs.List.{HoldsAt};
ghost use Rattle.tdl_score.specs.declared.histories.Deed.TheVariants.{Finish};
ghost use Rattle.tdl_score.specs.History.{is_finished};
ghost use Rattle.tdl_score.specs.Placed.{IsPlaced};

use std::alloc::Global;
use std::marker::Model;
use tdl_control::{NoMemory, Text};

/// What was done.
#[derive(Drop)]
pub enum Deed {
    /// What is played was changed from the cycle `boundary` on, by this line.
    Swap { boundary: u32, text: Text },
    /// What is played was looked at.
    Look,
    /// All onsets before this time, in tick units, were played.
    Tick { to: u64 },
    /// All notes that sounded were ended.
    Finish,
}

/// An accepted call: the caller's number, 0 for ticks and the finish and 1 to 8 for performers, the time up to
/// which was played before it, in tick units, and what was done.
#[derive(Drop)]
pub struct Entry {
    pub who: u32,
    pub frontier: u64,
    pub deed: Deed,
}

/// What was accepted in a run, in order: fewer than 2^32 entries, none of a time past the last cycle. The
/// finish has a place of its own, so it can be put there without memory.
#[derive(Drop)]
pub struct History {
    entries: Vec<Entry>,
    // the finish, while no entry follows it
    finish: Option<Entry>,
    // whether one entry more has its room
    has_room: bool,
}

impl Model for History {
    ghost use Rattle.std.specs.Vec.{vec_capacity, vec_len};
    ghost use Rattle.tdl_score.specs.Placed.{HistoryView};
    ghost use Rattle.tdl_score.specs.Slots.{IsStored, kept_entries};

    ghost Value = { HistoryView };

    ghost view = { λ h. record { entries = kept_entries h.entries.items h.finish; has_room = h.has_room } };

    ghost invariant = { λ h. IsStored h.entries.items h.finish h.has_room (vec_len h.entries) (vec_capacity h.entries) };
}

impl History {
    /// No entries. What the list grows by comes from the allocator.
    pub fn new(alloc: Global) -> History
        ensures { result.entries ≡ [] }
    {
        History {
            entries: Vec::new(alloc),
            finish: None,
            has_room: false,
        }
    }

    /// How many entries there are.
    pub fn len(&self) -> u32
        ensures value { result ≡ length self.now.entries }
        ensures few { length self.now.entries < 2 ^ 32 }
    {
        self.entries.len() as u32 + u32::from(self.finish.is_some())
    }

    /// Whether there are none.
    pub fn is_empty(&self) -> bool
        ensures { IsTrue result ↔ (self.now.entries ≡ []) }
    {
        self.entries.is_empty() && self.finish.is_none()
    }

    /// The entry at place `i`, from 0.
    pub fn get(&self, i: u32) -> &Entry
        requires { i < length self.now.entries }
        ensures entry { HoldsAt (λ entry. result.now ≡ entry) self.now.entries i }
        ensures placed { IsPlaced result.now }
    {
        match &self.finish {
            Some(finish) if i as usize == self.entries.len() => finish,
            _ => &self.entries[i as usize],
        }
    }

    /// Makes room for one entry more.
    pub fn reserve(&mut self) -> Result<(), NoMemory>
        ensures ok { OnOk result (self.new.has_room ≡ true) }
        ensures entries { self.new.entries ≡ self.old.entries }
    {
        self.entries.reserve(2)?;
        self.has_room = true;
        Ok(())
    }

    /// Puts an entry at the end, for which there is room.
    pub fn push(&mut self, entry: Entry)
        requires room { self.old.has_room ≡ true }
        requires few { length self.old.entries + 1 < 2 ^ 32 }
        requires placed { IsPlaced entry }
        ensures { self.new.entries ≡ self.old.entries ++ entry ∷ [] }
    {
        if let Some(finish) = self.finish.take() {
            self.entries.push_reserved(finish);
        }
        self.entries.push_reserved(entry);
        self.has_room = false;
    }

    /// Puts the finish at the end, for which there is always room.
    pub fn push_finish(&mut self, entry: Entry)
        requires going { is_finished self.old.entries ≡ false }
        requires finish { entry.deed ≡ Finish }
        requires few { length self.old.entries + 1 < 2 ^ 32 }
        requires placed { IsPlaced entry }
        ensures { self.new.entries ≡ self.old.entries ++ entry ∷ [] }
    {
        self.finish = Some(entry);
    }
}

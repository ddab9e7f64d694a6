//! The tape, and what it refuses.
ghost use Rattle.std.specs.Prelude.{◌≡◌, []};
ghost use Rattle.tdl_tape.specs.Tapes.{IsLegal, Adds, Refuses};

use std::alloc::Global;
use std::marker::Model;
use tdl_session::Machine;
use tdl_turn::Chronicle;

/// The greatest number that is taken.
const GREATEST: u64 = 99;

/// A number that was taken, by the caller of another.
#[derive(Clone, Copy)]
pub struct Entry {
    pub who: u32,
    pub number: u64,
}

/// Why a number is not taken.
#[derive(Debug, Drop, PartialEq)]
pub enum Refusal {
    /// It is above 99; the tape has so many entries.
    TooLarge { entries: u64 },
    /// Memory ran out.
    NoMemory,
}

/// The numbers that were taken, in their order. None is above 99.
#[derive(Drop)]
pub struct Tape {
    entries: Vec<Entry>,
}

impl Model for Tape {
    ghost use Rattle.std.specs.Prelude.{List};
    ghost use Rattle.tdl_tape.specs.Tapes.{IsLegal};
    ghost use Rattle.tdl_tape.specs.declared.tape.Entry.{Entry as EntryValue};

    ghost Value = { List EntryValue };

    ghost view = { λ tape. tape.entries.items };

    ghost invariant = { λ tape. IsLegal tape.entries.items };
}

impl Tape {
    /// No numbers. What the tape grows by comes from the allocator.
    pub fn new(alloc: Global) -> Tape
        ensures { result ≡ [] }
    {
        Tape {
            entries: Vec::new(alloc),
        }
    }

    /// The entries in their order.
    pub fn as_slice(&self) -> &[Entry]
        ensures { result.now ≡ self.now }
    {
        &self.entries
    }
}

impl Chronicle for Tape {
    type Entry = Entry;

    type Fixed = ();

    ghost history = { λ tape. tape };

    ghost by = { λ e. e.who };

    ghost fixed = { λ tape. tt };

    fn entries(&self) -> u64 {
        self.entries.len() as u64
    }
}

impl Machine for Tape {
    type Call = u64;

    type Reply = u64;

    type Refusal = Refusal;

    ghost legal = { λ fixed entries. IsLegal entries };

    ghost adds = { λ fixed. Adds };

    ghost refuses = { λ fixed entries who number refusal. Refuses entries number refusal };

    ghost may = { λ who own number. Unit {0} };

    fn legal_law(&self) {
        let _ = self.entries.len();
    }

    fn apply(&mut self, _alloc: Global, who: u32, call: u64) -> Result<u64, Refusal> {
        let entries = self.entries.len() as u64;
        if call > GREATEST {
            return Err(Refusal::TooLarge { entries });
        }
        let entry = Entry { who, number: call };
        if self.entries.push(entry).is_err() {
            return Err(Refusal::NoMemory);
        }
        Ok(entries)
    }
}

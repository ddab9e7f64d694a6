// One thing of an orbit that changes from cycle to cycle: its pattern, or a mark.
ghost use Rattle.std.specs.Prelude.{◌≡◌, ◌≤◌, ◌<◌, ◌+◌, ℕ, [], ◌∷◌, nat_le, if◌then◌else◌, None, Option as OptionOf, OnOk, IfSome, IfNone};
ghost use Rattle.std.specs.Option.{option_copied};
ghost use Rattle.tdl_desk.specs.Fields.{value_at};

use crate::pending::{put, settle_in};
use std::alloc::Global;
use std::collections::VecDeque;
use std::marker::Model;
use tdl_control::NoMemory;

/// That an orbit is muted, or that it is soloed.
#[derive(Clone, Copy)]
pub struct Mark;

/// What a field has from a cycle on, or that it has nothing then.
#[derive(Drop)]
pub struct Later<T> {
    pub boundary: u32,
    pub value: Option<T>,
}

/// What there is now, and what comes later, with rising boundaries.
#[derive(Drop)]
pub struct Field<T> {
    present: Option<T>,
    pending: VecDeque<Later<T>>,
}

impl<T> Model for Field<T> {
    ghost use Rattle.std.specs.Prelude.{◌-◌};
    ghost use Rattle.std.specs.VecDeque.{deque_len, deque_capacity};
    ghost use Rattle.tdl_desk.specs.Fields.{Held, Rises};

    ghost Value = { Held T };

    ghost view = { λ f. record { present = f.present; pending = f.pending.items; room = deque_capacity f.pending - deque_len f.pending } };

    ghost invariant = { λ f. Rises f.pending.items };
}

impl<T: Drop> Field<T> {
    /// There is nothing, and nothing comes.
    pub fn new(alloc: Global) -> Field<T>
        ensures present { result.present ≡ None }
        ensures pending { result.pending ≡ [] }
    {
        Field {
            present: None,
            pending: VecDeque::new(alloc),
        }
    }

    /// Makes room for so many changes.
    pub fn reserve(&mut self, n: usize) -> Result<(), NoMemory>
        ensures ok { OnOk result (n ≤ self.new.room) }
        ensures present { self.new.present ≡ self.old.present }
        ensures pending { self.new.pending ≡ self.old.pending }
        ensures room { self.old.room ≤ self.new.room }
    {
        self.pending.reserve(n)?;
        Ok(())
    }

    /// From a boundary on there is this, whatever was to come from then on.
    pub fn set(&mut self, settled: u32, boundary: u32, value: Option<T>)
        requires room { 1 ≤ self.old.room }
        ensures value { (cycle : ℕ) → settled ≤ cycle
            → value_at self.new cycle ≡ (if nat_le boundary cycle then value else value_at self.old cycle) }
        ensures room { self.old.room ≤ self.new.room + 1 }
    {
        if boundary <= settled {
            self.pending.clear();
            self.present = value;
        } else {
            put(&mut self.pending, Later { boundary, value });
        }
    }

    /// What has come by a cycle is there now.
    pub fn settle(&mut self, cycle: u32)
        ensures value { (later : ℕ) → cycle ≤ later → value_at self.new later ≡ value_at self.old later }
        ensures room { self.old.room ≤ self.new.room }
    {
        settle_in(&mut self.present, &mut self.pending, cycle);
    }

    /// What there is at a cycle.
    pub fn at(&self, cycle: u32) -> Option<&T>
        ensures { option_copied result ≡ value_at self.now cycle }
    {
        let mut value = self.present.as_ref();
        let mut next = 0;
        loop {
            let Some(later) = self.pending.get(next) else {
                return value;
            };
            if later.boundary > cycle {
                return value;
            }
            value = later.value.as_ref();
            next += 1;
        }
    }
}

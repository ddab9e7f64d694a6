// The items that wait, in the order of their turns.
ghost use Rattle.std.specs.Prelude.{◌≡◌, ◌≢◌, ◌+◌, ◌≤◌, ◌<◌, ◌↔◌, [], ◌∷◌, length, slice_get, Some as SomeOf, IsTrue, IsSomeAnd, IfSome, IfNone, OnOk, OnErr};
ghost use Rattle.std.specs.Bool.{OnFalse, OnTrue};
ghost use Rattle.std.specs.List.{AllByRecursion};
ghost use Rattle.tdl_fraction.specs.Rational.{◌<ℚ◌, ◌≤ℚ◌};
ghost use Rattle.tdl_agenda.specs.Agenda.{IsSorted, inserted, numbered};

use crate::chains::Chains;
use crate::items::Item;
use std::alloc::Global;
use std::marker::Model;
use tdl_control::NoMemory;
use tdl_fraction::Frac;

/// Items sorted by time, and at one time by order number.
#[derive(Drop)]
pub struct Agenda {
    chains: Chains,
}

impl Model for Agenda {
    ghost use Rattle.std.specs.Prelude.{◌-◌, length};
    ghost use Rattle.tdl_agenda.specs.Agenda.{Kept};
    ghost use Rattle.tdl_agenda.specs.Slots.{in_order};
    ghost use Rattle.tdl_agenda.specs.Linked.{AreLinked, HasTails, IsFirst};

    ghost Value = { Kept };

    ghost view = { λ a. record { items = in_order a.chains.slots.items; spare = length a.chains.slots.items - a.chains.len } };

    ghost invariant = { λ a. record {
      linked : AreLinked a.chains;
      first : IsFirst a.chains.slots.items a.chains.first;
      tails : HasTails a.chains.slots.items a.chains.tails;
    } };
}

impl Agenda {
    /// Nothing waits, and there is no room yet: that comes from the allocator, as `reserve` asks for it.
    pub fn new(alloc: Global) -> Agenda
        ensures items { result.items ≡ [] }
        ensures spare { result.spare ≡ 0 }
    {
        Agenda {
            chains: Chains::new(alloc),
        }
    }

    /// Makes room for `n` items more. Memory runs out only where there was less.
    pub fn reserve(&mut self, n: usize) -> Result<(), NoMemory>
        ensures ok { OnOk result (n ≤ self.new.spare) }
        ensures err { OnErr result (self.old.spare < n) }
        ensures items { self.new.items ≡ self.old.items }
        ensures spare { self.old.spare ≤ self.new.spare }
    {
        self.chains.reserve(n)
    }

    /// Puts an item before the first one that is above it: in one step where it is above those of its chain, which has
    /// the items whose cycles are the same modulo 64, and else in as many as the chain has items below it.
    pub fn insert(&mut self, item: Item)
        requires room { 1 ≤ self.old.spare }
        requires order { AllByRecursion (λ other. other.order ≢ item.order) self.old.items }
        ensures items { self.new.items ≡ inserted item self.old.items }
        ensures spare { self.new.spare + 1 ≡ self.old.spare }
    {
        self.chains.insert(item);
    }

    /// Numbers the items anew, in their order and from 0 on, in 64 steps for each.
    pub fn renumber(&mut self)
        ensures items { self.new.items ≡ numbered 0 self.old.items }
        ensures spare { self.new.spare ≡ self.old.spare }
    {
        self.chains.renumber();
    }

    /// Takes out the first item, if its time is before this one.
    pub fn pop_before(&mut self, time: Frac) -> Option<Item>
        ensures first { IfSome result (λ item. self.old.items ≡ item ∷ self.new.items) }
        ensures before { IfSome result (λ item. item.time <ℚ time) }
        ensures none { IfNone result (AllByRecursion (λ item. time ≤ℚ item.time) self.old.items) }
        ensures stays { IfNone result (self.new.items ≡ self.old.items) }
        ensures spare { self.old.spare ≤ self.new.spare }
    {
        if self.is_due(time) {
            self.pop_next()
        } else {
            None
        }
    }

    /// Takes out the first item: in one step where the next of its chain ends in the same cycle, and else it looks at
    /// the first of each chain.
    pub fn pop_next(&mut self) -> Option<Item>
        ensures first { IfSome result (λ item. self.old.items ≡ item ∷ self.new.items) }
        ensures none { IfNone result (self.old.items ≡ []) }
        ensures stays { IfNone result (self.new.items ≡ self.old.items) }
        ensures spare { self.old.spare ≤ self.new.spare }
    {
        self.chains.pop()
    }

    /// How many items wait.
    pub fn len(&self) -> usize
        ensures { result ≡ length self.now.items }
    {
        self.chains.len
    }

    /// Whether nothing waits.
    pub fn is_empty(&self) -> bool
        ensures { IsTrue result ↔ (self.now.items ≡ []) }
    {
        self.chains.len == 0
    }

    /// The item whose turn is first.
    pub fn first(&self) -> Option<&Item>
        ensures first { IfSome result (λ item. slice_get self.now.items 0 ≡ SomeOf item.now) }
        ensures none { IfNone result (self.now.items ≡ []) }
        ensures sorted { IsSorted self.now.items }
    {
        match self.chains.first {
            Some(slot) => self.chains.slots[slot].item.as_ref(),
            None => None,
        }
    }

    // Whether the first item's time is before this one.
    fn is_due(&self, time: Frac) -> bool
        ensures due { OnTrue result (IsSomeAnd (slice_get self.now.items 0) (λ item. item.time <ℚ time)) }
        ensures not_due { OnFalse result (AllByRecursion (λ item. time ≤ℚ item.time) self.now.items) }
    {
        match self.first() {
            Some(item) => item.time.is_less(time),
            None => false,
        }
    }
}

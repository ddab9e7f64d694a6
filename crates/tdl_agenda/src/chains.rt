// Items in linked slots: a chain for each whole part of a time modulo 64.
ghost use Rattle.std.specs.Prelude.{◌≡◌, ℕ, ◌+◌, ◌-◌, ◌≤◌, ◌<◌, ◌∷◌, [], ◌⊎◌, length, get_or, IfSome, IfNone, OnOk, OnErr};
ghost use Rattle.std.specs.Prelude.{List as ListOf, Some as SomeOf, None as NoneOf};
ghost use Rattle.tdl_agenda.specs.declared.chains.Slot.{Slot as SlotOf};
ghost use Rattle.tdl_agenda.specs.Agenda.{inserted, numbered};
ghost use Rattle.tdl_agenda.specs.Slots.{chain_of, in_order, item_at};
ghost use Rattle.tdl_agenda.specs.Linked.{AreLinked, HasTails, IsFirst};
ghost use Rattle.tdl_agenda.specs.inside.Steps.{ApartFrom, HasItem, HaveItems, IsBelowAll, IsGained, IsLowest, IsPlace, IsTaken, NotAbove};

use crate::items::Item;
use std::alloc::Global;
use tdl_control::NoMemory;

const CHAINS: usize = 64;

/// A slot with an item and the next slot of its chain, or with no item and the next free slot.
#[derive(Clone, Copy)]
pub(crate) struct Slot {
    pub item: Option<Item>,
    pub next: Option<usize>,
}

/// Where an item belongs in its chain: between these slots.
#[derive(Clone, Copy)]
pub(crate) struct Place {
    pub before: Option<usize>,
    pub after: Option<usize>,
}

/// Slots in chains, each sorted by time and order number, and the free slots in a list.
#[derive(Drop)]
pub(crate) struct Chains {
    pub slots: Vec<Slot>,
    pub heads: [Option<usize>; CHAINS],
    pub tails: [Option<usize>; CHAINS],
    // the slot of the item whose turn is first
    pub first: Option<usize>,
    pub free: Option<usize>,
    // how many items there are
    pub len: usize,
}

// The chain of an item.
fn chain(item: &Item) -> usize
    ensures value { result ≡ chain_of item.now }
    ensures bound { result < 64 }
{
    (item.time.floor().unsigned_abs() % CHAINS as u64) as usize
}

impl Chains {
    /// No slots.
    pub fn new(alloc: Global) -> Chains
        ensures linked { AreLinked result }
        ensures first { IsFirst result.slots.items result.first }
        ensures tails { HasTails result.slots.items result.tails }
        ensures slots { result.slots.items ≡ [] }
        ensures len { result.len ≡ 0 }
    {
        Chains {
            slots: Vec::new(alloc),
            heads: [None; CHAINS],
            tails: [None; CHAINS],
            first: None,
            free: None,
            len: 0,
        }
    }

    /// Makes free slots for so many items more.
    pub fn reserve(&mut self, n: usize) -> Result<(), NoMemory>
        requires linked { AreLinked self.old }
        requires first { IsFirst self.old.slots.items self.old.first }
        requires tails { HasTails self.old.slots.items self.old.tails }
        ensures linked { AreLinked self.new }
        ensures first { IsFirst self.new.slots.items self.new.first }
        ensures tails { HasTails self.new.slots.items self.new.tails }
        ensures items { in_order self.new.slots.items ≡ in_order self.old.slots.items }
        ensures spare { length self.old.slots.items - self.old.len ≤ length self.new.slots.items - self.new.len }
        ensures ok { OnOk result (n ≤ length self.new.slots.items - self.new.len) }
        ensures err { OnErr result (length self.old.slots.items - self.old.len < n) }
    {
        while self.slots.len() - self.len < n {
            self.slots.push(Slot {
                item: None,
                next: self.free,
            })?;
            self.free = Some(self.slots.len() - 1);
        }
        Ok(())
    }

    /// Puts an item into a free slot, and that slot into the item's chain.
    pub fn insert(&mut self, item: Item)
        requires linked { AreLinked self.old }
        requires first { IsFirst self.old.slots.items self.old.first }
        requires tails { HasTails self.old.slots.items self.old.tails }
        requires room { self.old.len < length self.old.slots.items }
        requires order { ApartFrom self.old.slots.items item }
        ensures linked { AreLinked self.new }
        ensures first { IsFirst self.new.slots.items self.new.first }
        ensures tails { HasTails self.new.slots.items self.new.tails }
        ensures items { in_order self.new.slots.items ≡ inserted item (in_order self.old.slots.items) }
        ensures slots { length self.new.slots.items ≡ length self.old.slots.items }
        ensures len { self.new.len ≡ self.old.len + 1 }
    {
        let slot = self.free.unwrap();
        let first = self.first_with(&item, slot);
        let chain = chain(&item);
        let place = self.place(chain, &item);
        self.free = self.slots[slot].next;
        self.slots[slot] = Slot {
            item: Some(item),
            next: place.after,
        };
        self.len += 1;
        self.first = first;
        self.tails[chain] = place.after.and(self.tails[chain]).or(Some(slot));
        match place.before {
            Some(before) => self.slots[before].next = Some(slot),
            None => self.heads[chain] = Some(slot),
        }
    }

    /// Takes out the item whose turn is first.
    pub fn pop(&mut self) -> Option<Item>
        requires linked { AreLinked self.old }
        requires first { IsFirst self.old.slots.items self.old.first }
        requires tails { HasTails self.old.slots.items self.old.tails }
        ensures linked { AreLinked self.new }
        ensures at_first { IsFirst self.new.slots.items self.new.first }
        ensures tails { HasTails self.new.slots.items self.new.tails }
        ensures first { IfSome result (λ item. in_order self.old.slots.items ≡ item ∷ in_order self.new.slots.items) }
        ensures none { IfNone result (in_order self.old.slots.items ≡ []) }
        ensures stays { IfNone result (in_order self.new.slots.items ≡ in_order self.old.slots.items) }
        ensures slots { length self.new.slots.items ≡ length self.old.slots.items }
        ensures len { self.new.len ≤ self.old.len }
    {
        let Some(slot) = self.first else {
            return None;
        };
        let item = self.item(slot);
        let chain = chain(&item);
        let next = self.slots[slot].next;
        self.heads[chain] = next;
        self.tails[chain] = next.and(self.tails[chain]);
        self.slots[slot] = Slot {
            item: None,
            next: self.free,
        };
        self.free = Some(slot);
        self.len -= 1;
        self.first = self.first_after(&item, next);
        Some(item)
    }

    /// Numbers the items anew, in their order and from 0 on: each time the lowest of what is left of the chains.
    pub fn renumber(&mut self)
        requires linked { AreLinked self.old }
        requires first { IsFirst self.old.slots.items self.old.first }
        requires tails { HasTails self.old.slots.items self.old.tails }
        ensures linked { AreLinked self.new }
        ensures first { IsFirst self.new.slots.items self.new.first }
        ensures tails { HasTails self.new.slots.items self.new.tails }
        ensures items { in_order self.new.slots.items ≡ numbered 0 (in_order self.old.slots.items) }
        ensures slots { length self.new.slots.items ≡ length self.old.slots.items }
        ensures len { self.new.len ≡ self.old.len }
    {
        let mut heads = self.heads;
        let mut number = 0;
        while let Some(slot) = self.lowest(&heads) {
            let item = self.item(slot);
            heads[chain(&item)] = self.slots[slot].next;
            self.slots[slot].item = Some(Item {
                order: number,
                ..item
            });
            number += 1;
        }
    }

    // The item of a slot that has one.
    fn item(&self, slot: usize) -> Item
        requires { IsTaken self.now.slots.items slot }
        ensures { item_at self.now.slots.items slot ≡ SomeOf result }
    {
        self.slots[slot].item.unwrap()
    }

    // Which slot is first once this free one has the item.
    fn first_with(&self, item: &Item, slot: usize) -> Option<usize>
        requires first { IsFirst self.now.slots.items self.now.first }
        requires order { ApartFrom self.now.slots.items item.now }
        ensures { (slots : ListOf SlotOf) → IsGained self.now.slots.items slots slot item.now → IsFirst slots result }
    {
        match self.first {
            Some(first) => {
                if self.item(first).is_below(item) {
                    Some(first)
                } else {
                    Some(slot)
                }
            }
            None => Some(slot),
        }
    }

    // Where the item belongs: at the end of its chain, or else where a walk from the head comes.
    fn place(&self, chain: usize, item: &Item) -> Place
        requires linked { AreLinked self.now }
        requires tails { HasTails self.now.slots.items self.now.tails }
        requires order { ApartFrom self.now.slots.items item.now }
        requires chain { chain ≡ chain_of item.now }
        requires bound { chain < 64 }
        ensures { IsPlace self.now.slots.items item.now result.before result.after }
    {
        match self.tails[chain] {
            Some(tail) => {
                if self.item(tail).is_below(item) {
                    Place {
                        before: Some(tail),
                        after: None,
                    }
                } else {
                    self.walk(chain, item)
                }
            }
            None => self.walk(chain, item),
        }
    }

    // Goes on from the head of the chain, past the items that are below this one.
    fn walk(&self, chain: usize, item: &Item) -> Place
        requires linked { AreLinked self.now }
        requires order { ApartFrom self.now.slots.items item.now }
        requires chain { chain ≡ chain_of item.now }
        requires bound { chain < 64 }
        ensures { IsPlace self.now.slots.items item.now result.before result.after }
    {
        let mut before = None;
        let mut after = self.heads[chain];
        loop {
            let Some(slot) = after else {
                return Place { before, after };
            };
            if item.is_below(&self.item(slot)) {
                return Place { before, after };
            }
            before = after;
            after = self.slots[slot].next;
        }
    }

    // The first slot, once an item that was below all others was taken out: the next one of its chain, if that is of
    // the same cycle, or else the lowest of all heads.
    fn first_after(&self, item: &Item, next: Option<usize>) -> Option<usize>
        requires linked { AreLinked self.now }
        requires next { get_or self.now.heads (chain_of item.now) NoneOf ≡ next }
        requires least { IsBelowAll self.now.slots.items item.now }
        ensures { IsFirst self.now.slots.items result }
    {
        match next {
            Some(slot) => {
                if self.item(slot).is_in_cycle_of(item) {
                    next
                } else {
                    self.lowest(&self.heads)
                }
            }
            None => self.lowest(&self.heads),
        }
    }

    // Of a slot for each chain, or none, the one whose item is below those of the others.
    fn lowest(&self, heads: &[Option<usize>; CHAINS]) -> Option<usize>
        requires { HaveItems self.now.slots.items heads.now }
        ensures { IsLowest self.now.slots.items heads.now result }
    {
        let mut lowest = None;
        for head in heads {
            lowest = self.lower(lowest, *head);
        }
        lowest
    }

    // Of two slots, or none, the one whose item is below that of the other.
    fn lower(&self, one: Option<usize>, other: Option<usize>) -> Option<usize>
        requires one { HasItem self.now.slots.items one }
        requires other { HasItem self.now.slots.items other }
        ensures either { (result ≡ one) ⊎ (result ≡ other) }
        ensures first { NotAbove self.now.slots.items result one }
        ensures second { NotAbove self.now.slots.items result other }
    {
        match (one, other) {
            (Some(low), Some(high)) => {
                if self.item(high).is_below(&self.item(low)) {
                    other
                } else {
                    one
                }
            }
            (Some(_), None) => one,
            (None, _) => other,
        }
    }
}

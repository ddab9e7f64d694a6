ghost use Rattle.std.specs.Prelude.{◌≡◌, ℕ, ◌<◌, [], ◌∷◌, ◌++◌, length, take, slice_set, OnOk, OnErr};
ghost use Rattle.std.specs.List.{HoldsAt, SwappedAt};
ghost use Rattle.tdl_meaning.specs.Onsets.{has_onset};
ghost use Rattle.tdl_grid.specs.Span.{IsPartOf};
ghost use Rattle.tdl_grid.specs.Item.{event_of, retimed};

use crate::spans::Span;
use crate::values::CowLeaf;
use std::alloc::Global;
use std::marker::Model;
use tdl_control::NoMemory;

/// An event whose times are counts of a unit, which stands beside the item.
#[derive(Drop)]
pub struct Item<'t> {
    pub whole: Span,
    pub part: Span,
    pub value: CowLeaf<'t>,
}

impl<'t> Model for Item<'t> {
    ghost use Rattle.tdl_grid.specs.Values.{leaf_of};
    ghost use Rattle.tdl_grid.specs.Span.{IsPartOf};
    ghost use Rattle.tdl_grid.specs.Item.{Item as ItemValue};

    ghost Value = { ItemValue };

    ghost view = { λ i. record { whole = i.whole; part = i.part; value = leaf_of i.value } };

    ghost invariant = { λ i. IsPartOf i.part i.whole };
}

impl<'t> Item<'t> {
    /// Whether the part starts where the whole starts, and no later: in each unit, the event has its onset.
    pub fn has_onset(&self) -> bool
        ensures { (u : ℕ) → 0 < u → result ≡ has_onset (event_of u self.now) }
    {
        self.part.start() <= self.whole.start()
    }
}

/// A list of items. Their order is that in which a pattern gives them.
#[derive(Drop)]
pub struct Items<'t> {
    items: Vec<Item<'t>>,
}

impl<'t> Model for Items<'t> {
    ghost use Rattle.std.specs.Prelude.{List};
    ghost use Rattle.tdl_grid.specs.Item.{Item as ItemValue};

    ghost Value = { List ItemValue };

    ghost view = { λ i. i.items.items };
}

impl<'t> Items<'t> {
    /// No items. What the list grows by comes from the allocator.
    pub fn new(alloc: Global) -> Items<'t>
        ensures { result ≡ [] }
    {
        Items {
            items: Vec::new(alloc),
        }
    }

    /// How many items there are.
    pub fn len(&self) -> usize
        ensures { result ≡ length self.now }
    {
        self.items.len()
    }

    /// The item at place `i`, from 0.
    pub fn get(&self, i: usize) -> &Item<'t>
        requires { i < length self.now }
        ensures { HoldsAt (λ item. result.now ≡ item) self.now i }
    {
        &self.items[i]
    }

    /// Puts the item at the end. `NoMemory` leaves the list as it was and gives the item up.
    pub fn push(&mut self, item: Item<'t>) -> Result<(), NoMemory>
        ensures ok { OnOk result (self.new ≡ self.old ++ item.entry ∷ []) }
        ensures err { OnErr result (self.new ≡ self.old) }
    {
        self.items.push(item)?;
        Ok(())
    }

    /// The same items, in their order, each to be taken.
    pub fn into_vec(self) -> Vec<Item<'t>>
        ensures { result.items ≡ self.entry }
    {
        self.items
    }

    /// Puts the items at two places, from 0, in each other's place.
    pub fn swap(&mut self, i: usize, j: usize)
        requires first { i < length self.old }
        requires second { j < length self.old }
        ensures { SwappedAt self.old self.new i j }
    {
        self.items.swap(i, j);
    }

    /// Keeps the first so many items. Where there are no more, all stay.
    pub fn truncate(&mut self, count: usize)
        ensures { self.new ≡ take count self.old }
    {
        self.items.truncate(count);
    }

    /// Takes all items out. What the list has room for stays its own.
    pub fn clear(&mut self)
        ensures { self.new ≡ [] }
    {
        self.items.clear();
    }

    /// Gives the item at place `i`, from 0, this whole and this part, in which it keeps its value.
    pub fn retime(&mut self, i: usize, whole: Span, part: Span)
        requires place { i < length self.old }
        requires inside { IsPartOf part whole }
        ensures { HoldsAt (λ item. self.new ≡ slice_set self.old i (retimed whole part item)) self.old i }
    {
        let item = &mut self.items[i];
        item.whole = whole;
        item.part = part;
    }
}

ghost use Rattle.std.specs.Prelude.{◌≡◌, ℕ, ◌<◌, option_map, IfOk, OnOk};
ghost use Rattle.std.specs.List.{flat_map};
ghost use Rattle.tdl_event.specs.Event.{Event};
ghost use Rattle.tdl_meaning.specs.Values.{held, value_of};
ghost use Rattle.tdl_meaning.specs.Kinds.{pair_of, shared_whole};
ghost use Rattle.tdl_meaning.specs.Pairs.{made_with, pairs_of, joined_pairs};
ghost use Rattle.tdl_grid.specs.Span.{arc_of};
ghost use Rattle.tdl_grid.specs.Item.{event_of, AddsInEach, PlaysInEach};
ghost use Rattle.tdl_grid.specs.ItemLaws.{events_of};
ghost use Rattle.tdl_grid.specs.Values.{leaf_of};

use crate::items::{Item, Items};
use crate::spans::Span;
use crate::values::CowLeaf;
use std::alloc::Global;
use tdl_control::{Leaf, Map, NoMemory};
use tdl_expr::{Op, Side};

/// Adds what the items of both sides make: each of the side that gives the wholes in turn, with each of the other.
/// Where both give them, the left side comes first.
pub fn add_joined<'t>(
    alloc: Global,
    side: Side,
    op: Op,
    lefts: &Items<'t>,
    rights: &Items<'t>,
    out: &mut Items<'t>,
) -> Result<(), NoMemory>
    ensures { OnOk result (AddsInEach out.old out.new (λ u. joined_pairs side (value_of op) (events_of u lefts.now) (events_of u rights.now))) }
{
    match side {
        Side::Left | Side::Both => add_pairs(alloc, side, op, lefts, rights, out),
        Side::Right => add_pairs(alloc, side, op, rights, lefts, out),
    }
}

// Adds what each item of the first side makes with each of the other.
fn add_pairs<'t>(
    alloc: Global,
    side: Side,
    op: Op,
    firsts: &Items<'t>,
    others: &Items<'t>,
    out: &mut Items<'t>,
) -> Result<(), NoMemory>
    ensures { OnOk result (AddsInEach out.old out.new (λ u. pairs_of side (value_of op) (events_of u firsts.now) (events_of u others.now))) }
{
    for i in 0..firsts.len() {
        add_with_each(alloc, side, op, firsts.get(i), others, out)?;
    }
    Ok(())
}

/// Adds what an item of the side that gives the wholes, or of the left one where both do, makes with each of the
/// other.
pub fn add_with_each<'t>(
    alloc: Global,
    side: Side,
    op: Op,
    first: &Item<'t>,
    others: &Items<'t>,
    out: &mut Items<'t>,
) -> Result<(), NoMemory>
    ensures { OnOk result (AddsInEach out.old out.new
        (λ u. flat_map (λ (o : Event). made_with side (value_of op) (event_of u first.now) o) (events_of u others.now))) }
{
    for i in 0..others.len() {
        add_made(alloc, side, op, first, others.get(i), out)?;
    }
    Ok(())
}

// Adds what such an item makes with one of the other side.
fn add_made<'t>(
    alloc: Global,
    side: Side,
    op: Op,
    first: &Item<'t>,
    other: &Item<'t>,
    out: &mut Items<'t>,
) -> Result<(), NoMemory>
    ensures { OnOk result (AddsInEach out.old out.new (λ u. made_with side (value_of op) (event_of u first.now) (event_of u other.now))) }
{
    match made(alloc, side, op, first, other)? {
        Some(item) => out.push(item),
        None => Ok(()),
    }
}

/// Adds what an item of that side makes with one of the other, and gives it up: its value becomes that of what they make.
pub(crate) fn add_made_of<'t>(
    alloc: Global,
    side: Side,
    op: Op,
    first: Item<'t>,
    other: &Item<'t>,
    out: &mut Items<'t>,
) -> Result<(), NoMemory>
    ensures { OnOk result (AddsInEach out.old out.new (λ u. made_with side (value_of op) (event_of u first.entry) (event_of u other.now))) }
{
    match made_of(alloc, side, op, first, other)? {
        Some(item) => out.push(item),
        None => Ok(()),
    }
}

// The item that one of that side, which is given up, makes with one of the other, if they make one.
fn made_of<'t>(
    alloc: Global,
    side: Side,
    op: Op,
    first: Item<'t>,
    other: &Item<'t>,
) -> Result<Option<Item<'t>>, NoMemory>
    ensures { IfOk result (λ item. PlaysInEach item (λ u. made_with side (value_of op) (event_of u first.entry) (event_of u other.now))) }
{
    match side {
        Side::Left | Side::Both => pair_of(alloc, side, op, first, other),
        Side::Right => pair(alloc, side, op, other, &first),
    }
}

// The item that two make, if their parts meet and their values give one. The left one is given up.
fn pair_of<'t>(
    alloc: Global,
    side: Side,
    op: Op,
    left: Item<'t>,
    right: &Item<'t>,
) -> Result<Option<Item<'t>>, NoMemory>
    ensures { IfOk result (λ item. PlaysInEach item (λ u. pair_of side (value_of op) (event_of u left.entry) (event_of u right.now))) }
{
    let Some(part) = left.part.meet(right.part) else {
        return Ok(None);
    };
    let Some(whole) = shared_span(side, left.whole, right.whole) else {
        return Ok(None);
    };
    match value_joined(alloc, op, left.value, &right.value)? {
        Some(value) => Ok(Some(Item { whole, part, value })),
        None => Ok(None),
    }
}

// The item that one of the side that gives the wholes makes with one of the other, if they make one.
fn made<'t>(
    alloc: Global,
    side: Side,
    op: Op,
    first: &Item<'t>,
    other: &Item<'t>,
) -> Result<Option<Item<'t>>, NoMemory>
    ensures { IfOk result (λ item. PlaysInEach item (λ u. made_with side (value_of op) (event_of u first.now) (event_of u other.now))) }
{
    match side {
        Side::Left | Side::Both => pair(alloc, side, op, first, other),
        Side::Right => pair(alloc, side, op, other, first),
    }
}

// The item that two make, if their parts meet and their values give one.
fn pair<'t>(
    alloc: Global,
    side: Side,
    op: Op,
    left: &Item<'t>,
    right: &Item<'t>,
) -> Result<Option<Item<'t>>, NoMemory>
    ensures { IfOk result (λ item. PlaysInEach item (λ u. pair_of side (value_of op) (event_of u left.now) (event_of u right.now))) }
{
    let Some(part) = left.part.meet(right.part) else {
        return Ok(None);
    };
    let Some(whole) = shared_span(side, left.whole, right.whole) else {
        return Ok(None);
    };
    match joined_value(alloc, op, &left.value, &right.value)? {
        Some(value) => Ok(Some(Item { whole, part, value })),
        None => Ok(None),
    }
}

// The whole of an item that two with these wholes make, if there is one.
fn shared_span(side: Side, left: Span, right: Span) -> Option<Span>
    ensures { (u : ℕ) → 0 < u → option_map (arc_of u) result ≡ shared_whole side (arc_of u left) (arc_of u right) }
{
    match side {
        Side::Left => Some(left),
        Side::Right => Some(right),
        Side::Both => left.meet(right),
    }
}

// The value that two give, if they give one.
fn joined_value<'t>(
    alloc: Global,
    op: Op,
    left: &CowLeaf<'t>,
    right: &CowLeaf<'t>,
) -> Result<Option<CowLeaf<'t>>, NoMemory>
    ensures { IfOk result (λ value. option_map leaf_of value ≡ value_of op (leaf_of left.now) (leaf_of right.now)) }
{
    match op {
        Op::Controls(op) => match (left.leaf(), right.leaf()) {
            (Leaf::Controls(left), Leaf::Controls(right)) => {
                let both = Map::combine(alloc, op, left, right)?;
                Ok(Some(CowLeaf::Owned(Leaf::Controls(both))))
            }
            _ => Ok(None),
        },
        Op::Struct => held(alloc, left, right),
        Op::Mask => held(alloc, right, left),
    }
}

// The same, where the left one is given up.
fn value_joined<'t>(
    alloc: Global,
    op: Op,
    left: CowLeaf<'t>,
    right: &CowLeaf<'t>,
) -> Result<Option<CowLeaf<'t>>, NoMemory>
    ensures { IfOk result (λ value. option_map leaf_of value ≡ value_of op (leaf_of left.entry) (leaf_of right.now)) }
{
    match (op, left) {
        (Op::Controls(op), CowLeaf::Owned(Leaf::Controls(left))) => match right.leaf() {
            Leaf::Controls(right) => {
                let both = left.joined(op, right)?;
                Ok(Some(CowLeaf::Owned(Leaf::Controls(both))))
            }
            _ => Ok(None),
        },
        (_, left) => joined_value(alloc, op, &left, right),
    }
}

// The value, where the mask is true.
fn held<'t>(
    alloc: Global,
    mask: &CowLeaf<'t>,
    value: &CowLeaf<'t>,
) -> Result<Option<CowLeaf<'t>>, NoMemory>
    ensures { IfOk result (λ kept. option_map leaf_of kept ≡ held (leaf_of mask.now) (leaf_of value.now)) }
{
    match mask.leaf() {
        Leaf::Truth(true) => Ok(Some(value.copy(alloc)?)),
        _ => Ok(None),
    }
}

ghost use Rattle.std.specs.Prelude.{◌≡◌, ◌++◌, IfOk, OnOk, Option};
ghost use Rattle.std.specs.List.{flat_map};
ghost use Rattle.tdl_event.specs.Event.{Event as EventValue};
ghost use Rattle.tdl_meaning.specs.Values.{held, value_of};
ghost use Rattle.tdl_meaning.specs.Kinds.{pair_of, shared_whole};
ghost use Rattle.tdl_meaning.specs.Pairs.{made_with, pairs_of, joined_pairs, listed};

use std::alloc::Global;
use tdl_control::{Leaf, Map, NoMemory};
use tdl_event::{Event, Events};
use tdl_expr::{Op, Side};
use tdl_fraction::TimeArc;

/// Adds what the events of both sides make: each of the side that gives the wholes in turn, with each of the
/// other. Where both give them, the left side comes first.
pub fn add_joined(
    alloc: Global,
    side: Side,
    op: Op,
    lefts: &Events,
    rights: &Events,
    out: &mut Events,
) -> Result<(), NoMemory>
    ensures { OnOk result (out.new ≡ out.old ++ joined_pairs side (value_of op) lefts.now rights.now) }
{
    match side {
        Side::Left | Side::Both => add_pairs(alloc, side, op, lefts, rights, out),
        Side::Right => add_pairs(alloc, side, op, rights, lefts, out),
    }
}

// Adds what each event of the first side makes with each of the other.
fn add_pairs(
    alloc: Global,
    side: Side,
    op: Op,
    firsts: &Events,
    others: &Events,
    out: &mut Events,
) -> Result<(), NoMemory>
    ensures { OnOk result (out.new ≡ out.old ++ pairs_of side (value_of op) firsts.now others.now) }
{
    for i in 0..firsts.len() {
        add_with_each(alloc, side, op, firsts.get(i), others, out)?;
    }
    Ok(())
}

/// Adds what an event of the side that gives the wholes, or of the left one where both do, makes with each of the
/// other.
pub fn add_with_each(
    alloc: Global,
    side: Side,
    op: Op,
    first: &Event,
    others: &Events,
    out: &mut Events,
) -> Result<(), NoMemory>
    ensures { OnOk result (out.new ≡ out.old ++ flat_map (λ (o : EventValue). made_with side (value_of op) first.now o) others.now) }
{
    for i in 0..others.len() {
        add_made(alloc, side, op, first, others.get(i), out)?;
    }
    Ok(())
}

// Adds what such an event makes with one of the other side.
fn add_made(
    alloc: Global,
    side: Side,
    op: Op,
    first: &Event,
    other: &Event,
    out: &mut Events,
) -> Result<(), NoMemory>
    ensures { OnOk result (out.new ≡ out.old ++ made_with side (value_of op) first.now other.now) }
{
    let made = match side {
        Side::Left | Side::Both => pair(alloc, side, op, first, other)?,
        Side::Right => pair(alloc, side, op, other, first)?,
    };
    match made {
        Some(event) => out.push(event),
        None => Ok(()),
    }
}

// The event that two make, if their parts meet and their values give one.
fn pair(
    alloc: Global,
    side: Side,
    op: Op,
    left: &Event,
    right: &Event,
) -> Result<Option<Event>, NoMemory>
    ensures { IfOk result (λ event. listed event ≡ pair_of side (value_of op) left.now right.now) }
{
    let Some(part) = left.part.meet(right.part) else {
        return Ok(None);
    };
    let Some(whole) = shared_whole(side, left.whole, right.whole) else {
        return Ok(None);
    };
    match joined_value(alloc, op, &left.value, &right.value)? {
        Some(value) => Ok(Some(Event { whole, part, value })),
        None => Ok(None),
    }
}

// The whole of an event that two with these wholes make, if there is one.
fn shared_whole(side: Side, left: TimeArc, right: TimeArc) -> Option<TimeArc>
    ensures { result ≡ shared_whole side left right }
{
    match side {
        Side::Left => Some(left),
        Side::Right => Some(right),
        Side::Both => left.meet(right),
    }
}

// The value that two give, if they give one.
fn joined_value(alloc: Global, op: Op, left: &Leaf, right: &Leaf) -> Result<Option<Leaf>, NoMemory>
    ensures { IfOk result (λ value. value ≡ value_of op left.now right.now) }
{
    match op {
        Op::Controls(op) => match (left, right) {
            (Leaf::Controls(left), Leaf::Controls(right)) => {
                Ok(Some(Leaf::Controls(Map::combine(alloc, op, left, right)?)))
            }
            _ => Ok(None),
        },
        Op::Struct => held(alloc, left, right),
        Op::Mask => held(alloc, right, left),
    }
}

// The value, where the mask is true.
fn held(alloc: Global, mask: &Leaf, value: &Leaf) -> Result<Option<Leaf>, NoMemory>
    ensures { IfOk result (λ kept. kept ≡ held mask.now value.now) }
{
    match mask {
        Leaf::Truth(true) => Ok(Some(value.copy(alloc)?)),
        _ => Ok(None),
    }
}

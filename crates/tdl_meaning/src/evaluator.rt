ghost use Rattle.std.specs.Prelude.{◌≡◌, ◌+◌, ◌<◌, ◌≤◌, ◌^◌, ◌∷◌, length, map, sum_by, IfOk};
ghost use Rattle.std.specs.List.{flat_map};
ghost use Rattle.tdl_fraction.specs.Units.{IsQueryArc};
ghost use Rattle.tdl_event.specs.Event.{Event as EventValue};
ghost use Rattle.tdl_expr.specs.Rows.{IsRow, row, in_order, weighted, trees_of, tree_at};
ghost use Rattle.tdl_expr.specs.Tree as tree;
ghost use Rattle.tdl_expr.specs.Valid.{IsWithinLimits};
ghost use Rattle.tdl_meaning.specs.Pattern.{over, cycle_arc, picked, pure};
ghost use Rattle.tdl_meaning.specs.Meaning.{cyc, patterns};
ghost use Rattle.tdl_meaning.specs.Proper.{Each};
ghost use Rattle.tdl_meaning.specs.inside.Conditions.{MayAsk};
ghost use Rattle.tdl_meaning.specs.inside.Children.{rows_needed, MayAskEach};

use crate::cycle::Cycle;
use crate::joins::add_joined;
use crate::motions::Motion;
use crate::plies::add_plied;
use crate::turns::turn;
use crate::windows::Window;
use std::alloc::Global;
use tdl_control::{Leaf, NoMemory};
use tdl_event::{Event, Events};
use tdl_expr::{Ids, Node, NodeId, Op, Side, StepList, Table, Test};
use tdl_fraction::{Frac, TimeArc};

/// The events of the row's tree in the arc, worked out cycle by cycle as its meaning is defined.
/// The arc lies within the cycles of a query, with its ends on ticks, and the tree is within the limits.
/// `NoMemory` is the only fault.
pub fn plain(alloc: Global, table: &Table, root: NodeId, arc: TimeArc) -> Result<Events, NoMemory>
    requires row { IsRow table.now root }
    requires limits { IsWithinLimits (tree_at table.now root) }
    requires arc { IsQueryArc arc }
    ensures { IfOk result (λ events. events ≡ over (cyc (tree_at table.now root)) arc) }
{
    table.table_law();
    in_arc(alloc, table, root, arc)
}

// The events of a row's tree in an arc.
#[cycle(plain)]
fn in_arc(alloc: Global, table: &Table, id: NodeId, arc: TimeArc) -> Result<Events, NoMemory>
    requires row { IsRow table.now id }
    requires may { MayAsk (tree_at table.now id) arc }
    ensures { IfOk result (λ events. events ≡ over (cyc (tree_at table.now id)) arc) }
{
    let first = Cycle::of(arc.start());
    let count = first.count_to(Cycle::not_before(arc.stop()));
    let mut events = Events::new(alloc);
    for k in 0..count {
        let cycle = in_cycle(alloc, table, id, first.later(k))?;
        events.append(cycle.clip(arc))?;
    }
    Ok(events)
}

// The events of a row's tree in a whole cycle.
#[cycle(plain)]
fn in_cycle(alloc: Global, table: &Table, id: NodeId, cycle: Cycle) -> Result<Events, NoMemory>
    requires row { IsRow table.now id }
    requires may { MayAsk (tree_at table.now id) (cycle_arc cycle) }
    ensures { IfOk result (λ events. events ≡ cyc (tree_at table.now id) cycle) }
{
    match table.get(id) {
        Node::Silence => Ok(Events::new(alloc)),
        Node::Pure { leaf } => once(alloc, leaf, cycle),
        Node::Fast { rate, child } => fast(alloc, table, *rate, *child, cycle),
        Node::TimeCat { steps } => time_cat(alloc, table, steps, cycle),
        Node::Cat { children } => cat(alloc, table, children, cycle),
        Node::Stack { children } => stack(alloc, table, children, cycle),
        Node::Rev { child } => rev(alloc, table, *child, cycle),
        Node::Pick { selector, children } => pick(alloc, table, *selector, children, cycle),
        Node::When {
            modulus,
            test,
            yes,
            no,
        } => when(alloc, table, *modulus, *test, *yes, *no, cycle),
        Node::Shift { by, child } => shift(alloc, table, *by, *child, cycle),
        Node::Join {
            side,
            op,
            left,
            right,
        } => join(alloc, table, *side, *op, *left, *right, cycle),
        Node::Ply { times, child } => ply(alloc, table, *times, *child, cycle),
        Node::Gate {
            from,
            to,
            inside,
            child,
        } => gate(alloc, table, *from, *to, *inside, *child, cycle),
    }
}

// The leaf, once in the cycle.
fn once(alloc: Global, leaf: &Leaf, cycle: Cycle) -> Result<Events, NoMemory>
    requires { MayAsk (tree.Pure leaf.now) (cycle_arc cycle) }
    ensures { IfOk result (λ events. events ≡ cyc (tree.Pure leaf.now) cycle) }
{
    let whole = TimeArc::of(cycle.start(), cycle.later(1).start()).unwrap();
    let mut events = Events::new(alloc);
    events.push(Event {
        whole,
        part: whole,
        value: leaf.copy(alloc)?,
    })?;
    Ok(events)
}

// The child at a rate.
#[cycle(plain)]
fn fast(
    alloc: Global,
    table: &Table,
    rate: Frac,
    child: NodeId,
    cycle: Cycle,
) -> Result<Events, NoMemory>
    requires row { IsRow table.now child }
    requires may { MayAsk (tree.Fast rate (tree_at table.now child)) (cycle_arc cycle) }
    ensures { IfOk result (λ events. events ≡ cyc (tree.Fast rate (tree_at table.now child)) cycle) }
{
    let start = cycle.start().mul(rate);
    let stop = cycle.later(1).start().mul(rate);
    let arc = TimeArc::of(start, stop).unwrap();
    let mut events = in_arc(alloc, table, child, arc)?;
    Motion::Slower { rate }.apply(&mut events, 0);
    Ok(events)
}

// The steps one after another.
#[cycle(plain)]
fn time_cat(
    alloc: Global,
    table: &Table,
    steps: &StepList,
    cycle: Cycle,
) -> Result<Events, NoMemory>
    requires rows { rows_needed (map (λ s. s.child) steps.now) ≤ length table.now }
    requires weights { sum_by (λ s. s.weight) steps.now ≤ 2 ^ 40 }
    requires may { MayAsk (tree.TimeCat (weighted (trees_of table.now) steps.now)) (cycle_arc cycle) }
    ensures { IfOk result (λ events. events ≡ cyc (tree.TimeCat (weighted (trees_of table.now) steps.now)) cycle) }
{
    let total = steps.total_weight();
    let mut before = 0;
    let mut events = Events::new(alloc);
    for step in steps.as_slice() {
        let weight = step.weight;
        let mut child = in_cycle(alloc, table, step.child, cycle)?;
        Motion::Step {
            cycle,
            before,
            weight,
            total,
        }
        .apply(&mut child, 0);
        events.append(child)?;
        before += weight;
    }
    Ok(events)
}

// A cycle of the child whose turn it is.
#[cycle(plain)]
fn cat(alloc: Global, table: &Table, children: &Ids, cycle: Cycle) -> Result<Events, NoMemory>
    requires some { 0 < length children.now }
    requires few { length children.now ≤ 2 ^ 31 }
    requires rows { rows_needed children.now ≤ length table.now }
    requires may { MayAsk (tree.Cat (in_order (trees_of table.now) children.now)) (cycle_arc cycle) }
    ensures { IfOk result (λ events. events ≡ cyc (tree.Cat (in_order (trees_of table.now) children.now)) cycle) }
{
    let round = cycle.rounds(children.len());
    let child = *children.get(cycle.turn(children.len()));
    let mut events = in_cycle(alloc, table, child, round)?;
    let by = cycle.since(round);
    Motion::Later { by }.apply(&mut events, 0);
    Ok(events)
}

// The children together.
#[cycle(plain)]
fn stack(alloc: Global, table: &Table, children: &Ids, cycle: Cycle) -> Result<Events, NoMemory>
    requires rows { rows_needed children.now ≤ length table.now }
    requires may { MayAsk (tree.Stack (in_order (trees_of table.now) children.now)) (cycle_arc cycle) }
    ensures { IfOk result (λ events. events ≡ cyc (tree.Stack (in_order (trees_of table.now) children.now)) cycle) }
{
    let mut events = Events::new(alloc);
    for child in children.as_slice() {
        events.append(in_cycle(alloc, table, *child, cycle)?)?;
    }
    Ok(events)
}

// The child, turned round.
#[cycle(plain)]
fn rev(alloc: Global, table: &Table, child: NodeId, cycle: Cycle) -> Result<Events, NoMemory>
    requires row { IsRow table.now child }
    requires may { MayAsk (tree.Rev (tree_at table.now child)) (cycle_arc cycle) }
    ensures { IfOk result (λ events. events ≡ cyc (tree.Rev (tree_at table.now child)) cycle) }
{
    let mut events = in_cycle(alloc, table, child, cycle)?;
    turn(cycle, &mut events, 0);
    Ok(events)
}

// What the selector chooses among the children.
#[cycle(plain)]
fn pick(
    alloc: Global,
    table: &Table,
    selector: NodeId,
    children: &Ids,
    cycle: Cycle,
) -> Result<Events, NoMemory>
    requires rows { rows_needed (selector ∷ children.now) ≤ length table.now }
    requires may { MayAsk (tree.Pick (tree_at table.now selector) (in_order (trees_of table.now) children.now)) (cycle_arc cycle) }
    ensures { IfOk result
        (λ events. events ≡ cyc (tree.Pick (tree_at table.now selector) (in_order (trees_of table.now) children.now)) cycle) }
{
    let selected = in_cycle(alloc, table, selector, cycle)?;
    chosen(alloc, table, children, &selected)
}

// What each event of a selector chooses among the children.
#[cycle(plain)]
fn chosen(
    alloc: Global,
    table: &Table,
    children: &Ids,
    selected: &Events,
) -> Result<Events, NoMemory>
    requires rows { rows_needed children.now ≤ length table.now }
    requires may { Each (λ (e : EventValue). MayAskEach (in_order (trees_of table.now) children.now) e.part) selected.now }
    ensures { IfOk result (λ events. events
        ≡ flat_map (λ (e : EventValue). picked (patterns (in_order (trees_of table.now) children.now)) e.part e.value) selected.now) }
{
    let mut events = Events::new(alloc);
    for i in 0..selected.len() {
        events.append(choice(alloc, table, children, selected.get(i))?)?;
    }
    Ok(events)
}

// The child that an event of a selector chooses, in the time of the event's part.
#[cycle(plain)]
fn choice(
    alloc: Global,
    table: &Table,
    children: &Ids,
    selected: &Event,
) -> Result<Events, NoMemory>
    requires rows { rows_needed children.now ≤ length table.now }
    requires may { MayAskEach (in_order (trees_of table.now) children.now) selected.now.part }
    ensures { IfOk result (λ events. events
        ≡ picked (patterns (in_order (trees_of table.now) children.now)) selected.now.part selected.now.value) }
{
    match selected.value {
        Leaf::Index(index) if (index as usize) < children.len() => {
            let child = *children.get(index as usize);
            in_arc(alloc, table, child, selected.part)
        }
        _ => Ok(Events::new(alloc)),
    }
}

// The one child or the other, by the cycles that have passed in the round.
#[cycle(plain)]
fn when(
    alloc: Global,
    table: &Table,
    modulus: u32,
    test: Test,
    yes: NodeId,
    no: NodeId,
    cycle: Cycle,
) -> Result<Events, NoMemory>
    requires yes { IsRow table.now yes }
    requires no { IsRow table.now no }
    requires may { MayAsk (tree.When modulus test (tree_at table.now yes) (tree_at table.now no)) (cycle_arc cycle) }
    ensures { IfOk result (λ events. events ≡ cyc (tree.When modulus test (tree_at table.now yes) (tree_at table.now no)) cycle) }
{
    if cycle.meets(test, modulus) {
        in_cycle(alloc, table, yes, cycle)
    } else {
        in_cycle(alloc, table, no, cycle)
    }
}

// The child, later by some time.
#[cycle(plain)]
fn shift(
    alloc: Global,
    table: &Table,
    by: Frac,
    child: NodeId,
    cycle: Cycle,
) -> Result<Events, NoMemory>
    requires row { IsRow table.now child }
    requires may { MayAsk (tree.Shift by (tree_at table.now child)) (cycle_arc cycle) }
    ensures { IfOk result (λ events. events ≡ cyc (tree.Shift by (tree_at table.now child)) cycle) }
{
    let start = cycle.start().sub(by);
    let stop = cycle.later(1).start().sub(by);
    let arc = TimeArc::of(start, stop).unwrap();
    let mut events = in_arc(alloc, table, child, arc)?;
    Motion::Shifted { by }.apply(&mut events, 0);
    Ok(events)
}

// What the two sides make of their events. What a side has elsewhere meets no part of the cycle.
#[cycle(plain)]
fn join(
    alloc: Global,
    table: &Table,
    side: Side,
    op: Op,
    left: NodeId,
    right: NodeId,
    cycle: Cycle,
) -> Result<Events, NoMemory>
    requires left { IsRow table.now left }
    requires right { IsRow table.now right }
    requires may { MayAsk (tree.Join side op (tree_at table.now left) (tree_at table.now right)) (cycle_arc cycle) }
    ensures { IfOk result (λ events. events ≡ cyc (tree.Join side op (tree_at table.now left) (tree_at table.now right)) cycle) }
{
    let lefts = in_cycle(alloc, table, left, cycle)?;
    let rights = in_cycle(alloc, table, right, cycle)?;
    let mut events = Events::new(alloc);
    add_joined(alloc, side, op, &lefts, &rights, &mut events)?;
    Ok(events)
}

// The child with each event cut into so many.
#[cycle(plain)]
fn ply(
    alloc: Global,
    table: &Table,
    times: u32,
    child: NodeId,
    cycle: Cycle,
) -> Result<Events, NoMemory>
    requires row { IsRow table.now child }
    requires may { MayAsk (tree.Ply times (tree_at table.now child)) (cycle_arc cycle) }
    ensures { IfOk result (λ events. events ≡ cyc (tree.Ply times (tree_at table.now child)) cycle) }
{
    let events = in_cycle(alloc, table, child, cycle)?;
    let mut fragments = Events::new(alloc);
    add_plied(alloc, times, events, &mut fragments)?;
    Ok(fragments)
}

// The events of the child that start within a part of their cycle, or the others.
#[cycle(plain)]
fn gate(
    alloc: Global,
    table: &Table,
    from: Frac,
    to: Frac,
    inside: bool,
    child: NodeId,
    cycle: Cycle,
) -> Result<Events, NoMemory>
    requires row { IsRow table.now child }
    requires may { MayAsk (tree.Gate from to inside (tree_at table.now child)) (cycle_arc cycle) }
    ensures { IfOk result (λ events. events ≡ cyc (tree.Gate from to inside (tree_at table.now child)) cycle) }
{
    let mut events = in_cycle(alloc, table, child, cycle)?;
    Window { from, to, inside }.filter(&mut events, 0);
    Ok(events)
}

ghost use Rattle.std.specs.Prelude.{◌≡◌, ◌+◌, ◌*◌, ◌<◌, ◌≤◌, ◌^◌, [], ◌∷◌, length, map, sum_by};
ghost use Rattle.std.specs.List.{flat_map};
ghost use Rattle.tdl_fraction.specs.Arc.{IsInside, meet};
ghost use Rattle.tdl_event.specs.Event.{Event as EventValue};
ghost use Rattle.tdl_expr.specs.Rows.{IsRow, in_order, weighted, trees_of, tree_at};
ghost use Rattle.tdl_expr.specs.Tree as tree;
ghost use Rattle.tdl_expr.specs.declared.joinings.Side.TheVariants.{Both};
ghost use Rattle.tdl_expr.specs.Bounds.{bounds, bounds_of, loads};
ghost use Rattle.tdl_meaning.specs.Pattern.{cycle_arc, picked, moved, squeezed};
ghost use Rattle.tdl_meaning.specs.Meaning.{cyc, patterns};
ghost use Rattle.tdl_meaning.specs.Proper.{Each};
ghost use Rattle.tdl_meaning.specs.Asks.{IsCycleOf};
ghost use Rattle.tdl_meaning.specs.inside.Arcs.{over_met, step_ask};
ghost use Rattle.tdl_meaning.specs.inside.Children.{rows_needed};
ghost use Rattle.tdl_visits.specs.Sides.{other_of};
ghost use Rattle.tdl_visits.specs.inside.Joins.{joined_tree, made_by_whole, visits_by_whole};
ghost use Rattle.tdl_visits.specs.inside.Visits.{visits, if_met, visits_at};
ghost use Rattle.tdl_grid.specs.Span.{arc_of};
ghost use Rattle.tdl_grid.specs.Item.{Item as ItemValue, event_of};
ghost use Rattle.tdl_grid.specs.ItemLaws.{events_of};
ghost use Rattle.tdl_grid.specs.Step.{IsStep};
ghost use Rattle.tdl_grid.specs.inside.Asked.{MayCount, MayCountEach, MayCountVisit, MayCountStep, IsJoinUnit, MayAskWhole};
ghost use Rattle.tdl_grid.specs.inside.Visited.{Gains, IsVisit, IsVisitMet, IsVisits, IsStepVisit};

use crate::asks::{CountAsk, JoinUnit};
use crate::conversions::{count_at, cycle_not_before, cycle_of, unit_at_rate};
use crate::counts::{count_of, count_turned};
use crate::items::{Item, Items};
use crate::joins::{add_joined, add_with_each};
use crate::leaf_joins::add_with_leaf;
use crate::leaves::{add_leaf, add_leaf_step};
use crate::passed::PassedSteps;
use crate::plies::add_plied;
use crate::spans::Span;
use crate::steps::Step;
use std::alloc::Global;
use std::sync::ledger::Ledger;
use tdl_compile::Program;
use tdl_control::{Leaf, NoMemory};
use tdl_expr::{Ids, Node, NodeId, Side, StepList};
use tdl_fraction::Frac;
use tdl_meaning::{Cycle, StepCount, Window};
use tdl_visits::{ChosenChild, JoinedRows, one_of};

// Adds the items of a row's tree in an arc, by counts of the unit.
#[cycle(counted)]
pub(crate) fn in_arc<'t, L: Ledger>(
    alloc: Global,
    program: &'t Program,
    id: NodeId,
    unit: u128,
    arc: Span,
    out: &mut Items<'t>,
    steps: &mut StepCount<L>,
) -> Result<(), NoMemory>
    requires row { IsRow program.now.nodes id }
    requires may { MayCount (tree_at program.now.nodes id) unit (arc_of unit arc) }
    ensures { IsVisits (tree_at program.now.nodes id) unit (arc_of unit arc) result out.old out.new steps.old steps.new }
{
    let first = cycle_of(arc.start(), unit);
    let count = first.count_to(cycle_not_before(arc.stop(), unit));
    for k in 0..count {
        of_cycle(alloc, program, id, first.later(k), unit, arc, out, steps)?;
    }
    Ok(())
}

// Adds the items of a row's tree in what an arc has of a cycle.
#[cycle(counted)]
fn of_cycle<'t, L: Ledger>(
    alloc: Global,
    program: &'t Program,
    id: NodeId,
    cycle: Cycle,
    unit: u128,
    arc: Span,
    out: &mut Items<'t>,
    steps: &mut StepCount<L>,
) -> Result<(), NoMemory>
    requires row { IsRow program.now.nodes id }
    requires may { MayCount (tree_at program.now.nodes id) unit (arc_of unit arc) }
    requires cycle { IsCycleOf (arc_of unit arc) cycle }
    ensures { IsVisitMet (tree_at program.now.nodes id) cycle unit (meet (cycle_arc cycle) (arc_of unit arc))
        result out.old out.new steps.old steps.new }
{
    match Span::of_cycle(cycle, unit).meet(arc) {
        Some(arc) => {
            let ask = CountAsk { cycle, unit, arc };
            in_cycle(alloc, program, id, &ask, out, steps)
        }
        None => Ok(()),
    }
}

// Adds the items of a row's tree in a span of a cycle. It is a step; what is called for the row's node is the rest of it.
#[cycle(counted)]
fn in_cycle<'t, L: Ledger>(
    alloc: Global,
    program: &'t Program,
    id: NodeId,
    ask: &CountAsk,
    out: &mut Items<'t>,
    steps: &mut StepCount<L>,
) -> Result<(), NoMemory>
    requires row { IsRow program.now.nodes id }
    requires visit { MayCountVisit (tree_at program.now.nodes id) ask.now }
    ensures { IsVisit (tree_at program.now.nodes id) ask.now result out.old out.new steps.old steps.new }
{
    steps.tick();
    match program.table().get(id) {
        Node::Silence => Ok(()),
        Node::Pure { leaf } => add_leaf(leaf, ask.cycle, ask.unit, ask.arc, out),
        Node::Fast { rate, child } => fast(alloc, program, *rate, *child, ask, out, steps),
        Node::TimeCat { steps: list } => time_cat(alloc, program, list, ask, out, steps),
        Node::Cat { children } => cat(alloc, program, children, ask, out, steps),
        Node::Stack { children } => stack(alloc, program, children, ask, out, steps),
        Node::Rev { child } => rev(alloc, program, *child, ask, out, steps),
        Node::Pick { selector, children } => {
            pick(alloc, program, *selector, children, ask, out, steps)
        }
        Node::When {
            modulus,
            test,
            yes,
            no,
        } => {
            let child = one_of(*modulus, *test, *yes, *no, ask.cycle);
            in_cycle(alloc, program, child, ask, out, steps)
        }
        Node::Shift { by, child } => shift(alloc, program, *by, *child, ask, out, steps),
        Node::Join {
            side,
            op,
            left,
            right,
        } => {
            let rows = JoinedRows {
                side: *side,
                op: *op,
                left: *left,
                right: *right,
            };
            join(alloc, program, &rows, program.grid_of(id), ask, out, steps)
        }
        Node::Ply { times, child } => ply(alloc, program, *times, *child, ask, out, steps),
        Node::Gate {
            from,
            to,
            inside,
            child,
        } => {
            let window = Window {
                from: *from,
                to: *to,
                inside: *inside,
            };
            gate(alloc, program, window, *child, ask, out, steps)
        }
    }
}

// The child at a rate: the same counts, of another unit.
#[cycle(counted)]
fn fast<'t, L: Ledger>(
    alloc: Global,
    program: &'t Program,
    rate: Frac,
    child: NodeId,
    ask: &CountAsk,
    out: &mut Items<'t>,
    steps: &mut StepCount<L>,
) -> Result<(), NoMemory>
    requires row { IsRow program.now.nodes child }
    requires visit { MayCountVisit (tree.Fast rate (tree_at program.now.nodes child)) ask.now }
    ensures { IsVisit (tree.Fast rate (tree_at program.now.nodes child)) ask.now result out.old out.new steps.old (steps.new + 1) }
{
    let unit = unit_at_rate(ask.unit, rate);
    in_arc(alloc, program, child, unit, ask.arc, out, steps)
}

// The steps one after another. Only those are looked at that the span meets.
#[cycle(counted)]
fn time_cat<'t, L: Ledger>(
    alloc: Global,
    program: &'t Program,
    list: &StepList,
    ask: &CountAsk,
    out: &mut Items<'t>,
    steps: &mut StepCount<L>,
) -> Result<(), NoMemory>
    requires rows { rows_needed (map (λ s. s.child) list.now) ≤ length program.now.nodes }
    requires weights { sum_by (λ s. s.weight) list.now ≤ 2 ^ 40 }
    requires visit { MayCountVisit (tree.TimeCat (weighted (trees_of program.now.nodes) list.now)) ask.now }
    ensures { IsVisit (tree.TimeCat (weighted (trees_of program.now.nodes) list.now)) ask.now result out.old out.new steps.old (steps.new + 1) }
{
    let cycle = ask.cycle;
    let total = list.total_weight();
    let width = ask.unit / total as u128;
    let passed = PassedSteps::of(cycle, total, width, ask.arc);
    let first = list.passed(passed.ended);
    let mut before = list.weight_before(first);
    for index in first..list.len() {
        if passed.begun <= before {
            break;
        }
        let entry = list.get(index);
        let weight = entry.weight;
        let step = Step {
            cycle,
            before,
            weight,
            total,
            width,
        };
        in_step(alloc, program, entry.child, &step, ask.arc, out, steps)?;
        before += weight;
    }
    Ok(())
}

// A step in its share of the cycle. A leaf is added at once.
#[cycle(counted)]
fn in_step<'t, L: Ledger>(
    alloc: Global,
    program: &'t Program,
    child: NodeId,
    step: &Step,
    arc: Span,
    out: &mut Items<'t>,
    steps: &mut StepCount<L>,
) -> Result<(), NoMemory>
    requires row { IsRow program.now.nodes child }
    requires step { IsStep step.now }
    requires may { MayCountStep (tree_at program.now.nodes child) step.now arc }
    ensures { IsStepVisit (tree_at program.now.nodes child) step.now arc result out.old out.new steps.old steps.new }
{
    match program.table().get(child) {
        Node::Pure { leaf } => add_leaf_step(leaf, step, arc, out, steps),
        _ => in_share(alloc, program, child, step, arc, out, steps),
    }
}

// A step that is no leaf.
#[cycle(counted)]
fn in_share<'t, L: Ledger>(
    alloc: Global,
    program: &'t Program,
    child: NodeId,
    step: &Step,
    arc: Span,
    out: &mut Items<'t>,
    steps: &mut StepCount<L>,
) -> Result<(), NoMemory>
    requires row { IsRow program.now.nodes child }
    requires step { IsStep step.now }
    requires may { MayCountStep (tree_at program.now.nodes child) step.now arc }
    ensures { IsStepVisit (tree_at program.now.nodes child) step.now arc result out.old out.new steps.old steps.new }
{
    match step.asked(arc) {
        Some(own) => {
            let from = out.len();
            let ask = CountAsk {
                cycle: step.cycle,
                unit: step.width * step.weight as u128,
                arc: own,
            };
            in_cycle(alloc, program, child, &ask, out, steps)?;
            out.delay(from, step.delay());
            Ok(())
        }
        None => Ok(()),
    }
}

// The child whose turn it is.
#[cycle(counted)]
fn cat<'t, L: Ledger>(
    alloc: Global,
    program: &'t Program,
    children: &Ids,
    ask: &CountAsk,
    out: &mut Items<'t>,
    steps: &mut StepCount<L>,
) -> Result<(), NoMemory>
    requires some { 0 < length children.now }
    requires few { length children.now ≤ 2 ^ 31 }
    requires rows { rows_needed children.now ≤ length program.now.nodes }
    requires visit { MayCountVisit (tree.Cat (in_order (trees_of program.now.nodes) children.now)) ask.now }
    ensures { IsVisit (tree.Cat (in_order (trees_of program.now.nodes) children.now)) ask.now result out.old out.new steps.old (steps.new + 1) }
{
    let round = ChosenChild::of(children, ask.cycle);
    let by = count_of(ask.cycle.since(round.cycle), ask.unit);
    let there = CountAsk {
        cycle: round.cycle,
        unit: ask.unit,
        arc: ask.arc.earlier(by),
    };
    let from = out.len();
    in_cycle(alloc, program, round.child, &there, out, steps)?;
    out.delay(from, by);
    Ok(())
}

// The children together.
#[cycle(counted)]
fn stack<'t, L: Ledger>(
    alloc: Global,
    program: &'t Program,
    children: &Ids,
    ask: &CountAsk,
    out: &mut Items<'t>,
    steps: &mut StepCount<L>,
) -> Result<(), NoMemory>
    requires rows { rows_needed children.now ≤ length program.now.nodes }
    requires visit { MayCountVisit (tree.Stack (in_order (trees_of program.now.nodes) children.now)) ask.now }
    ensures { IsVisit (tree.Stack (in_order (trees_of program.now.nodes) children.now)) ask.now result out.old out.new steps.old (steps.new + 1) }
{
    for child in children.as_slice() {
        in_cycle(alloc, program, *child, ask, out, steps)?;
    }
    Ok(())
}

// The child, turned round.
#[cycle(counted)]
fn rev<'t, L: Ledger>(
    alloc: Global,
    program: &'t Program,
    child: NodeId,
    ask: &CountAsk,
    out: &mut Items<'t>,
    steps: &mut StepCount<L>,
) -> Result<(), NoMemory>
    requires row { IsRow program.now.nodes child }
    requires visit { MayCountVisit (tree.Rev (tree_at program.now.nodes child)) ask.now }
    ensures { IsVisit (tree.Rev (tree_at program.now.nodes child)) ask.now result out.old out.new steps.old (steps.new + 1) }
{
    let round = count_turned(ask.cycle, ask.unit);
    let there = CountAsk {
        cycle: ask.cycle,
        unit: ask.unit,
        arc: ask.arc.turned(round),
    };
    let from = out.len();
    in_cycle(alloc, program, child, &there, out, steps)?;
    out.turn(from, round);
    Ok(())
}

// What the selector chooses among the children. The selector's own items are no answers.
#[cycle(counted)]
fn pick<'t, L: Ledger>(
    alloc: Global,
    program: &'t Program,
    selector: NodeId,
    children: &Ids,
    ask: &CountAsk,
    out: &mut Items<'t>,
    steps: &mut StepCount<L>,
) -> Result<(), NoMemory>
    requires rows { rows_needed (selector ∷ children.now) ≤ length program.now.nodes }
    requires visit { MayCountVisit (tree.Pick (tree_at program.now.nodes selector) (in_order (trees_of program.now.nodes) children.now)) ask.now }
    ensures { IsVisit (tree.Pick (tree_at program.now.nodes selector) (in_order (trees_of program.now.nodes) children.now)) ask.now
        result out.old out.new steps.old (steps.new + 1) }
{
    let mut selected = Items::new(alloc);
    in_cycle(alloc, program, selector, ask, &mut selected, steps)?;
    chosen(
        alloc, program, children, ask.cycle, ask.unit, &selected, out, steps,
    )
}

// What each item of a selector chooses among the children.
#[cycle(counted)]
fn chosen<'t, L: Ledger>(
    alloc: Global,
    program: &'t Program,
    children: &Ids,
    cycle: Cycle,
    unit: u128,
    selected: &Items<'t>,
    out: &mut Items<'t>,
    steps: &mut StepCount<L>,
) -> Result<(), NoMemory>
    requires rows { rows_needed children.now ≤ length program.now.nodes }
    requires may { Each (λ (i : ItemValue). MayCountEach (in_order (trees_of program.now.nodes) children.now) unit (arc_of unit i.part)) selected.now }
    requires inside { Each (λ (i : ItemValue). IsInside (arc_of unit i.part) (cycle_arc cycle)) selected.now }
    ensures { let trees = in_order (trees_of program.now.nodes) children.now in
        Gains unit (flat_map (λ (e : EventValue). picked (patterns trees) e.part e.value) (events_of unit selected.now))
        (sum_by (visits_at trees cycle) (events_of unit selected.now)) (length selected.now * loads (bounds_of trees))
        result out.old out.new steps.old steps.new }
{
    for i in 0..selected.len() {
        choice(
            alloc,
            program,
            children,
            cycle,
            unit,
            selected.get(i),
            out,
            steps,
        )?;
    }
    Ok(())
}

// The child that an item of a selector chooses, in the time of the item's part.
#[cycle(counted)]
fn choice<'t, L: Ledger>(
    alloc: Global,
    program: &'t Program,
    children: &Ids,
    cycle: Cycle,
    unit: u128,
    selected: &Item<'t>,
    out: &mut Items<'t>,
    steps: &mut StepCount<L>,
) -> Result<(), NoMemory>
    requires rows { rows_needed children.now ≤ length program.now.nodes }
    requires may { MayCountEach (in_order (trees_of program.now.nodes) children.now) unit (arc_of unit selected.now.part) }
    requires inside { IsInside (arc_of unit selected.now.part) (cycle_arc cycle) }
    ensures { let trees = in_order (trees_of program.now.nodes) children.now in
        Gains unit (picked (patterns trees) (arc_of unit selected.now.part) selected.now.value) (visits_at trees cycle (event_of unit selected.now))
        (loads (bounds_of trees)) result out.old out.new steps.old steps.new }
{
    match selected.value.leaf() {
        Leaf::Index(index) if (*index as usize) < children.len() => {
            let child = *children.get(*index as usize);
            let arc = selected.part;
            in_cycle(
                alloc,
                program,
                child,
                &CountAsk { cycle, unit, arc },
                out,
                steps,
            )
        }
        _ => Ok(()),
    }
}

// The child, later by some time.
#[cycle(counted)]
fn shift<'t, L: Ledger>(
    alloc: Global,
    program: &'t Program,
    by: Frac,
    child: NodeId,
    ask: &CountAsk,
    out: &mut Items<'t>,
    steps: &mut StepCount<L>,
) -> Result<(), NoMemory>
    requires row { IsRow program.now.nodes child }
    requires visit { MayCountVisit (tree.Shift by (tree_at program.now.nodes child)) ask.now }
    ensures { IsVisit (tree.Shift by (tree_at program.now.nodes child)) ask.now result out.old out.new steps.old (steps.new + 1) }
{
    let by = count_at(by, ask.unit);
    let from = out.len();
    in_arc(
        alloc,
        program,
        child,
        ask.unit,
        ask.arc.earlier(by),
        out,
        steps,
    )?;
    out.delay(from, by);
    Ok(())
}

// The child with each item cut into so many.
#[cycle(counted)]
fn ply<'t, L: Ledger>(
    alloc: Global,
    program: &'t Program,
    times: u32,
    child: NodeId,
    ask: &CountAsk,
    out: &mut Items<'t>,
    steps: &mut StepCount<L>,
) -> Result<(), NoMemory>
    requires row { IsRow program.now.nodes child }
    requires visit { MayCountVisit (tree.Ply times (tree_at program.now.nodes child)) ask.now }
    ensures { IsVisit (tree.Ply times (tree_at program.now.nodes child)) ask.now result out.old out.new steps.old (steps.new + 1) }
{
    let mut items = Items::new(alloc);
    in_cycle(alloc, program, child, ask, &mut items, steps)?;
    add_plied(alloc, times, items, out)
}

// The items of the child that start within a part of their cycle, or the others.
#[cycle(counted)]
fn gate<'t, L: Ledger>(
    alloc: Global,
    program: &'t Program,
    window: Window,
    child: NodeId,
    ask: &CountAsk,
    out: &mut Items<'t>,
    steps: &mut StepCount<L>,
) -> Result<(), NoMemory>
    requires row { IsRow program.now.nodes child }
    requires visit { MayCountVisit (tree.Gate window.from window.to window.inside (tree_at program.now.nodes child)) ask.now }
    ensures { IsVisit (tree.Gate window.from window.to window.inside (tree_at program.now.nodes child)) ask.now
        result out.old out.new steps.old (steps.new + 1) }
{
    let from = out.len();
    in_cycle(alloc, program, child, ask, out, steps)?;
    out.gate(from, window, ask.unit);
    Ok(())
}

// What the two sides make of their items, by the side that gives the wholes.
#[cycle(counted)]
fn join<'t, L: Ledger>(
    alloc: Global,
    program: &'t Program,
    rows: &JoinedRows,
    grid: u64,
    ask: &CountAsk,
    out: &mut Items<'t>,
    steps: &mut StepCount<L>,
) -> Result<(), NoMemory>
    requires rows { rows_needed (rows.now.left ∷ rows.now.right ∷ []) ≤ length program.now.nodes }
    requires grid { grid ≡ (bounds (joined_tree program.now.nodes rows.now)).grid }
    requires visit { MayCountVisit (joined_tree program.now.nodes rows.now) ask.now }
    ensures { IsVisit (joined_tree program.now.nodes rows.now) ask.now result out.old out.new steps.old (steps.new + 1) }
{
    match rows.side {
        Side::Both => join_both(alloc, program, rows, ask, out, steps),
        _ => join_one(alloc, program, rows, grid, ask, out, steps),
    }
}

// Each item of the side that gives the wholes, with what the other one has in the time that the cycle has of its whole.
#[cycle(counted)]
fn join_one<'t, L: Ledger>(
    alloc: Global,
    program: &'t Program,
    rows: &JoinedRows,
    grid: u64,
    ask: &CountAsk,
    out: &mut Items<'t>,
    steps: &mut StepCount<L>,
) -> Result<(), NoMemory>
    requires one { ¬ (rows.now.side ≡ Both) }
    requires rows { rows_needed (rows.now.left ∷ rows.now.right ∷ []) ≤ length program.now.nodes }
    requires grid { grid ≡ (bounds (joined_tree program.now.nodes rows.now)).grid }
    requires visit { MayCountVisit (joined_tree program.now.nodes rows.now) ask.now }
    ensures { IsVisit (joined_tree program.now.nodes rows.now) ask.now result out.old out.new steps.old (steps.new + 1) }
{
    let mut givers = Items::new(alloc);
    in_cycle(alloc, program, rows.giver(), ask, &mut givers, steps)?;
    match program.table().get(rows.other()) {
        Node::Pure { leaf } => add_with_leaf(alloc, rows, givers, leaf, ask, out, steps),
        _ => {
            let own = JoinUnit {
                unit: grid as u128,
                times: ask.unit / grid as u128,
            };
            by_wholes(alloc, program, rows, own, &givers, ask.cycle, out, steps)
        }
    }
}

// What each item of that side makes with what the other one has in the time that the cycle has of its whole. The other side
// is asked in the unit of the join's own grid.
#[cycle(counted)]
fn by_wholes<'t, L: Ledger>(
    alloc: Global,
    program: &'t Program,
    rows: &JoinedRows,
    own: JoinUnit,
    givers: &Items<'t>,
    cycle: Cycle,
    out: &mut Items<'t>,
    steps: &mut StepCount<L>,
) -> Result<(), NoMemory>
    requires row { IsRow program.now.nodes (other_of rows.now) }
    requires own { IsJoinUnit own }
    requires may { Each (λ (i : ItemValue). MayAskWhole (tree_at program.now.nodes (other_of rows.now)) cycle own i.whole) givers.now }
    ensures { let e = tree_at program.now.nodes (other_of rows.now) in
        let wholes = events_of (own.unit * own.times) givers.now in
        Gains (own.unit * own.times) (flat_map (made_by_whole rows.now.side rows.now.op e cycle) wholes)
        (sum_by (visits_by_whole e cycle) wholes) (length givers.now * (bounds e).load)
        result out.old out.new steps.old steps.new }
{
    let other = rows.other();
    let mut others = Items::new(alloc);
    for i in 0..givers.len() {
        let whole = givers.get(i).whole.coarser(own.times);
        others.clear();
        of_cycle(
            alloc,
            program,
            other,
            cycle,
            own.unit,
            whole,
            &mut others,
            steps,
        )?;
        others.refine(0, own.times);
        add_with_each(alloc, rows.side, rows.op, givers.get(i), &others, out)?;
    }
    Ok(())
}

// Each item of the left side with each of the right one.
#[cycle(counted)]
fn join_both<'t, L: Ledger>(
    alloc: Global,
    program: &'t Program,
    rows: &JoinedRows,
    ask: &CountAsk,
    out: &mut Items<'t>,
    steps: &mut StepCount<L>,
) -> Result<(), NoMemory>
    requires both { rows.now.side ≡ Both }
    requires rows { rows_needed (rows.now.left ∷ rows.now.right ∷ []) ≤ length program.now.nodes }
    requires visit { MayCountVisit (joined_tree program.now.nodes rows.now) ask.now }
    ensures { IsVisit (joined_tree program.now.nodes rows.now) ask.now result out.old out.new steps.old (steps.new + 1) }
{
    let mut lefts = Items::new(alloc);
    in_cycle(alloc, program, rows.left, ask, &mut lefts, steps)?;
    let mut rights = Items::new(alloc);
    in_cycle(alloc, program, rows.right, ask, &mut rights, steps)?;
    add_joined(alloc, Side::Both, rows.op, &lefts, &rights, out)
}

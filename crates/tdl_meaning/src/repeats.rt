ghost use Rattle.std.specs.Prelude.{◌≡◌, ◌<◌, ◌≤◌, ◌^◌, length, map, pos, IsTrue, IfSome};
ghost use Rattle.tdl_fraction.specs.Rational.{whole, ◌*ℚ◌, ◌<ℚ◌};
ghost use Rattle.tdl_expr.specs.Rows.{IsRow, in_order, weighted as steps_of, trees_of, tree_at};
ghost use Rattle.tdl_meaning.specs.Pattern.{Share, cat};
ghost use Rattle.tdl_meaning.specs.Meaning.{cyc, patterns, weighted as shares_of};
ghost use Rattle.tdl_meaning.specs.Proper.{Each};
ghost use Rattle.tdl_meaning.specs.Repeats.{Repeats};
ghost use Rattle.tdl_meaning.specs.inside.Children.{rows_needed};

use tdl_expr::{Ids, Node, NodeId, StepList, Table};
use tdl_fraction::Frac;

/// Whether the row's tree is known to repeat after so many cycles: then each cycle has the events of the cycle
/// that is so many earlier. A walk over the tree.
pub fn repeats_after(table: &Table, id: NodeId, cycles: u32) -> bool
    requires { IsRow table.now id }
    ensures { IsTrue result → Repeats cycles (cyc (tree_at table.now id)) }
{
    tree_repeats(table, id, cycles)
}

// Whether a row's tree is known to repeat after so many cycles.
#[cycle(repeats)]
#[tactic(auto, using(crate::proofs::RepeatsOfRows::leaf_repeats))]
fn tree_repeats(table: &Table, id: NodeId, cycles: u32) -> bool
    requires { IsRow table.now id }
    ensures { IsTrue result → Repeats cycles (cyc (tree_at table.now id)) }
{
    match table.get(id) {
        Node::Silence | Node::Pure { .. } => true,
        Node::Fast { rate, child } => match at_rate(cycles, *rate) {
            Some(asked) => tree_repeats(table, *child, asked),
            None => false,
        },
        Node::TimeCat { steps } => steps_repeat(table, steps, cycles),
        Node::Cat { children } => turns_repeat(table, children, cycles),
        Node::Stack { children } => trees_repeat(table, children, cycles),
        Node::Rev { child } => tree_repeats(table, *child, cycles),
        Node::Pick { selector, children } => {
            tree_repeats(table, *selector, cycles) && trees_repeat(table, children, cycles)
        }
        Node::When {
            modulus,
            yes,
            no,
            ..
        } => cycles % *modulus == 0 && both_repeat(table, *yes, *no, cycles),
        Node::Shift { child, .. } => tree_repeats(table, *child, cycles),
        Node::Join { left, right, .. } => both_repeat(table, *left, *right, cycles),
        Node::Ply { child, .. } => tree_repeats(table, *child, cycles),
        Node::Gate { child, .. } => tree_repeats(table, *child, cycles),
    }
}

// Whether both rows' trees are known to repeat after so many cycles.
#[cycle(repeats)]
fn both_repeat(table: &Table, left: NodeId, right: NodeId, cycles: u32) -> bool
    requires left { IsRow table.now left }
    requires right { IsRow table.now right }
    ensures { IsTrue result → Repeats cycles (cyc (tree_at table.now left)) × Repeats cycles (cyc (tree_at table.now right)) }
{
    tree_repeats(table, left, cycles) && tree_repeats(table, right, cycles)
}

// So many cycles, at the rate, if that is a whole number that fits.
fn at_rate(cycles: u32, rate: Frac) -> Option<u32>
    requires { whole (pos 0) <ℚ rate }
    ensures { IfSome result (λ n. whole (pos n) ≡ whole (pos cycles) *ℚ rate) }
{
    let asked = cycles as u128 * rate.numerator().unsigned_abs();
    let by = rate.denominator() as u128;
    if asked % by == 0 {
        u32::try_from(asked / by).ok()
    } else {
        None
    }
}

// Whether each child is known to repeat after so many cycles.
#[cycle(repeats)]
fn trees_repeat(table: &Table, children: &Ids, cycles: u32) -> bool
    requires { rows_needed children.now ≤ length table.now }
    ensures { IsTrue result → Each (Repeats cycles) (patterns (in_order (trees_of table.now) children.now)) }
{
    for child in children.as_slice() {
        if !tree_repeats(table, *child, cycles) {
            return false;
        }
    }
    true
}

// Whether each step's child is known to repeat after so many cycles.
#[cycle(repeats)]
fn steps_repeat(table: &Table, steps: &StepList, cycles: u32) -> bool
    requires { rows_needed (map (λ s. s.child) steps.now) ≤ length table.now }
    ensures { IsTrue result → Each (λ (s : Share). Repeats cycles s.pattern) (shares_of (steps_of (trees_of table.now) steps.now)) }
{
    for step in steps.as_slice() {
        if !tree_repeats(table, step.child, cycles) {
            return false;
        }
    }
    true
}

// Whether the children by turns, a cycle each, are known to repeat after so many cycles.
#[cycle(repeats)]
fn turns_repeat(table: &Table, children: &Ids, cycles: u32) -> bool
    requires some { 0 < length children.now }
    requires few { length children.now ≤ 2 ^ 31 }
    requires rows { rows_needed children.now ≤ length table.now }
    ensures { IsTrue result → Repeats cycles (cat (patterns (in_order (trees_of table.now) children.now))) }
{
    let count = children.len() as u32;
    cycles % count == 0 && trees_repeat(table, children, cycles / count)
}

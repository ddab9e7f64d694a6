//! The bounds of the rows of a table.
ghost use Rattle.std.specs.Prelude.{◌≡◌, ◌<◌, List, length, map, IfOk};
ghost use Rattle.std.specs.List.{All};
ghost use Rattle.tdl_expr.specs.declared.nodes.Node.{Node as NodeValue};
ghost use Rattle.tdl_expr.specs.Tree.{Tree};
ghost use Rattle.tdl_expr.specs.Tree as tree;
ghost use Rattle.tdl_expr.specs.Rows.{IsNode, IsRow, IsTable, in_order, weighted, row, tree_of, trees_of};
ghost use Rattle.tdl_expr.specs.Valid.{IsValid, AreValid, AreValidSteps};
ghost use Rattle.tdl_compile.specs.inside.Sizes.{NumbersStandFor, CollectsTrees, CollectsSteps, AllStand, AreKnown};

use crate::sizes::{Group, RowBounds};
use std::alloc::{AllocFailed, Global};
use tdl_control::NoMemory;
use tdl_expr::{Node, NodeId, Step, Table};

/// The bounds of each row, in the order of the rows.
pub(crate) fn bounds_of_rows(alloc: Global, table: &Table) -> Result<Vec<RowBounds>, NoMemory>
    ensures rows { IfOk result (λ rows. length rows.items ≡ length table.now) }
    ensures known { IfOk result (λ rows. AreKnown table.now rows.items) }
{
    let mut rows = Vec::with_capacity(alloc, table.rows() as usize)?;
    for index in 0..table.rows() {
        let bounds = bounds_of_node(table.get(table.id(index)), &rows);
        rows.push(bounds)?;
    }
    Ok(rows)
}

/// The bounds of this row, of those of all.
pub(crate) fn bounds_at(rows: &[RowBounds], id: NodeId) -> RowBounds
    requires { id.index < length rows.now }
    ensures { (trees : List Tree) → AllStand rows.now trees → NumbersStandFor result (row trees id) }
{
    rows[id.index() as usize]
}

/// Those of the rows before this one.
pub(crate) fn rows_before(rows: &[RowBounds], id: NodeId) -> &[RowBounds]
    requires { id.index < length rows.now }
    ensures known { (nodes : List NodeValue) → AreKnown nodes rows.now → AreKnown nodes result.now }
    ensures count { length result.now ≡ id.index }
{
    &rows[..id.index() as usize]
}

// The bounds of a node, of those of the rows that it may name.
fn bounds_of_node(node: &Node, rows: &[RowBounds]) -> RowBounds
    requires { IsNode (length rows.now) node.now }
    ensures { (trees : List Tree) → AllStand rows.now trees → IsValid (tree_of trees node.now) → NumbersStandFor result (tree_of trees node.now) }
{
    match node {
        Node::Silence => RowBounds::of_silence(),
        Node::Pure { .. } => RowBounds::of_leaf(),
        Node::Fast { rate, child } => bounds_at(rows, *child).fast(*rate),
        Node::TimeCat { steps } => {
            let sum = steps.total_weight();
            group_of_steps(rows, steps.as_slice()).time_cat(sum)
        }
        Node::Cat { children } => cat_of(rows, children.as_slice()),
        Node::Stack { children } => stack_of(rows, children.as_slice()),
        Node::Rev { child } => bounds_at(rows, *child).rev(),
        Node::Pick { selector, children } => pick_of(rows, *selector, children.as_slice()),
        Node::When { yes, no, .. } => bounds_at(rows, *yes).when(bounds_at(rows, *no)),
        Node::Shift { by, child } => bounds_at(rows, *child).shift(*by),
        Node::Join {
            side,
            left,
            right,
            ..
        } => bounds_at(rows, *left).join(*side, bounds_at(rows, *right)),
        Node::Ply { times, child } => bounds_at(rows, *child).ply(*times),
        Node::Gate { child, .. } => bounds_at(rows, *child).gate(),
    }
}

fn cat_of(rows: &[RowBounds], ids: &[NodeId]) -> RowBounds
    requires { All (λ id. id.index < length rows.now) ids.now }
    ensures { (trees : List Tree) → AllStand rows.now trees → AreValid (in_order trees ids.now) → NumbersStandFor result (tree.Cat (in_order trees ids.now)) }
{
    group_of(rows, ids).cat()
}

fn stack_of(rows: &[RowBounds], ids: &[NodeId]) -> RowBounds
    requires { All (λ id. id.index < length rows.now) ids.now }
    ensures { (trees : List Tree) → AllStand rows.now trees → AreValid (in_order trees ids.now) → NumbersStandFor result (tree.Stack (in_order trees ids.now)) }
{
    group_of(rows, ids).stack()
}

fn pick_of(rows: &[RowBounds], selector: NodeId, ids: &[NodeId]) -> RowBounds
    requires selector { selector.index < length rows.now }
    requires children { All (λ id. id.index < length rows.now) ids.now }
    ensures { (trees : List Tree) → AllStand rows.now trees → IsValid (tree.Pick (row trees selector) (in_order trees ids.now))
        → NumbersStandFor result (tree.Pick (row trees selector) (in_order trees ids.now)) }
{
    let choices = group_of(rows, ids);
    bounds_at(rows, selector).pick(choices)
}

// From the last to the first.
fn group_of(rows: &[RowBounds], ids: &[NodeId]) -> Group
    requires { All (λ id. id.index < length rows.now) ids.now }
    ensures { (trees : List Tree) → AllStand rows.now trees → AreValid (in_order trees ids.now) → CollectsTrees result (in_order trees ids.now) }
{
    let mut group = Group::none();
    let mut at = ids.len();
    while at > 0 {
        at -= 1;
        group = group.with(bounds_at(rows, ids[at]), 1);
    }
    group
}

fn group_of_steps(rows: &[RowBounds], steps: &[Step]) -> Group
    requires { All (λ id. id.index < length rows.now) (map (λ s. s.child) steps.now) }
    ensures { (trees : List Tree) → AllStand rows.now trees → AreValidSteps (weighted trees steps.now) → CollectsSteps result (weighted trees steps.now) }
{
    let mut group = Group::none();
    let mut at = steps.len();
    while at > 0 {
        at -= 1;
        group = group.with(bounds_at(rows, steps[at].child), steps[at].weight);
    }
    group
}

//! How fine the times are that are met in a tree, and how far they reach, each at most the greatest word.
ghost use Rattle.std.specs.Prelude.{◌≡◌, ◌<◌, ◌≤◌, length, map};
ghost use Rattle.std.specs.List.{All};
ghost use Rattle.tdl_expr.specs.Bounds.{fine, fine_of, fine_of_steps, reach, reach_of, reach_of_steps};
ghost use Rattle.tdl_expr.specs.Rows.{in_order, weighted, trees_of, tree_at};
ghost use Rattle.tdl_compile.specs.Compiled.{capped};
ghost use Rattle.tdl_compile.specs.inside.Sizes.{AreKnown, fine_below, reach_below, most_word};

use crate::rows::{bounds_at, rows_before};
use crate::sizes::{Asked, Extent, RowBounds};
use tdl_expr::{Node, NodeId, Step, Table};

/// Of the tree of a row that is asked so, where it is past the limit, and else at most the limit. Where the growth of the
/// row is small, that is known without a walk over its tree.
pub(crate) fn extent_up_to(
    table: &Table,
    rows: &[RowBounds],
    id: NodeId,
    asked: Asked,
    limit: Extent,
) -> Extent
    requires known { AreKnown table.now rows.now }
    requires row { id.index < length rows.now }
    requires limit_fine { limit.fine < most_word }
    requires limit_reach { limit.reach < most_word }
    ensures fine { limit.fine < result.fine → result.fine ≡ capped (fine (tree_at table.now id) asked.grid) }
    ensures reach { limit.reach < result.reach → result.reach ≡ capped (reach (tree_at table.now id) asked.far) }
    ensures kept_fine { result.fine ≤ limit.fine → fine (tree_at table.now id) asked.grid ≤ limit.fine }
    ensures kept_reach { result.reach ≤ limit.reach → reach (tree_at table.now id) asked.far ≤ limit.reach }
{
    let growth = bounds_at(rows, id).growth;
    let most = Extent {
        fine: growth.finer.saturating_mul(asked.grid),
        reach: growth.further.saturating_mul(asked.far.saturating_add(1)),
    };
    if most.fine <= limit.fine && most.reach <= limit.reach {
        return most;
    }
    extent_at(table, rows, id, asked)
}

/// Of the tree of a row that is asked so. A walk over the tree, short where it is a leaf.
#[cycle(extents)]
fn extent_at(table: &Table, rows: &[RowBounds], id: NodeId, asked: Asked) -> Extent
    requires known { AreKnown table.now rows.now }
    requires row { id.index < length rows.now }
    ensures fine { result.fine ≡ capped (fine (tree_at table.now id) asked.grid) }
    ensures reach { result.reach ≡ capped (reach (tree_at table.now id) asked.far) }
{
    match table.get(id) {
        Node::Silence | Node::Pure { .. } => asked.of_leaf(),
        _ => extent_of_tree(table, rows, id, asked),
    }
}

// What the tree meets itself, and what its children add.
#[cycle(extents)]
fn extent_of_tree(table: &Table, rows: &[RowBounds], id: NodeId, asked: Asked) -> Extent
    requires known { AreKnown table.now rows.now }
    requires row { id.index < length rows.now }
    ensures fine { result.fine ≡ capped (fine (tree_at table.now id) asked.grid) }
    ensures reach { result.reach ≡ capped (reach (tree_at table.now id) asked.far) }
{
    let own = asked.own_extent(bounds_at(rows, id));
    own.with(extent_below(table, rows, id, asked))
}

// What its children add.
#[cycle(extents)]
fn extent_below(table: &Table, rows: &[RowBounds], id: NodeId, asked: Asked) -> Extent
    requires known { AreKnown table.now rows.now }
    requires row { id.index < length rows.now }
    ensures fine { result.fine ≡ capped (fine_below (tree_at table.now id) asked.grid) }
    ensures reach { result.reach ≡ capped (reach_below (tree_at table.now id) asked.far) }
{
    let before = rows_before(rows, id);
    match table.get(id) {
        Node::Silence | Node::Pure { .. } => Extent::none(),
        Node::Fast { rate, child } => extent_at(table, before, *child, asked.fast(*rate)),
        Node::TimeCat { steps } => extent_of_steps(table, before, steps.as_slice(), asked),
        Node::Cat { children } => extent_of(table, before, children.as_slice(), asked),
        Node::Stack { children } => extent_of(table, before, children.as_slice(), asked),
        Node::Rev { child } => extent_at(table, before, *child, asked),
        Node::Pick { selector, children } => {
            let chosen = asked.chosen(bounds_at(before, *selector));
            let choices = extent_of(table, before, children.as_slice(), chosen);
            extent_at(table, before, *selector, asked).with(choices)
        }
        Node::When { yes, no, .. } => {
            let other = extent_at(table, before, *no, asked);
            extent_at(table, before, *yes, asked).with(other)
        }
        Node::Shift { by, child } => extent_at(table, before, *child, asked.shift(*by)),
        Node::Join {
            side,
            left,
            right,
            ..
        } => {
            let asked_left = asked.left(*side, bounds_at(before, *right));
            let asked_right = asked.right(*side, bounds_at(before, *left));
            let extent_right = extent_at(table, before, *right, asked_right);
            extent_at(table, before, *left, asked_left).with(extent_right)
        }
        Node::Ply { child, .. } => extent_at(table, before, *child, asked),
        Node::Gate { child, .. } => extent_at(table, before, *child, asked),
    }
}

// Of several, each asked so.
#[cycle(extents)]
fn extent_of(table: &Table, rows: &[RowBounds], ids: &[NodeId], asked: Asked) -> Extent
    requires known { AreKnown table.now rows.now }
    requires below { All (λ id. id.index < length rows.now) ids.now }
    ensures fine { result.fine ≡ capped (fine_of (in_order (trees_of table.now) ids.now) asked.grid) }
    ensures reach { result.reach ≡ capped (reach_of (in_order (trees_of table.now) ids.now) asked.far) }
{
    let mut extent = Extent::none();
    for id in ids {
        extent = extent.with(extent_at(table, rows, *id, asked));
    }
    extent
}

// Of steps, each asked as its weight has it.
#[cycle(extents)]
fn extent_of_steps(table: &Table, rows: &[RowBounds], steps: &[Step], asked: Asked) -> Extent
    requires known { AreKnown table.now rows.now }
    requires below { All (λ id. id.index < length rows.now) (map (λ s. s.child) steps.now) }
    requires weights { All (λ s. 0 < s.weight) steps.now }
    ensures fine { result.fine ≡ capped (fine_of_steps (weighted (trees_of table.now) steps.now) asked.grid) }
    ensures reach { result.reach ≡ capped (reach_of_steps (weighted (trees_of table.now) steps.now) asked.far) }
{
    let mut extent = Extent::none();
    for step in steps {
        extent = extent.with(extent_at(table, rows, step.child, asked.step(step.weight)));
    }
    extent
}

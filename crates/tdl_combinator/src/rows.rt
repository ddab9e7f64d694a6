// Rows of one node.
ghost use Rattle.std.specs.Prelude.{◌<◌, pos};
ghost use Rattle.std.specs.Int.{w32};
ghost use Rattle.tdl_control.specs.declared.leaves.Leaf.{Leaf as LeafValue};
ghost use Rattle.tdl_expr.specs.Rows.{IsRow, tree_at};
ghost use Rattle.tdl_expr.specs.Tree as tree;
ghost use Rattle.tdl_rows.specs.Built.{one_row};
ghost use Rattle.tdl_rows.specs.Lowers.{LowersTo};
ghost use Rattle.tdl_combinator.specs.Makings.{two};

use crate::by_cycle::Round;
use std::alloc::Global;
use tdl_control::Leaf;
use tdl_expr::{Node, NodeId, Op, PushFault, Side, Table};
use tdl_fraction::Frac;
use tdl_rows::stack_of;

pub(crate) fn silence(table: &mut Table) -> Result<NodeId, PushFault>
    ensures { LowersTo table.old table.new (one_row 0 tree.Silence) result }
{
    table.push(Node::Silence)
}

pub(crate) fn pure(table: &mut Table, leaf: Leaf) -> Result<NodeId, PushFault>
    ensures { LowersTo table.old table.new (one_row 0 (tree.Pure leaf)) result }
{
    table.push(Node::Pure { leaf })
}

pub(crate) fn rev(table: &mut Table, child: NodeId) -> Result<NodeId, PushFault>
    requires { IsRow table.old child }
    ensures { LowersTo table.old table.new (one_row 1 (tree.Rev (tree_at table.old child))) result }
{
    table.push(Node::Rev { child })
}

pub(crate) fn shift(table: &mut Table, by: Frac, child: NodeId) -> Result<NodeId, PushFault>
    requires { IsRow table.old child }
    ensures { LowersTo table.old table.new (one_row 1 (tree.Shift by (tree_at table.old child))) result }
{
    table.push(Node::Shift { by, child })
}

// One row in some cycles of each round, and another elsewhere.
pub(crate) fn when(
    table: &mut Table,
    round: Round,
    yes: NodeId,
    no: NodeId,
) -> Result<NodeId, PushFault>
    requires some { 0 < round.modulus }
    requires yes { IsRow table.old yes }
    requires no { IsRow table.old no }
    ensures { LowersTo table.old table.new (one_row 2 (tree.When round.modulus round.test (tree_at table.old yes) (tree_at table.old no))) result }
{
    let modulus = round.modulus;
    let test = round.test;
    table.push(Node::When {
        modulus,
        test,
        yes,
        no,
    })
}

// What of the row starts in a part of its cycle, or what starts elsewhere.
pub(crate) fn gate(
    table: &mut Table,
    from: Frac,
    to: Frac,
    inside: bool,
    child: NodeId,
) -> Result<NodeId, PushFault>
    requires { IsRow table.old child }
    ensures { LowersTo table.old table.new (one_row 1 (tree.Gate from to inside (tree_at table.old child))) result }
{
    table.push(Node::Gate {
        from,
        to,
        inside,
        child,
    })
}

pub(crate) fn ply(table: &mut Table, times: u32, child: NodeId) -> Result<NodeId, PushFault>
    requires some { 0 < times }
    requires row { IsRow table.old child }
    ensures { LowersTo table.old table.new (one_row 1 (tree.Ply times (tree_at table.old child))) result }
{
    table.push(Node::Ply { times, child })
}

pub(crate) fn join(
    table: &mut Table,
    side: Side,
    op: Op,
    left: NodeId,
    right: NodeId,
) -> Result<NodeId, PushFault>
    requires left { IsRow table.old left }
    requires right { IsRow table.old right }
    ensures { LowersTo table.old table.new (one_row 2 (tree.Join side op (tree_at table.old left) (tree_at table.old right))) result }
{
    table.push(Node::Join {
        side,
        op,
        left,
        right,
    })
}

// Two rows at the same time.
pub(crate) fn two(
    alloc: Global,
    table: &mut Table,
    first: NodeId,
    second: NodeId,
) -> Result<NodeId, PushFault>
    requires first { IsRow table.old first }
    requires second { IsRow table.old second }
    ensures { LowersTo table.old table.new (two (tree_at table.old first) (tree_at table.old second)) result }
{
    stack_of(alloc, &[first, second], table)
}

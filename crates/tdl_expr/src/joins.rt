ghost use Rattle.std.specs.Prelude.{◌≡◌, ◌<◌, ◌≤◌, ◌^◌, length, Err, IfOk, IfSome};
ghost use Rattle.std.specs.List.{All, sum};
ghost use Rattle.tdl_expr.specs.Joins.{JoinsTo, join_overflow, joined_rows, shared_rows};
ghost use Rattle.tdl_expr.specs.Rows.{IsRow, tree_at};
ghost use Rattle.tdl_expr.specs.Tree.{Cat as CatTree, Join as JoinTree, Stack as StackTree};
ghost use Rattle.tdl_expr.specs.WeightLaws.{WeightLaws};
ghost use Rattle.tdl_expr.specs.Weights.{even_steps, AreWeights, lowest, whole_weights, steps_of};

use crate::ids::{Ids, NodeId};
use crate::joinings::{Op, Side};
use crate::nodes::Node;
use crate::steps::{StepList, even_steps, lowest_steps};
use crate::tables::{PushFault, Table};
use crate::weights::counts_of;
use std::alloc::Global;
use tdl_control::NoMemory;
use tdl_fraction::Frac;

/// A row that has a cycle of each child in turn. Of one child it is that child's row, and of no child
/// a row of silence. A refusal leaves the table as it was.
pub fn cat(alloc: Global, table: &mut Table, children: &[NodeId]) -> Result<NodeId, PushFault>
    requires rows { All (IsRow table.old) children.now }
    requires few { length children.now ≤ 2 ^ 31 }
    ensures { JoinsTo table.old table.new (joined_rows CatTree table.old children.now) (length children.now) result }
{
    match children {
        [] => table.push(Node::Silence),
        [child] => Ok(*child),
        _ => {
            let children = ids_of(alloc, children)?;
            table.push(Node::Cat { children })
        }
    }
}

/// A row that has all children one after another in each cycle, with equal shares. Of one child it is
/// that child's row, and of no child a row of silence. A refusal leaves the table as it was.
pub fn fastcat(alloc: Global, table: &mut Table, children: &[NodeId]) -> Result<NodeId, PushFault>
    requires rows { All (IsRow table.old) children.now }
    requires few { length children.now ≤ 2 ^ 31 }
    ensures { JoinsTo table.old table.new (shared_rows table.old (even_steps children.now)) (length children.now) result }
{
    match children {
        [] => table.push(Node::Silence),
        [child] => Ok(*child),
        _ => {
            let steps = StepList::of(alloc, even_steps(alloc, children)?)?;
            table.push(Node::TimeCat { steps })
        }
    }
}

/// A row that has all children one after another in each cycle, with shares as their weights. Of one
/// child it is that child's row, and of no child a row of silence. A refusal leaves the table as it was.
pub fn timecat(
    alloc: Global,
    table: &mut Table,
    weights: &[Frac],
    children: &[NodeId],
) -> Result<NodeId, PushFault>
    requires rows { All (IsRow table.old) children.now }
    requires few { length children.now ≤ 2 ^ 31 }
    requires each { length weights.now ≡ length children.now }
    requires weights { AreWeights weights.now }
    ensures { JoinsTo table.old table.new (shared_rows table.old (steps_of (whole_weights weights.now) children.now)) (length children.now) result }
{
    let counts = counts_of(alloc, weights)?;
    timecat_of_counts(alloc, table, &counts, children)
}

/// The same with shares as these counts, in which what divides all of them is of no account.
pub fn timecat_of_counts(
    alloc: Global,
    table: &mut Table,
    counts: &[u64],
    children: &[NodeId],
) -> Result<NodeId, PushFault>
    requires rows { All (IsRow table.old) children.now }
    requires few { length children.now ≤ 2 ^ 31 }
    requires each { length counts.now ≡ length children.now }
    requires positive { All (λ count. 0 < count) counts.now }
    requires sum { sum counts.now ≤ 2 ^ 40 }
    ensures { JoinsTo table.old table.new (shared_rows table.old (steps_of (lowest counts.now) children.now)) (length children.now) result }
{
    match children {
        [] => table.push(Node::Silence),
        [child] => Ok(*child),
        _ => {
            let steps = StepList::of(alloc, lowest_steps(alloc, counts, children)?)?;
            table.push(Node::TimeCat { steps })
        }
    }
}

/// A row that has all children at the same time. Of one child it is that child's row, and of no child
/// a row of silence. A refusal leaves the table as it was.
pub fn stack(alloc: Global, table: &mut Table, children: &[NodeId]) -> Result<NodeId, PushFault>
    requires rows { All (IsRow table.old) children.now }
    requires few { length children.now ≤ 2 ^ 31 }
    ensures { JoinsTo table.old table.new (joined_rows StackTree table.old children.now) (length children.now) result }
{
    match children {
        [] => table.push(Node::Silence),
        [child] => Ok(*child),
        _ => {
            let children = ids_of(alloc, children)?;
            table.push(Node::Stack { children })
        }
    }
}

/// A row for the join of two rows. `TooLarge` comes before `NoMemory`, and a refusal leaves the table as
/// it was.
pub fn join(
    table: &mut Table,
    side: Side,
    op: Op,
    left: NodeId,
    right: NodeId,
) -> Result<NodeId, PushFault>
    requires left { IsRow table.old left }
    requires right { IsRow table.old right }
    ensures joins { JoinsTo table.old table.new (JoinTree side op (tree_at table.old left) (tree_at table.old right)) 2 result }
    ensures refused { IfSome (join_overflow table.old 2) (λ fault. result ≡ Err fault) }
{
    table.push(Node::Join {
        side,
        op,
        left,
        right,
    })
}

// A list of these rows.
fn ids_of(alloc: Global, ids: &[NodeId]) -> Result<Ids, NoMemory>
    ensures { IfOk result (λ list. list ≡ ids.now) }
{
    Ok(Ids::of(ids.to_vec(alloc)?))
}

/// What the weights of `timecat` are in whole numbers: each weight is its whole number times a unit
/// that is the same for all, and no number but 1 divides all of them. Counts of ten-thousandths are
/// such weights, and their whole numbers are the counts, divided by what divides all of them.
pub fn whole_weights_laws()
    ensures { WeightLaws }
{}

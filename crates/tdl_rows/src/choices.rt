// The choice among the rows for each number that an argument may be.
ghost use Rattle.std.specs.Prelude.{ℕ, ◌≤◌, ◌^◌, List, length};
ghost use Rattle.std.specs.List.{All};
ghost use Rattle.tdl_expr.specs.Rows.{IsRow, tree_at};
ghost use Rattle.tdl_expr.specs.declared.nodes.Node.{Node as Row};
ghost use Rattle.tdl_fraction.specs.Rational.{Rational};
ghost use Rattle.tdl_rows.specs.Arguments.{argument_at, numbers_of, IsArgument};
ghost use Rattle.tdl_rows.specs.Built.{Built};
ghost use Rattle.tdl_rows.specs.Chosen.{StaysMade};
ghost use Rattle.tdl_rows.specs.Joined.{choose, pick_of};
ghost use Rattle.tdl_rows.specs.Lowers.{Gains, LowersTo, trees_at};
ghost use Rattle.tdl_expr.specs.Tree.{Tree};

use std::alloc::Global;
use tdl_expr::{Arg, Ids, Node, NodeId, PushFault, Table};
use tdl_fraction::Frac;

/// What is made of rows with a number.
pub trait ByNumber {
    /// The tree that it makes with a number, and the tree's rows, over the rows of a table.
    ghost made: { List Row → Self → Rational → Built Tree };

    /// It speaks of rows of the table.
    ghost stands: { List Row → Self → Type 0 };

    /// The numbers that it takes.
    ghost takes: { Self → Rational → Type 0 };

    /// The row that is made with a number.
    fn row(&self, alloc: Global, number: Frac, table: &mut Table) -> Result<NodeId, PushFault>
        requires stands { stands table.old self.now }
        requires takes { takes self.now number }
        ensures { LowersTo table.old table.new (made table.old self.now number) result };

    /// It makes the same while a table gains rows.
    ghost stays: { (old new : List Row) (rows : List ℕ) (x : Self) → Gains old new rows → stands old x → StaysMade (stands new x) (made old x) (made new x) };
}

/// The row for an argument: where it is chosen, the choice among the rows for each of its numbers.
pub fn choose<M: ByNumber>(
    alloc: Global,
    argument: &Arg,
    made: &M,
    table: &mut Table,
) -> Result<NodeId, PushFault>
    requires stands { M.stands table.old made.now }
    requires argument { IsArgument table.old argument.now }
    requires takes { All (M.takes made.now) (numbers_of argument.now) }
    ensures { LowersTo table.old table.new (choose (argument_at table.old argument.now) (M.made table.old made.now)) result }
{
    match argument {
        Arg::Plain(number) => made.row(alloc, *number, table),
        Arg::Chosen { selector, values } => {
            let mut children = Ids::new(alloc);
            for i in 0..values.len() {
                let id = made.row(alloc, *values.get(i), table)?;
                children.push(id)?;
            }
            pick_of(table, *selector, children)
        }
    }
}

/// The choice among rows; without rows silence.
pub fn pick_of(table: &mut Table, selector: NodeId, children: Ids) -> Result<NodeId, PushFault>
    requires selector { IsRow table.old selector }
    requires children { All (IsRow table.old) children }
    requires few { length children ≤ 2 ^ 31 }
    ensures { LowersTo table.old table.new (pick_of (tree_at table.old selector) (trees_at table.old children)) result }
{
    if children.is_empty() {
        return table.push(Node::Silence);
    }
    table.push(Node::Pick { selector, children })
}

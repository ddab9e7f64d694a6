// The rows of whole texts.
ghost use Rattle.std.specs.Prelude.{not, IsTrue, IfOk};
ghost use Rattle.tdl_mini_tree.specs.Syntax.{syntax_of};
ghost use Rattle.tdl_mini_rows.specs.Lowered.{lowered, argument_of};
ghost use Rattle.tdl_rows.specs.Lowers.{LowersTo};
ghost use Rattle.tdl_rows.specs.Arguments.{argument_at, LowersToArg};
ghost use Rattle.tdl_mini_rows.specs.Arguments.{is_argument, IsArgumentOf};

use crate::joins::stack_of;
use crate::lowering::{argument_of, layers_of};
use crate::paces::Finish;
use crate::play::Play;
use std::alloc::Global;
use tdl_expr::{Arg, NodeId, PushFault, Table};
use tdl_mini_tree::Tree;

/// A row for the pattern that a text of a kind other than `Count` and `Ratio` is. `TooLarge` comes at the
/// first row of it that goes above the limits of a table. A refusal may leave rows of the text above the
/// older ones. Memory for lists comes from the allocator.
pub fn lower(alloc: Global, tree: &Tree, table: &mut Table) -> Result<NodeId, PushFault>
    requires { IsTrue (not (is_argument tree.now.kind)) }
    ensures { LowersTo table.old table.new (lowered tree.now.kind (syntax_of tree.now)) result }
{
    let play = Play::Values(tree.kind);
    let sequences = layers_of(alloc, &tree.nests, tree.root, &play, &Finish::InTurn, table)?;
    stack_of(alloc, &sequences, table)
}

/// The argument that a text of kind `Count` or `Ratio` is: its number, if it is one number alone, and else a
/// row that chooses among its numbers: they are distinct, of bounded size and, in a text of counts, whole, and
/// what the row plays are their indices. Refusals are those of `lower`.
pub fn lower_arg(alloc: Global, tree: &Tree, table: &mut Table) -> Result<Arg, PushFault>
    requires { IsTrue (is_argument tree.now.kind) }
    ensures lowered { LowersToArg table.old table.new (argument_of (syntax_of tree.now)) result }
    ensures bounded { IfOk result (λ argument. IsArgumentOf tree.now.kind (argument_at table.new argument)) }
{
    argument_of(alloc, &tree.nests, tree.root, table)
}

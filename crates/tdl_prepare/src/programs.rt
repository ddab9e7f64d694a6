// Programs of trees.
ghost use Rattle.std.specs.Prelude.{◌≡◌};
ghost use Rattle.tdl_command.specs.Valid.{IsValidExpr};
ghost use Rattle.tdl_command.specs.View.{expr_of};
ghost use Rattle.tdl_mini_rows.specs.Lowered.{lowered};
ghost use Rattle.tdl_prepare.specs.Built.{built};
ghost use Rattle.tdl_prepare.specs.Prepared.{PreparesTo};
ghost use Rattle.tdl_mini_tree.specs.declared.leaves.Kind.TheVariants.{Sound};
ghost use Rattle.tdl_mini_tree.specs.Syntax.{syntax_of};

use crate::expressions::expr_row;
use crate::faults::PrepareFault;
use std::alloc::Global;
use tdl_command::Expr;
use tdl_compile::{Program, compile};
use tdl_expr::Table;
use tdl_mini_rows::lower;
use tdl_mini_tree::Tree;

/// The program of an expression. Its table has room for so many rows before it grows.
pub(crate) fn expr_program(alloc: Global, expr: &Expr, room: usize) -> Result<Program, PrepareFault>
    requires { IsValidExpr expr.now }
    ensures { PreparesTo (built (expr_of expr.now)) result }
{
    let mut table = Table::with_room(alloc, room)?;
    let root = expr_row(alloc, expr, &mut table)?;
    let program = compile(alloc, table, root)?;
    program.table().table_law();
    Table::validity_law();
    Ok(program)
}

/// The program of a text of sounds.
pub(crate) fn mini_program(alloc: Global, tree: &Tree) -> Result<Program, PrepareFault>
    requires { tree.now.kind ≡ Sound }
    ensures { PreparesTo (lowered Sound (syntax_of tree.now)) result }
{
    let mut table = Table::new(alloc);
    let root = lower(alloc, tree, &mut table)?;
    let program = compile(alloc, table, root)?;
    program.table().table_law();
    Table::validity_law();
    Ok(program)
}

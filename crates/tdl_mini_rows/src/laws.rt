// What stays while a table grows.
ghost use Rattle.std.specs.Prelude.{List, ◌++◌};
ghost use Rattle.tdl_expr.specs.declared.args.Arg.{Arg};
ghost use Rattle.tdl_expr.specs.declared.nodes.Node.{Node};
ghost use Rattle.tdl_rows.specs.Arguments.{IsArgument, StaysArgument};

use tdl_expr::Table;

/// An argument that is lowered stays what it is while the table grows.
pub fn arguments_stay()
    ensures { (nodes more : List Node) (argument : Arg) → IsArgument nodes argument → StaysArgument nodes (nodes ++ more) argument }
{
    Table::growth_laws();
}

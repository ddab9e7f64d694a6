// How the sequences of a bracket are joined, and braces that wait for their factor.
ghost use Rattle.std.specs.Prelude.{◌≡◌, ◌≤◌, length, IsTrue};
ghost use Rattle.tdl_expr.specs.Rows.{max_rows};
ghost use Rattle.tdl_mini_rows.specs.inside.Bounds.{is_way, are_rates, argument_values, AreBounded};
ghost use Rattle.tdl_mini_rows.specs.inside.SizeViews.{IsValid};
ghost use Rattle.tdl_mini_tree.specs.View.{trees_of, named};
ghost use Rattle.tdl_rows.specs.Joined.{Weighted as WeightedTree};
ghost use Rattle.tdl_mini_rows.specs.Lowered.{finish_of};
ghost use Rattle.tdl_rows.specs.Arguments.{argument_at, numbers_of, IsArgument, LowersToArg};
ghost use Rattle.tdl_mini_rows.specs.inside.Views.{finish_with};
ghost use Rattle.tdl_mini_rows.specs.inside.Waits.{AreWaiting, waits_at, back};

use crate::joins::WeightedRows;
use crate::numbers::decimal;
use crate::paces::{Finish, PacedStack};
use crate::sizes::first_parts;
use std::alloc::Global;
use tdl_expr::{Arg, Fracs, PushFault, Table};
use tdl_mini_tree::{Bracket, Layers, NestId};
use tdl_rows::choose;

/// How the sequences of a bracket are joined.
pub(crate) fn finish_of(bracket: Bracket, nests: &[Layers], id: NestId) -> Finish
    requires { IsValid (named (trees_of nests.now) id) }
    ensures value { finish_with result ≡ finish_of bracket (named (trees_of nests.now) id) }
    ensures way { IsTrue (is_way result) }
{
    match bracket {
        Bracket::Square => Finish::InTurn,
        Bracket::Angle => Finish::CycleEach,
        Bracket::Brace => Finish::AtPace(decimal(first_parts(nests, id))),
    }
}

/// Braces as a selector, whose sequences are there and wait for their factor.
#[derive(Drop)]
pub(crate) struct Waiting {
    pub values: Fracs,
    pub sequences: WeightedRows,
}

/// The argument that the first of several braces are, where the last have this factor.
pub(crate) fn chosen_back(
    alloc: Global,
    waiting: Vec<Waiting>,
    factor: Arg,
    table: &mut Table,
) -> Result<Arg, PushFault>
    requires waiting { AreWaiting table.old waiting.items }
    requires factor { IsArgument table.old factor }
    requires few { length (numbers_of factor) ≤ max_rows }
    requires bounded { AreBounded waiting.items }
    requires rates { IsTrue (are_rates (argument_values (argument_at table.old factor))) }
    ensures { LowersToArg table.old table.new (back (waits_at table.old waiting.items) (argument_at table.old factor)) result }
{
    let mut waiting = waiting;
    let mut argument = factor;
    while let Some(last) = waiting.pop() {
        let stack = PacedStack {
            sequences: last.sequences,
        };
        let selector = choose(alloc, &argument, &stack, table)?;
        argument = Arg::Chosen {
            selector,
            values: last.values,
        };
    }
    Ok(argument)
}

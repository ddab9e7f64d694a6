// The arguments of functions.
ghost use Rattle.std.specs.Prelude.{◌≡◌, ◌≤◌};
ghost use Rattle.tdl_prepare.specs.Numbers.{count_built, ratio_built};
ghost use Rattle.tdl_command.specs.Valid.{IsValidCount, IsValidRatio};
ghost use Rattle.tdl_command.specs.View.{count_of, ratio_of};
ghost use Rattle.tdl_prepare.specs.inside.Views.{LowersToNumber};

use crate::numbers::plain_value;
use std::alloc::Global;
use tdl_command::{Count, Ratio};
use tdl_expr::{Arg, PushFault, Table};
use tdl_fraction::Frac;
use tdl_mini_rows::lower_arg;

pub(crate) fn ratio_argument(
    alloc: Global,
    ratio: &Ratio,
    table: &mut Table,
) -> Result<Arg, PushFault>
    requires { IsValidRatio ratio.now }
    ensures { LowersToNumber table.old table.new (ratio_built (ratio_of ratio.now)) result }
{
    match ratio {
        Ratio::Plain(plain) => Ok(Arg::Plain(plain_value(**plain))),
        Ratio::Text(tree) => lower_arg(alloc, tree, table),
    }
}

pub(crate) fn count_argument(
    alloc: Global,
    count: &Count,
    table: &mut Table,
) -> Result<Arg, PushFault>
    requires { IsValidCount count.now }
    ensures { LowersToNumber table.old table.new (count_built (count_of count.now)) result }
{
    match count {
        Count::Whole(number) => Ok(Arg::Plain(Frac::whole(i64::from(*number)))),
        Count::Text(tree) => lower_arg(alloc, tree, table),
    }
}

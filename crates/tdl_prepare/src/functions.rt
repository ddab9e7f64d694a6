// Functions of arguments and texts.
ghost use Rattle.std.specs.Prelude.{List};
ghost use Rattle.tdl_expr.specs.declared.nodes.Node.{Node as Row};
ghost use Rattle.tdl_expr.specs.Rows.{IsRow, tree_at};
ghost use Rattle.tdl_rows.specs.Arguments.{argument_at};
ghost use Rattle.tdl_combinator.specs.Funs.{IsNumber};
ghost use Rattle.tdl_prepare.specs.Built.{bare_fun, bools_fun, count_fun, fun_built, ratio_fun, shift_built, shift_fun};
ghost use Rattle.tdl_command.specs.Tree as tree;
ghost use Rattle.tdl_command.specs.Valid.{AreHits, AreHitsFrom, IsTextOf, IsValidCount, IsValidRatio};
ghost use Rattle.tdl_command.specs.View.{count_of, ratio_of, reading_of};
ghost use Rattle.tdl_prepare.specs.inside.Views.{LowersToFun, FunStandsFor, Wraps};
ghost use Rattle.tdl_mini_tree.specs.declared.leaves.Kind.TheVariants.{Bool};

use crate::arguments::{count_argument, ratio_argument};
use crate::leaves::bools_row;
use std::alloc::Global;
use tdl_combinator::Fun;
use tdl_command::{BareFun, BoolsFun, Count, CountFun, Ratio, RatioFun, Way};
use tdl_expr::{Arg, NodeId, PushFault, Table};
use tdl_fraction::Frac;
use tdl_mini_tree::Tree;

pub(crate) fn bare_fun(name: BareFun) -> Fun
    ensures { (nodes : List Row) → FunStandsFor nodes result (bare_fun name) }
{
    match name {
        BareFun::Same => Fun::Same,
        BareFun::Rev => Fun::Rev,
        BareFun::Palindrome => Fun::Palindrome,
        BareFun::Brak => Fun::Brak,
    }
}

/// A function of a ratio.
pub(crate) fn ratio_fun(
    alloc: Global,
    name: RatioFun,
    ratio: &Ratio,
    table: &mut Table,
) -> Result<Fun, PushFault>
    requires { IsValidRatio ratio.now }
    ensures { LowersToFun table.old table.new (fun_built (tree.of_ratio name (ratio_of ratio.now))) result }
{
    let argument = ratio_argument(alloc, ratio, table)?;
    Ok(of_ratio(name, argument))
}

fn of_ratio(name: RatioFun, argument: Arg) -> Fun
    ensures { Wraps (λ nodes. IsNumber nodes argument) (λ nodes. ratio_fun name (argument_at nodes argument)) result }
{
    match name {
        RatioFun::Fast => Fun::Fast(argument),
        RatioFun::Slow => Fun::Slow(argument),
        RatioFun::Earlier => Fun::Earlier(argument),
        RatioFun::Later => Fun::Later(argument),
    }
}

/// The function of a ratio and `<~` or `~>`.
pub(crate) fn shift_fun(
    alloc: Global,
    by: &Ratio,
    way: Way,
    table: &mut Table,
) -> Result<Fun, PushFault>
    requires { IsValidRatio by.now }
    ensures { LowersToFun table.old table.new (shift_built (ratio_of by.now) way) result }
{
    let argument = ratio_argument(alloc, by, table)?;
    Ok(of_way(way, argument))
}

fn of_way(way: Way, argument: Arg) -> Fun
    ensures { Wraps (λ nodes. IsNumber nodes argument) (λ nodes. shift_fun way (argument_at nodes argument)) result }
{
    match way {
        Way::Earlier => Fun::Earlier(argument),
        Way::Later => Fun::Later(argument),
    }
}

/// A function of a count.
pub(crate) fn count_fun(
    alloc: Global,
    name: CountFun,
    count: &Count,
    table: &mut Table,
) -> Result<Fun, PushFault>
    requires { IsValidCount count.now }
    ensures { LowersToFun table.old table.new (fun_built (tree.of_count name (count_of count.now))) result }
{
    let argument = count_argument(alloc, count, table)?;
    Ok(of_count(name, argument))
}

fn of_count(name: CountFun, argument: Arg) -> Fun
    ensures { Wraps (λ nodes. IsNumber nodes argument) (λ nodes. count_fun name (argument_at nodes argument)) result }
{
    match name {
        CountFun::Ply => Fun::Ply(argument),
        CountFun::Segment => Fun::Segment(argument),
        CountFun::Iter => Fun::Iter(argument),
    }
}

/// A function of truth values.
pub(crate) fn bools_fun(
    alloc: Global,
    name: BoolsFun,
    text: &Tree,
    table: &mut Table,
) -> Result<Fun, PushFault>
    requires { IsTextOf Bool text.now }
    ensures { LowersToFun table.old table.new (fun_built (tree.of_bools name (reading_of text.now))) result }
{
    let bools = bools_row(alloc, text, table)?;
    Ok(of_bools(name, bools))
}

fn of_bools(name: BoolsFun, bools: NodeId) -> Fun
    ensures { Wraps (λ nodes. IsRow nodes bools) (λ nodes. bools_fun name (tree_at nodes bools)) result }
{
    match name {
        BoolsFun::Struct => Fun::Struct { bools },
        BoolsFun::Mask => Fun::Mask { bools },
    }
}

/// The hits of a rhythm that begins at its first step.
pub(crate) fn euclid_fun(
    alloc: Global,
    hits: &Count,
    steps: &Count,
    table: &mut Table,
) -> Result<Fun, PushFault>
    requires { AreHits hits.now steps.now }
    ensures { LowersToFun table.old table.new (fun_built (tree.euclid (count_of hits.now) (count_of steps.now))) result }
{
    let k = count_argument(alloc, hits, table)?;
    let n = count_argument(alloc, steps, table)?;
    let r = Arg::Plain(Frac::whole(0));
    Ok(Fun::Euclid { k, n, r })
}

/// The hits of a rhythm that begins at some step.
pub(crate) fn euclid_off_fun(
    alloc: Global,
    hits: &Count,
    steps: &Count,
    from: &Count,
    table: &mut Table,
) -> Result<Fun, PushFault>
    requires { AreHitsFrom hits.now steps.now from.now }
    ensures { LowersToFun table.old table.new (fun_built (tree.euclid_off (count_of hits.now) (count_of steps.now) (count_of from.now))) result }
{
    let k = count_argument(alloc, hits, table)?;
    let n = count_argument(alloc, steps, table)?;
    let r = count_argument(alloc, from, table)?;
    Ok(Fun::Euclid { k, n, r })
}

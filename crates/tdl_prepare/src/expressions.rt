// The rows of expressions, and the functions that are in them.
ghost use Rattle.std.specs.List.{All};
ghost use Rattle.tdl_expr.specs.Rows.{IsRow, tree_at};
ghost use Rattle.tdl_rows.specs.Built.{kept, ◌▸◌};
ghost use Rattle.tdl_rows.specs.Lowers.{LowersTo};
ghost use Rattle.tdl_combinator.specs.Applied.{applied};
ghost use Rattle.tdl_combinator.specs.Funs.{fun_at, IsFun};
ghost use Rattle.tdl_combinator.specs.TreeFun.{Chain};
ghost use Rattle.tdl_prepare.specs.Built.{applied_built, built, fun_built, joined_trees, shift_built};
ghost use Rattle.tdl_command.specs.Tree as tree;
ghost use Rattle.tdl_command.specs.Valid.{IsValidCount, IsValidExpr, IsValidFun, IsValidPart, IsValidPlain, IsValidRatio};
ghost use Rattle.tdl_command.specs.View.{count_of, expr_of, fun_of, ratio_of};
ghost use Rattle.tdl_prepare.specs.inside.Parts.{part_rows_built, rows_built};
ghost use Rattle.tdl_prepare.specs.inside.Views.{LowersToFun, LowersToRows};

use crate::arguments::{count_argument, ratio_argument};
use crate::functions::{
    bare_fun, bools_fun, count_fun, euclid_fun, euclid_off_fun, ratio_fun, shift_fun,
};
use crate::leaves::{setting_row, silence};
use crate::lists::{list_of, timecat_of};
use crate::nested::{chain, cycle, every, layer, off, within};
use crate::numbers::plain_value;
use std::alloc::Global;
use tdl_combinator::{Fun as MadeFun, apply};
use tdl_command::{Count, CycleFun, Expr, Fun, LayerFun, Operator, Part, Plain, Ratio, Way};
use tdl_expr::{NodeId, PushFault, Table};

/// The row of an expression.
#[cycle(preparing)]
pub(crate) fn expr_row(alloc: Global, expr: &Expr, table: &mut Table) -> Result<NodeId, PushFault>
    requires { IsValidExpr expr.now }
    ensures { LowersTo table.old table.new (built (expr_of expr.now)) result }
{
    match expr {
        Expr::Silence => silence(table),
        Expr::Control { key, setting } => setting_row(alloc, *key, setting, table),
        Expr::Inside(inner) => expr_row(alloc, inner, table),
        Expr::Shifted { by, way, expr } => shifted_row(alloc, by, *way, expr, table),
        Expr::List { shape, exprs } => {
            let ids = rows_of(alloc, exprs, table)?;
            list_of(alloc, *shape, &ids, table)
        }
        Expr::Timecat { parts } => {
            let ids = part_rows(alloc, parts, table)?;
            timecat_of(alloc, parts, &ids, table)
        }
        Expr::Joined {
            left,
            operator,
            right,
        } => {
            let first = expr_row(alloc, left, table)?;
            joined_row(alloc, right, first, *operator, table)
        }
        Expr::Called { fun, expr } | Expr::Applied { fun, expr } => {
            let made = fun_of(alloc, fun, table)?;
            applied_row(alloc, expr, &made, table)
        }
    }
}

// A function, whose own rows are there, applied to an expression.
#[cycle(preparing)]
fn applied_row(
    alloc: Global,
    expr: &Expr,
    made: &MadeFun,
    table: &mut Table,
) -> Result<NodeId, PushFault>
    requires expr { IsValidExpr expr.now }
    requires made { IsFun table.old made.now }
    ensures { LowersTo table.old table.new (built (expr_of expr.now) ▸ λ p. applied (fun_at table.old made.now) p) result }
{
    let child = expr_row(alloc, expr, table)?;
    apply(alloc, table, made, child)
}

// An expression, earlier or later.
#[cycle(preparing)]
fn shifted_row(
    alloc: Global,
    by: &Ratio,
    way: Way,
    expr: &Expr,
    table: &mut Table,
) -> Result<NodeId, PushFault>
    requires by { IsValidRatio by.now }
    requires expr { IsValidExpr expr.now }
    ensures { LowersTo table.old table.new (applied_built (shift_built (ratio_of by.now) way) (built (expr_of expr.now))) result }
{
    let made = shift_fun(alloc, by, way, table)?;
    applied_row(alloc, expr, &made, table)
}

// An expression, joined with the row on its left side.
#[cycle(preparing)]
fn joined_row(
    alloc: Global,
    right: &Expr,
    left: NodeId,
    operator: Operator,
    table: &mut Table,
) -> Result<NodeId, PushFault>
    requires right { IsValidExpr right.now }
    requires left { IsRow table.old left }
    ensures { LowersTo table.old table.new (built (expr_of right.now) ▸ λ q. joined_trees operator (tree_at table.old left) q) result }
{
    let right = expr_row(alloc, right, table)?;
    let side = operator.side;
    let op = operator.op;
    apply(alloc, table, &MadeFun::Section { side, op, right }, left)
}

#[cycle(preparing)]
fn rows_of(alloc: Global, exprs: &[Expr], table: &mut Table) -> Result<Vec<NodeId>, PushFault>
    requires { All IsValidExpr exprs.now }
    ensures { LowersToRows (λ ids. ids.items) table.old table.new (rows_built exprs.now) result }
{
    let mut ids = Vec::new(alloc);
    for expr in exprs {
        let id = expr_row(alloc, expr, table)?;
        ids.push(id)?;
    }
    Ok(ids)
}

#[cycle(preparing)]
fn part_rows(alloc: Global, parts: &[Part], table: &mut Table) -> Result<Vec<NodeId>, PushFault>
    requires { All IsValidPart parts.now }
    ensures { LowersToRows (λ ids. ids.items) table.old table.new (part_rows_built parts.now) result }
{
    let mut ids = Vec::new(alloc);
    for part in parts {
        let id = expr_row(alloc, &part.expr, table)?;
        ids.push(id)?;
    }
    Ok(ids)
}

#[cycle(preparing)]
fn fun_of(alloc: Global, fun: &Fun, table: &mut Table) -> Result<MadeFun, PushFault>
    requires { IsValidFun fun.now }
    ensures { LowersToFun table.old table.new (fun_built (fun_of fun.now)) result }
{
    match fun {
        Fun::Bare(name) => Ok(bare_fun(*name)),
        Fun::OfRatio { fun, ratio } => ratio_fun(alloc, *fun, ratio, table),
        Fun::OfCount { fun, count } => count_fun(alloc, *fun, count, table),
        Fun::OfBools { fun, bools } => bools_fun(alloc, *fun, bools, table),
        Fun::Layer { fun, then } => layer_of(alloc, *fun, then, table),
        Fun::Every { cycles, then } => every_of(alloc, cycles, then, table),
        Fun::Cycle {
            fun,
            cycles,
            from,
            then,
        } => cycle_of(alloc, *fun, cycles, from, then, table),
        Fun::Off { by, then } => off_of(alloc, by, then, table),
        Fun::Within { from, to, then } => within_of(alloc, *from, *to, then, table),
        Fun::Euclid { hits, steps } => euclid_fun(alloc, hits, steps, table),
        Fun::EuclidOff { hits, steps, from } => euclid_off_fun(alloc, hits, steps, from, table),
        Fun::Const(expr) => {
            let other = expr_row(alloc, expr, table)?;
            Ok(MadeFun::Const(other))
        }
        Fun::Inside(inner) => fun_of(alloc, inner, table),
        Fun::Section { operator, right } => {
            let right = expr_row(alloc, right, table)?;
            let side = operator.side;
            let op = operator.op;
            Ok(MadeFun::Section { side, op, right })
        }
        Fun::Shift { by, way } => shift_fun(alloc, by, *way, table),
        Fun::Chain { next, first } => {
            let later = fun_of(alloc, next, table)?;
            chain_of(alloc, first, later, table)
        }
    }
}

#[cycle(preparing)]
fn layer_of(
    alloc: Global,
    name: LayerFun,
    then: &Fun,
    table: &mut Table,
) -> Result<MadeFun, PushFault>
    requires { IsValidFun then.now }
    ensures { LowersToFun table.old table.new (fun_built (tree.layer name (fun_of then.now))) result }
{
    let part = fun_of(alloc, then, table)?;
    Ok(layer(alloc, name, part)?)
}

#[cycle(preparing)]
fn within_of(
    alloc: Global,
    from: Plain,
    to: Plain,
    then: &Fun,
    table: &mut Table,
) -> Result<MadeFun, PushFault>
    requires from { IsValidPlain from }
    requires to { IsValidPlain to }
    requires then { IsValidFun then.now }
    ensures { LowersToFun table.old table.new (fun_built (tree.within from to (fun_of then.now))) result }
{
    let part = fun_of(alloc, then, table)?;
    Ok(within(alloc, plain_value(from), plain_value(to), part)?)
}

#[cycle(preparing)]
fn every_of(
    alloc: Global,
    cycles: &Count,
    then: &Fun,
    table: &mut Table,
) -> Result<MadeFun, PushFault>
    requires cycles { IsValidCount cycles.now }
    requires then { IsValidFun then.now }
    ensures { LowersToFun table.old table.new (fun_built (tree.every (count_of cycles.now) (fun_of then.now))) result }
{
    let n = count_argument(alloc, cycles, table)?;
    let part = fun_of(alloc, then, table)?;
    Ok(every(alloc, n, part)?)
}

#[cycle(preparing)]
fn cycle_of(
    alloc: Global,
    name: CycleFun,
    cycles: &Count,
    from: &Count,
    then: &Fun,
    table: &mut Table,
) -> Result<MadeFun, PushFault>
    requires cycles { IsValidCount cycles.now }
    requires from { IsValidCount from.now }
    requires then { IsValidFun then.now }
    ensures { LowersToFun table.old table.new (fun_built (tree.cycle name (count_of cycles.now) (count_of from.now) (fun_of then.now))) result }
{
    let n = count_argument(alloc, cycles, table)?;
    let place = count_argument(alloc, from, table)?;
    let part = fun_of(alloc, then, table)?;
    Ok(cycle(alloc, name, n, place, part)?)
}

#[cycle(preparing)]
fn off_of(alloc: Global, by: &Ratio, then: &Fun, table: &mut Table) -> Result<MadeFun, PushFault>
    requires by { IsValidRatio by.now }
    requires then { IsValidFun then.now }
    ensures { LowersToFun table.old table.new (fun_built (tree.off (ratio_of by.now) (fun_of then.now))) result }
{
    let time = ratio_argument(alloc, by, table)?;
    let part = fun_of(alloc, then, table)?;
    Ok(off(alloc, time, part)?)
}

// A function before another, whose rows are there: it stands after that one, and is applied first.
#[cycle(preparing)]
fn chain_of(
    alloc: Global,
    first: &Fun,
    next: MadeFun,
    table: &mut Table,
) -> Result<MadeFun, PushFault>
    requires first { IsValidFun first.now }
    requires next { IsFun table.old next }
    ensures { LowersToFun table.old table.new (fun_built (fun_of first.now) ▸ λ g. kept (Chain g (fun_at table.old next))) result }
{
    let made = fun_of(alloc, first, table)?;
    Ok(chain(alloc, made, next)?)
}

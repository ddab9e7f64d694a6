// Functions on patterns, applied to rows.
ghost use Rattle.std.specs.Prelude.{◌<◌, IfSome};
ghost use Rattle.tdl_expr.specs.Rows.{IsRow, tree_at};
ghost use Rattle.tdl_rows.specs.Arguments.{argument_at, HasBoundedParts};
ghost use Rattle.tdl_rows.specs.Joined.{choose};
ghost use Rattle.tdl_rows.specs.Lowers.{LowersTo};
ghost use Rattle.tdl_combinator.specs.Applied.{applied};
ghost use Rattle.tdl_combinator.specs.Funs.{fun_at, IsFun, IsNumber};
ghost use Rattle.tdl_combinator.specs.Makings.{jux_of, off_of, superimpose_of, when_of, within_of};
ghost use Rattle.tdl_combinator.specs.inside.Numbered.{made_by, with_first, with_second};

use crate::by_cycle::{Round, every_at_round, every_round, when_mod_round};
use crate::by_number::{Changed, Way};
use crate::funs::Fun;
use crate::in_time::{brak_of, palindrome_of};
use crate::of_events::{mask_of, panned, section_of, struct_of};
use crate::rows::{gate, rev, shift, two, when};
use std::alloc::Global;
use tdl_expr::{Arg, Ids, NodeId, PushFault, Table};
use tdl_fraction::Frac;
use tdl_rows::{AtHits, Faster, Slower, choose, choose_among, pick_of};

/// The functions of numbers that have another function in them.
#[derive(Clone, Copy, PartialEq, Eq)]
enum How {
    Every,
    EveryAt,
    WhenMod,
    Off,
}

/// The row that a function makes of a row.
#[cycle(applying)]
pub fn apply(
    alloc: Global,
    table: &mut Table,
    fun: &Fun,
    child: NodeId,
) -> Result<NodeId, PushFault>
    requires fun { IsFun table.old fun.now }
    requires row { IsRow table.old child }
    ensures { LowersTo table.old table.new (applied (fun_at table.old fun.now) (tree_at table.old child)) result }
{
    let unused = Arg::Plain(Frac::whole(0));
    match fun {
        Fun::Same => Ok(child),
        Fun::Fast(rate) => choose(alloc, rate, &Faster { id: child }, table),
        Fun::Slow(rate) => choose(alloc, rate, &Slower { id: child }, table),
        Fun::Rev => rev(table, child),
        Fun::Every { n, then } => at_first(alloc, table, How::Every, then, n, &unused, child),
        Fun::EveryAt { n, place, then } => at_first(
            alloc,
            table,
            How::EveryAt,
            then,
            n,
            place,
            child,
        ),
        Fun::WhenMod { a, b, then } => at_first(alloc, table, How::WhenMod, then, a, b, child),
        Fun::Off { by, then } => at_first(alloc, table, How::Off, then, by, &unused, child),
        Fun::Superimpose { then } => superimpose_of(alloc, table, then, child),
        Fun::Jux { then } => jux_of(alloc, table, then, child),
        Fun::Later(by) => changed(alloc, table, Way::Later, by, child),
        Fun::Earlier(by) => changed(alloc, table, Way::Earlier, by, child),
        Fun::Ply(n) => changed(alloc, table, Way::Ply, n, child),
        Fun::Segment(n) => changed(alloc, table, Way::Segment, n, child),
        Fun::Struct { bools } => struct_of(table, *bools, child),
        Fun::Mask { bools } => mask_of(table, *bools, child),
        Fun::Within { from, to, then } => within_of(alloc, table, *from, *to, then, child),
        Fun::Iter(n) => changed(alloc, table, Way::Iter, n, child),
        Fun::Palindrome => palindrome_of(alloc, table, child),
        Fun::Brak => brak_of(alloc, table, child),
        Fun::Euclid { k, n, r } => choose_among(alloc, k, n, r, &AtHits { id: child }, table),
        Fun::Const(other) => Ok(*other),
        Fun::Section { side, op, right } => section_of(table, *side, *op, *right, child),
        Fun::Chain { first, next } => {
            let made = apply(alloc, table, first, child)?;
            apply(alloc, table, next, made)
        }
    }
}

// The row, changed by a number, which may be chosen.
fn changed(
    alloc: Global,
    table: &mut Table,
    way: Way,
    number: &Arg,
    id: NodeId,
) -> Result<NodeId, PushFault>
    requires number { IsNumber table.old number.now }
    requires row { IsRow table.old id }
    ensures { LowersTo table.old table.new (choose (argument_at table.old number.now) (λ a. made_by way a (tree_at table.old id))) result }
{
    choose(alloc, number, &Changed { way, id }, table)
}

#[cycle(applying)]
fn superimpose_of(
    alloc: Global,
    table: &mut Table,
    part: &Fun,
    child: NodeId,
) -> Result<NodeId, PushFault>
    requires part { IsFun table.old part.now }
    requires row { IsRow table.old child }
    ensures { LowersTo table.old table.new (superimpose_of (applied (fun_at table.old part.now)) (tree_at table.old child)) result }
{
    let made = apply(alloc, table, part, child)?;
    two(alloc, table, child, made)
}

#[cycle(applying)]
fn jux_of(alloc: Global, table: &mut Table, part: &Fun, child: NodeId) -> Result<NodeId, PushFault>
    requires part { IsFun table.old part.now }
    requires row { IsRow table.old child }
    ensures { LowersTo table.old table.new (jux_of (applied (fun_at table.old part.now)) (tree_at table.old child)) result }
{
    let left = panned(alloc, table, 0, child)?;
    let right = panned(alloc, table, 1, child)?;
    let made = apply(alloc, table, part, right)?;
    two(alloc, table, left, made)
}

#[cycle(applying)]
fn within_of(
    alloc: Global,
    table: &mut Table,
    from: Frac,
    to: Frac,
    part: &Fun,
    child: NodeId,
) -> Result<NodeId, PushFault>
    requires part { IsFun table.old part.now }
    requires row { IsRow table.old child }
    ensures { LowersTo table.old table.new (within_of from to (applied (fun_at table.old part.now)) (tree_at table.old child)) result }
{
    let made = apply(alloc, table, part, child)?;
    let inner = gate(table, from, to, true, made)?;
    let outer = gate(table, from, to, false, child)?;
    two(alloc, table, inner, outer)
}

#[cycle(applying)]
fn off_of(
    alloc: Global,
    table: &mut Table,
    by: Frac,
    part: &Fun,
    child: NodeId,
) -> Result<NodeId, PushFault>
    requires part { IsFun table.old part.now }
    requires row { IsRow table.old child }
    ensures { LowersTo table.old table.new (off_of by (applied (fun_at table.old part.now)) (tree_at table.old child)) result }
{
    let later = shift(table, by, child)?;
    let made = apply(alloc, table, part, later)?;
    two(alloc, table, child, made)
}

// In no round, the row itself.
#[cycle(applying)]
fn when_of(
    alloc: Global,
    table: &mut Table,
    round: Option<Round>,
    part: &Fun,
    child: NodeId,
) -> Result<NodeId, PushFault>
    requires some { IfSome round (λ r. 0 < r.modulus) }
    requires part { IsFun table.old part.now }
    requires row { IsRow table.old child }
    ensures { LowersTo table.old table.new (when_of round (applied (fun_at table.old part.now)) (tree_at table.old child)) result }
{
    match round {
        None => Ok(child),
        Some(known) => {
            let made = apply(alloc, table, part, child)?;
            when(table, known, made, child)
        }
    }
}

// With both numbers known.
#[cycle(applying)]
fn with_numbers(
    alloc: Global,
    table: &mut Table,
    how: How,
    part: &Fun,
    first: Frac,
    second: Frac,
    child: NodeId,
) -> Result<NodeId, PushFault>
    requires first { HasBoundedParts first }
    requires second { HasBoundedParts second }
    requires part { IsFun table.old part.now }
    requires row { IsRow table.old child }
    ensures { LowersTo table.old table.new (with_second table.old how part.now child first second) result }
{
    match how {
        How::Every => when_of(alloc, table, every_round(first), part, child),
        How::EveryAt => when_of(alloc, table, every_at_round(first, second), part, child),
        How::WhenMod => when_of(alloc, table, when_mod_round(first, second), part, child),
        How::Off => off_of(alloc, table, first, part, child),
    }
}

// With the first number known: where the second is chosen, the choice among the rows for each of its numbers.
#[cycle(applying)]
fn at_second(
    alloc: Global,
    table: &mut Table,
    how: How,
    part: &Fun,
    first: Frac,
    second: &Arg,
    child: NodeId,
) -> Result<NodeId, PushFault>
    requires first { HasBoundedParts first }
    requires second { IsNumber table.old second.now }
    requires part { IsFun table.old part.now }
    requires row { IsRow table.old child }
    ensures { LowersTo table.old table.new (with_first table.old how part.now child second.now first) result }
{
    match second {
        Arg::Plain(number) => with_numbers(alloc, table, how, part, first, *number, child),
        Arg::Chosen { selector, values } => {
            let mut children = Ids::new(alloc);
            for i in 0..values.len() {
                let number = *values.get(i);
                let id = with_numbers(alloc, table, how, part, first, number, child)?;
                children.push(id)?;
            }
            pick_of(table, *selector, children)
        }
    }
}

// Where the first number is chosen, the choice among the rows for each of its numbers.
#[cycle(applying)]
fn at_first(
    alloc: Global,
    table: &mut Table,
    how: How,
    part: &Fun,
    first: &Arg,
    second: &Arg,
    child: NodeId,
) -> Result<NodeId, PushFault>
    requires first { IsNumber table.old first.now }
    requires second { IsNumber table.old second.now }
    requires part { IsFun table.old part.now }
    requires row { IsRow table.old child }
    ensures { LowersTo table.old table.new (choose (argument_at table.old first.now) (with_first table.old how part.now child second.now)) result }
{
    match first {
        Arg::Plain(number) => at_second(alloc, table, how, part, *number, second, child),
        Arg::Chosen { selector, values } => {
            let mut children = Ids::new(alloc);
            for i in 0..values.len() {
                let number = *values.get(i);
                let id = at_second(alloc, table, how, part, number, second, child)?;
                children.push(id)?;
            }
            pick_of(table, *selector, children)
        }
    }
}

// Rows that come later or earlier, and rows that change from cycle to cycle.
ghost use Rattle.std.specs.Prelude.{◌≤◌, ◌^◌, MatchResult};
ghost use Rattle.tdl_expr.specs.Rows.{IsRow, tree_at};
ghost use Rattle.tdl_rows.specs.Arguments.{HasBoundedParts};
ghost use Rattle.tdl_rows.specs.Lowers.{LowersTo, Refused};
ghost use Rattle.tdl_rows.specs.inside.Views.{LowersIds};
ghost use Rattle.tdl_combinator.specs.Makings.{later_of, earlier_of, iter_of, palindrome_of, brak_of, turns_of};

use crate::by_cycle::Round;
use crate::counts::size;
use crate::rows::{rev, shift, silence, when};
use std::alloc::Global;
use tdl_expr::{NodeId, PushFault, Table, Test};
use tdl_fraction::Frac;
use tdl_rows::{cat_of, fastcat_of, fraction, negative};

/// The row, later by a time.
pub(crate) fn later_of(table: &mut Table, by: Frac, child: NodeId) -> Result<NodeId, PushFault>
    requires { IsRow table.old child }
    ensures { LowersTo table.old table.new (later_of by (tree_at table.old child)) result }
{
    if by == Frac::whole(0) {
        return Ok(child);
    }
    shift(table, by, child)
}

/// The row, earlier by a time.
pub(crate) fn earlier_of(table: &mut Table, by: Frac, child: NodeId) -> Result<NodeId, PushFault>
    requires { IsRow table.old child }
    ensures { LowersTo table.old table.new (earlier_of by (tree_at table.old child)) result }
{
    later_of(table, negative(by), child)
}

/// The row, and then turned round.
pub(crate) fn palindrome_of(
    alloc: Global,
    table: &mut Table,
    child: NodeId,
) -> Result<NodeId, PushFault>
    requires { IsRow table.old child }
    ensures { LowersTo table.old table.new (palindrome_of (tree_at table.old child)) result }
{
    let turned = rev(table, child)?;
    cat_of(alloc, &[child, turned], table)
}

/// The row, and then squeezed into half of the cycle, a quarter later.
pub(crate) fn brak_of(alloc: Global, table: &mut Table, child: NodeId) -> Result<NodeId, PushFault>
    requires { IsRow table.old child }
    ensures { LowersTo table.old table.new (brak_of (tree_at table.old child)) result }
{
    let rest = silence(table)?;
    let halves = fastcat_of(alloc, &[child, rest], table)?;
    let later = shift(table, fraction(1, 4), halves)?;
    let round = Round {
        modulus: 2,
        test: Test::Equal(1),
    };
    when(table, round, later, child)
}

/// In each cycle the row, earlier by one more of so many shares.
pub(crate) fn iter_of(
    alloc: Global,
    table: &mut Table,
    count: Frac,
    child: NodeId,
) -> Result<NodeId, PushFault>
    requires row { IsRow table.old child }
    requires count { HasBoundedParts count }
    ensures { LowersTo table.old table.new (iter_of count.num (tree_at table.old child)) result }
{
    if count.numerator() <= 0 {
        return Ok(child);
    }
    let turns = turns_of(alloc, table, size(count), child)?;
    cat_of(alloc, &turns, table)
}

// The row, earlier by none of so many shares of a cycle, by one of them, and so on.
fn turns_of(
    alloc: Global,
    table: &mut Table,
    shares: u32,
    child: NodeId,
) -> Result<Vec<NodeId>, PushFault>
    requires row { IsRow table.old child }
    requires few { shares ≤ 2 ^ 30 }
    ensures { MatchResult result
        (λ ids. LowersIds table.old table.new (turns_of shares (tree_at table.old child)) ids.items)
        (Refused table.old table.new (turns_of shares (tree_at table.old child)).rows) }
{
    let mut turns = Vec::new(alloc);
    for i in 0..shares {
        let by = fraction(-i128::from(i), u64::from(shares));
        let turned = later_of(table, by, child)?;
        turns.push(turned)?;
    }
    Ok(turns)
}

// Rows at another rate.
ghost use Rattle.std.specs.Prelude.{pos};
ghost use Rattle.tdl_fraction.specs.Rational.{whole, ◌<ℚ◌};
ghost use Rattle.tdl_expr.specs.Rows.{IsRow, tree_at};
ghost use Rattle.tdl_rows.specs.Arguments.{HasBoundedParts};
ghost use Rattle.tdl_rows.specs.Joined.{fast_of, faster, slow_of};
ghost use Rattle.tdl_rows.specs.Lowers.{LowersTo};

use crate::fractions::{inverse, negative};
use tdl_expr::{Node, NodeId, PushFault, Table};
use tdl_fraction::Frac;

/// The row at a rate: of rate 0 silence, and below 0 turned round.
pub fn fast_of(table: &mut Table, rate: Frac, id: NodeId) -> Result<NodeId, PushFault>
    requires { IsRow table.old id }
    ensures { LowersTo table.old table.new (fast_of rate (tree_at table.old id)) result }
{
    let zero = Frac::whole(0);
    if zero.is_less(rate) {
        return faster(table, rate, id);
    }
    let turned = negative(rate);
    if zero.is_less(turned) {
        let child = faster(table, turned, id)?;
        return table.push(Node::Rev { child });
    }
    table.push(Node::Silence)
}

// The row at a rate above 0.
fn faster(table: &mut Table, rate: Frac, child: NodeId) -> Result<NodeId, PushFault>
    requires row { IsRow table.old child }
    requires positive { whole (pos 0) <ℚ rate }
    ensures { LowersTo table.old table.new (faster rate (tree_at table.old child)) result }
{
    if rate == Frac::whole(1) {
        return Ok(child);
    }
    table.push(Node::Fast { rate, child })
}

/// The row at one over a rate: of rate 0 silence.
pub fn slow_of(table: &mut Table, rate: Frac, id: NodeId) -> Result<NodeId, PushFault>
    requires row { IsRow table.old id }
    requires rate { HasBoundedParts rate }
    ensures { LowersTo table.old table.new (slow_of rate (tree_at table.old id)) result }
{
    if rate == Frac::whole(0) {
        return table.push(Node::Silence);
    }
    fast_of(table, inverse(rate), id)
}

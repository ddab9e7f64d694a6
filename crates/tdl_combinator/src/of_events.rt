// Rows that change the events of a row, and rows that are joined.
ghost use Rattle.tdl_expr.specs.Rows.{IsRow, tree_at};
ghost use Rattle.tdl_rows.specs.Arguments.{HasBoundedParts};
ghost use Rattle.tdl_rows.specs.Lowers.{LowersTo};
ghost use Rattle.tdl_combinator.specs.Makings.{panned, ply_of, segment_of, struct_of, mask_of, section_of};

use crate::counts::size;
use crate::rows::{join, ply, pure, silence};
use std::alloc::Global;
use tdl_control::{Key, Leaf, Map, MapOp, Value};
use tdl_expr::{NodeId, Op, PushFault, Side, Table};
use tdl_fraction::Frac;
use tdl_rows::fast_of;

/// The row with each event so many times.
pub(crate) fn ply_of(table: &mut Table, count: Frac, child: NodeId) -> Result<NodeId, PushFault>
    requires row { IsRow table.old child }
    requires count { HasBoundedParts count }
    ensures { LowersTo table.old table.new (ply_of count.num (tree_at table.old child)) result }
{
    match size(count) {
        0 => silence(table),
        1 => Ok(child),
        times => ply(table, times, child),
    }
}

/// The values of the row at so many times of each cycle.
pub(crate) fn segment_of(table: &mut Table, count: Frac, child: NodeId) -> Result<NodeId, PushFault>
    requires row { IsRow table.old child }
    requires count { HasBoundedParts count }
    ensures { LowersTo table.old table.new (segment_of count.num (tree_at table.old child)) result }
{
    let times = size(count);
    if times == 0 {
        return silence(table);
    }
    let whole = pure(table, Leaf::Truth(true))?;
    let pieces = fast_of(table, Frac::whole(i64::from(times)), whole)?;
    struct_of(table, pieces, child)
}

/// The values of the row where another is true.
pub(crate) fn struct_of(
    table: &mut Table,
    bools: NodeId,
    child: NodeId,
) -> Result<NodeId, PushFault>
    requires bools { IsRow table.old bools }
    requires row { IsRow table.old child }
    ensures { LowersTo table.old table.new (struct_of (tree_at table.old bools) (tree_at table.old child)) result }
{
    join(table, Side::Left, Op::Struct, bools, child)
}

/// The events of the row where another is true.
pub(crate) fn mask_of(table: &mut Table, bools: NodeId, child: NodeId) -> Result<NodeId, PushFault>
    requires bools { IsRow table.old bools }
    requires row { IsRow table.old child }
    ensures { LowersTo table.old table.new (mask_of (tree_at table.old bools) (tree_at table.old child)) result }
{
    join(table, Side::Left, Op::Mask, child, bools)
}

/// The controls of the row, joined with those of another.
pub(crate) fn section_of(
    table: &mut Table,
    side: Side,
    op: MapOp,
    right: NodeId,
    child: NodeId,
) -> Result<NodeId, PushFault>
    requires right { IsRow table.old right }
    requires row { IsRow table.old child }
    ensures { LowersTo table.old table.new (section_of side op (tree_at table.old right) (tree_at table.old child)) result }
{
    join(table, side, Op::Controls(op), child, right)
}

/// The row on one side: the left one is 0, and the right one 1.
pub(crate) fn panned(
    alloc: Global,
    table: &mut Table,
    pan: i32,
    child: NodeId,
) -> Result<NodeId, PushFault>
    requires { IsRow table.old child }
    ensures { LowersTo table.old table.new (panned pan (tree_at table.old child)) result }
{
    let mut controls = Map::new(alloc);
    controls.set(Key::Pan, Value::Int(pan))?;
    let side = pure(table, Leaf::Controls(controls))?;
    section_of(table, Side::Left, MapOp::Union, side, child)
}

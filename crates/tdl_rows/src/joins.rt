// Rows that join others.
ghost use Rattle.std.specs.Prelude.{◌≤◌, ◌^◌, length};
ghost use Rattle.std.specs.List.{All};
ghost use Rattle.tdl_expr.specs.Rows.{IsRow};
ghost use Rattle.tdl_rows.specs.Joined.{cat_of, fastcat_of, stack_of};
ghost use Rattle.tdl_rows.specs.Lowers.{LowersTo, trees_at};

use std::alloc::Global;
use tdl_expr::{NodeId, PushFault, Table, cat, fastcat, stack};

/// The rows at the same time.
pub fn stack_of(alloc: Global, ids: &[NodeId], table: &mut Table) -> Result<NodeId, PushFault>
    requires rows { All (IsRow table.old) ids.now }
    requires few { length ids.now ≤ 2 ^ 31 }
    ensures { LowersTo table.old table.new (stack_of (trees_at table.old ids.now)) result }
{
    stack(alloc, table, ids)
}

/// A cycle of each row in turn.
pub fn cat_of(alloc: Global, ids: &[NodeId], table: &mut Table) -> Result<NodeId, PushFault>
    requires rows { All (IsRow table.old) ids.now }
    requires few { length ids.now ≤ 2 ^ 31 }
    ensures { LowersTo table.old table.new (cat_of (trees_at table.old ids.now)) result }
{
    cat(alloc, table, ids)
}

/// The rows one after another, in equal shares of the cycle.
pub fn fastcat_of(alloc: Global, ids: &[NodeId], table: &mut Table) -> Result<NodeId, PushFault>
    requires rows { All (IsRow table.old) ids.now }
    requires few { length ids.now ≤ 2 ^ 31 }
    ensures { LowersTo table.old table.new (fastcat_of (trees_at table.old ids.now)) result }
{
    fastcat(alloc, table, ids)
}

// Rows that join others with weights in ten-thousandths.
ghost use Rattle.std.specs.Prelude.{◌≡◌, ◌≤◌, ◌<◌, ◌*◌, ◌^◌, map, length, sum, IfOk};
ghost use Rattle.std.specs.List.{All};
ghost use Rattle.tdl_expr.specs.Weights.{ten_thousandths};
ghost use Rattle.tdl_rows.specs.Joined.{timecat_of, cat_of, stack_of, tree_of};
ghost use Rattle.tdl_rows.specs.Lowers.{LowersTo};
ghost use Rattle.tdl_mini_rows.specs.inside.Bounds.{AreShares};
ghost use Rattle.tdl_mini_rows.specs.inside.Views.{AreRows, steps_at, counts_of, rows_of};

use smallvec::SmallVec;
use std::alloc::Global;
use tdl_control::NoMemory;
use tdl_expr::{NodeId, PushFault, Table, timecat_of_counts, whole_weights_laws};
use tdl_rows::{cat_of as cat_of_ids, stack_of as stack_of_ids};

/// A row with a weight in ten-thousandths.
#[derive(Clone, Copy, Default)]
pub(crate) struct WeightedRow {
    pub parts: u64,
    pub id: NodeId,
}

/// Rows with weights, few in most texts.
pub(crate) type WeightedRows = SmallVec<WeightedRow, 4>;

// How many rows are joined without an allocation for their list.
const FEW: usize = 8;

/// The rows one after another, with shares as their weights.
pub(crate) fn timecat_of(
    alloc: Global,
    steps: &[WeightedRow],
    table: &mut Table,
) -> Result<NodeId, PushFault>
    requires rows { AreRows table.old steps.now }
    requires shares { AreShares steps.now }
    ensures { LowersTo table.old table.new (timecat_of (steps_at table.old steps.now)) result }
{
    if let [step] = steps {
        return Ok(step.id);
    }
    whole_weights_laws();
    let ids = ids_of(alloc, steps)?;
    let counts = counts_of(alloc, steps)?;
    timecat_of_counts(alloc, table, &counts, &ids)
}

/// A cycle of each row in turn.
pub(crate) fn cat_of(
    alloc: Global,
    steps: &[WeightedRow],
    table: &mut Table,
) -> Result<NodeId, PushFault>
    requires rows { AreRows table.old steps.now }
    requires few { length steps.now ≤ 2 ^ 31 }
    ensures { LowersTo table.old table.new (cat_of (map tree_of (steps_at table.old steps.now))) result }
{
    if let [step] = steps {
        return Ok(step.id);
    }
    let ids = ids_of(alloc, steps)?;
    cat_of_ids(alloc, &ids, table)
}

/// The rows at the same time.
pub(crate) fn stack_of(
    alloc: Global,
    steps: &[WeightedRow],
    table: &mut Table,
) -> Result<NodeId, PushFault>
    requires rows { AreRows table.old steps.now }
    requires few { length steps.now ≤ 2 ^ 31 }
    ensures { LowersTo table.old table.new (stack_of (map tree_of (steps_at table.old steps.now))) result }
{
    if let [step] = steps {
        return Ok(step.id);
    }
    let ids = ids_of(alloc, steps)?;
    stack_of_ids(alloc, &ids, table)
}

fn ids_of(alloc: Global, steps: &[WeightedRow]) -> Result<SmallVec<NodeId, FEW>, NoMemory>
    ensures { IfOk result (λ ids. ids.items ≡ rows_of steps.now) }
{
    let mut ids = SmallVec::new(alloc);
    for step in steps {
        ids.push(step.id)?;
    }
    Ok(ids)
}

fn counts_of(alloc: Global, steps: &[WeightedRow]) -> Result<SmallVec<u64, FEW>, NoMemory>
    ensures { IfOk result (λ counts. counts.items ≡ counts_of steps.now) }
{
    Ok(steps.iter().map(|step| step.parts).collect(alloc)?)
}

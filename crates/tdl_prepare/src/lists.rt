// Rows that join others, as lists do.
ghost use Rattle.std.specs.Prelude.{◌≡◌, ◌≤◌, ◌^◌, length, IfOk};
ghost use Rattle.std.specs.List.{All};
ghost use Rattle.tdl_expr.specs.Rows.{IsRow, max_rows};
ghost use Rattle.tdl_expr.specs.Weights.{ten_thousandths};
ghost use Rattle.tdl_rows.specs.Joined.{timecat_of};
ghost use Rattle.tdl_rows.specs.Lowers.{LowersTo, trees_at};
ghost use Rattle.tdl_prepare.specs.Built.{list_of};
ghost use Rattle.tdl_command.specs.Valid.{IsValidWeight};
ghost use Rattle.tdl_prepare.specs.inside.Parts.{steps_at, weights_of};

use std::alloc::Global;
use tdl_command::{Part, Shape};
use tdl_control::NoMemory;
use tdl_expr::{NodeId, PushFault, Table, timecat, whole_weights_laws};
use tdl_fraction::Frac;
use tdl_rows::{cat_of, fastcat_of, stack_of};

pub(crate) fn list_of(
    alloc: Global,
    shape: Shape,
    ids: &[NodeId],
    table: &mut Table,
) -> Result<NodeId, PushFault>
    requires rows { All (IsRow table.old) ids.now }
    requires few { length ids.now ≤ 2 ^ 31 }
    ensures { LowersTo table.old table.new (list_of shape (trees_at table.old ids.now)) result }
{
    match shape {
        Shape::Stack => stack_of(alloc, ids, table),
        Shape::Cat => cat_of(alloc, ids, table),
        Shape::Fastcat => fastcat_of(alloc, ids, table),
    }
}

/// The rows one after another, with the weights of parts.
pub(crate) fn timecat_of(
    alloc: Global,
    parts: &[Part],
    ids: &[NodeId],
    table: &mut Table,
) -> Result<NodeId, PushFault>
    requires parts { All (λ p. IsValidWeight p.weight) parts.now }
    requires rows { All (IsRow table.old) ids.now }
    requires each { length ids.now ≡ length parts.now }
    requires few { length ids.now ≤ max_rows }
    ensures { LowersTo table.old table.new (timecat_of (steps_at (weights_of parts.now) (trees_at table.old ids.now))) result }
{
    whole_weights_laws();
    let weights = weights_of(alloc, parts)?;
    timecat(alloc, table, &weights, ids)
}

fn weights_of(alloc: Global, parts: &[Part]) -> Result<Vec<Frac>, NoMemory>
    ensures { IfOk result (λ weights. weights.items ≡ ten_thousandths (weights_of parts.now)) }
{
    let mut weights = Vec::new(alloc);
    for part in parts {
        weights.push(Frac::ten_thousandths(part.weight.weight_parts() as i64))?;
    }
    Ok(weights)
}

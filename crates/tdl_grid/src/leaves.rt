ghost use Rattle.std.specs.Prelude.{◌≡◌, ◌*◌, ◌<◌, ◌≤◌, ◌^◌, pos, ◌+ℤ◌, nat_abs, map, OnOk};
ghost use Rattle.tdl_fraction.specs.Arc.{IsArc, IsInside};
ghost use Rattle.tdl_expr.specs.Tree as tree;
ghost use Rattle.tdl_meaning.specs.Pattern.{over, pure, cycle_arc, moved, squeezed};
ghost use Rattle.tdl_meaning.specs.Meaning.{cyc};
ghost use Rattle.tdl_meaning.specs.inside.Arcs.{over_met, step_ask};
ghost use Rattle.tdl_visits.specs.inside.Visits.{visits, if_met};
ghost use Rattle.tdl_grid.specs.Span.{arc_of};
ghost use Rattle.tdl_grid.specs.Item.{Adds};
ghost use Rattle.tdl_grid.specs.Step.{IsStep};
ghost use Rattle.tdl_grid.specs.inside.Visited.{IsStepVisit};

use crate::items::{Item, Items};
use crate::spans::Span;
use crate::steps::Step;
use crate::values::CowLeaf;
use std::sync::ledger::Ledger;
use tdl_control::{Leaf, NoMemory};
use tdl_meaning::{Cycle, StepCount};

/// Adds the leaf, which lasts as long as the cycle, in an arc of the cycle.
pub fn add_leaf<'t>(
    leaf: &'t Leaf,
    cycle: Cycle,
    unit: u128,
    arc: Span,
    out: &mut Items<'t>,
) -> Result<(), NoMemory>
    requires positive { 0 < unit }
    requires small { unit ≤ 2 ^ 88 }
    requires last { nat_abs (cycle +ℤ pos 1) ≤ 2 ^ 36 }
    requires arc { IsArc (arc_of unit arc) }
    requires inside { IsInside (arc_of unit arc) (cycle_arc cycle) }
    ensures { OnOk result (Adds unit out.old out.new (over (pure leaf.now) (arc_of unit arc))) }
{
    let whole = Span::of_cycle(cycle, unit);
    let part = arc;
    let value = CowLeaf::Borrowed(leaf);
    out.push(Item { whole, part, value })
}

/// Adds the leaf of a step in what its share has of a span of the cycle. That is a visit, if it has something of it.
pub(crate) fn add_leaf_step<'t, L: Ledger>(
    leaf: &'t Leaf,
    step: &Step,
    arc: Span,
    out: &mut Items<'t>,
    steps: &mut StepCount<L>,
) -> Result<(), NoMemory>
    requires { IsStep step.now }
    ensures { IsStepVisit (tree.Pure leaf.now) step.now arc result out.old out.new steps.old steps.new }
{
    let whole = step.share();
    match whole.meet(arc) {
        Some(part) => {
            steps.tick();
            let value = CowLeaf::Borrowed(leaf);
            out.push(Item { whole, part, value })
        }
        None => Ok(()),
    }
}

ghost use Rattle.std.specs.Prelude.{◌≡◌, ℕ, ℤ, ◌<◌, ◌≤◌, ◌^◌, pos, ◌+ℤ◌, nat_abs, length, sum_by};
ghost use Rattle.std.specs.List.{flat_map};
ghost use Rattle.tdl_expr.specs.Tree as tree;
ghost use Rattle.tdl_meaning.specs.Pattern.{cycle_arc};
ghost use Rattle.tdl_visits.specs.inside.Joins.{made_by_whole, visits_by_whole};
ghost use Rattle.tdl_grid.specs.Span.{arc_of};
ghost use Rattle.tdl_grid.specs.Item.{event_of};
ghost use Rattle.tdl_grid.specs.ItemLaws.{events_of};
ghost use Rattle.tdl_grid.specs.inside.Visited.{Gains};

use crate::asks::CountAsk;
use crate::items::{Item, Items};
use crate::joins::add_made_of;
use crate::spans::Span;
use crate::values::CowLeaf;
use std::alloc::Global;
use std::sync::ledger::Ledger;
use tdl_control::{Leaf, NoMemory};
use tdl_meaning::StepCount;
use tdl_visits::JoinedRows;

/// Adds what items of the side that gives the wholes make with a leaf on the other one, which lasts as long as the
/// cycle. Each of their wholes that has something of the cycle is a visit of the leaf.
pub(crate) fn add_with_leaf<'t, L: Ledger>(
    alloc: Global,
    rows: &JoinedRows,
    givers: Items<'t>,
    leaf: &'t Leaf,
    ask: &CountAsk,
    out: &mut Items<'t>,
    steps: &mut StepCount<L>,
) -> Result<(), NoMemory>
    requires positive { 0 < ask.now.unit }
    requires small { ask.now.unit ≤ 2 ^ 88 }
    requires last { nat_abs (ask.now.cycle +ℤ pos 1) ≤ 2 ^ 36 }
    ensures { let e = tree.Pure leaf.now in
        let wholes = events_of ask.now.unit givers.entry in
        Gains ask.now.unit (flat_map (made_by_whole rows.now.side rows.now.op e ask.now.cycle) wholes)
        (sum_by (visits_by_whole e ask.now.cycle) wholes) (length givers.entry) result out.old out.new steps.old steps.new }
{
    let whole = Span::of_cycle(ask.cycle, ask.unit);
    for giver in givers.into_vec() {
        add_one_with_leaf(alloc, rows, giver, leaf, whole, out, steps)?;
    }
    Ok(())
}

// The same of one item, for a leaf that lasts so long.
fn add_one_with_leaf<'t, L: Ledger>(
    alloc: Global,
    rows: &JoinedRows,
    giver: Item<'t>,
    leaf: &'t Leaf,
    whole: Span,
    out: &mut Items<'t>,
    steps: &mut StepCount<L>,
) -> Result<(), NoMemory>
    ensures { (u : ℕ) (c : ℤ) → 0 < u → arc_of u whole ≡ cycle_arc c → let e = tree.Pure leaf.now in
        let x = event_of u giver.entry in
        Gains u (made_by_whole rows.now.side rows.now.op e c x) (visits_by_whole e c x) 1 result out.old out.new steps.old steps.new }
{
    match whole.meet(giver.whole) {
        Some(part) => {
            steps.tick();
            let value = CowLeaf::Borrowed(leaf);
            let other = Item { whole, part, value };
            add_made_of(alloc, rows.side, rows.op, giver, &other, out)
        }
        None => Ok(()),
    }
}

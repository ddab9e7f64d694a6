// The steps of a group, as they come one after another.
ghost use Rattle.std.specs.Prelude.{◌≡◌, ◌++◌, List, map, replicate, IsTrue, OnOk};
ghost use Rattle.tdl_fraction.specs.Rational.{whole};
ghost use Rattle.tdl_mini_tree.specs.Valid.{is_numeral};
ghost use Rattle.tdl_mini_tree.specs.Values.{range_of};
ghost use Rattle.tdl_mini_rows.specs.inside.Bounds.{is_played, kind_of, AreShort};
ghost use Rattle.tdl_mini_rows.specs.inside.Turns.{ComeInTurn};
ghost use Rattle.tdl_expr.specs.declared.nodes.Node.{Node as Row};
ghost use Rattle.tdl_mini_rows.specs.Lowered.{longer_last, and_last};
ghost use Rattle.tdl_mini_rows.specs.inside.Views.{AreRows, AreSteps, steps_at, LowersToSteps, range_rows};

use crate::joins::{WeightedRow, WeightedRows};
use crate::leaves::push_value;
use crate::numbers::integer_value;
use crate::play::Play;
use crate::sizes::range_number;
use std::alloc::Global;
use tdl_control::NoMemory;
use tdl_expr::{PushFault, Table};
use tdl_mini_tree::{Number, UNIT};

/// Puts a step so many times.
pub(crate) fn add_times(
    steps: &mut WeightedRows,
    step: WeightedRow,
    times: u32,
) -> Result<(), NoMemory>
    ensures { OnOk result (steps.new.items ≡ steps.old.items ++ replicate times step) }
{
    for _ in 0..times {
        steps.push(step)?;
    }
    Ok(())
}

/// Puts the whole numbers of a range, each in a row of its own.
pub(crate) fn add_range(
    alloc: Global,
    steps: &mut WeightedRows,
    first: Number,
    last: Number,
    play: &Play,
    table: &mut Table,
) -> Result<(), PushFault>
    requires rows { AreRows table.old steps.old.items }
    requires played { IsTrue (is_played play.now) }
    requires first { IsTrue (is_numeral (kind_of play.now) first) }
    requires last { IsTrue (is_numeral (kind_of play.now) last) }
    requires turn { ComeInTurn play.now table.old (map whole (range_of first last)) }
    ensures { LowersToSteps (λ _. steps.new.items) table.old table.new (range_rows play.now table.old steps.old.items first last) result }
{
    for i in 0..first.range_length(last) {
        let value = integer_value(range_number(first, last, i));
        let id = push_value(alloc, play, &value, table)?;
        steps.push(WeightedRow { parts: UNIT, id })?;
    }
    Ok(())
}

/// Makes the last step longer by one.
pub(crate) fn lengthen_last(steps: &mut WeightedRows) -> Result<(), NoMemory>
    requires { AreShort steps.old.items }
    ensures { (nodes : List Row) → AreRows nodes steps.old.items → OnOk result (AreSteps nodes (longer_last (steps_at nodes steps.old.items)) steps.new.items) }
{
    if let Some(last) = steps.pop() {
        steps.push(WeightedRow {
            parts: last.parts + UNIT,
            id: last.id,
        })?;
    }
    Ok(())
}

/// Puts the last step once more.
pub(crate) fn repeat_last(steps: &mut WeightedRows) -> Result<(), NoMemory>
    ensures { (nodes : List Row) → AreRows nodes steps.old.items → OnOk result (AreSteps nodes (and_last (steps_at nodes steps.old.items)) steps.new.items) }
{
    if let Some(last) = steps.pop() {
        steps.push(last)?;
        steps.push(last)?;
    }
    Ok(())
}

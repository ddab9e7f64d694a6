ghost use Rattle.std.specs.Prelude.{◌≡◌, ◌+◌, ◌*◌, ◌<◌, ◌≤◌, ◌^◌, ◌++◌, length, IfOk, OnOk};
ghost use Rattle.std.specs.Int.{◌∣◌};
ghost use Rattle.std.specs.List.{filter};
ghost use Rattle.tdl_fraction.specs.Units.{IsQueryArc};
ghost use Rattle.tdl_expr.specs.Rows.{tree_at};
ghost use Rattle.tdl_expr.specs.Bounds.{bounds};
ghost use Rattle.tdl_meaning.specs.Onsets.{has_onset};
ghost use Rattle.tdl_meaning.specs.Pattern.{over, cycles_of};
ghost use Rattle.tdl_meaning.specs.Meaning.{cyc};
ghost use Rattle.tdl_grid.specs.Span.{arc_of};
ghost use Rattle.tdl_grid.specs.inside.Answers.{IsAnswer};

use crate::conversions::count_at;
use crate::evaluator::in_arc;
use crate::events::{add_events, add_onsets};
use crate::items::Items;
use crate::spans::Span;
use std::alloc::Global;
use std::marker::Model;
use std::sync::ledger::Ledger;
use tdl_compile::Program;
use tdl_control::NoMemory;
use tdl_event::Events;
use tdl_fraction::TimeArc;
use tdl_meaning::StepCount;

/// A program that is asked by whole counts of its unit. The program has all that this takes, so none is made for it.
#[derive(Drop)]
pub struct GridProgram<'p> {
    program: &'p Program,
}

impl<'p> Model for GridProgram<'p> {
    ghost use Rattle.tdl_compile.specs.Compiled.{Compiled};

    ghost Value = { Compiled };

    ghost view = { λ g. g.program.now };
}

impl<'p> GridProgram<'p> {
    /// The program, to be asked.
    pub fn of(program: &'p Program) -> GridProgram<'p>
        ensures { result ≡ program.now }
    {
        GridProgram { program }
    }

    /// Its events in the arc, in the order of its meaning. Each cycle of the arc takes at most as many steps as the
    /// program's load, also where memory runs out, which is the only fault.
    pub fn query<L: Ledger>(
        &self,
        alloc: Global,
        arc: TimeArc,
        steps: &mut StepCount<L>,
    ) -> Result<Events, NoMemory>
        requires { IsQueryArc arc }
        ensures events { IfOk result (λ events. events ≡ over (cyc (tree_at self.now.nodes self.now.root)) arc) }
        ensures few { steps.new ≤ steps.old + length (cycles_of arc) * (bounds (tree_at self.now.nodes self.now.root)).load }
    {
        let mut events = Events::new(alloc);
        self.query_onto(alloc, arc, &mut events, steps)?;
        Ok(events)
    }

    /// The same, behind the events that the list has. Where memory runs out, the list may have any events.
    pub fn query_onto<L: Ledger>(
        &self,
        alloc: Global,
        arc: TimeArc,
        out: &mut Events,
        steps: &mut StepCount<L>,
    ) -> Result<(), NoMemory>
        requires { IsQueryArc arc }
        ensures events { OnOk result (out.new ≡ out.old ++ over (cyc (tree_at self.now.nodes self.now.root)) arc) }
        ensures few { steps.new ≤ steps.old + length (cycles_of arc) * (bounds (tree_at self.now.nodes self.now.root)).load }
    {
        let items = items_in(alloc, self.program, arc, steps)?;
        add_events(alloc, items, self.program.unit() as u128, arc.stop(), out)
    }

    /// Those of the events that have their onset, in the same order, by at most as many steps.
    pub fn onsets<L: Ledger>(
        &self,
        alloc: Global,
        arc: TimeArc,
        steps: &mut StepCount<L>,
    ) -> Result<Events, NoMemory>
        requires { IsQueryArc arc }
        ensures events { IfOk result (λ events. events ≡ filter has_onset (over (cyc (tree_at self.now.nodes self.now.root)) arc)) }
        ensures few { steps.new ≤ steps.old + length (cycles_of arc) * (bounds (tree_at self.now.nodes self.now.root)).load }
    {
        let items = items_in(alloc, self.program, arc, steps)?;
        let unit = self.program.unit() as u128;
        let mut events = Events::new(alloc);
        add_onsets(alloc, items, unit, arc.stop(), &mut events)?;
        Ok(events)
    }
}

// The items of the program in the arc, by counts of its unit.
fn items_in<'t, L: Ledger>(
    alloc: Global,
    program: &'t Program,
    arc: TimeArc,
    steps: &mut StepCount<L>,
) -> Result<Items<'t>, NoMemory>
    requires { IsQueryArc arc }
    ensures items { IfOk result (λ items. IsAnswer program.now arc items) }
    ensures few { steps.new ≤ steps.old + length (cycles_of arc) * (bounds (tree_at program.now.nodes program.now.root)).load }
{
    let unit = program.unit() as u128;
    let root = program.root();
    let table = program.table();
    table.table_law();
    let arc = span_of(arc, unit);
    let mut items = Items::new(alloc);
    in_arc(alloc, program, root, unit, arc, &mut items, steps)?;
    Ok(items)
}

// The arc by counts of a unit that the denominators of its ends divide.
fn span_of(arc: TimeArc, unit: u128) -> Span
    requires start { arc.start.den ∣ unit }
    requires stop { arc.stop.den ∣ unit }
    requires positive { 0 < unit }
    requires small { unit ≤ 2 ^ 88 }
    ensures { arc_of unit result ≡ arc }
{
    Span::between(count_at(arc.start(), unit), count_at(arc.stop(), unit))
}

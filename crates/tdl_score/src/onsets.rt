// The rows of what a desk plays in a cycle, from one time up to another.
ghost use Rattle.std.specs.Prelude.{◌≡◌, ◌<◌, ◌≤◌, ◌+◌, ◌*◌, ◌^◌, ◌++◌, false, List, Some, map, IfOk, OnOk, OnErr, if◌then◌else◌, None};
ghost use Rattle.std.specs.Int.{div_ceil};
ghost use Rattle.std.specs.List.{AllByRecursion, flat_map, list_any};
ghost use Rattle.std.specs.Option.{option_copied};
ghost use Rattle.tdl_fraction.specs.Units.{IsQueryArc, last_units, tick_units};
ghost use Rattle.tdl_compile.specs.Compiled.{Compiled};
ghost use Rattle.tdl_desk.specs.declared.changes.Dated.{Dated};
ghost use Rattle.tdl_desk.specs.Desk.{IsOrbit, desk as desk_of, is_audible, orbits};
ghost use Rattle.tdl_desk.specs.Kept.{StandsFor};
ghost use Rattle.tdl_score.specs.Programs.{dated_tree, due, program_tree};
ghost use Rattle.tdl_score.specs.Score.{IsRowOf, onset, orbit_rows, pattern_rows, row_of};
ghost use Rattle.tdl_score.specs.inside.Parts.{HasLength, IsBetween, part_arc};

use std::alloc::Global;
use std::sync::ledger::Ledger;
use tdl_compile::Program;
use tdl_control::{Leaf, MAX_ORBIT, NoMemory};
use tdl_desk::Desk;
use tdl_event::{Event, Events, Row};
use tdl_expr::Table;
use tdl_fraction::{Frac, TICK_UNITS, TimeArc, time_of};
use tdl_grid::GridProgram;
use tdl_meaning::{StepCount, times_of_trees_are_bounded};
use tdl_order::TimeOf;

/// Rows by their onsets.
pub(crate) struct Onsets;

impl TimeOf<Row> for Onsets {
    ghost time_of = { onset };

    fn time(row: &Row) -> Frac {
        row.onset
    }
}

/// The times from one up to another, without the second, in tick units.
#[derive(Clone, Copy)]
pub(crate) struct Span {
    pub from: u64,
    pub to: u64,
    ghost forward: { from < to },
    ghost to_last: { to ≤ last_units },
}

impl Span {
    // What the span has of a cycle that it meets.
    fn part(self, cycle: u32) -> TimeArc
        requires begun { cycle * tick_units < self.to }
        requires not_over { self.from < (cycle + 1) * tick_units }
        ensures value { result ≡ part_arc self.from self.to cycle }
        ensures on_grid { IsQueryArc result }
    {
        let start = self.from.max(u64::from(cycle) * TICK_UNITS);
        let stop = self.to.min((u64::from(cycle) + 1) * TICK_UNITS);
        TimeArc::of(time_of(start), time_of(stop)).unwrap()
    }

    // Whether what the span has of a cycle that it meets has a multiple of one over the grid.
    fn meets_grid(self, cycle: u32, grid: u64) -> bool
        requires begun { cycle * tick_units < self.to }
        requires not_over { self.from < (cycle + 1) * tick_units }
        requires positive { 0 < grid }
        requires fine { grid ≤ 2 ^ 44 }
        ensures { result ≡ false → IsBetween grid (part_arc self.from self.to cycle) }
    {
        let begin = u64::from(cycle) * TICK_UNITS;
        let start = self.from.max(begin) - begin;
        let stop = self.to.min(begin + TICK_UNITS) - begin;
        multiples_before(start, grid) < multiples_before(stop, grid)
    }
}

// How many multiples of one over the grid are before so many tick units of a cycle.
fn multiples_before(units: u64, grid: u64) -> u64
    requires in_cycle { units ≤ tick_units }
    requires fine { grid ≤ 2 ^ 44 }
    ensures { result ≡ div_ceil (units * grid) tick_units }
{
    (units * grid).div_ceil(TICK_UNITS)
}

/// The rows of all orbits that are heard in a cycle, where they begin in the span: by orbit, and then as
/// each pattern answers.
pub(crate) fn rows_in<L: Ledger>(
    alloc: Global,
    desk: &Desk<Program>,
    span: Span,
    cycle: u32,
    steps: &mut StepCount<L>,
) -> Result<Vec<Row>, NoMemory>
    requires settled { desk.now.settled ≤ cycle }
    requires begun { cycle * tick_units < span.to }
    requires not_over { span.from < (cycle + 1) * tick_units }
    ensures rows { (kept : List (Dated Compiled)) → StandsFor desk.now kept → IfOk result (λ rows. rows.items
        ≡ due span.from span.to (flat_map (orbit_rows cycle (desk_of (map dated_tree kept) cycle)) orbits)) }
    ensures known { IfOk result (λ rows. AllByRecursion (IsRowOf cycle) rows.items) }
{
    let mut rows = Vec::new(alloc);
    let any_soloed = desk.any_soloed(cycle);
    for orbit in 1..=MAX_ORBIT {
        if let Some(program) = heard(desk, cycle, orbit, any_soloed) {
            push_orbit(alloc, program, orbit, span, cycle, &mut rows, steps)?;
        }
    }
    Ok(rows)
}

// The program of an orbit that is heard in a cycle, if it is known whether any orbit is soloed.
fn heard(desk: &Desk<Program>, cycle: u32, orbit: u8, any_soloed: bool) -> Option<&Program>
    requires settled { desk.now.settled ≤ cycle }
    requires orbit { IsOrbit orbit }
    ensures { (kept : List (Dated Compiled)) → StandsFor desk.now kept → any_soloed ≡ list_any (desk_of kept cycle).soloed orbits
        → option_copied result ≡ (if is_audible (desk_of kept cycle) orbit then (desk_of kept cycle).pattern orbit else None) }
{
    if desk.audible_among(cycle, orbit, any_soloed) {
        desk.pattern(cycle, orbit)
    } else {
        None
    }
}

// Puts the rows of a program's onsets in a span at the end, for a cycle. It is asked only where a multiple of one
// over its grid is in the span, since there are no onsets else.
fn push_orbit<L: Ledger>(
    alloc: Global,
    program: &Program,
    orbit: u8,
    span: Span,
    cycle: u32,
    rows: &mut Vec<Row>,
    steps: &mut StepCount<L>,
) -> Result<(), NoMemory>
    requires orbit { IsOrbit orbit }
    requires begun { cycle * tick_units < span.to }
    requires not_over { span.from < (cycle + 1) * tick_units }
    ensures rows { OnOk result (rows.new.items ≡ rows.old.items
        ++ due span.from span.to (pattern_rows cycle orbit (Some (program_tree program.now)))) }
    ensures known { AllByRecursion (IsRowOf cycle) (pattern_rows cycle orbit (Some (program_tree program.now))) }
{
    program.root();
    program.table().table_law();
    Table::validity_law();
    times_of_trees_are_bounded();
    if !span.meets_grid(cycle, program.grid()) {
        return Ok(());
    }
    let events = GridProgram::of(program).onsets(alloc, span.part(cycle), steps)?;
    push_events(events, orbit, rows)
}

// Puts the rows of events at the end.
fn push_events(events: Events, orbit: u8, rows: &mut Vec<Row>) -> Result<(), NoMemory>
    requires { AllByRecursion HasLength events }
    ensures { OnOk result (rows.new.items ≡ rows.old.items ++ flat_map (row_of orbit) events) }
{
    for event in events.into_vec() {
        push_onset(event, orbit, rows)?;
    }
    Ok(())
}

// Puts the row of an event at the end, where it has its onset and its value is a map.
fn push_onset(event: Event, orbit: u8, rows: &mut Vec<Row>) -> Result<(), NoMemory>
    requires { HasLength event }
    ensures { OnOk result (rows.new.items ≡ rows.old.items ++ row_of orbit event) }
{
    if !event.has_onset() {
        return Ok(());
    }
    let Event { whole, value, .. } = event;
    if let Leaf::Controls(controls) = value {
        let onset = whole.start();
        let length = whole.stop().sub(onset);
        rows.push(Row {
            onset,
            length,
            orbit,
            controls,
        })?;
    }
    Ok(())
}

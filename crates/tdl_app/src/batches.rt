ghost use Rattle.std.specs.Prelude.{◌≡◌, ◌⊎◌, ◌-◌, ◌/◌, ◌<◌, ◌≤◌, ◌^◌, IfSome, OnOk};
ghost use Rattle.tdl_fraction.specs.Arc.{meet};
ghost use Rattle.tdl_fraction.specs.Units.{IsQueryArc};
ghost use Rattle.tdl_expr.specs.Rows.{IsRow, tree_at};
ghost use Rattle.tdl_meaning.specs.Meaning.{cyc};
ghost use Rattle.tdl_meaning.specs.Repeats.{Repeats};
ghost use Rattle.tdl_app.specs.inside.Batches.{AreBatchesOf, IsCut, batch, batch_events};

use std::alloc::Global;
use std::sync::ledger::Ledger;
use tdl_compile::Program;
use tdl_control::NoMemory;
use tdl_event::Events;
use tdl_expr::{NodeId, Table};
use tdl_fraction::TimeArc;
use tdl_grid::GridProgram;
use tdl_meaning::{Cycle, Motion, StepCount, repeats_after};

// The most events that a batch of more than one cycle may have.
const BATCH_EVENTS: u64 = 1_024;

// The most nodes that are walked over in search of the cycles after which a pattern repeats.
const MAX_WALKED: u64 = 262_144;

/// An arc, cut into batches of as many cycles each, from the cycle of its start on. The first and the last batch may
/// stick out of it.
#[derive(Clone, Copy)]
pub(crate) struct Batches {
    arc: TimeArc,
    first: Cycle,
    cycles: usize,
    count: usize,
    // A batch after `known_from` and before `known_to` has the events of the batch before, so many cycles later: the
    // pattern repeats, and no part of the two sticks out.
    known_from: usize,
    known_to: usize,
}

impl Batches {
    /// The batches in which to ask for the program's events in the arc.
    pub(crate) fn of(program: &Program, arc: TimeArc) -> Batches
        requires { IsQueryArc arc }
        ensures arc { result.arc ≡ arc }
        ensures batches { AreBatchesOf (tree_at program.now.nodes program.now.root) result }
    {
        let root = program.root();
        let table = program.table();
        table.table_law();
        let first = Cycle::of(arc.start());
        let known_from = first.count_to(Cycle::not_before(arc.start()));
        let whole = first.count_to(Cycle::of(arc.stop()));
        let all = first.count_to(Cycle::not_before(arc.stop()));
        match period(table, root, most_cycles(program, all)) {
            Some(cycles) => Batches {
                arc,
                first,
                cycles,
                count: all.div_ceil(cycles),
                known_from,
                known_to: whole / cycles,
            },
            None => Batches {
                arc,
                first,
                cycles: 1,
                count: all,
                known_from,
                known_to: 0,
            },
        }
    }

    /// How many batches there are.
    pub(crate) fn count(&self) -> usize
        ensures { result ≡ self.now.count }
    {
        self.count
    }

    /// Makes the list, which has the program's events of the batch before, those in what the arc has of batch `k`. They
    /// are moved there where they are known to be the same. The list's memory is used again.
    pub(crate) fn next_events<L: Ledger>(
        &self,
        alloc: Global,
        program: &Program,
        k: usize,
        events: &mut Events,
        steps: &mut StepCount<L>,
    ) -> Result<(), NoMemory>
        requires batches { AreBatchesOf (tree_at program.now.nodes program.now.root) self.now }
        requires within { k < self.now.count }
        requires before { (k ≡ 0) ⊎ (events.old ≡ batch_events (cyc (tree_at program.now.nodes program.now.root)) self.now (k - 1)) }
        ensures { OnOk result (events.new ≡ batch_events (cyc (tree_at program.now.nodes program.now.root)) self.now k) }
    {
        if self.known_from < k && k < self.known_to {
            Motion::Later {
                by: self.cycles as i64,
            }
            .apply(events, 0);
            return Ok(());
        }
        events.clear();
        match self.part(k) {
            Some(part) => GridProgram::of(program).query_onto(alloc, part, events, steps),
            None => Ok(()),
        }
    }

    // What the arc has of batch `k`.
    fn part(&self, k: usize) -> Option<TimeArc>
        requires cut { IsCut self.now }
        requires within { k < self.now.count }
        ensures { result ≡ meet (batch self.now k) self.now.arc }
    {
        let start = self.first.later(k * self.cycles);
        let stop = start.later(self.cycles);
        let batch = TimeArc::of(start.start(), stop.start()).unwrap();
        batch.meet(self.arc)
    }
}

// How many cycles a batch of the program's may have at most, in an arc of so many cycles. One of more than half of them
// would leave nothing to move.
fn most_cycles(program: &Program, cycles: usize) -> u32
    requires { cycles ≤ 2 ^ 20 }
    ensures { result ≤ cycles / 2 }
{
    let by_events = BATCH_EVENTS / program.count().max(1);
    let by_walks = MAX_WALKED / program.load().max(1);
    let few = by_events.min(by_walks).max(1);
    few.min(cycles as u64 / 2) as u32
}

// The fewest cycles, up to so many, after which the row's tree is known to repeat.
fn period(table: &Table, id: NodeId, most: u32) -> Option<usize>
    requires { IsRow table.now id }
    ensures { IfSome result (λ cycles. (0 < cycles) × (cycles ≤ most) × Repeats cycles (cyc (tree_at table.now id))) }
{
    for cycles in 1..=most {
        if repeats_after(table, id, cycles) {
            return Some(cycles as usize);
        }
    }
    None
}

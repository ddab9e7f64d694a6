// Rows at a pace, and the steps of a sequence joined.
ghost use Rattle.std.specs.Prelude.{◌≡◌, ◌==◌, ◌<◌, ◌≤◌, ◌^◌, IsTrue};
ghost use Rattle.tdl_mini_rows.specs.inside.Bounds.{is_rate, is_way, AreShares, AreSequences};
ghost use Rattle.std.specs.List.{list_all};
ghost use Rattle.tdl_expr.specs.Rows.{IsRow};
ghost use Rattle.tdl_mini_rows.specs.Lowered.{paced, at_pace, over_parts, paced_stack};
ghost use Rattle.tdl_rows.specs.Lowers.{LowersTo};
ghost use Rattle.tdl_mini_rows.specs.inside.Stays.{stack-stays};
ghost use Rattle.tdl_mini_rows.specs.inside.Views.{AreRows, step_at, steps_at, finish_with};

use crate::joins::{WeightedRow, WeightedRows, cat_of, stack_of, timecat_of};
use std::alloc::Global;
use tdl_expr::{NodeId, PushFault, Table};
use tdl_fraction::Frac;
use tdl_mini_tree::UNIT;
use tdl_rows::{ByNumber, fast_of, fraction};

/// How the steps of a sequence are joined.
#[derive(Drop)]
pub(crate) enum Finish {
    /// In one cycle.
    InTurn,
    /// So many steps in a cycle.
    AtPace(Frac),
    /// A step a cycle.
    CycleEach,
}

/// At so many steps in a cycle; without steps it stays.
pub(crate) fn paced(
    table: &mut Table,
    rate: Frac,
    sequence: WeightedRow,
) -> Result<NodeId, PushFault>
    requires row { IsRow table.old sequence.id }
    requires rate { IsTrue (is_rate rate) }
    requires short { sequence.parts ≤ 2 ^ 28 }
    ensures { LowersTo table.old table.new (paced rate (step_at table.old sequence)) result }
{
    if sequence.parts == 0 {
        return Ok(sequence.id);
    }
    fast_of(table, over_parts(rate, sequence.parts), sequence.id)
}

// A rate over so many ten-thousandths.
fn over_parts(rate: Frac, parts: u64) -> Frac
    requires rate { IsTrue (is_rate rate) }
    requires positive { 0 < parts }
    requires short { parts ≤ 2 ^ 28 }
    ensures { result ≡ over_parts rate parts }
{
    fraction(
        rate.numerator() * i128::from(UNIT),
        rate.denominator() * parts,
    )
}

/// The row of a sequence whose steps, that last so long, are joined so.
pub(crate) fn finished(
    alloc: Global,
    finish: &Finish,
    parts: u64,
    steps: &[WeightedRow],
    table: &mut Table,
) -> Result<NodeId, PushFault>
    requires rows { AreRows table.old steps.now }
    requires shares { AreShares steps.now }
    requires way { IsTrue (is_way finish.now) }
    requires short { parts ≤ 2 ^ 28 }
    ensures { LowersTo table.old table.new (finish_with finish.now parts (steps_at table.old steps.now)) result }
{
    match finish {
        Finish::InTurn => timecat_of(alloc, steps, table),
        Finish::AtPace(rate) => at_pace(alloc, *rate, parts, steps, table),
        Finish::CycleEach => {
            if is_even(steps) {
                cat_of(alloc, steps, table)
            } else {
                at_pace(alloc, Frac::whole(1), parts, steps, table)
            }
        }
    }
}

fn is_even(steps: &[WeightedRow]) -> bool
    ensures { result ≡ list_all (λ step. step.parts == 10000) steps.now }
{
    steps.iter().all(|step| step.parts == UNIT)
}

fn at_pace(
    alloc: Global,
    rate: Frac,
    parts: u64,
    steps: &[WeightedRow],
    table: &mut Table,
) -> Result<NodeId, PushFault>
    requires rows { AreRows table.old steps.now }
    requires shares { AreShares steps.now }
    requires rate { IsTrue (is_rate rate) }
    requires short { parts ≤ 2 ^ 28 }
    ensures { LowersTo table.old table.new (at_pace rate parts (steps_at table.old steps.now)) result }
{
    let id = timecat_of(alloc, steps, table)?;
    paced(table, rate, WeightedRow { parts, id })
}

/// The stack of sequences, each at so many steps in a cycle.
pub(crate) fn paced_stack(
    alloc: Global,
    sequences: &[WeightedRow],
    rate: Frac,
    table: &mut Table,
) -> Result<NodeId, PushFault>
    requires rows { AreRows table.old sequences.now }
    requires sequences { AreSequences sequences.now }
    requires rate { IsTrue (is_rate rate) }
    ensures { LowersTo table.old table.new (paced_stack (steps_at table.old sequences.now) rate) result }
{
    let mut stacked = WeightedRows::new(alloc);
    for sequence in sequences {
        let id = paced(table, rate, *sequence)?;
        stacked.push(WeightedRow {
            parts: sequence.parts,
            id,
        })?;
    }
    stack_of(alloc, &stacked, table)
}

/// The stack of sequences, by how many steps each has in a cycle.
#[derive(Drop)]
pub(crate) struct PacedStack {
    pub sequences: WeightedRows,
}

impl ByNumber for PacedStack {
    ghost made = { λ nodes stack rate. paced_stack (steps_at nodes stack.sequences.items) rate };

    ghost stands = { λ nodes stack. AreRows nodes stack.sequences.items × AreSequences stack.sequences.items };

    ghost takes = { λ stack rate. IsTrue (is_rate rate) };

    ghost stays = { λ old new rows stack gains stands. stack-stays gains stack.sequences.items stands.0 stands.1 };

    fn row(&self, alloc: Global, rate: Frac, table: &mut Table) -> Result<NodeId, PushFault> {
        paced_stack(alloc, &self.sequences, rate, table)
    }
}

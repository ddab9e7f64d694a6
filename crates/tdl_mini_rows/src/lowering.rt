// The rows of layers and of what is inside them, from left to right and children before parents.
ghost use Rattle.std.specs.Prelude.{◌≡◌, [], map, IfSome, IfNone, IsTrue};
ghost use Rattle.std.specs.List.{list_all};
ghost use Rattle.tdl_mini_tree.specs.declared.leaves.Number.{Number as Numeral};
ghost use Rattle.tdl_expr.specs.Rows.{IsRow, tree_at};
ghost use Rattle.tdl_mini_tree.specs.View.{trees_of, named, sequence_of, group_of, element_of, step_of, term_of, operand_of, operand_with, braces_of};
ghost use Rattle.tdl_mini_rows.specs.Lowered.{step_built, term_built, operand_built, factor_built, argument_of};
ghost use Rattle.tdl_rows.specs.Lowers.{LowersTo};
ghost use Rattle.tdl_rows.specs.Arguments.{LowersToArg};
ghost use Rattle.tdl_mini_rows.specs.inside.Views.{AreRows, play_of, LowersToSteps};
ghost use Rattle.tdl_mini_rows.specs.inside.Views.{layers_rows, sequence_rows, group_rows, element_rows, selected_rows};
ghost use Rattle.tdl_mini_tree.specs.Valid.{is_valid, is_valid_sequence, is_valid_group, is_valid_element, is_valid_step, is_valid_term, is_valid_operand};
ghost use Rattle.tdl_mini_tree.specs.Values.{values_of, sequence_values, group_values, element_values, step_values, term_values, operand_values};
ghost use Rattle.tdl_mini_rows.specs.inside.Bounds.{is_played, kind_of, is_way, is_from, is_change, AreShort};
ghost use Rattle.tdl_mini_rows.specs.inside.Turns.{ComeInTurn};
ghost use Rattle.tdl_mini_tree.specs.declared.leaves.Kind.TheVariants.{Ratio};
ghost use Rattle.tdl_mini_rows.specs.inside.Waits.{LowersToWaits, waits_built};
ghost use Rattle.tdl_mini_rows.specs.inside.Changes.{change_built, from_built};

use crate::brackets::{Waiting, chosen_back, finish_of};
use crate::joins::{WeightedRow, WeightedRows, stack_of, timecat_of};
use crate::leaves::push_value;
use crate::numbers::number_value;
use crate::paces::{Finish, PacedStack, finished};
use crate::plain::plain_number;
use crate::play::Play;
use crate::sizes::parts_of;
use crate::steps::{add_range, add_times, lengthen_last, repeat_last};
use crate::values::distinct_of;
use std::alloc::Global;
use tdl_expr::{Arg, Node, NodeId, PushFault, Table};
use tdl_fraction::Frac;
use tdl_mini_tree::{
    Element, Group, Last, Layers, MiniStep, NestId, Number, Operand, Sequence, StepChange, Term,
    UNIT, times_of, weight_of,
};
use tdl_rows::{AtHits, Faster, Slower, choose, choose_among};

/// The sequences of layers, each joined so; past the last there are none.
#[cycle(lowering)]
pub(crate) fn layers_of(
    alloc: Global,
    nests: &[Layers],
    id: NestId,
    play: &Play,
    finish: &Finish,
    table: &mut Table,
) -> Result<WeightedRows, PushFault>
    requires played { IsTrue (is_played play.now) }
    requires way { IsTrue (is_way finish.now) }
    requires valid { IsTrue (is_valid (kind_of play.now) (named (trees_of nests.now) id)) }
    requires turn { ComeInTurn play.now table.old (values_of (named (trees_of nests.now) id)) }
    ensures { LowersToSteps (λ steps. steps.items) table.old table.new (layers_rows play.now finish.now nests.now id) result }
{
    let at = id.index as usize;
    let mut joined = WeightedRows::new(alloc);
    if at >= nests.len() {
        return Ok(joined);
    }
    let before = &nests[..at];
    for sequence in nests[at].sequences.as_slice() {
        let steps = sequence_of(alloc, before, sequence, play, table)?;
        let parts = parts_of(sequence);
        let id = finished(alloc, finish, parts, &steps, table)?;
        joined.push(WeightedRow { parts, id })?;
    }
    Ok(joined)
}

// The steps of a sequence: those of its group, or its groups where there are several.
#[cycle(lowering)]
fn sequence_of(
    alloc: Global,
    nests: &[Layers],
    sequence: &Sequence,
    play: &Play,
    table: &mut Table,
) -> Result<WeightedRows, PushFault>
    requires played { IsTrue (is_played play.now) }
    requires valid { IsTrue (is_valid_sequence (kind_of play.now) (sequence_of (trees_of nests.now) sequence.now.groups.items)) }
    requires turn { ComeInTurn play.now table.old (sequence_values (sequence_of (trees_of nests.now) sequence.now.groups.items)) }
    ensures { LowersToSteps (λ steps. steps.items) table.old table.new (sequence_rows play.now nests.now sequence.now) result }
{
    match sequence.groups.as_slice() {
        [] => Ok(WeightedRows::new(alloc)),
        [group] => group_of(alloc, nests, group, play, table),
        groups => {
            let mut steps = WeightedRows::new(alloc);
            for group in groups {
                let inner = group_of(alloc, nests, group, play, table)?;
                let id = timecat_of(alloc, &inner, table)?;
                steps.push(WeightedRow { parts: UNIT, id })?;
            }
            Ok(steps)
        }
    }
}

#[cycle(lowering)]
fn group_of(
    alloc: Global,
    nests: &[Layers],
    group: &Group,
    play: &Play,
    table: &mut Table,
) -> Result<WeightedRows, PushFault>
    requires played { IsTrue (is_played play.now) }
    requires valid { IsTrue (is_valid_group (kind_of play.now) (group_of (trees_of nests.now) group.now.elements.items)) }
    requires turn { ComeInTurn play.now table.old (group_values (group_of (trees_of nests.now) group.now.elements.items)) }
    ensures { LowersToSteps (λ steps. steps.items) table.old table.new (group_rows play.now nests.now group.now) result }
{
    let mut steps = WeightedRows::new(alloc);
    for element in &group.elements {
        add_element(alloc, nests, &mut steps, element, play, table)?;
    }
    Ok(steps)
}

#[cycle(lowering)]
fn add_element(
    alloc: Global,
    nests: &[Layers],
    steps: &mut WeightedRows,
    element: &Element,
    play: &Play,
    table: &mut Table,
) -> Result<(), PushFault>
    requires rows { AreRows table.old steps.old.items }
    requires short { AreShort steps.old.items }
    requires played { IsTrue (is_played play.now) }
    requires valid { IsTrue (is_valid_element (kind_of play.now) (element_of (trees_of nests.now) element.now)) }
    requires turn { ComeInTurn play.now table.old (element_values (element_of (trees_of nests.now) element.now)) }
    ensures { LowersToSteps (λ _. steps.new.items) table.old table.new (element_rows play.now nests.now table.old steps.old.items element.now) result }
{
    match element {
        Element::Played {
            step,
            weight,
            count,
        } => {
            let id = step_of(alloc, nests, step, play, table)?;
            let parts = weight_of(*weight);
            add_times(steps, WeightedRow { parts, id }, times_of(*count))?;
        }
        Element::Range { first, last } => add_range(alloc, steps, *first, *last, play, table)?,
        Element::Hold => lengthen_last(steps)?,
        Element::Repeat => repeat_last(steps)?,
    }
    Ok(())
}

#[cycle(lowering)]
fn step_of(
    alloc: Global,
    nests: &[Layers],
    step: &MiniStep,
    play: &Play,
    table: &mut Table,
) -> Result<NodeId, PushFault>
    requires played { IsTrue (is_played play.now) }
    requires valid { IsTrue (is_valid_step (kind_of play.now) (step_of (trees_of nests.now) step.now)) }
    requires turn { ComeInTurn play.now table.old (step_values (step_of (trees_of nests.now) step.now)) }
    ensures { LowersTo table.old table.new (step_built (play_of play.now) (step_of (trees_of nests.now) step.now)) result }
{
    let mut id = term_of(alloc, nests, &step.term, play, table)?;
    for change in &step.changes {
        id = changed(alloc, nests, id, change, table)?;
    }
    Ok(id)
}

#[cycle(lowering)]
fn term_of(
    alloc: Global,
    nests: &[Layers],
    term: &Term,
    play: &Play,
    table: &mut Table,
) -> Result<NodeId, PushFault>
    requires played { IsTrue (is_played play.now) }
    requires valid { IsTrue (is_valid_term (kind_of play.now) (term_of (trees_of nests.now) term.now)) }
    requires turn { ComeInTurn play.now table.old (term_values (term_of (trees_of nests.now) term.now)) }
    ensures { LowersTo table.old table.new (term_built (play_of play.now) (term_of (trees_of nests.now) term.now)) result }
{
    match term {
        Term::Value(value) => push_value(alloc, play, value, table),
        Term::Rest => table.push(Node::Silence),
        Term::Bracketed(operand) => operand_of(alloc, nests, operand, play, table),
    }
}

#[cycle(lowering)]
fn changed(
    alloc: Global,
    nests: &[Layers],
    id: NodeId,
    change: &StepChange,
    table: &mut Table,
) -> Result<NodeId, PushFault>
    requires row { IsRow table.old id }
    requires valid { IsTrue (is_change (trees_of nests.now) change.now) }
    ensures { LowersTo table.old table.new (change_built (trees_of nests.now) (tree_at table.old id) change.now) result }
{
    match change {
        StepChange::Fast(operand) => {
            let factor = factor_of(alloc, nests, &operand.braces, operand.last, table)?;
            choose(alloc, &factor, &Faster { id }, table)
        }
        StepChange::Slow(operand) => {
            let factor = factor_of(alloc, nests, &operand.braces, operand.last, table)?;
            choose(alloc, &factor, &Slower { id }, table)
        }
        StepChange::Euclid { hits, steps, from } => {
            let hits = argument_of(alloc, nests, *hits, table)?;
            let steps = argument_of(alloc, nests, *steps, table)?;
            let from = from_of(alloc, nests, *from, table)?;
            choose_among(alloc, &hits, &steps, &from, &AtHits { id }, table)
        }
    }
}

// Where a rhythm begins: at the first step, if nothing is written.
#[cycle(lowering)]
fn from_of(
    alloc: Global,
    nests: &[Layers],
    from: Option<NestId>,
    table: &mut Table,
) -> Result<Arg, PushFault>
    requires valid { IsTrue (is_from (trees_of nests.now) from) }
    ensures { LowersToArg table.old table.new (from_built (trees_of nests.now) from) result }
{
    match from {
        Some(id) => argument_of(alloc, nests, id, table),
        None => Ok(Arg::Plain(Frac::whole(0))),
    }
}

// An operand as a term.
#[cycle(lowering)]
fn operand_of(
    alloc: Global,
    nests: &[Layers],
    operand: &Operand,
    play: &Play,
    table: &mut Table,
) -> Result<NodeId, PushFault>
    requires played { IsTrue (is_played play.now) }
    requires valid { IsTrue (is_valid_operand (kind_of play.now) (operand_of (trees_of nests.now) operand.now)) }
    requires turn { ComeInTurn play.now table.old (operand_values (operand_of (trees_of nests.now) operand.now)) }
    ensures { LowersTo table.old table.new (operand_built (play_of play.now) (operand_of (trees_of nests.now) operand.now)) result }
{
    match operand.braces.as_slice() {
        [] => match operand.last {
            Last::Number(_) => table.push(Node::Silence),
            Last::Nest { bracket, nest } => {
                let finish = finish_of(bracket, nests, nest);
                let sequences = layers_of(alloc, nests, nest, play, &finish, table)?;
                stack_of(alloc, &sequences, table)
            }
        },
        [first, others @ ..] => match pace_after(others, operand.last) {
            Some(number) => {
                let finish = Finish::AtPace(number_value(number));
                let sequences = layers_of(alloc, nests, *first, play, &finish, table)?;
                stack_of(alloc, &sequences, table)
            }
            None => {
                let sequences = layers_of(alloc, nests, *first, play, &Finish::InTurn, table)?;
                let factor = factor_of(alloc, nests, others, operand.last, table)?;
                choose(alloc, &factor, &PacedStack { sequences }, table)
            }
        },
    }
}

// The number that stands after braces, where no others do.
fn pace_after(others: &[NestId], last: Last) -> Option<Number>
    ensures some { IfSome result (λ number. (others.now ≡ []) × (last ≡ Last.Number number)) }
    ensures none { IfNone result ((number : Numeral) → last ≡ Last.Number number → others.now ≡ [] → ⊥) }
{
    match others {
        [] => match last {
            Last::Number(number) => Some(number),
            Last::Nest { .. } => None,
        },
        _ => None,
    }
}

// Braces and what follows them as a factor.
#[cycle(lowering)]
fn factor_of(
    alloc: Global,
    nests: &[Layers],
    braces: &[NestId],
    last: Last,
    table: &mut Table,
) -> Result<Arg, PushFault>
    requires valid { IsTrue (is_valid_operand Ratio (operand_with (trees_of nests.now) (braces_of (trees_of nests.now) braces.now) last)) }
    ensures { LowersToArg table.old table.new (factor_built (operand_with (trees_of nests.now) (braces_of (trees_of nests.now) braces.now) last)) result }
{
    match last {
        Last::Number(number) => match braces {
            [] => Ok(Arg::Plain(number_value(number))),
            [outer @ .., inner] => {
                let waiting = waiting_of(alloc, nests, outer, table)?;
                let finish = Finish::AtPace(number_value(number));
                let factor = selected(alloc, nests, *inner, &finish, table)?;
                chosen_back(alloc, waiting, factor, table)
            }
        },
        Last::Nest { bracket, nest } => {
            let waiting = waiting_of(alloc, nests, braces, table)?;
            let finish = finish_of(bracket, nests, nest);
            let factor = selected(alloc, nests, nest, &finish, table)?;
            chosen_back(alloc, waiting, factor, table)
        }
    }
}

// The sequences of braces whose factors come after them.
#[cycle(lowering)]
fn waiting_of(
    alloc: Global,
    nests: &[Layers],
    braces: &[NestId],
    table: &mut Table,
) -> Result<Vec<Waiting>, PushFault>
    requires valid { IsTrue (list_all (λ id. is_valid Ratio (named (trees_of nests.now) id)) braces.now) }
    ensures { LowersToWaits (λ waiting. waiting.items) table.old table.new (waits_built (map (named (trees_of nests.now)) braces.now)) result }
{
    let mut waiting = Vec::new(alloc);
    for id in braces {
        let values = distinct_of(alloc, nests, *id)?;
        let play = Play::Indices(&values);
        let sequences = layers_of(alloc, nests, *id, &play, &Finish::InTurn, table)?;
        waiting.push(Waiting { values, sequences })?;
    }
    Ok(waiting)
}

// The selector that layers are, with its values.
#[cycle(lowering)]
pub(crate) fn selected(
    alloc: Global,
    nests: &[Layers],
    id: NestId,
    finish: &Finish,
    table: &mut Table,
) -> Result<Arg, PushFault>
    requires way { IsTrue (is_way finish.now) }
    requires valid { IsTrue (is_valid Ratio (named (trees_of nests.now) id)) }
    ensures { LowersToArg table.old table.new (selected_rows finish.now nests.now id) result }
{
    let values = distinct_of(alloc, nests, id)?;
    let sequences = layers_of(alloc, nests, id, &Play::Indices(&values), finish, table)?;
    let selector = stack_of(alloc, &sequences, table)?;
    Ok(Arg::Chosen { selector, values })
}

// The argument that layers are.
#[cycle(lowering)]
pub(crate) fn argument_of(
    alloc: Global,
    nests: &[Layers],
    id: NestId,
    table: &mut Table,
) -> Result<Arg, PushFault>
    requires valid { IsTrue (is_valid Ratio (named (trees_of nests.now) id)) }
    ensures { LowersToArg table.old table.new (argument_of (named (trees_of nests.now) id)) result }
{
    match plain_number(nests, id) {
        Some(number) => Ok(Arg::Plain(number_value(number))),
        None => selected(alloc, nests, id, &Finish::InTurn, table),
    }
}

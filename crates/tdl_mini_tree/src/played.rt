// The span of the values that layers play, which a Euclid asks of its arguments. A walk over the layers.
ghost use Rattle.std.specs.Prelude.{◌≡◌};
ghost use Rattle.tdl_mini_tree.specs.View.{trees_of, named, sequence_of, group_of, element_of, term_of, operand_of};
ghost use Rattle.tdl_mini_tree.specs.Values.{values_of, sequence_values, group_values, element_values, term_values, operand_values};
ghost use Rattle.tdl_mini_tree.specs.Extremes.{AreExtremes};

use crate::extremes::Extremes;
use crate::leaves::Value;
use crate::tree::{Element, Group, Layers, NestId, Operand, Sequence, Term};

/// Of the values of layers; past the last there are none.
#[cycle(playing)]
pub fn extremes_of(nests: &[Layers], id: NestId) -> Extremes
    ensures { AreExtremes result (values_of (named (trees_of nests.now) id)) }
{
    let at = id.index as usize;
    let mut span = Extremes::empty();
    if at >= nests.len() {
        return span;
    }
    let before = &nests[..at];
    for sequence in nests[at].sequences.as_slice() {
        span = span.and(sequence_span(before, sequence));
    }
    span
}

#[cycle(playing)]
fn sequence_span(nests: &[Layers], sequence: &Sequence) -> Extremes
    ensures { AreExtremes result (sequence_values (sequence_of (trees_of nests.now) sequence.now.groups.items)) }
{
    let mut span = Extremes::empty();
    for group in sequence.groups.as_slice() {
        span = span.and(group_span(nests, group));
    }
    span
}

#[cycle(playing)]
fn group_span(nests: &[Layers], group: &Group) -> Extremes
    ensures { AreExtremes result (group_values (group_of (trees_of nests.now) group.now.elements.items)) }
{
    let mut span = Extremes::empty();
    for element in &group.elements {
        span = span.and(element_span(nests, element));
    }
    span
}

// A step's changes alter no value.
#[cycle(playing)]
fn element_span(nests: &[Layers], element: &Element) -> Extremes
    ensures { AreExtremes result (element_values (element_of (trees_of nests.now) element.now)) }
{
    match element {
        Element::Played { step, .. } => term_span(nests, &step.term),
        Element::Range { first, last } => Extremes::of_range(*first, *last),
        Element::Hold | Element::Repeat => Extremes::empty(),
    }
}

#[cycle(playing)]
fn term_span(nests: &[Layers], term: &Term) -> Extremes
    ensures { AreExtremes result (term_values (term_of (trees_of nests.now) term.now)) }
{
    match term {
        Term::Value(Value::Number(number)) => Extremes::of_number(*number),
        Term::Value(_) | Term::Rest => Extremes::empty(),
        Term::Bracketed(operand) => operand_span(nests, operand),
    }
}

// Of the first bracket alone, since the others are factors.
#[cycle(playing)]
fn operand_span(nests: &[Layers], operand: &Operand) -> Extremes
    ensures { AreExtremes result (operand_values (operand_of (trees_of nests.now) operand.now)) }
{
    match operand.first() {
        Some(nest) => extremes_of(nests, nest),
        None => Extremes::empty(),
    }
}

// The distinct numbers that layers play, in the order in which they first appear.
ghost use Rattle.std.specs.Prelude.{◌≡◌, map, IfOk, IsTrue, OnOk};
ghost use Rattle.tdl_mini_tree.specs.declared.leaves.Kind.TheVariants.{Ratio};
ghost use Rattle.tdl_mini_tree.specs.Valid.{is_valid, is_valid_sequence, is_valid_group, is_valid_element, is_value};
ghost use Rattle.std.specs.List.{fold};
ghost use Rattle.tdl_fraction.specs.Rational.{whole};
ghost use Rattle.tdl_mini_tree.specs.Values.{values_of, sequence_values, group_values, element_values, range_of, value_number};
ghost use Rattle.tdl_mini_tree.specs.View.{trees_of, named, sequence_of, group_of, element_of, value_of};
ghost use Rattle.tdl_mini_rows.specs.Leaves.{distinct, and_distinct};

use crate::numbers::{add_distinct, number_value};
use crate::sizes::range_number;
use std::alloc::Global;
use tdl_control::NoMemory;
use tdl_expr::Fracs;
use tdl_fraction::Frac;
use tdl_mini_tree::{Element, Group, Layers, NestId, Number, Sequence, Term, Value};

/// The distinct numbers of layers; past the last there are none.
pub(crate) fn distinct_of(alloc: Global, nests: &[Layers], id: NestId) -> Result<Fracs, NoMemory>
    requires { IsTrue (is_valid Ratio (named (trees_of nests.now) id)) }
    ensures { IfOk result (λ numbers. numbers ≡ distinct (values_of (named (trees_of nests.now) id))) }
{
    let mut numbers = Fracs::new(alloc);
    add_layers(nests, id, &mut numbers)?;
    Ok(numbers)
}

#[cycle(values)]
fn add_layers(nests: &[Layers], id: NestId, numbers: &mut Fracs) -> Result<(), NoMemory>
    requires { IsTrue (is_valid Ratio (named (trees_of nests.now) id)) }
    ensures { OnOk result (numbers.new ≡ fold and_distinct numbers.old (values_of (named (trees_of nests.now) id))) }
{
    let at = id.index as usize;
    if at >= nests.len() {
        return Ok(());
    }
    let before = &nests[..at];
    for sequence in nests[at].sequences.as_slice() {
        add_sequence(before, sequence, numbers)?;
    }
    Ok(())
}

#[cycle(values)]
fn add_sequence(nests: &[Layers], sequence: &Sequence, numbers: &mut Fracs) -> Result<(), NoMemory>
    requires { IsTrue (is_valid_sequence Ratio (sequence_of (trees_of nests.now) sequence.now.groups.items)) }
    ensures { OnOk result (numbers.new ≡ fold and_distinct numbers.old (sequence_values (sequence_of (trees_of nests.now) sequence.now.groups.items))) }
{
    for group in sequence.groups.as_slice() {
        add_group(nests, group, numbers)?;
    }
    Ok(())
}

#[cycle(values)]
fn add_group(nests: &[Layers], group: &Group, numbers: &mut Fracs) -> Result<(), NoMemory>
    requires { IsTrue (is_valid_group Ratio (group_of (trees_of nests.now) group.now.elements.items)) }
    ensures { OnOk result (numbers.new ≡ fold and_distinct numbers.old (group_values (group_of (trees_of nests.now) group.now.elements.items))) }
{
    for element in &group.elements {
        add_element(nests, element, numbers)?;
    }
    Ok(())
}

#[cycle(values)]
fn add_element(nests: &[Layers], element: &Element, numbers: &mut Fracs) -> Result<(), NoMemory>
    requires { IsTrue (is_valid_element Ratio (element_of (trees_of nests.now) element.now)) }
    ensures { OnOk result (numbers.new ≡ fold and_distinct numbers.old (element_values (element_of (trees_of nests.now) element.now))) }
{
    match element {
        Element::Played { step, .. } => match &step.term {
            Term::Value(value) => add_value(numbers, value),
            Term::Rest => Ok(()),
            Term::Bracketed(operand) => match operand.first() {
                Some(id) => add_layers(nests, id, numbers),
                None => Ok(()),
            },
        },
        Element::Range { first, last } => add_range(numbers, *first, *last),
        Element::Hold | Element::Repeat => Ok(()),
    }
}

fn add_value(numbers: &mut Fracs, value: &Value) -> Result<(), NoMemory>
    requires { IsTrue (is_value Ratio (value_of value.now)) }
    ensures { OnOk result (numbers.new ≡ fold and_distinct numbers.old (value_number (value_of value.now))) }
{
    match value {
        Value::Number(number) => add_distinct(numbers, number_value(*number)),
        _ => Ok(()),
    }
}

fn add_range(numbers: &mut Fracs, first: Number, last: Number) -> Result<(), NoMemory>
    ensures { OnOk result (numbers.new ≡ fold and_distinct numbers.old (map whole (range_of first last))) }
{
    for i in 0..first.range_length(last) {
        add_distinct(numbers, Frac::whole(range_number(first, last, i)))?;
    }
    Ok(())
}

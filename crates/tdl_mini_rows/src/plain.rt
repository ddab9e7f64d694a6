// Arguments that are exactly one number.
ghost use Rattle.std.specs.Prelude.{◌≡◌, List};
ghost use Rattle.tdl_mini_tree.specs.Tree.{Layers as LayersTree};
ghost use Rattle.tdl_mini_tree.specs.View.{trees_of, named, layers_of, sequence_of, element_of, step_of};
ghost use Rattle.tdl_mini_rows.specs.Lowered.{plain_number, plain_sequence, plain_element, plain_step};

use tdl_mini_tree::{Element, Layers, MiniStep, NestId, Number, Sequence, Term, Value};

/// The number that the layers of a name are, if they are one number and no more.
pub(crate) fn plain_number(nests: &[Layers], id: NestId) -> Option<Number>
    ensures { result ≡ plain_number (named (trees_of nests.now) id) }
{
    match nests.get(id.index as usize) {
        Some(layers) => plain_layers(layers),
        None => None,
    }
}

fn plain_layers(layers: &Layers) -> Option<Number>
    ensures { (trees : List LayersTree) → result ≡ plain_number (layers_of trees layers.now.sequences.items) }
{
    match layers.sequences.as_slice() {
        [sequence] => plain_sequence(sequence),
        _ => None,
    }
}

fn plain_sequence(sequence: &Sequence) -> Option<Number>
    ensures { (trees : List LayersTree) → result ≡ plain_sequence (sequence_of trees sequence.now.groups.items) }
{
    match sequence.groups.as_slice() {
        [group] => match group.elements.as_slice() {
            [element] => plain_element(element),
            _ => None,
        },
        _ => None,
    }
}

fn plain_element(element: &Element) -> Option<Number>
    ensures { (trees : List LayersTree) → result ≡ plain_element (element_of trees element.now) }
{
    match element {
        Element::Played {
            step,
            weight: None,
            count: None,
        } => plain_step(step),
        _ => None,
    }
}

fn plain_step(step: &MiniStep) -> Option<Number>
    ensures { (trees : List LayersTree) → result ≡ plain_step (step_of trees step.now) }
{
    if !step.changes.is_empty() {
        return None;
    }
    match step.term {
        Term::Value(Value::Number(number)) => Some(number),
        _ => None,
    }
}

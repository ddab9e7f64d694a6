// How long the steps of a sequence last, in ten-thousandths.
ghost use Rattle.std.specs.Prelude.{◌≡◌, ◌*◌, ◌<◌, ◌≤◌, ◌^◌, unsigned_abs, List};
ghost use Rattle.tdl_mini_tree.specs.Limits.{max_weights, unit};
ghost use Rattle.tdl_mini_tree.specs.Tree.{Layers as LayersTree};
ghost use Rattle.tdl_mini_tree.specs.View.{trees_of, named, layers_of, sequence_of};
ghost use Rattle.tdl_mini_tree.specs.Sizes.{range_length};
ghost use Rattle.tdl_mini_rows.specs.Lowered.{parts_of, first_parts};
ghost use lib.Signed.{le_z};
ghost use Rattle.tdl_mini_tree.specs.Values.{integer_of};
ghost use Rattle.tdl_mini_rows.specs.inside.SizeViews.{number_at, IsValid, IsValidSequence, IsValidLayers};

use tdl_mini_tree::{Layers, NestId, Number, Sequence, UNIT};

/// The sum of the weights of its steps, or the number of its groups where there are several.
pub(crate) fn parts_of(sequence: &Sequence) -> u64
    requires { IsValidSequence sequence.now.groups.items }
    ensures value { (trees : List LayersTree) → result ≡ parts_of (sequence_of trees sequence.now.groups.items) }
    ensures small { result ≤ max_weights * unit }
{
    match sequence.groups.as_slice() {
        [] => 0,
        [group] => group.weights(),
        groups => groups.len() as u64 * UNIT,
    }
}

/// How long the steps of the first sequence of a name last.
pub(crate) fn first_parts(nests: &[Layers], id: NestId) -> u64
    requires { IsValid (named (trees_of nests.now) id) }
    ensures value { result ≡ first_parts (named (trees_of nests.now) id) }
    ensures small { result ≤ max_weights * unit }
{
    match nests.get(id.index as usize) {
        Some(layers) => parts_of_layers(layers),
        None => 0,
    }
}

fn parts_of_layers(layers: &Layers) -> u64
    requires { IsValidLayers layers.now.sequences.items }
    ensures value { (trees : List LayersTree) → result ≡ first_parts (layers_of trees layers.now.sequences.items) }
    ensures small { result ≤ max_weights * unit }
{
    match layers.sequences.as_slice() {
        [] => 0,
        [first, ..] => parts_of(first),
    }
}

/// The whole number of a range after so many others.
pub(crate) fn range_number(first: Number, last: Number, i: u64) -> i64
    requires { i < range_length first last }
    ensures value { result ≡ number_at (le_z (integer_of first) (integer_of last)) (integer_of first) i }
    ensures size { unsigned_abs result < 2 ^ 32 }
{
    let from = first.integer();
    if from <= last.integer() {
        from + i as i64
    } else {
        from - i as i64
    }
}

// Finished layers inside others.
ghost use Rattle.std.specs.Prelude.{◌≡◌, ◌-◌, ◌^◌, ◌<◌, IfOk, OnOk, [], ◌∷◌, ◌++◌, length};
ghost use Rattle.tdl_mini_tree.specs.View.{named, layers_of};
ghost use Rattle.tdl_mini_tree.specs.Values.{values_of};
ghost use Rattle.tdl_mini_tree.specs.Extremes.{AreExtremes};
ghost use Rattle.tdl_mini_reader.specs.NestsView.{trees_in};

use std::alloc::Global;
use tdl_control::NoMemory;
use tdl_mini_tree::{Extremes, Layers, NestId, extremes_of};

// How many layers most texts have, at most.
const USUAL_LAYERS: usize = 8;

// Room for the layers of most texts, once the first are finished.
fn make_room(layers: &mut Vec<Layers>) -> Result<(), NoMemory>
    ensures { OnOk result (layers.new.items ≡ layers.old.items) }
{
    if layers.is_empty() {
        layers.reserve_exact(USUAL_LAYERS)?;
    }
    Ok(())
}

/// Finished layers, where those inside others come before them.
#[derive(Drop)]
pub(crate) struct Nests {
    layers: Vec<Layers>,
}

impl Nests {
    /// No layers.
    pub fn new(alloc: Global) -> Nests
        ensures { trees_in result ≡ [] }
    {
        Nests {
            layers: Vec::new(alloc),
        }
    }

    /// The span of the values of layers. Past the last there are none.
    pub fn span(&self, nest: NestId) -> Extremes
        ensures { AreExtremes result (values_of (named (trees_in self.now) nest)) }
    {
        extremes_of(&self.layers, nest)
    }

    /// Keeps finished layers.
    pub fn push(&mut self, layers: Layers) -> Result<NestId, NoMemory>
        requires room { length (trees_in self.old) < 2 ^ 32 - 1 }
        ensures index { IfOk result (λ nest. nest.index ≡ length (trees_in self.old)) }
        ensures trees { IfOk result (λ nest. trees_in self.new ≡ trees_in self.old ++ layers_of (trees_in self.old) layers.sequences.items ∷ []) }
    {
        let index = self.layers.len() as u32;
        make_room(&mut self.layers)?;
        self.layers.push(layers)?;
        Ok(NestId { index })
    }

    /// The layers, in their order.
    pub fn into_layers(self) -> Vec<Layers>
        ensures { result.items ≡ self.layers.items }
    {
        self.layers
    }
}

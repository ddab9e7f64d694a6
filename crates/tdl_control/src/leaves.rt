ghost use Rattle.std.specs.Prelude.{◌≡◌, IfOk};

use crate::faults::NoMemory;
use crate::maps::Map;
use std::alloc::Global;

/// What an event of a pattern carries: controls for the sound engine, a truth value, or an index
/// that chooses among patterns.
#[derive(Drop)]
pub enum Leaf {
    Controls(Map),
    Truth(bool),
    Index(u32),
}

impl Leaf {
    /// The same value. Memory for a map of more than one entry comes from the allocator.
    pub fn copy(&self, alloc: Global) -> Result<Leaf, NoMemory>
        ensures { IfOk result (λ copy. copy ≡ self.now) }
    {
        match self {
            Leaf::Controls(controls) => Ok(Leaf::Controls(controls.copy(alloc)?)),
            Leaf::Truth(truth) => Ok(Leaf::Truth(*truth)),
            Leaf::Index(index) => Ok(Leaf::Index(*index)),
        }
    }
}

ghost use Rattle.std.specs.Prelude.{◌≡◌, IfOk};
ghost use Rattle.tdl_grid.specs.Values.{leaf_of};

use std::alloc::Global;
use tdl_control::{Leaf, NoMemory};

/// The value of an item: lent from the table of a program, or made on the way.
#[derive(Drop)]
pub enum CowLeaf<'t> {
    Borrowed(&'t Leaf),
    Owned(Leaf),
}

impl<'t> CowLeaf<'t> {
    /// The leaf, to be read.
    pub fn leaf(&self) -> &Leaf
        ensures { result.now ≡ leaf_of self.now }
    {
        match self {
            CowLeaf::Borrowed(leaf) => leaf,
            CowLeaf::Owned(leaf) => leaf,
        }
    }

    /// The same value, lent again where it is lent. Memory for another one comes from the allocator.
    pub fn copy(&self, alloc: Global) -> Result<CowLeaf<'t>, NoMemory>
        ensures { IfOk result (λ copy. leaf_of copy ≡ leaf_of self.now) }
    {
        match self {
            CowLeaf::Borrowed(leaf) => Ok(CowLeaf::Borrowed(leaf)),
            CowLeaf::Owned(leaf) => Ok(CowLeaf::Owned(leaf.copy(alloc)?)),
        }
    }

    /// The leaf, to be kept. A lent one is copied.
    pub fn into_leaf(self, alloc: Global) -> Result<Leaf, NoMemory>
        ensures { IfOk result (λ leaf. leaf ≡ leaf_of self.entry) }
    {
        match self {
            CowLeaf::Borrowed(leaf) => leaf.copy(alloc),
            CowLeaf::Owned(leaf) => Ok(leaf),
        }
    }
}

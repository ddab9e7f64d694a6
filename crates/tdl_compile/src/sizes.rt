//! What is kept of the bounds of trees, what they are asked for, and what they then meet.
ghost use Rattle.std.specs.Prelude.{◌<◌};

/// How many times as fine, and as far, the times are at most that are met in a tree, as those that it is asked for. What is
/// far is counted with one cycle more. Each stands at the greatest word where it is greater.
#[derive(Clone, Copy)]
pub(crate) struct Growth {
    pub finer: u64,
    pub further: u64,
}

/// Of a row's tree: at most how many events a cycle has, how many visits it asks for, by how many cycles a whole hangs
/// over its cycle, and on the multiples of one over which grid times are. Each stands at the greatest of its type where it
/// is greater. A hang has two words, since the load of a join is worked out from it, and a rate makes it smaller.
#[derive(Clone, Copy)]
pub(crate) struct RowBounds {
    pub count: u64,
    pub load: u64,
    pub hang: u128,
    pub grid: u64,
    pub growth: Growth,
    ghost has_grid: { 0 < grid },
}

/// The same of several trees. Of counts there is the sum, and the greatest.
#[derive(Clone, Copy)]
pub(crate) struct Group {
    pub counts: u64,
    pub most: u64,
    pub loads: u64,
    pub hangs: u128,
    pub grids: u64,
    pub growth: Growth,
    ghost has_grids: { 0 < grids },
}

/// What a tree is asked for: arcs on the multiples of one over this, of sizes up to so far.
#[derive(Clone, Copy)]
pub(crate) struct Asked {
    pub grid: u64,
    pub far: u64,
    ghost has_grid: { 0 < grid },
}

/// Of a tree that is asked so, how fine the times are that are met in it, and how far they reach.
#[derive(Clone, Copy)]
pub(crate) struct Extent {
    pub fine: u64,
    pub reach: u64,
}

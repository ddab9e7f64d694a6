use tdl_control::MapOp;

/// Which side of a join gives the wholes.
#[derive(Clone, Copy, Debug, PartialEq, Eq)]
pub enum Side {
    Left,
    Right,
    Both,
}

/// How the values of a join's sides give one.
#[derive(Clone, Copy, PartialEq, Eq)]
pub enum Op {
    /// Controls of both, joined by the operation.
    Controls(MapOp),
    /// The right value where the left one is true.
    Struct,
    /// The left value where the right one is true.
    Mask,
}

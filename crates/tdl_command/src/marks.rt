// The operators of expressions.
use tdl_control::MapOp;
use tdl_expr::Side;

/// Whether a pattern comes earlier, `<~`, or later, `~>`.
#[derive(Clone, Copy, Debug, PartialEq, Eq)]
pub enum Way {
    Earlier,
    Later,
}

/// An operator that joins two patterns: which of them gives the wholes, and how their controls are joined.
#[derive(Clone, Copy, PartialEq, Eq)]
pub struct Operator {
    pub side: Side,
    pub op: MapOp,
}

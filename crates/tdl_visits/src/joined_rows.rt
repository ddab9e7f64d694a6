ghost use Rattle.std.specs.Prelude.{◌≡◌};
ghost use Rattle.tdl_visits.specs.Sides.{giver_of, other_of};

use tdl_expr::{NodeId, Op, Side};

/// Two rows that are joined, the side that gives the wholes, and what is made of their values.
#[derive(Clone, Copy)]
pub struct JoinedRows {
    pub side: Side,
    pub op: Op,
    pub left: NodeId,
    pub right: NodeId,
}

impl JoinedRows {
    /// The row that gives the wholes; of two, the left one.
    pub fn giver(&self) -> NodeId
        ensures { result ≡ giver_of self.now }
    {
        match self.side {
            Side::Right => self.right,
            _ => self.left,
        }
    }

    /// The row beside it.
    pub fn other(&self) -> NodeId
        ensures { result ≡ other_of self.now }
    {
        match self.side {
            Side::Right => self.left,
            _ => self.right,
        }
    }
}

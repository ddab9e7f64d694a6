ghost use Rattle.std.specs.Prelude.{◌≡◌};
ghost use Rattle.tdl_expr.specs.Rows.{links_of, HasCounts};

use crate::ids::{Ids, NodeId};
use crate::joinings::{Op, Side};
use crate::rounds::Test;
use crate::steps::StepList;
use tdl_control::Leaf;
use tdl_fraction::Frac;

/// A pattern whose parts are rows of a table. In brackets stand the functions of TidalCycles that
/// make such patterns.
#[derive(Drop)]
pub enum Node {
    /// No events (`silence`).
    Silence,
    /// One event in each cycle, with this value (`pure`).
    Pure {
        leaf: Leaf,
    },
    /// The child, `rate` times as fast (`fast`).
    Fast {
        rate: Frac,
        child: NodeId,
    },
    /// The steps one after another in each cycle, with shares as their weights (`timecat`).
    TimeCat {
        steps: StepList,
    },
    /// A cycle of each child in turn (`slowcat`).
    Cat {
        children: Ids,
    },
    /// The children at the same time (`stack`).
    Stack {
        children: Ids,
    },
    /// The child with each cycle turned round (`rev`).
    Rev {
        child: NodeId,
    },
    /// For each event of the selector, whose value is an index, the child of that index in the event's
    /// time.
    Pick {
        selector: NodeId,
        children: Ids,
    },
    /// A cycle of `yes` where the cycles that have passed in the round, of `modulus` cycles, meet the
    /// test, and a cycle of `no` elsewhere (`every`, `whenmod`).
    When {
        modulus: u32,
        test: Test,
        yes: NodeId,
        no: NodeId,
    },
    /// The child, later by some time, or earlier where that is below 0 (`rotR`, `rotL`, `~>`, `<~`).
    Shift {
        by: Frac,
        child: NodeId,
    },
    /// For each event of one side those of the other at the same time, with one value of the two (`#`,
    /// `|+`, `+|`, `|+|`, `struct`, `mask`).
    Join {
        side: Side,
        op: Op,
        left: NodeId,
        right: NodeId,
    },
    /// The child with each event cut into so many, one after another (`ply`).
    Ply {
        times: u32,
        child: NodeId,
    },
    /// The events of the child that start within a part of their cycle, or the others (`within`).
    Gate {
        from: Frac,
        to: Frac,
        inside: bool,
        child: NodeId,
    },
}

impl Node {
    // How often the node names a child.
    pub(crate) fn links(&self) -> u32
        requires { HasCounts self.now }
        ensures { result ≡ links_of self.now }
    {
        match self {
            Node::Silence | Node::Pure { .. } => 0,
            Node::Fast { .. } | Node::Rev { .. } | Node::Shift { .. } => 1,
            Node::Ply { .. } | Node::Gate { .. } => 1,
            Node::When { .. } | Node::Join { .. } => 2,
            Node::TimeCat { steps } => steps.len() as u32,
            Node::Cat { children } | Node::Stack { children } => children.len() as u32,
            Node::Pick { children, .. } => children.len() as u32 + 1,
        }
    }
}

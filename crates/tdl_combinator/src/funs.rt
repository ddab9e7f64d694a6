use tdl_control::MapOp;
use tdl_expr::{Arg, NodeId, Side};
use tdl_fraction::Frac;

/// A function on patterns. In brackets stand the functions of TidalCycles that it is.
#[derive(Drop)]
pub enum Fun {
    /// The pattern itself (`id`).
    Same,
    /// So many times as fast (`fast`).
    Fast(Arg),
    /// So many times as slow (`slow`).
    Slow(Arg),
    /// Each cycle turned round (`rev`).
    Rev,
    /// A function in the first of so many cycles (`every`).
    Every {
        n: Arg,
        then: Box<Fun>,
    },
    /// A function in one of so many cycles (`every'`).
    EveryAt {
        n: Arg,
        place: Arg,
        then: Box<Fun>,
    },
    /// A function in the last of so many cycles, from one of them on (`whenmod`).
    WhenMod {
        a: Arg,
        b: Arg,
        then: Box<Fun>,
    },
    /// The pattern, and a function of it that comes later by some time (`off`).
    Off {
        by: Arg,
        then: Box<Fun>,
    },
    /// The pattern, and a function of it (`superimpose`).
    Superimpose {
        then: Box<Fun>,
    },
    /// The pattern on the left side, and a function of it on the right one (`jux`).
    Jux {
        then: Box<Fun>,
    },
    /// Later by some time (`rotR`, `~>`).
    Later(Arg),
    /// Earlier by some time (`rotL`, `<~`).
    Earlier(Arg),
    /// Each event so many times (`ply`).
    Ply(Arg),
    /// The values at so many times of each cycle (`segment`).
    Segment(Arg),
    /// The values where another pattern is true (`struct`).
    Struct {
        bools: NodeId,
    },
    /// The events where another pattern is true (`mask`).
    Mask {
        bools: NodeId,
    },
    /// A function of the events that start in a part of their cycle (`within`).
    Within {
        from: Frac,
        to: Frac,
        then: Box<Fun>,
    },
    /// Earlier by one more of so many shares in each cycle (`iter`).
    Iter(Arg),
    /// Each other cycle turned round (`palindrome`).
    Palindrome,
    /// Each other cycle squeezed into half, a quarter later (`brak`).
    Brak,
    /// The pattern at the hits of a rhythm: of so many hits, in so many steps, from a step on (`euclid`).
    Euclid {
        k: Arg,
        n: Arg,
        r: Arg,
    },
    /// Another pattern (`const`).
    Const(NodeId),
    /// The controls joined with those of another pattern (`# e`, `|+ e`).
    Section {
        side: Side,
        op: MapOp,
        right: NodeId,
    },
    /// A function after another (`next . first`).
    Chain {
        first: Box<Fun>,
        next: Box<Fun>,
    },
}

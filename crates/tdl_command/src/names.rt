// The names of orders and functions.

/// A line that is one name.
#[derive(Clone, Copy, Debug, PartialEq, Eq)]
pub enum Order {
    Look,
    Hush,
    UnmuteAll,
    UnsoloAll,
}

/// A line that sets or takes a flag of one orbit.
#[derive(Clone, Copy, Debug, PartialEq, Eq)]
pub enum Flag {
    Mute,
    Unmute,
    Solo,
    Unsolo,
}

/// How a list of patterns is played: together, in turn cycle by cycle, or all in one cycle.
#[derive(Clone, Copy, Debug, PartialEq, Eq)]
pub enum Shape {
    Stack,
    Cat,
    Fastcat,
}

/// A function without arguments: `id`, `rev`, `palindrome`, `brak`.
#[derive(Clone, Copy, Debug, PartialEq, Eq)]
pub enum BareFun {
    Same,
    Rev,
    Palindrome,
    Brak,
}

/// A function of a ratio: `fast`, `slow`, `rotL`, `rotR`.
#[derive(Clone, Copy, Debug, PartialEq, Eq)]
pub enum RatioFun {
    Fast,
    Slow,
    Earlier,
    Later,
}

/// A function of a count.
#[derive(Clone, Copy, Debug, PartialEq, Eq)]
pub enum CountFun {
    Ply,
    Segment,
    Iter,
}

/// A function of truth values.
#[derive(Clone, Copy, Debug, PartialEq, Eq)]
pub enum BoolsFun {
    Struct,
    Mask,
}

/// A function that plays a pattern beside a function of it.
#[derive(Clone, Copy, Debug, PartialEq, Eq)]
pub enum LayerFun {
    Superimpose,
    Jux,
}

/// A function of two counts that applies a function in some cycles: `every'`, `whenmod`.
#[derive(Clone, Copy, Debug, PartialEq, Eq)]
pub enum CycleFun {
    EveryAt,
    WhenMod,
}

// The names of lines.
use tdl_command::{BareFun, BoolsFun, CountFun, CycleFun, Flag, LayerFun, Order, RatioFun, Shape};
use tdl_control::Key;

/// What a name in a line means.
#[derive(Clone, Copy, PartialEq, Eq)]
pub enum Name {
    Order(Order),
    Flag(Flag),
    JumpMod,
    /// `d` and a number; none where that is no orbit.
    Orbit(Option<u8>),
    Silence,
    Key(Key),
    List(Shape),
    Timecat,
    Bare(BareFun),
    OfRatio(RatioFun),
    OfCount(CountFun),
    OfBools(BoolsFun),
    Layer(LayerFun),
    Every,
    Cycle(CycleFun),
    Off,
    Within,
    Euclid,
    EuclidOff,
    Const,
    /// A function that chooses at random.
    Random,
    /// No name of the grammar.
    Unknown,
}

use crate::ids::NodeId;
use tdl_control::List;
use tdl_fraction::Frac;

/// Numbers, in order.
pub type Fracs = List<Frac>;

/// An argument of a function on patterns: a number, or a pattern of indices with the numbers that they
/// choose among.
#[derive(Drop)]
pub enum Arg {
    Plain(Frac),
    Chosen { selector: NodeId, values: Fracs },
}

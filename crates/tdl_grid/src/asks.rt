use crate::spans::Span;
use tdl_meaning::Cycle;

/// What a visit asks for: a span of one cycle, in counts of a unit.
#[derive(Clone, Copy)]
pub(crate) struct CountAsk {
    pub(crate) cycle: Cycle,
    pub(crate) unit: u128,
    pub(crate) arc: Span,
}

/// The unit in which the other side of a join is asked, and how many times as fine the unit of the wholes is.
#[derive(Clone, Copy)]
pub(crate) struct JoinUnit {
    pub(crate) unit: u128,
    pub(crate) times: u128,
}

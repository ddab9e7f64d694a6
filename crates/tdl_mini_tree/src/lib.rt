//! The syntax trees of mini-notation, with the rules on their numbers, sizes, nesting and Euclids. They know of no text.
#![tactic(auto)]

mod extremes;
mod faults;
mod laws;
mod leaves;
mod limits;
mod numbers;
mod played;
mod sizes;
mod tree;

pub use extremes::Extremes;
pub use faults::MiniKind;
pub use laws::counts_are_ratios;
pub use leaves::{Bracket, Kind, Number, Tail, Value};
pub use limits::{MAX_DEPTH, MAX_GROUPS, UNIT};
pub use numbers::{is_count, is_ratio, is_weight};
pub use played::extremes_of;
pub use sizes::{Size, times_of, weight_of};
pub use tree::{
    Element, Group, Last, Layers, MiniStep, NestId, Operand, Sequence, StepChange, Term, Tree,
};

//! Queries on whole-number grids: times as counts of a unit, which is a whole part of a cycle. What moves
//! an event adds a count to its counts, or leaves them as they are in another unit, so that no fraction is
//! worked out on the way.
#![tactic(auto)]

mod asks;
mod conversions;
mod counts;
mod evaluator;
mod events;
mod gates;
mod items;
mod joins;
mod laws;
mod leaf_joins;
mod leaves;
mod moves;
mod passed;
mod plies;
mod queries;
mod spans;
mod steps;
mod values;

pub use counts::{count_from, count_of, count_turned};
pub use events::{add_events, add_onsets};
pub use items::{Item, Items};
pub use joins::{add_joined, add_with_each};
pub use laws::{counts_move_as_times, units_keep_to_grids};
pub use leaves::add_leaf;
pub use plies::add_plied;
pub use queries::GridProgram;
pub use spans::Span;
pub use steps::Step;
pub use values::CowLeaf;

//! What a node asks of its children, what a visit adds, and how many visits there are: what evaluators stand on.
#![tactic(auto)]

mod joined_rows;
mod rounds;

pub use joined_rows::JoinedRows;
pub use rounds::{ChosenChild, one_of};

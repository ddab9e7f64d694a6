//! The node tables that texts of mini-notation become: `lower` and `lower_arg` make rows of syntax trees.
#![tactic(auto)]

mod brackets;
mod joins;
mod laws;
mod leaves;
mod lowering;
mod numbers;
mod paces;
mod plain;
mod play;
mod sizes;
mod steps;
mod texts;
mod values;

pub use laws::arguments_stay;
pub use texts::{lower, lower_arg};

//! Performers' expressions as programs: the rows of an expression, and whether they can be played.
#![tactic(auto)]

mod arguments;
mod expressions;
mod faults;
mod functions;
mod leaves;
mod lists;
mod nested;
mod numbers;
mod prepared;
mod programs;

pub use faults::PrepareFault;
pub use prepared::{Prepared, prepare, prepare_pattern};

//! A ticket lock round a value that keeps a history.
//!
//! Whoever holds a seat waits for its turn, takes the value, and gives it back with at most one entry more.
//! A seat knows how much of the history it has seen, so contracts speak of seats and never of the value in the lock.
#![tactic(auto)]

mod chronicle;
mod door;
mod moves;
mod plays;
mod turn;
mod view;

pub use chronicle::Chronicle;
pub use turn::{Seat, Turn};

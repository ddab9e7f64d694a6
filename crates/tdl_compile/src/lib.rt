//! A table's row as a program: its tree may be played, since its load, fineness and reach are within limits.
#![tactic(auto)]

mod asks;
mod extents;
mod faults;
mod growths;
mod kinds;
mod numbers;
mod programs;
mod rows;
mod sizes;

pub use faults::CompileFault;
pub use programs::{Program, compile};

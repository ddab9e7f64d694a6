//! Performers play together, each on a connection of their own, while the clock runs: the loop over each port beside the
//! ticks of the beats, and the one history that they come to.
#![tactic(auto)]

mod endings;
mod lengths;
mod ports;
mod runs;
mod ticker;

pub use ports::Ports;
pub use runs::{Served, serve};
pub use tdl_beats::{BeatEnd, beat};
pub use tdl_perform::{Port, perform};

//! The script of a drill: lines of performers and ticks that are drawn from a number, one after another, and then the
//! finish. The same number draws the same lines.
#![tactic(auto)]

mod draws;
mod laws;
mod lines;

pub use draws::DrillLines;
pub use laws::the_finish_is_the_last_line;
pub use lines::DrillLine;

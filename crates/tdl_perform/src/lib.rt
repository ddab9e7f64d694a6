//! What a performer says on a connection of their own, answered line by line beside what others do.
#![tactic(auto)]

mod laws;
mod lines;
mod performing;
mod ports;

pub use laws::{ports_stay, served_lines_have_their_entries};
pub use performing::perform;
pub use ports::Port;

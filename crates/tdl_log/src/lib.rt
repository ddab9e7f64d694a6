//! The log of a run: its tempo, what was accepted and how each port ended, as one text that determines all of them.
#![tactic(auto)]

mod cuts;
mod deeds;
mod ends;
mod forms;
mod fronts;
mod heads;
mod kinds;
mod laws;
mod lines;
mod logs;
mod pages;
mod read_lines;
mod reading;
mod sheets;
mod times;
mod walks;

pub use ends::{Ends, PortEnd};
pub use kinds::LogKind;
pub use laws::{logs_are_read_back, logs_tell_their_sheets};
pub use logs::put_log;
pub use reading::read_log;
pub use sheets::Sheet;

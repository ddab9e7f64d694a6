//! A machine behind a lock, and the passes of those who call it.
//!
//! Whoever holds a pass makes calls of the machine, one at a time, beside others. Contracts speak of what a pass has
//! seen of the one history of calls, and of what its holder was told.
#![tactic(auto)]

mod beside;
mod callers;
mod gatherings;
mod hall;
mod machine;
mod meetings;
mod pass;
mod spots;
mod told;

pub use callers::two_callers;
pub use gatherings::{Gathered, gather};
pub use hall::{Caller, Hall, Leader};
pub use machine::Machine;
pub use pass::{Pass, Shared};
pub use told::{entries_tell_of_calls, records_follow_their_passes, tell};

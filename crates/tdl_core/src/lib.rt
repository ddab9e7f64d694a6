//! The core machine: what is accepted, in order, and what it is answered. A performer's call changes what is played, from
//! the boundary on that its line asks for, or looks at it; a tick plays up to a time and answers the packets of the onsets
//! and the notes on its way, and the finish ends the notes that sound.
#![tactic(auto)]

mod calls;
mod laws;
mod lines;
mod looks;
mod machine;
mod passes;
mod pieces;
mod replies;
mod sessions;
mod tallies;

pub use calls::Call;
pub use laws::{no_tick_is_refused_late, replies_carry_what_is_sent};
pub use lines::Lines;
pub use machine::{Core, boundary};
pub use passes::{looks_are_fresh, replies_are_sent, tickers_go_on};
pub use replies::{Notes, Refusal, Reply, ReplyLine};
pub use sessions::two_performers;
pub use tdl_score::{Deed, Entry, History};

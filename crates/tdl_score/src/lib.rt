//! What was accepted of performers and ticks, in order, and what it plays: the changes that a history makes, the
//! rows of each cycle, and the packets and notes of the rows from one time up to another.
#![tactic(auto)]

mod due;
mod histories;
mod known;
mod laws;
mod onsets;
mod readers;

pub use due::{Due, due_between};
pub use histories::{Deed, Entry, History};
pub use known::Known;
pub use laws::{
    cuts_do_not_matter, finishes_end_all_notes, histories_grow, histories_have_one_list_of_changes,
    last_plays_send_last, later_boundaries_are_ahead, past_is_fixed, programs_are_seen_as_trees,
    rows_are_of_their_cycle,
};
pub use readers::{Reader, TextReader};

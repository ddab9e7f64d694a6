//! Ends of notes that wait for their times.
#![tactic(auto)]

mod agenda;
mod chains;
mod items;

pub use agenda::Agenda;
pub use items::Item;

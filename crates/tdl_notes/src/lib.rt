//! The notes of a score, and their messages as time goes on.
#![tactic(auto)]

mod ends;
mod laws;
mod sounding;
mod tones;

pub use laws::{cuts_do_not_matter_to_notes, every_note_on_has_its_note_off};
pub use sounding::{Messages, Sounding};
pub use tones::Tone;

//! The words after the program's name, read by their grammar: the mode that they ask for, and what it
//! takes.
//!
//! The first word is the mode. Of the others, one that begins with `-` and is longer than that is an
//! option, written `--name value` or `--name=value`, at most once; after the word `--` every word is
//! positional. A value written apart does not begin with `-`.
#![tactic(auto)]

mod commands;
mod faults;
mod laws;
mod modes;
mod numbers;

pub use faults::WordsFault;
pub use laws::{drill_words_are_in_bounds, serve_words_are_in_bounds, words_ask_for_one_thing};
pub use modes::{
    DrillWords, ModeWords, PlayWords, QueryWords, ServeWords, cps_of, mode_words, ports_of,
    usual_tempo,
};

//! A small machine for sessions: a list of numbers, each by a caller. Tests and measurements call it.
#![tactic(auto)]

mod tape;

pub use tape::{Entry, Refusal, Tape};

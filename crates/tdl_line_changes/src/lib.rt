//! The changes that the texts of performers' lines make: a text reads as one change, or as a look.
#![tactic(auto)]

mod laws;

pub use laws::{prepared_lines_are_read, texts_read_as_one_swap};

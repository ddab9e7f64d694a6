//! The reader of lines: the bytes of a source come in pieces of any size, and its lines go out one
//! at a time. Bytes past the first 2^24 do not count.
#![tactic(auto)]

mod chunk;
mod faults;
mod laws;
mod reader;

pub use faults::ReadFault;
pub use laws::{given_lines_are_the_first, lines_join_to_what_was_taken};
pub use reader::{LineReader, Next};

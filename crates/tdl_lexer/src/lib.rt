//! The tokens of mini-notation, and those of performers' lines.
#![tactic(auto)]

mod bytes;
mod lexemes;
mod line;
mod marks;
mod mini;
mod numbers;
mod readers;
mod signs;

pub use readers::{texts_are_cut_in_one_way, texts_are_cut_or_faulty, tokens};
pub use signs::{LexKind, Mode, Sign, Token, Tokens};

//! A reader of the tokens of mini-notation, token by token: the machine as code. It knows of no text.
#![tactic(auto)]

mod levels;
mod nests;
mod notes;
mod numbers;
mod reader;
mod stages;
mod takes;
mod tokens;
mod values;

pub use reader::MiniTokenReader;
pub use stages::{Role, Stage};
pub use tokens::Tok;

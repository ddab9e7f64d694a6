//! A reader of the tokens of performers' lines, token by token. It knows of no bytes; a quoted text is whatever can be read
//! in a kind (`Quoted`).
#![tactic(auto)]

mod calls;
mod faults;
mod reader;
mod stages;
mod takes;
mod tokens;

pub use faults::{Fault, Place};
pub use reader::LineTokenReader;
pub use stages::{Spot, Stage};
pub use tokens::{Quoted, Tok};

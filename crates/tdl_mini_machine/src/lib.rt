//! A machine of the tokens of mini-notation: the tokens as it sees them, the rules that it tests, and what it keeps. It
//! knows of no trees but those that it makes, and of no texts.
//!
//! What other crates take from this one are its definitions and the lemmas in `proofs/`. It has no code but marks.
#![tactic(auto)]

mod marks;

pub use marks::Mark;

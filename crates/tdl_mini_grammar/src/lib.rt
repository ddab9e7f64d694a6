//! The grammar of mini-notation: the terminals of its trees, the rules on them in the order in which a text is read,
//! first faults, and which texts have which tree.
//!
//! What other crates take from this one are its definitions and the lemmas in `proofs/`: that a machine of tokens finds the
//! tree or the first fault of a text. Its functions run nothing, and have for their contracts what the definitions say.
#![tactic(auto)]

mod laws;

pub use laws::{each_text_is_read, texts_are_read_in_one_way};

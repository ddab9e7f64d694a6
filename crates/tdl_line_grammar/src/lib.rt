//! The grammar of performers' lines: the terminals of their trees, the rules on them in the order in which a
//! line is read, and first faults. It knows of no bytes.
//!
//! What other crates take from this one are its definitions and the lemmas in `proofs/`: that the machine of tokens finds
//! the tree or the first fault of a line.
#![tactic(auto)]

mod laws;

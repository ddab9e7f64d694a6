//! Texts of any grammar: bytes that are cut into tokens, which the grammar reads.
//!
//! What other crates take from this one are its definitions and the lemmas in `proofs/`.
#![tactic(auto)]

//! Rows of definitions: what the definitions of the libraries below say of worked cases, each by computing alone.
//! They stand apart from those libraries, so that a further row proves none of them again.
//!
//! There is no code here. What is worked out elsewhere stands beside each row in `proofs/`.
#![tactic(auto)]

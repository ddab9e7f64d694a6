//! The machine of performers' lines: their tokens, and what a reader that takes them one by one keeps, does with each, and
//! answers where it stops. It knows of no bytes, and not what texts the grammar has.
//!
//! What other crates take from this one are its definitions, the types that they name, and the lemmas in `proofs/`.
#![tactic(auto)]

mod calls;
mod faults;
mod goals;
mod marks;
mod names;

pub use calls::RatioCall;
pub use faults::LineKind;
pub use goals::Goal;
pub use marks::Mark;
pub use names::Name;

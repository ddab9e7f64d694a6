//! Euclidean rhythms: hits spread over steps as evenly as whole steps allow.
#![tactic(auto)]

mod bits;
mod grouping;
mod rhythms;

pub use bits::Bits;
pub use grouping::grouping_ends;
pub use rhythms::{EuclidFault, rhythm};

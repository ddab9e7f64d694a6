//! The desk of an ensemble: what performers change, and what plays then.
#![tactic(auto)]

mod changes;
mod desk;
mod fields;
mod orbits;
mod pending;
mod places;

pub use changes::{Change, Dated};
pub use desk::Desk;

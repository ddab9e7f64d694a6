//! Rows of a node table for trees that are made of others: at a rate, joined, chosen, at the hits of a rhythm.
#![tactic(auto)]

mod changes;
mod choices;
mod fractions;
mod joins;
mod nests;
mod rates;
mod rhythms;

pub use changes::{AtHits, Faster, Slower};
pub use choices::{ByNumber, choose, pick_of};
pub use fractions::{fraction, inverse, negative};
pub use joins::{cat_of, fastcat_of, stack_of};
pub use nests::{ByNumbers, choose_among};
pub use rates::{fast_of, slow_of};
pub use rhythms::euclid_of;

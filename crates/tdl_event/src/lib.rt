//! Events: the values that a pattern has in arcs of time, and the rows that are played of them.
#![tactic(auto)]

mod events;
mod printing;
mod rows;

pub use events::{Event, Events};
pub use printing::LinePrinter;
pub use rows::Row;

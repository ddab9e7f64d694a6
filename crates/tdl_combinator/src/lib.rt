//! Functions on patterns, as rows of a node table.
#![tactic(auto)]

mod applying;
mod by_cycle;
mod by_number;
mod counts;
mod funs;
mod in_time;
mod laws;
mod of_events;
mod rows;

pub use applying::apply;
pub use by_cycle::Round;
pub use funs::Fun;
pub use laws::functions_keep_their_laws;
pub use tdl_expr::{cat, fastcat, join, stack, timecat};

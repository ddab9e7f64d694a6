//! Rational time: exact fractions within a range, and arcs between two of them.
#![tactic(auto)]

mod arc;
mod digits;
mod divisor;
mod fraction;
mod text;
mod units;

pub use arc::TimeArc;
pub use digits::Digits;
pub use divisor::greatest_divisor_of_words;
pub use fraction::Frac;
pub use units::{LAST_CYCLE, LAST_UNITS, TICK_UNITS, print_units, time_of, units_of};

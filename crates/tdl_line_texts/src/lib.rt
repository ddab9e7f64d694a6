//! The texts of performers' lines: what the bytes of names and marks mean, which texts are lines and patterns, and the laws
//! of them.
#![tactic(auto)]

mod laws;
mod limits;
mod marks;
mod words;

pub use laws::{
    each_line_is_read, jumps_are_in_range, lines_are_read_in_one_way, lines_have_no_line_feed,
    outer_blanks_say_nothing,
};
pub use limits::MAX_LINE;
pub use marks::mark_of;
pub use words::name_of;

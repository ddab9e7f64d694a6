//! Performers' lines: the readers of lines and of patterns alone, what they are prepared to, and the laws of their texts.
#![tactic(auto)]

mod lines;
mod quoted;
mod tokens;

pub use lines::{read_line, read_pattern};
pub use tdl_command::{Line, Pattern};
pub use tdl_line_changes::{prepared_lines_are_read, texts_read_as_one_swap};
pub use tdl_line_machine::LineKind;
pub use tdl_line_texts::{
    each_line_is_read, jumps_are_in_range, lines_are_read_in_one_way, lines_have_no_line_feed,
    outer_blanks_say_nothing,
};
pub use tdl_prepare::{PrepareFault, Prepared, prepare, prepare_pattern};

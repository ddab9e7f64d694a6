//! Mini-notation: the reader of its texts, the rows that its trees become, and the laws of what texts mean.
#![tactic(auto)]

mod laws;
mod texts;
mod tokens;

pub use laws::{
    a_hold_doubles, a_repeat_is_the_step_again, angles_take_turns, flat_texts_have_flat_trees,
    steps_share_the_cycle,
};
pub use tdl_mini_rows::{lower, lower_arg};
pub use tdl_mini_tree::{Kind, MiniKind, Tree};
pub use texts::read_mini;
pub use tokens::number_of;

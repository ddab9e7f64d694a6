//! What a performer's line asks for: the syntax trees of lines and of expressions.
#![tactic(auto)]

mod marks;
mod names;
mod read;
mod tree;

pub use marks::{Operator, Way};
pub use names::{BareFun, BoolsFun, CountFun, CycleFun, Flag, LayerFun, Order, RatioFun, Shape};
pub use read::{Line, Pattern, Source};
pub use tree::{Command, Count, Expr, Fun, Part, Plain, Ratio, Setting, Whole};

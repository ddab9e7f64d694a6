//! Patterns as node tables: each row is a node whose children are earlier rows, and stands for a tree.
#![tactic(auto)]

mod args;
mod ids;
mod joinings;
mod joins;
mod nodes;
mod rounds;
mod steps;
mod tables;
mod weights;

pub use args::{Arg, Fracs};
pub use ids::{Ids, NodeId};
pub use joinings::{Op, Side};
pub use joins::{cat, fastcat, join, stack, timecat, timecat_of_counts, whole_weights_laws};
pub use nodes::Node;
pub use rounds::Test;
pub use steps::{Step, StepList};
pub use tables::{PushFault, Table};

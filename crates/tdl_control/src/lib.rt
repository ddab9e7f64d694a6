//! Control values: keys, words, maps from keys to values, and the texts and faults of every crate.
#![tactic(auto)]

mod faults;
mod keys;
mod leaves;
mod limits;
mod lists;
mod maps;
mod ops;
mod texts;
mod values;
mod words;

pub use faults::{Faulted, NoMemory};
pub use keys::{KEY_COUNT, Key};
pub use leaves::Leaf;
pub use limits::{MAX_DECIMALS, MAX_DENOMINATOR, MAX_EVERY, MAX_ORBIT, MAX_WHOLE, MAX_WORD};
pub use lists::List;
pub use maps::{Map, MapKind};
pub use ops::MapOp;
pub use texts::Text;
pub use values::Value;
pub use words::Word;

//! The packets that go to the sound engine, bundles of OSC 1.0, one for each row; and the reading of bundles.
#![tactic(auto)]

mod bundles;
mod encoding;
mod faults;
mod packets;
mod reading;

pub use bundles::{packet, rows_are_bundles};
pub use faults::{BundleFault, OscKind};
pub use packets::{Packet, Packets};
pub use reading::{Arg, Args, Message, Messages, OscBundle, check_bundle, read};

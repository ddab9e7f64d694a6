//! The outside of the program: what a source, a sink, a wire and a clock promise, and devices that
//! keep it.
//!
//! A device tells what it holds, sent or has left where that can be known, and a contract speaks
//! of it then. A device counts its faults. The count never falls, and a call fails only where it
//! rose in that call, or stands at its last value. A wire over a sink is closed by its first fault.
#![tactic(auto)]

pub use absent::Absent;
pub use choice::{AnyClock, AnySink, AnySource, AnyWire};
pub use count::{CountSink, CountWire};
pub use framed::{Framed, frames_tell_packets};
pub use memory::{MemClock, MemSink, MemSource, MemWire};
pub use outside::{Clock, Failed, Sink, Source, Talk, Wire};
pub use plain::Plain;
pub use sleep::SleepClock;
pub use standard::{StdSink, StdSource};
pub use udp::UdpWire;

mod absent;
mod choice;
mod count;
mod framed;
mod memory;
mod outside;
mod patient;
mod plain;
mod sleep;
mod speed;
mod standard;
mod udp;

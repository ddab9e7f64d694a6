//! Devices in memory. A sink, a source and a wire count their calls, and fail at those that were listed
//! when they were made.

pub use clock::MemClock;
pub use sink::MemSink;
pub use source::MemSource;
pub use wire::MemWire;

mod calls;
mod clock;
mod sink;
mod source;
mod wire;

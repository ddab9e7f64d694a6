// Devices in memory, one call of which fails, and what they have in common.
ghost use Rattle.std.specs.Prelude.{◌≤◌};

use std::alloc::Global;
use tdl_control::NoMemory;
use tdl_io::{MemSink, MemSource, MemWire};

// A device of a run. Ports are counted from 0.
#[derive(Clone, Copy, PartialEq, Eq)]
pub(crate) enum Device {
    Input,
    Out,
    Log,
    Osc,
    Midi,
    Source(usize),
    Sink(usize),
}

// The call of a device that fails, counted from 1.
#[derive(Clone, Copy)]
pub(crate) struct Fault {
    pub(crate) device: Device,
    pub(crate) call: u32,
}

impl Fault {
    // The call of this device that fails, or 0, which is none.
    fn of(self, device: Device) -> u32 {
        if self.device == device { self.call } else { 0 }
    }

    // A source that gives so many bytes at a time.
    pub(crate) fn source(
        self,
        alloc: Global,
        device: Device,
        given: &str,
        most: u32,
    ) -> Result<MemSource, NoMemory>
        requires { 1 ≤ most }
    {
        MemSource::pieces(alloc, given.as_bytes(), most, &[self.of(device)])
    }

    pub(crate) fn sink(self, alloc: Global, device: Device) -> Result<MemSink, NoMemory> {
        MemSink::of(alloc, 5_000, &[self.of(device)])
    }

    pub(crate) fn wire(self, alloc: Global, device: Device) -> Result<MemWire, NoMemory> {
        MemWire::of(alloc, 100, 10_000, &[self.of(device)])
    }
}

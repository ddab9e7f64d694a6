//! A sink and a wire that keep only how much they took.
ghost use Rattle.std.specs.Prelude.{◌≡◌, ℕ, ◌+◌, min, length, None, IsOk};
ghost use Rattle.tdl_io.specs.Count.{bytes_counted, packets_counted};
ghost use Rattle.tdl_io.specs.Faults.{last_count, one_more};

use crate::outside::{Failed, Sink, Wire};

/// A sink that keeps only how many bytes it took. It never fails, and tells nothing of what they were.
#[derive(Clone, Copy, Debug, PartialEq, Eq)]
pub struct CountSink {
    bytes: u64,
}

impl CountSink {
    /// A sink that took nothing.
    pub fn new() -> CountSink
        ensures { bytes_counted result ≡ 0 }
    {
        CountSink { bytes: 0 }
    }

    /// How many bytes it took. The count stays at the last value of a `u64`.
    pub fn bytes(&self) -> u64
        ensures { result ≡ bytes_counted self.now }
    {
        self.bytes
    }
}

impl Sink for CountSink {
    ghost held = { λ _. None };

    ghost faults = { λ _. 0 };

    ghost took = { λ s piece t. bytes_counted t ≡ min (bytes_counted s + length piece) last_count };

    ghost broke = { λ _ _ _. ⊥ };

    fn put(&mut self, piece: &[u8]) -> Result<(), Failed>
        ensures never { IsOk result }
        ensures counted { bytes_counted self.new ≡ min (bytes_counted self.old + length piece.now) last_count }
    {
        self.bytes = self.bytes.saturating_add(piece.len() as u64);
        Ok(())
    }
}

/// A wire that keeps only how many packets it took. It never fails, and tells nothing of what they were.
#[derive(Clone, Copy, Debug, PartialEq, Eq)]
pub struct CountWire {
    packets: u64,
}

impl CountWire {
    /// A wire that took nothing.
    pub fn new() -> CountWire
        ensures { packets_counted result ≡ 0 }
    {
        CountWire { packets: 0 }
    }

    /// How many packets it took. The count stays at the last value of a `u64`.
    pub fn packets(&self) -> u64
        ensures { result ≡ packets_counted self.now }
    {
        self.packets
    }
}

impl Wire for CountWire {
    ghost sent = { λ _. None };

    ghost faults = { λ _. 0 };

    fn send(&mut self, _packet: &[u8]) -> Result<(), Failed>
        ensures never { IsOk result }
        ensures counted { packets_counted self.new ≡ one_more (packets_counted self.old) }
    {
        self.packets = self.packets.saturating_add(1);
        Ok(())
    }
}

ghost use Rattle.std.specs.Prelude.{◌≡◌, ℕ, true, None, IsOk, IsNone, Ok};

use crate::outside::{Clock, Failed, Sink, Source, Wire};

/// Stands for a device that a run does not use: a source and a clock at their end, a sink and a
/// wire that drop what they are given. It tells nothing and never fails.
#[derive(Clone, Copy, Debug, PartialEq, Eq)]
pub struct Absent;

impl Source for Absent {
    ghost left = { λ _. None };

    ghost faults = { λ _. 0 };

    fn pull(&mut self, into: &mut [u8]) -> Result<usize, Failed>
        ensures nothing { result ≡ Ok 0 }
        ensures untouched { into.new ≡ into.old }
    {
        Ok(0)
    }
}

impl Sink for Absent {
    ghost held = { λ _. None };

    ghost faults = { λ _. 0 };

    ghost broke = { λ _ _ _. ⊥ };

    fn put(&mut self, _piece: &[u8]) -> Result<(), Failed>
        ensures { IsOk result }
    {
        Ok(())
    }
}

impl Wire for Absent {
    ghost sent = { λ _. None };

    ghost faults = { λ _. 0 };

    fn send(&mut self, packet: &[u8]) -> Result<(), Failed>
        ensures { IsOk result }
    {
        self.put(packet)
    }
}

impl Clock for Absent {
    ghost last = { λ _. 0 };

    ghost beats = { λ _. None };

    ghost ended = { λ _. true };

    fn beat(&mut self) -> Option<u64>
        ensures { IsNone result }
    {
        None
    }
}

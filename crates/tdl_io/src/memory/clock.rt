ghost use Rattle.std.specs.Prelude.{◌≡◌, IfOk, IsTrue};
ghost use Rattle.tdl_io.specs.Memory.{full_clock, rise_above};

use crate::outside::Clock;
use std::alloc::Global;
use std::marker::Model;
use tdl_control::NoMemory;

/// A clock in memory, which gives the beats that it was made of, and does not wait.
#[derive(Drop)]
pub struct MemClock {
    beats: Vec<u64>,
    given: usize,
    last: u64,
}

impl Model for MemClock {
    ghost use Rattle.std.specs.Prelude.{◌≤◌, drop, IsTrue, vec_len};
    ghost use Rattle.tdl_io.specs.Memory.{ClockState, rise_above};

    ghost Value = { ClockState };

    ghost view = { λ c. record { last = c.last; left = drop c.given c.beats.items } };

    ghost invariant = { λ c. record {
      given_from : c.given ≤ vec_len c.beats;
      rising : IsTrue (rise_above c.last (drop c.given c.beats.items));
    } };
}

impl MemClock {
    /// A clock that gives these beats, which rise, from above 0. It takes its memory here, and none
    /// later.
    pub fn of(alloc: Global, beats: &[u64]) -> Result<MemClock, NoMemory>
        requires { IsTrue (rise_above 0 beats.now) }
        ensures { IfOk result (λ clock. clock ≡ full_clock beats.now) }
    {
        Ok(MemClock {
            beats: Vec::from_slice(alloc, beats)?,
            given: 0,
            last: 0,
        })
    }
}

impl Clock for MemClock {
    ghost use Rattle.std.specs.Prelude.{Some, length, ◌==◌};

    ghost last = { λ c. c.last };

    ghost beats = { λ c. Some c.left };

    ghost ended = { λ c. length c.left == 0 };

    fn beat(&mut self) -> Option<u64> {
        let beat = self.beats.get(self.given).copied()?;
        self.given += 1;
        self.last = beat;
        Some(beat)
    }
}

ghost use Rattle.std.specs.Prelude.{◌≡◌, ◌≤◌, ◌*◌, pos, nat_le, Some};
ghost use Rattle.tdl_fraction.specs.Rational.{whole, ◌<ℚ◌};
ghost use Rattle.tdl_fraction.specs.Units.{last_units};
ghost use Rattle.tdl_io.specs.Sleep.{beat_units, beats_given, left_after, most_beats};

use crate::outside::Clock;
use crate::speed::Speed;
use std::rt::HostRuntime;
use std::time::Instant;
use std::{thread, time};
use tdl_fraction::{Frac, LAST_UNITS, TICK_UNITS};

// A beat comes every 1/32 cycle.
const BEAT_UNITS: u64 = TICK_UNITS / 32;

// So many beats there are up to the last cycle.
const MOST_BEATS: u64 = LAST_UNITS / BEAT_UNITS;

/// A clock that gives a beat every 1/32 cycle, up to the last cycle, each after waiting for its time.
/// Cycle 0 begins at the first call. A beat that is late is given at once and none is left out, so
/// what was missed is caught up beat by beat. That it waits is not shown.
#[derive(Drop)]
pub struct SleepClock<T = HostRuntime> {
    time: T,
    speed: Speed,
    start: Option<Instant>,
    given: u64,
}

impl<T: time::Clock> SleepClock<T> {
    /// A clock that gave no beat yet, at so many cycles a second.
    pub fn of(time: T, cps: Frac) -> SleepClock<T>
        requires { whole (pos 0) <ℚ cps }
        ensures { beats_given result ≡ 0 }
    {
        SleepClock {
            time,
            speed: Speed::of(cps),
            start: None,
            given: 0,
        }
    }

    // Waits until a beat is due. Where the time cannot be read, it waits for as long as from one beat
    // to the next.
    fn wait_for(&mut self, beat: u64)
        requires { beat ≤ last_units }
        ensures { beats_given self.new ≡ beats_given self.old }
    {
        let Ok(now) = Instant::now(&self.time) else {
            thread::sleep(&self.time, self.speed.time_of(BEAT_UNITS));
            return;
        };
        let start = self.start.unwrap_or(now);
        self.start = Some(start);
        let passed = now.duration_since(start);
        thread::sleep(&self.time, self.speed.time_of(beat).saturating_sub(passed));
    }
}

impl<T: time::Clock> Clock for SleepClock<T> {
    ghost last = { λ c. beat_units * beats_given c };

    ghost beats = { λ c. Some (left_after (beats_given c)) };

    ghost ended = { λ c. nat_le most_beats (beats_given c) };

    fn beat(&mut self) -> Option<u64> {
        if self.given >= MOST_BEATS {
            return None;
        }
        let beat = BEAT_UNITS * (self.given + 1);
        self.wait_for(beat);
        self.given += 1;
        Some(beat)
    }
}

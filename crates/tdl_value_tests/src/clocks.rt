// Clocks: in memory, and one that waits, by a time of the test's own and by the system's.
use std::cell::Cell;
use std::test::Fail;
use std::time::Duration;
use std::{io, time};
use tdl_fraction::Frac;
use tdl_io::{Absent, AnyClock, Clock, MemClock, SleepClock};

// Each clock may go to another thread.
fn sent<T: Send>(clock: T) -> T {
    clock
}

// Whether the clock gives these beats next.
fn gives<C: Clock>(clock: &mut C, beats: &[Option<u64>]) -> bool {
    for beat in beats {
        if clock.beat() != *beat {
            return false;
        }
    }
    true
}

static GIVEN: [u64; 3] = [1000, 2000, 100_000];

static IN_MEMORY: [Option<u64>; 5] = [Some(1000), Some(2000), Some(100_000), None, None];

#[test]
fn a_clock_in_memory_gives_its_beats(rt: HostRuntime) -> Result<(), Fail> {
    assert!(rt; gives(&mut sent(MemClock::of(rt.alloc(), &GIVEN)?), &IN_MEMORY));
    assert!(rt; gives(&mut MemClock::of(rt.alloc(), &[])?, &[None, None]));
    Ok(())
}

// A time that passes where the clock sleeps, and not otherwise.
#[derive(Drop)]
struct Time {
    now: Cell<Duration>,
    is_read: bool,
}

impl Time {
    fn new(is_read: bool) -> Time {
        let now = Cell::new(Duration::ZERO);
        Time { now, is_read }
    }

    fn is_at(&self, nanos: u64) -> bool {
        self.now.get() == Duration::from_nanos(nanos)
    }
}

impl time::Clock for Time {
    fn monotonic(&self) -> io::Result<Duration> {
        if self.is_read {
            Ok(self.now.get())
        } else {
            Err(io::Error::from(io::ErrorKind::Unsupported))
        }
    }

    fn since_1970(&self) -> io::Result<Duration> {
        self.monotonic()
    }

    fn sleep(&self, duration: Duration) {
        self.now.set(self.now.get().saturating_add(duration));
    }
}

// A clock at so many cycles a second, if that is above none.
fn clock_at<T: time::Clock + Drop>(time: T, cps: Option<Frac>) -> Option<SleepClock<T>> {
    let cps = cps?;
    if Frac::whole(0).is_less(cps) {
        Some(SleepClock::of(time, cps))
    } else {
        None
    }
}

// At this tempo, by a time that is read or not, the time after three beats.
static SPEEDS: [(i128, u64, bool, u64); 5] = [
    (1, 1, true, 93_750_000),
    (9, 16, true, 166_666_666),
    (1, 65_535, true, 6_143_906_250_000),
    (1_000_000_007, 1, true, 0),
    (1, 1, false, 93_750_000),
];

static FIRST: [Option<u64>; 3] = [Some(1440), Some(2880), Some(4320)];

fn waits_as_told() -> bool {
    for (above, below, is_read, nanos) in &SPEEDS {
        let time = Time::new(*is_read);
        let Some(mut clock) = clock_at(&time, Frac::of(*above, *below)) else {
            return false;
        };
        if !gives(&mut clock, &FIRST) || !time.is_at(*nanos) {
            return false;
        }
    }
    true
}

#[test]
fn each_beat_comes_at_its_time(rt: HostRuntime) {
    assert!(rt; waits_as_told());
}

// Whether so many beats come without a sleep.
fn comes_at_once<C: Clock>(clock: &mut C, time: &Time, beats: u32) -> bool {
    let before = time.now.get();
    for _ in 0..beats {
        if clock.beat().is_none() {
            return false;
        }
    }
    time.now.get() == before
}

// After the first beat a second passes, in which 31 more are due. None is left out.
fn catches_up() -> bool {
    let time = Time::new(true);
    time.now.set(Duration::from_secs(100));
    let Some(mut clock) = clock_at(&time, Some(Frac::whole(1))) else {
        return false;
    };
    if clock.beat() != Some(1440) || !time.is_at(100_031_250_000) {
        return false;
    }
    time.now.set(Duration::from_secs(101));
    comes_at_once(&mut clock, &time, 31)
        && clock.beat() == Some(47_520)
        && time.is_at(101_031_250_000)
}

#[test]
fn late_beats_come_at_once(rt: HostRuntime) {
    assert!(rt; catches_up());
}

#[test]
fn a_chosen_clock_gives_the_beats_of_its_own(rt: HostRuntime) {
    let Some(clock) = clock_at(rt, Some(Frac::whole(1000))) else {
        return;
    };
    assert!(rt; gives(&mut sent(AnyClock::Sleep(clock)), &FIRST));
    let mut absent: AnyClock = sent(AnyClock::Absent(Absent));
    assert!(rt; gives(&mut absent, &[None, None]));
}

// Two performers and a clock who wait for one another: a beat comes once a reply more was put, and the first performer's
// second line once the second has a reply and a packet of cycle 2 was sent.
ghost use Rattle.std.specs.Prelude.{◌*◌, None};

use super::{has_all_ended, run_with_ports};
use crate::words::words_of;
use std::alloc::Global;
use std::sync::Wait;
use std::sync::atomic::{AtomicU64, Ordering};
use std::thread::{self, Threads};
use tdl_app::{History, Outside, Port, Ports};
use tdl_io::{Clock, Failed, Sink, Source, Wire};
use tdl_score::Deed;

// So often a device asks in vain before it gives up.
const ASKS: u32 = 100_000_000;

const CYCLE: u64 = 46_080;

const BEATS: u64 = 4;

// Where a packet has its cycle, after OSC 1.0.
const CYCLE_AT: usize = 52;

// How many replies were put into each performer's port, how many packets of cycle 2 were sent, and all else.
#[derive(Drop)]
struct Counts {
    first: AtomicU64,
    second: AtomicU64,
    packets: AtomicU64,
    others: AtomicU64,
}

fn count_of(counter: &AtomicU64) -> u64 {
    counter.load(Ordering::SeqCst)
}

impl Counts {
    fn new() -> Counts {
        Counts {
            first: AtomicU64::new(0),
            second: AtomicU64::new(0),
            packets: AtomicU64::new(0),
            others: AtomicU64::new(0),
        }
    }

    fn replies(&self) -> u64 {
        count_of(&self.first).saturating_add(count_of(&self.second))
    }

    // Waits until so many replies were put.
    fn has_replies(&self, wanted: u64) -> bool {
        for _ in 0..ASKS {
            if self.replies() >= wanted {
                return true;
            }
            thread::yield_now();
        }
        false
    }

    // Waits until the second performer has a reply, and a packet of cycle 2 was sent.
    fn has_packet_and_reply(&self) -> bool {
        for _ in 0..ASKS {
            if count_of(&self.second) > 0 && count_of(&self.packets) > 0 {
                return true;
            }
            thread::yield_now();
        }
        false
    }
}

// Gives one line after another, the second one at once or after it has waited.
#[derive(Drop)]
struct Speaker<'a> {
    lines: &'static [&'static str],
    given: usize,
    waits_for: Option<&'a Counts>,
    faults: u64,
}

impl Speaker<'_> {
    fn may_speak(&self) -> bool {
        match self.waits_for {
            Some(counts) if self.given > 0 => counts.has_packet_and_reply(),
            _ => true,
        }
    }
}

impl Source for Speaker<'_> {
    ghost left = { λ _. None };

    ghost faults = { λ s. s.faults };

    fn pull(&mut self, into: &mut [u8]) -> Result<usize, Failed> {
        let Some(line) = self.lines.get(self.given) else {
            return Ok(0);
        };
        if !self.may_speak() || line.len() > into.len() {
            self.faults = self.faults.saturating_add(1);
            return Err(Failed);
        }
        into[..line.len()].copy_from_slice(line.as_bytes());
        self.given += 1;
        Ok(line.len())
    }
}

// Counts what is put.
#[derive(Drop)]
struct Ear<'a> {
    counter: &'a AtomicU64,
}

impl Sink for Ear<'_> {
    ghost held = { λ _. None };

    ghost faults = { λ _. 0 };

    fn put(&mut self, _piece: &[u8]) -> Result<(), Failed> {
        self.counter.fetch_add(1, Ordering::SeqCst);
        Ok(())
    }
}

// Counts the packets of cycle 2.
#[derive(Drop)]
struct Ether<'a> {
    packets: &'a AtomicU64,
}

impl Wire for Ether<'_> {
    ghost sent = { λ _. None };

    ghost faults = { λ _. 0 };

    fn send(&mut self, packet: &[u8]) -> Result<(), Failed> {
        if packet.len() >= CYCLE_AT + 4 && packet[CYCLE_AT..CYCLE_AT + 4] == [0, 0, 0, 2] {
            self.packets.fetch_add(1, Ordering::SeqCst);
        }
        Ok(())
    }
}

// Gives a beat a cycle, each once a reply more was put.
#[derive(Drop)]
struct Beats<'a> {
    counts: &'a Counts,
    given: u64,
    ended: bool,
}

impl Clock for Beats<'_> {
    ghost last = { λ c. 46080 * c.given };

    ghost beats = { λ _. None };

    ghost ended = { λ c. c.ended };

    fn beat(&mut self) -> Option<u64> {
        if self.ended || self.given >= BEATS || !self.counts.has_replies(self.given + 1) {
            self.ended = true;
            return None;
        }
        self.given += 1;
        Some(CYCLE * self.given)
    }
}

static FIRST: [&str; 2] = ["d1 $ s \"bd\"\n", "mute 3\n"];

static SECOND: [&str; 2] = ["d2 $ s \"sn\"\n", "solo 2\n"];

// Whether the changes of a performer are these lines, in order.
fn has_said(history: &History, who: u32, lines: &[&str]) -> bool {
    let mut said = 0;
    for i in 0..history.len() {
        let entry = history.get(i);
        if let Deed::Swap { text, .. } = &entry.deed {
            if entry.who == who {
                match lines.get(said) {
                    Some(line) if line.trim_end().as_bytes() == text.bytes() => said += 1,
                    _ => return false,
                }
            }
        }
    }
    said == lines.len()
}

fn port<'a>(
    lines: &'static [&'static str],
    waits_for: Option<&'a Counts>,
    counter: &'a AtomicU64,
) -> Port<Speaker<'a>, Ear<'a>> {
    Port {
        source: Speaker {
            lines,
            given: 0,
            waits_for,
            faults: 0,
        },
        sink: Ear { counter },
    }
}

// Whether both are heard who wait for one another.
fn waits<R: Threads + Wait + Sync>(rt: &R, alloc: Global) -> bool {
    let Ok(words) = words_of(alloc, &["serve", "--performers", "2", "--cycles", "4"]) else {
        return false;
    };
    let counts = Counts::new();
    let mut ports = Ports::new(alloc);
    let first = ports.push(port(&FIRST, Some(&counts), &counts.first));
    let second = ports.push(port(&SECOND, None, &counts.second));
    if first.is_err() || second.is_err() {
        return false;
    }
    let mut devices = Outside {
        input: Speaker {
            lines: &[],
            given: 0,
            waits_for: None,
            faults: 0,
        },
        out: Ear {
            counter: &counts.others,
        },
        log: Ear {
            counter: &counts.others,
        },
        osc: Ether {
            packets: &counts.packets,
        },
        midi: Ether {
            packets: &counts.packets,
        },
        clock: Beats {
            counts: &counts,
            given: 0,
            ended: false,
        },
        ports,
    };
    match run_with_ports(rt, alloc, &words, &mut devices) {
        Some(outcome) => {
            outcome.status == 0
                && has_all_ended(&outcome, 2)
                && count_of(&counts.first) == 2
                && count_of(&counts.second) == 2
                && has_said(&outcome.history, 1, &FIRST)
                && has_said(&outcome.history, 2, &SECOND)
        }
        None => false,
    }
}

#[test]
fn performers_wait_for_one_another(rt: HostRuntime) {
    assert!(rt; waits(&rt, rt.alloc()));
}

ghost use Rattle.std.specs.Prelude.{None};

mod cut;
mod drills;
mod faults;
mod queries;
mod scripts;
mod served;
mod waits;

use crate::words::words_of;
use std::alloc::Global;
use std::sync::Wait;
use std::test::Fail;
use std::thread::Threads;
use tdl_app::{Outcome, Outside, Port, PortEnd, Ports, WordsFault, ports_of, run, run_alone};
use tdl_control::NoMemory;
use tdl_io::{Absent, Clock, Failed, MemSource, MemWire, Sink, Source, Wire};
use tdl_words::{serve_words_are_in_bounds, words_ask_for_one_thing};

// An output that takes so many bytes: of the piece in which they run out it takes the front.
#[derive(Drop)]
struct Narrow {
    bytes: Vec<u8>,
    room: usize,
    faults: u64,
}

impl Sink for Narrow {
    ghost held = { λ _. None };

    ghost faults = { λ s. s.faults };

    fn put(&mut self, piece: &[u8]) -> Result<(), Failed> {
        let front = &piece[..piece.len().min(self.room)];
        self.room -= front.len();
        let taken = self.bytes.extend_from_slice(front).is_ok();
        if taken && front.len() == piece.len() {
            return Ok(());
        }
        self.faults = self.faults.saturating_add(1);
        Err(Failed)
    }
}

type Devices = Outside<MemSource, Narrow, MemWire, Absent>;

// The call of the input and of each wire that is to fail, counted from 1, and how many bytes the
// output and the log take.
#[derive(Clone, Copy)]
struct Limits {
    pull: u32,
    send: u32,
    note: u32,
    room: usize,
    log: usize,
}

// No call fails.
const AMPLE: Limits = Limits {
    pull: 0,
    send: 0,
    note: 0,
    room: 1000,
    log: 1000,
};

fn output_of(alloc: Global, room: usize) -> Narrow {
    Narrow {
        bytes: Vec::new(alloc),
        room,
        faults: 0,
    }
}

// Devices whose input has this script.
fn devices(alloc: Global, script: &[u8], limits: Limits) -> Result<Devices, NoMemory> {
    Ok(Outside {
        input: MemSource::of(alloc, script, &[limits.pull])?,
        out: output_of(alloc, limits.room),
        log: output_of(alloc, limits.log),
        osc: MemWire::of(alloc, 100, 10_000, &[limits.send])?,
        midi: MemWire::of(alloc, 100, 300, &[limits.note])?,
        clock: Absent,
        ports: Ports::new(alloc),
    })
}

// A packet that is wanted: its time tag, cycle and microseconds, its orbit as it is sent, and its sound of two letters.
struct Sent(u64, u32, u32, u32, &'static [u8; 2]);

// Whether a text is of these pieces.
fn is_made_of(text: &[u8], pieces: &[&[u8]]) -> bool {
    let mut rest = text;
    for piece in pieces {
        match rest.strip_prefix(piece) {
            Some(after) => rest = after,
            None => return false,
        }
    }
    rest.is_empty()
}

// Whether a packet is the one that is wanted, after OSC 1.0.
fn is_packet(packet: &[u8], wanted: &Sent) -> bool {
    let Sent(tag, cycle, delta, orbit, sound) = wanted;
    is_made_of(
        packet,
        &[
            b"#bundle\0",
            &tag.to_be_bytes(),
            b"\0\0\0\x44/dirt/play\0\0,sisisiss\0\0\0cycle\0\0\0",
            &cycle.to_be_bytes(),
            b"delta\0\0\0",
            &delta.to_be_bytes(),
            b"orbit\0\0\0",
            &orbit.to_be_bytes(),
            b"s\0\0\0",
            *sound,
            b"\0\0",
        ],
    )
}

// Whether a wire sent so many packets, which are the first of these.
fn has_packets(wire: &MemWire, count: usize, wanted: &[Sent]) -> bool {
    if wire.len() != count || count > wanted.len() {
        return false;
    }
    for i in 0..count {
        if !is_packet(wire.packet(i), &wanted[i]) {
            return false;
        }
    }
    true
}

// Whether a wire sent so many messages, which are the first of these.
fn has_messages(wire: &MemWire, count: usize, wanted: &[&[u8]]) -> bool {
    if wire.len() != count || count > wanted.len() {
        return false;
    }
    for i in 0..count {
        if wire.packet(i) != wanted[i] {
            return false;
        }
    }
    true
}

// Whether the one port of a script ended so.
fn has_ended(outcome: &Outcome, wanted: PortEnd) -> bool {
    if outcome.ends.len() != 1 {
        return false;
    }
    let (port, end) = outcome.ends.get(0);
    port == 0 && end == wanted
}

// Whether so many ports ended in order, each with its source.
fn has_all_ended(outcome: &Outcome, ports: usize) -> bool {
    if outcome.ends.len() != ports {
        return false;
    }
    for i in 0..outcome.ends.len() {
        let (port, end) = outcome.ends.get(i);
        if usize::from(port) != i + 1 || end != PortEnd::Eof {
            return false;
        }
    }
    true
}

// A run, where there are as many ports as the words ask for.
fn run_with_ports<
    R: Threads + Wait + Sync,
    S: Source + Send,
    K: Sink + Send,
    W: Wire + Send,
    C: Clock + Send,
>(rt: &R, alloc: Global, words: &[String], devices: &mut Outside<S, K, W, C>) -> Option<Outcome> {
    words_ask_for_one_thing();
    match ports_of(alloc, words) {
        Ok(ports) if devices.ports.len() == ports as usize => Some(run(rt, alloc, words, devices)),
        Err(WordsFault::BadWords) => Some(run(rt, alloc, words, devices)),
        _ => None,
    }
}

// A run on one thread, where the words ask for no ports and there are none.
fn run_without_ports<S: Source, K: Sink, W: Wire, C: Clock>(
    alloc: Global,
    words: &[String],
    devices: &mut Outside<S, K, W, C>,
) -> Option<Outcome> {
    words_ask_for_one_thing();
    serve_words_are_in_bounds();
    match ports_of(alloc, words) {
        Ok(0) if devices.ports.len() == 0 => Some(run_alone(alloc, words, devices)),
        Err(WordsFault::BadWords) => Some(run_alone(alloc, words, devices)),
        _ => None,
    }
}

// Words, and how many ports they ask for.
static WORDS: [(&[&str], Result<u32, WordsFault>); 14] = [
    (&["query", "-", "0", "1"], Ok(0)),
    (&["play"], Ok(0)),
    (&["play", "--cps=1/2", "--origin", "0"], Ok(0)),
    (&["play", "--cps", "0"], Err(WordsFault::BadWords)),
    (&[], Err(WordsFault::BadWords)),
    (&["query", "-x", "0", "1"], Err(WordsFault::BadWords)),
    (&["query", "bd", "0"], Err(WordsFault::BadWords)),
    (&["query", "bd", "0", "1", "2"], Err(WordsFault::BadWords)),
    (&["Query", "bd", "0", "1"], Err(WordsFault::BadWords)),
    (&["play", "x"], Err(WordsFault::BadWords)),
    (&["serve"], Err(WordsFault::BadWords)),
    (&["serve", "--performers=3", "--cycles=4"], Ok(3)),
    (&["drill", "1", "4"], Ok(0)),
    (
        &["serve", "--performers", "9", "--cycles", "4"],
        Err(WordsFault::BadWords),
    ),
];

fn asks_for_ports(alloc: Global, words: &[&str], wanted: &Result<u32, WordsFault>) -> bool {
    match words_of(alloc, words) {
        Ok(words) => ports_of(alloc, &words) == *wanted,
        Err(_) => false,
    }
}

// Whether a list of ports keeps one.
fn has_a_port(alloc: Global) -> bool {
    let mut ports = Ports::new(alloc);
    let pushed = ports.push(Port {
        source: Absent,
        sink: Absent,
    });
    pushed.is_ok() && ports.len() == 1 && ports.get(0).source == Absent
}

#[test]
fn counts_ports(rt: HostRuntime) {
    for (words, wanted) in &WORDS {
        assert!(rt; asks_for_ports(rt.alloc(), words, wanted));
    }
    assert!(rt; has_a_port(rt.alloc()));
}

#[test]
fn runs_with_threads_at_hand(rt: HostRuntime) -> Result<(), Fail> {
    let alloc = rt.alloc();
    let words = words_of(alloc, &["query", "bd sn", "1", "2"])?;
    let mut devices = devices(alloc, b"", AMPLE)?;
    let outcome = run_with_ports(&rt, alloc, &words, &mut devices).ok_or("ports")?;
    assert!(rt; outcome.status == 0);
    assert!(rt; devices.out.bytes.as_slice() == b"1 3/2 1 3/2 s=bd\n3/2 2 3/2 2 s=sn\n".as_slice());
    Ok(())
}

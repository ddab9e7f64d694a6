// A long drill on wires that count.
use super::run_without_ports;
use crate::words::words_of;
use std::alloc::Global;
use std::test::Fail;
use tdl_app::{Outside, Ports};
use tdl_control::NoMemory;
use tdl_io::{Absent, CountSink, CountWire, MemSink, Sink};

type Devices<K> = Outside<Absent, K, CountWire, Absent>;

const WORDS: [&str; 3] = ["drill", "1", "16384"];

// What another program prints, and how many packets, messages and bytes of the log it has.
const PRINTED: &[u8] = b"end 3629171/15360 entries 16385 osc 2239 midi 450\n";

const PACKETS: u64 = 2_239;

const MESSAGES: u64 = 450;

const LOGGED: u64 = 692_404;

// Room for the log.
const ROOM: u32 = 1_000_000;

fn devices<K: Sink + Drop>(alloc: Global, out: K, log: K) -> Devices<K> {
    Outside {
        input: Absent,
        out,
        log,
        osc: CountWire::new(),
        midi: CountWire::new(),
        clock: Absent,
        ports: Ports::new(alloc),
    }
}

// The devices after the drill, if it was played to its end.
fn drilled<K: Sink + Drop>(alloc: Global, mut devices: Devices<K>) -> Result<Devices<K>, Fail> {
    let words = words_of(alloc, &WORDS)?;
    let outcome = run_without_ports(alloc, &words, &mut devices).ok_or("ports")?;
    if outcome.status == 0 {
        Ok(devices)
    } else {
        Err("status".into())
    }
}

fn in_memory(alloc: Global) -> Result<Devices<MemSink>, NoMemory> {
    let out = MemSink::of(alloc, 1000, &[])?;
    let log = MemSink::of(alloc, ROOM, &[])?;
    Ok(devices(alloc, out, log))
}

#[test]
fn drills_alike_again(rt: HostRuntime) -> Result<(), Fail> {
    let alloc = rt.alloc();
    let first = drilled(alloc, in_memory(alloc)?)?;
    let second = drilled(alloc, in_memory(alloc)?)?;
    assert!(rt; first.out.bytes() == PRINTED);
    assert!(rt; second.out.bytes() == PRINTED);
    assert!(rt; first.log.bytes() == second.log.bytes());
    assert!(rt; first.osc.packets() == PACKETS && first.midi.packets() == MESSAGES);
    Ok(())
}

#[test]
fn counts_the_bytes_of_a_drill(rt: HostRuntime) -> Result<(), Fail> {
    let alloc = rt.alloc();
    let after = drilled(alloc, devices(alloc, CountSink::new(), CountSink::new()))?;
    assert!(rt; after.out.bytes() == PRINTED.len() as u64 && after.log.bytes() == LOGGED);
    Ok(())
}

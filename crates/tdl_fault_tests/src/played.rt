// Scripts that are played with each call of each device failing in turn, and input that comes in small pieces.
ghost use Rattle.std.specs.Prelude.{◌≤◌};

use crate::devices::{Device, Fault};
use crate::scripts::{Counts, SCRIPTS, Script};
use crate::texts::{first_lines, is_made_of, lines_in, words_of};
use std::alloc::Global;
use std::test::Fail;
use tdl_app::{Outcome, Outside, PortEnd, Ports, ports_of, run_alone};
use tdl_control::NoMemory;
use tdl_io::{Absent, MemSink, MemSource, MemWire};
use tdl_words::{serve_words_are_in_bounds, words_ask_for_one_thing};

type Devices = Outside<MemSource, MemSink, MemWire, Absent>;

static DEVICES: [Device; 5] = [
    Device::Input,
    Device::Out,
    Device::Log,
    Device::Osc,
    Device::Midi,
];

// The head of a log has so many lines.
const HEAD: usize = 3;

// More calls than any device has in a run.
const MANY: u32 = 200;

// Devices whose input gives the script so many bytes at a time.
fn devices(alloc: Global, given: &str, most: u32, fault: Fault) -> Result<Devices, NoMemory>
    requires { 1 ≤ most }
{
    Ok(Outside {
        input: fault.source(alloc, Device::Input, given, most)?,
        out: fault.sink(alloc, Device::Out)?,
        log: fault.sink(alloc, Device::Log)?,
        osc: fault.wire(alloc, Device::Osc)?,
        midi: fault.wire(alloc, Device::Midi)?,
        clock: Absent,
        ports: Ports::new(alloc),
    })
}

fn play(alloc: Global, words: &[String], devices: &mut Devices) -> Option<Outcome> {
    words_ask_for_one_thing();
    serve_words_are_in_bounds();
    match ports_of(alloc, words) {
        Ok(0) if devices.ports.len() == 0 => Some(run_alone(alloc, words, devices)),
        _ => None,
    }
}

// How many calls a device has where none fails. The log is put at once.
fn calls_of(script: &Script, device: Device, most: u32) -> usize {
    match device {
        Device::Input => {
            let pulls = script.given.len().div_ceil(most.max(1) as usize);
            if script.end == PortEnd::Eof {
                pulls.saturating_add(1)
            } else {
                pulls
            }
        }
        Device::Osc => script.osc.len(),
        Device::Midi => script.midi.len(),
        Device::Log => 1,
        // a reply a line, and the end line
        _ => script.counts.len(),
    }
}

// Where a run stopped: how many lines have a reply, and how many were done.
#[derive(Clone, Copy)]
struct Reached {
    answered: usize,
    done: usize,
}

// The first line after which so many packets or messages were sent.
fn line_of(script: &Script, fault: Fault) -> usize {
    for line in 0..script.counts.len() {
        let Counts(_, packets, messages) = script.counts[line];
        let sent = if fault.device == Device::Osc {
            packets
        } else {
            messages
        };
        if sent >= fault.call as usize {
            return line;
        }
    }
    script.counts.len()
}

// Where a run has to stop at a fault, after its input gave these bytes.
fn stop_of(script: &Script, fault: Fault, taken: &[u8]) -> Reached {
    let lines = script.counts.len().saturating_sub(1);
    match fault.device {
        Device::Input => Reached {
            answered: lines_in(taken),
            done: lines_in(taken),
        },
        Device::Osc | Device::Midi => Reached {
            answered: line_of(script, fault).saturating_sub(1),
            done: line_of(script, fault),
        },
        Device::Log => Reached {
            answered: lines,
            done: lines,
        },
        _ => Reached {
            answered: (fault.call as usize).saturating_sub(1),
            done: lines.min(fault.call as usize),
        },
    }
}

// The status of a run, and how its port ends, where a device fails before the end line, or else after it.
fn end_of(script: &Script, device: Device, is_over: bool) -> (u8, PortEnd) {
    match device {
        Device::Input => (5, PortEnd::Fault),
        Device::Log => (7, script.end),
        _ if is_over => (4, script.end),
        _ => (4, PortEnd::Stopped),
    }
}

fn word_of(end: PortEnd) -> &'static str {
    match end {
        PortEnd::Fault => "fault",
        PortEnd::Finish => "finish",
        PortEnd::Eof => "eof",
        _ => "stopped",
    }
}

// Whether a wire sent from `least` to `most` packets, which are the first of these.
fn is_front(wire: &MemWire, wanted: &[&[u8]], least: usize, most: usize) -> bool {
    if wire.len() < least || wire.len() > most || wire.len() > wanted.len() {
        return false;
    }
    for i in 0..wire.len() {
        if wire.packet(i) != wanted[i] {
            return false;
        }
    }
    true
}

// Whether the one port of a script ended so.
fn has_ended(outcome: &Outcome, wanted: PortEnd) -> bool {
    outcome.ends.len() == 1 && outcome.ends.get(0) == (0, wanted)
}

fn is_whole(script: &Script, outcome: &Outcome, devices: &Devices) -> bool {
    outcome.status == 0
        && has_ended(outcome, script.end)
        && devices.out.bytes() == script.printed.as_bytes()
        && devices.log.bytes() == script.log.as_bytes()
        && is_front(&devices.osc, script.osc, script.osc.len(), script.osc.len())
        && is_front(
            &devices.midi,
            script.midi,
            script.midi.len(),
            script.midi.len(),
        )
}

// Whether the log is whole for so many entries, or, where a put of it failed, a beginning of that.
fn is_logged(
    alloc: Global,
    script: &Script,
    device: Device,
    entries: u32,
    end: PortEnd,
    log: &[u8],
) -> Result<bool, Fail> {
    if device == Device::Log {
        return Ok(script.log.len() > log.len() && script.log.as_bytes().starts_with(log));
    }
    let front = first_lines(script.log.as_bytes(), HEAD.saturating_add(entries as usize));
    let tail = format!(in alloc; "port 0 {}\nend {entries}\n", word_of(end))?;
    Ok(is_made_of(log, front, tail.as_bytes()))
}

// Whether the wires have what goes with the lines that were done; where one of them failed, each has at least what goes with
// the lines before the last of these, and the one that failed all before what it did not send.
fn are_sent(script: &Script, fault: Fault, reached: Reached, devices: &Devices) -> bool {
    let (sent, before) = match fault.device {
        Device::Osc => (devices.osc.len().saturating_add(1), reached.answered),
        Device::Midi => (devices.midi.len().saturating_add(1), reached.answered),
        _ => (fault.call as usize, reached.done),
    };
    let least = script.counts.get(before);
    let most = script.counts.get(reached.done);
    let (Some(Counts(_, packets, messages)), Some(Counts(_, most_packets, most_messages))) = (
        least, most,
    ) else {
        return false;
    };
    sent == fault.call as usize
        && is_front(&devices.osc, script.osc, *packets, *most_packets)
        && is_front(&devices.midi, script.midi, *messages, *most_messages)
}

// Whether a run in which a call failed came up to that call, and no further.
fn is_cut(
    alloc: Global,
    script: &Script,
    fault: Fault,
    outcome: &Outcome,
    devices: &Devices,
) -> Result<bool, Fail> {
    let given = script.given.as_bytes();
    let taken = given.len().saturating_sub(devices.input.left().len());
    let reached = stop_of(script, fault, &given[..taken]);
    let Some(&Counts(entries, ..)) = script.counts.get(reached.done) else {
        return Ok(false);
    };
    // the end line comes after the last reply
    let printed = match fault.device {
        Device::Log => script.counts.len(),
        _ => reached.answered,
    };
    let is_over = reached.answered.saturating_add(1) == script.counts.len();
    let (status, end) = end_of(script, fault.device, is_over);
    let is_log = is_logged(
        alloc,
        script,
        fault.device,
        entries,
        end,
        devices.log.bytes(),
    )?;
    Ok(
        is_log
            && outcome.status == status
            && outcome.history.len() == entries
            && has_ended(outcome, end)
            && devices.out.bytes() == first_lines(script.printed.as_bytes(), printed)
            && are_sent(script, fault, reached, devices),
    )
}

// Whether the device's calls fail as they should, from the first one on, and nothing fails after the last.
fn obeys(alloc: Global, script: &Script, most: u32, device: Device) -> Result<bool, Fail>
    requires { 1 ≤ most }
{
    let words = words_of(alloc, &["play"])?;
    let calls = calls_of(script, device, most);
    for call in 1..MANY {
        let fault = Fault { device, call };
        let mut devices = devices(alloc, script.given, most, fault)?;
        let outcome = play(alloc, &words, &mut devices).ok_or("ports")?;
        if call as usize > calls {
            return Ok(is_whole(script, &outcome, &devices));
        }
        if !is_cut(alloc, script, fault, &outcome, &devices)? {
            return Ok(false);
        }
    }
    Ok(false)
}

#[test]
fn each_call_fails_in_turn(rt: HostRuntime) -> Result<(), Fail> {
    for script in &SCRIPTS {
        for most in 1..8 {
            for device in &DEVICES {
                assert!(rt;
                    obeys(rt.alloc(), script, most, *device)?,
                    "{} in pieces of {most}",
                    script.given
                );
            }
        }
    }
    Ok(())
}

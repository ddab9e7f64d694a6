// Runs of which one device cuts something off: what is there of each device then.
use super::{
    AMPLE, Limits, Sent, devices, has_ended, has_messages, has_packets, run_without_ports,
};
use crate::words::words_of;
use std::alloc::Global;
use tdl_app::PortEnd;

// The words of a run, its script, and what fails; its status, what it prints and logs, how the port ended, and its packets
// and messages.
struct Run {
    words: &'static [&'static str],
    given: &'static str,
    limits: Limits,
    status: u8,
    printed: &'static str,
    log: &'static str,
    end: PortEnd,
    osc: &'static [Sent],
    midi: &'static [&'static [u8]],
}

static RUNS: [Run; 3] = [
    // the first message is not sent
    Run {
        words: &["play"],
        given: "p1 d1 $ slow 3 $ note \"0\" # s \"midi\"\ntick 1\nfinish\n",
        limits: Limits { note: 1, ..AMPLE },
        status: 4,
        printed: "at 0 place 0\n",
        log: "tidal-log 1\ncps 9/16\norigin 2208988800\n0 1 0 swap 0 d1 $ slow 3 $ note \"0\" # s \"midi\"\n\
         1 0 0 tick 1\nport 0 stopped\nend 2\n",
        end: PortEnd::Stopped,
        osc: &[],
        midi: &[],
    },
    // the input ends in the middle of a line, by a fault
    Run {
        words: &["play"],
        given: "p1 d1 $ s \"bd\"\ntic",
        limits: Limits { pull: 2, ..AMPLE },
        status: 5,
        printed: "at 0 place 0\n",
        log: "tidal-log 1\ncps 9/16\norigin 2208988800\n0 1 0 swap 0 d1 $ s \"bd\"\nport 0 fault\nend 1\n",
        end: PortEnd::Fault,
        osc: &[],
        midi: &[],
    },
    // nothing is logged
    Run {
        words: &["play", "--cps", "1/2", "--origin", "2208988800"],
        given: "p1 d1 $ s \"bd sn\"\ntick 1\n",
        limits: Limits { log: 0, ..AMPLE },
        status: 7,
        printed: "at 0 place 0\ntick 1 osc 2 midi 0\nend 1 entries 2 osc 2 midi 0\n",
        log: "",
        end: PortEnd::Eof,
        osc: &[
            Sent(0x83aa7e80_00000000, 0, 1_000_000, 0, b"bd"),
            Sent(0x83aa7e81_00000000, 0, 1_000_000, 0, b"sn"),
        ],
        midi: &[],
    },
];

fn is_cut(alloc: Global, run: &Run) -> bool {
    let Ok(words) = words_of(alloc, run.words) else {
        return false;
    };
    let Ok(mut devices) = devices(alloc, run.given.as_bytes(), run.limits) else {
        return false;
    };
    let Some(outcome) = run_without_ports(alloc, &words, &mut devices) else {
        return false;
    };
    outcome.status == run.status
        && has_ended(&outcome, run.end)
        && devices.out.bytes.as_slice() == run.printed.as_bytes()
        && devices.log.bytes.as_slice() == run.log.as_bytes()
        && has_packets(&devices.osc, run.osc.len(), run.osc)
        && has_messages(&devices.midi, run.midi.len(), run.midi)
}

#[test]
fn keeps_what_was_there_before_a_fault(rt: HostRuntime) {
    for run in &RUNS {
        assert!(rt; is_cut(rt.alloc(), run), "{}", run.given);
    }
}

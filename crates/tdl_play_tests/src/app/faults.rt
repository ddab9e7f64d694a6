// Scripts that are played on devices of which one fails.
use super::{
    AMPLE, Limits, Sent, devices, has_ended, has_messages, has_packets, run_without_ports,
};
use crate::words::words_of;
use std::alloc::{AllocError, Global};
use tdl_app::PortEnd;

// A script of a front, a line of so many letters and a rest; what a run of it prints, logs and sends where no device
// fails, as another program does; and what there is after a fault.
struct Run {
    front: &'static str,
    long: usize,
    rest: &'static str,
    printed: &'static str,
    log: &'static str,
    osc: &'static [Sent],
    midi: &'static [&'static [u8]],
    faults: &'static [Fault],
}

// What goes wrong in a run, and what there is after it: the status, how many bytes are printed, packets and messages sent
// and entries made, which are the first of a run without a fault; how many bytes of its log are there, and what follows
// them; and how the port ended.
struct Fault(
    Limits,
    u8,
    usize,
    usize,
    usize,
    u32,
    usize,
    &'static str,
    PortEnd,
);

static RUNS: [Run; 3] = [
    // six lines: the first pull ends in the third, and the last has no line feed
    Run {
        front: "p1 d1 $ s \"bd sn\"\ntick 1/2\n",
        long: 20000,
        rest: "\ntick 1\np1 d1 $ s \"hh ~ hh hh\"\ntick 2",
        printed: "at 0 place 0\ntick 1/2 osc 1 midi 0\nrefused LineTooLong 2048\ntick 1 osc 1 midi 0\nat 1 place 3\n\
         tick 2 osc 3 midi 0\nend 2 entries 5 osc 5 midi 0\n",
        log: "tidal-log 1\ncps 9/16\norigin 2208988800\n0 1 0 swap 0 d1 $ s \"bd sn\"\n1 0 0 tick 1/2\n2 0 1/2 tick 1\n\
         3 1 1 swap 1 d1 $ s \"hh ~ hh hh\"\n4 0 1 tick 2\nport 0 eof\nend 5\n",
        osc: &[
            Sent(0x83aa7e80_00000000, 0, 888_888, 0, b"bd"),
            Sent(0x83aa7e80_e38e38e3, 0, 888_888, 0, b"sn"),
            Sent(0x83aa7e81_c71c71c7, 1, 444_444, 0, b"hh"),
            Sent(0x83aa7e82_aaaaaaaa, 1, 444_444, 0, b"hh"),
            Sent(0x83aa7e83_1c71c71c, 1, 444_444, 0, b"hh"),
        ],
        midi: &[],
        faults: &[
            Fault(
                AMPLE,
                0,
                142,
                5,
                0,
                5,
                143,
                "port 0 eof\nend 5\n",
                PortEnd::Eof,
            ),
            Fault(
                Limits { send: 1, ..AMPLE },
                4,
                13,
                0,
                0,
                2,
                82,
                "port 0 stopped\nend 2\n",
                PortEnd::Stopped,
            ),
            Fault(
                Limits { send: 2, ..AMPLE },
                4,
                60,
                1,
                0,
                3,
                97,
                "port 0 stopped\nend 3\n",
                PortEnd::Stopped,
            ),
            Fault(
                Limits { send: 3, ..AMPLE },
                4,
                93,
                2,
                0,
                5,
                143,
                "port 0 stopped\nend 5\n",
                PortEnd::Stopped,
            ),
            Fault(
                Limits { send: 4, ..AMPLE },
                4,
                93,
                3,
                0,
                5,
                143,
                "port 0 stopped\nend 5\n",
                PortEnd::Stopped,
            ),
            Fault(
                Limits { send: 5, ..AMPLE },
                4,
                93,
                4,
                0,
                5,
                143,
                "port 0 stopped\nend 5\n",
                PortEnd::Stopped,
            ),
            Fault(
                Limits { room: 0, ..AMPLE },
                4,
                0,
                0,
                0,
                1,
                67,
                "port 0 stopped\nend 1\n",
                PortEnd::Stopped,
            ),
            Fault(
                Limits { room: 20, ..AMPLE },
                4,
                20,
                1,
                0,
                2,
                82,
                "port 0 stopped\nend 2\n",
                PortEnd::Stopped,
            ),
            Fault(
                Limits { room: 97, ..AMPLE },
                4,
                97,
                5,
                0,
                5,
                143,
                "port 0 stopped\nend 5\n",
                PortEnd::Stopped,
            ),
            Fault(
                Limits { room: 141, ..AMPLE },
                4,
                141,
                5,
                0,
                5,
                143,
                "port 0 eof\nend 5\n",
                PortEnd::Eof,
            ),
            Fault(
                Limits { pull: 1, ..AMPLE },
                5,
                0,
                0,
                0,
                0,
                39,
                "port 0 fault\nend 0\n",
                PortEnd::Fault,
            ),
            Fault(
                Limits { pull: 2, ..AMPLE },
                5,
                35,
                1,
                0,
                2,
                82,
                "port 0 fault\nend 2\n",
                PortEnd::Fault,
            ),
            Fault(
                Limits { pull: 3, ..AMPLE },
                5,
                93,
                2,
                0,
                4,
                130,
                "port 0 fault\nend 4\n",
                PortEnd::Fault,
            ),
            Fault(
                Limits { log: 100, ..AMPLE },
                7,
                142,
                5,
                0,
                5,
                100,
                "",
                PortEnd::Eof,
            ),
            Fault(
                Limits {
                    log: 100,
                    send: 1,
                    ..AMPLE
                },
                4,
                13,
                0,
                0,
                2,
                82,
                "port 0 stopped\nend",
                PortEnd::Stopped,
            ),
        ],
    },
    // a tick of four packets
    Run {
        front: "p1 d1 $ s \"bd*4\"\ntick 1",
        long: 0,
        rest: "",
        printed: "at 0 place 0\ntick 1 osc 4 midi 0\nend 1 entries 2 osc 4 midi 0\n",
        log: "tidal-log 1\ncps 9/16\norigin 2208988800\n0 1 0 swap 0 d1 $ s \"bd*4\"\n1 0 0 tick 1\nport 0 eof\nend 2\n",
        osc: &[
            Sent(0x83aa7e80_00000000, 0, 444_444, 0, b"bd"),
            Sent(0x83aa7e80_71c71c71, 0, 444_444, 0, b"bd"),
            Sent(0x83aa7e80_e38e38e3, 0, 444_444, 0, b"bd"),
            Sent(0x83aa7e81_55555555, 0, 444_444, 0, b"bd"),
        ],
        midi: &[],
        faults: &[
            Fault(
                AMPLE,
                0,
                62,
                4,
                0,
                2,
                79,
                "port 0 eof\nend 2\n",
                PortEnd::Eof,
            ),
            Fault(
                Limits { send: 1, ..AMPLE },
                4,
                13,
                0,
                0,
                2,
                79,
                "port 0 stopped\nend 2\n",
                PortEnd::Stopped,
            ),
            Fault(
                Limits { send: 2, ..AMPLE },
                4,
                13,
                1,
                0,
                2,
                79,
                "port 0 stopped\nend 2\n",
                PortEnd::Stopped,
            ),
            Fault(
                Limits { send: 3, ..AMPLE },
                4,
                13,
                2,
                0,
                2,
                79,
                "port 0 stopped\nend 2\n",
                PortEnd::Stopped,
            ),
            Fault(
                Limits { send: 4, ..AMPLE },
                4,
                13,
                3,
                0,
                2,
                79,
                "port 0 stopped\nend 2\n",
                PortEnd::Stopped,
            ),
        ],
    },
    // notes in two ticks and at the finish, and a packet before the first
    Run {
        front: "p1 d1 $ stack [note \"0 2\" # s \"midi\", s \"bd\"]\ntick 1/2\ntick 1\nfinish\n",
        long: 0,
        rest: "",
        printed: "at 0 place 0\ntick 1/2 osc 1 midi 1\ntick 1 osc 0 midi 2\nfinish 1 midi 1\n\
         end 1 entries 4 osc 1 midi 4\n",
        log: "tidal-log 1\ncps 9/16\norigin 2208988800\n0 1 0 swap 0 d1 $ stack [note \"0 2\" # s \"midi\", s \"bd\"]\n\
         1 0 0 tick 1/2\n2 0 1/2 tick 1\n3 0 1 finish\nport 0 finish\nend 4\n",
        osc: &[Sent(0x83aa7e80_00000000, 0, 1_777_777, 0, b"bd")],
        midi: &[
            b"\x90\x3c\x40",
            b"\x80\x3c\x40",
            b"\x90\x3e\x40",
            b"\x80\x3e\x40",
        ],
        faults: &[
            Fault(
                AMPLE,
                0,
                100,
                1,
                4,
                4,
                138,
                "port 0 finish\nend 4\n",
                PortEnd::Finish,
            ),
            Fault(
                Limits { send: 1, ..AMPLE },
                4,
                13,
                0,
                0,
                2,
                110,
                "port 0 stopped\nend 2\n",
                PortEnd::Stopped,
            ),
            Fault(
                Limits { note: 1, ..AMPLE },
                4,
                13,
                1,
                0,
                2,
                110,
                "port 0 stopped\nend 2\n",
                PortEnd::Stopped,
            ),
            Fault(
                Limits { note: 2, ..AMPLE },
                4,
                35,
                1,
                1,
                3,
                125,
                "port 0 stopped\nend 3\n",
                PortEnd::Stopped,
            ),
            Fault(
                Limits { note: 3, ..AMPLE },
                4,
                35,
                1,
                2,
                3,
                125,
                "port 0 stopped\nend 3\n",
                PortEnd::Stopped,
            ),
            Fault(
                Limits { note: 4, ..AMPLE },
                4,
                55,
                1,
                3,
                4,
                138,
                "port 0 stopped\nend 4\n",
                PortEnd::Stopped,
            ),
        ],
    },
];

fn script_of(alloc: Global, run: &Run) -> Result<Vec<u8>, AllocError> {
    let mut script = Vec::from_slice(alloc, run.front.as_bytes())?;
    script.extend_from_slice(&vec![in alloc; b'x'; run.long]?)?;
    script.extend_from_slice(run.rest.as_bytes())?;
    Ok(script)
}

// Whether a log has so many bytes of another, and then this text.
fn is_log(found: &[u8], whole: &str, length: usize, tail: &str) -> bool {
    match found.strip_suffix(tail.as_bytes()) {
        Some(front) => front.len() == length && whole.as_bytes().starts_with(front),
        None => false,
    }
}

fn is_answered(alloc: Global, run: &Run, fault: &Fault) -> bool {
    let Fault(limits, status, printed, packets, messages, entries, length, tail, end) = fault;
    let Ok(words) = words_of(alloc, &["play"]) else {
        return false;
    };
    let Ok(script) = script_of(alloc, run) else {
        return false;
    };
    let Ok(mut devices) = devices(alloc, &script, *limits) else {
        return false;
    };
    let Some(outcome) = run_without_ports(alloc, &words, &mut devices) else {
        return false;
    };
    outcome.status == *status
        && outcome.history.len() == *entries
        && has_ended(&outcome, *end)
        && devices.out.bytes.len() == *printed
        && run.printed.as_bytes().starts_with(&devices.out.bytes)
        && is_log(&devices.log.bytes, run.log, *length, tail)
        && has_packets(&devices.osc, *packets, run.osc)
        && has_messages(&devices.midi, *messages, run.midi)
}

#[test]
fn answers_failing_devices(rt: HostRuntime) {
    for run in &RUNS {
        for fault in run.faults {
            assert!(rt; is_answered(rt.alloc(), run, fault));
        }
    }
}

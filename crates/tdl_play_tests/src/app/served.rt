// Performers who are served beside a clock, on devices in memory.
ghost use Rattle.std.specs.Prelude.{IsTrue};
ghost use Rattle.tdl_io.specs.Memory.{rise_above};

use super::{Narrow, has_all_ended, output_of, run_with_ports};
use crate::words::words_of;
use std::alloc::Global;
use std::sync::Wait;
use std::thread::Threads;
use tdl_app::{Outside, Port, PortEnd, Ports};
use tdl_control::NoMemory;
use tdl_io::{MemClock, MemSource, MemWire};

type Stage = Outside<MemSource, Narrow, MemWire, MemClock>;

// A performer who says this and takes in so many bytes of replies.
fn port_of(alloc: Global, said: &str, room: usize) -> Result<Port<MemSource, Narrow>, NoMemory> {
    Ok(Port {
        source: MemSource::of(alloc, said.as_bytes(), &[])?,
        sink: output_of(alloc, room),
    })
}

// So many performers who say this, beside a clock of these beats.
fn stage(alloc: Global, performers: usize, said: &str, beats: &[u64]) -> Result<Stage, NoMemory>
    requires { IsTrue (rise_above 0 beats.now) }
{
    let mut ports = Ports::new(alloc);
    for _ in 0..performers {
        ports.push(port_of(alloc, said, 1000)?)?;
    }
    Ok(Outside {
        input: MemSource::of(alloc, b"", &[])?,
        out: output_of(alloc, 1000),
        log: output_of(alloc, 4000),
        osc: MemWire::of(alloc, 1000, 100_000, &[])?,
        midi: MemWire::of(alloc, 100, 300, &[])?,
        clock: MemClock::of(alloc, beats)?,
        ports,
    })
}

// Whether each port got two lines.
fn have_two_replies(ports: &Ports<MemSource, Narrow>) -> bool {
    for i in 0..ports.len() {
        let mut lines = 0u32;
        for byte in ports.get(i).sink.bytes.as_slice() {
            if *byte == b'\n' {
                lines = lines.saturating_add(1);
            }
        }
        if lines != 2 {
            return false;
        }
    }
    true
}

// Whether so many performers who say two lines each are served for four cycles, with so many entries: theirs, a tick a cycle
// and the finish.
fn serves<R: Threads + Wait + Sync>(
    rt: &R,
    alloc: Global,
    performers: usize,
    entries: u32,
    words: &[&str],
) -> bool {
    let Ok(words) = words_of(alloc, words) else {
        return false;
    };
    let said = "d1 $ s \"bd*2\"\nlook\n";
    let beats = [46_080, 92_160, 138_240, 184_320];
    let Ok(mut stage) = stage(alloc, performers, said, &beats) else {
        return false;
    };
    match run_with_ports(rt, alloc, &words, &mut stage) {
        Some(outcome) => {
            outcome.status == 0
                && has_all_ended(&outcome, performers)
                && have_two_replies(&stage.ports)
                && outcome.history.len() == entries
        }
        None => false,
    }
}

#[test]
fn serves_one_performer(rt: HostRuntime) {
    let words = ["serve", "--performers", "1", "--cycles", "4"];
    assert!(rt; serves(&rt, rt.alloc(), 1, 7, &words));
}

#[test]
fn serves_eight_performers(rt: HostRuntime) {
    let words = ["serve", "--performers=8", "--cycles=4"];
    assert!(rt; serves(&rt, rt.alloc(), 8, 21, &words));
}

// A beat that is too near is passed over, a far one is played cycle by cycle, and one behind the last cycle plays up to it.
fn ticks_by_beats<R: Threads + Wait + Sync>(rt: &R, alloc: Global) -> bool {
    let Ok(words) = words_of(alloc, &["serve", "--cycles", "2", "--performers", "1"]) else {
        return false;
    };
    let Ok(mut stage) = stage(alloc, 1, "", &[1000, 2000, 100_000]) else {
        return false;
    };
    match run_with_ports(rt, alloc, &words, &mut stage) {
        Some(outcome) => {
            outcome.status == 0
                && stage.out.bytes.as_slice() == b"end 2 entries 4 osc 0 midi 0\n".as_slice()
                && stage.log.bytes.as_slice()
                    == b"tidal-log 1\ncps 9/16\norigin 2208988800\n0 0 0 tick 25/576\n1 0 25/576 tick 601/576\n\
                    2 0 601/576 tick 2\n3 0 2 finish\nport 1 eof\nend 4\n"
                        .as_slice()
        }
        None => false,
    }
}

#[test]
fn beats_make_the_ticks(rt: HostRuntime) {
    assert!(rt; ticks_by_beats(&rt, rt.alloc()));
}

// Two performers who make one change each, of whom the first takes in no reply.
fn deaf_stage(alloc: Global) -> Result<Stage, NoMemory> {
    let mut stage = stage(alloc, 0, "", &[46_080, 92_160, 138_240, 184_320])?;
    stage.ports.push(port_of(alloc, "d1 $ s \"bd\"\n", 0)?)?;
    stage.ports.push(port_of(alloc, "d2 $ s \"sn\"\n", 1000)?)?;
    Ok(stage)
}

// The first performer's port ends at its first reply, and nothing else does.
fn serves_on<R: Threads + Wait + Sync>(rt: &R, alloc: Global) -> bool {
    let Ok(words) = words_of(alloc, &["serve", "--performers", "2", "--cycles", "4"]) else {
        return false;
    };
    let Ok(mut stage) = deaf_stage(alloc) else {
        return false;
    };
    match run_with_ports(rt, alloc, &words, &mut stage) {
        Some(outcome) => {
            outcome.status == 0
                && outcome.ends.len() == 2
                && outcome.ends.get(0) == (1, PortEnd::Fault)
                && outcome.ends.get(1) == (2, PortEnd::Eof)
                && outcome.history.len() == 7
                && stage
                    .log
                    .bytes
                    .ends_with(b"port 1 fault\nport 2 eof\nend 7\n")
        }
        None => false,
    }
}

#[test]
fn serves_on_where_a_reply_fails(rt: HostRuntime) {
    assert!(rt; serves_on(&rt, rt.alloc()));
}

use std::alloc::Global;
use std::test::Fail;
use tdl_control::{NoMemory, Text};
use tdl_fraction::{Frac, TICK_UNITS};
use tdl_io::MemSink;
use tdl_log::{Ends, PortEnd, Sheet, put_log};
use tdl_score::{Deed, Entry, History};
use tdl_tempo::Tempo;

// How a port ended, and the log of what was played before.
static LOGS: [(PortEnd, &str); 2] = [
    (
        PortEnd::Stopped,
        "tidal-log 1\ncps 9/16\norigin 2208988800\n0 1 0 swap 0 d1 $ s \"bd*4\"\n1 0 0 tick 1\n\
         port 0 stopped\nend 2\n",
    ),
    (
        PortEnd::Finish,
        "tidal-log 1\ncps 9/16\norigin 2208988800\n0 1 0 swap 0 d1 $ s \"bd*4\"\n1 0 0 tick 1\n2 0 1 finish\n\
         port 0 finish\nend 3\n",
    ),
];

const SHORT: &[u8] = b"d1 $ s \"bd*4\"";

// What a log has before what the first performer said.
const FRONT: &[u8] = b"tidal-log 1\ncps 9/16\norigin 2208988800\n0 1 0 swap 0 ";

// More than is written at once.
const LONG: usize = 20_000;

// A log with a long text: how many bytes its sink takes, which of its calls fail, whether the log is put, and what of the
// text and behind it is there then.
struct Case {
    room: u32,
    fails: &'static [u32],
    is_put: bool,
    length: usize,
    end: &'static [u8],
}

// What waits before a long text, the text itself, and what waits at the end are written in one call each.
static CASES: [Case; 3] = [
    Case {
        room: 1_000,
        fails: &[],
        is_put: false,
        length: 0,
        end: b"",
    },
    Case {
        room: 30_000,
        fails: &[3],
        is_put: false,
        length: LONG,
        end: b"",
    },
    Case {
        room: 30_000,
        fails: &[4],
        is_put: true,
        length: LONG,
        end: b"\n1 0 0 tick 1\nport 0 stopped\nend 2\n",
    },
];

// A swap of the first performer, a tick of one cycle, and the finish where the script ended with it.
fn history(alloc: Global, said: Text, end: PortEnd) -> Result<History, NoMemory> {
    let mut history = History::new(alloc);
    history.reserve()?;
    history.push(Entry {
        who: 1,
        frontier: 0,
        deed: Deed::Swap {
            boundary: 0,
            text: said,
        },
    });
    history.reserve()?;
    history.push(Entry {
        who: 0,
        frontier: 0,
        deed: Deed::Tick { to: TICK_UNITS },
    });
    if end == PortEnd::Finish {
        history.push_finish(Entry {
            who: 0,
            frontier: TICK_UNITS,
            deed: Deed::Finish,
        });
    }
    Ok(history)
}

fn sheet(alloc: Global, said: &[u8], end: PortEnd) -> Result<Sheet, Fail> {
    let cps = Frac::of(9, 16).ok_or("a fraction")?;
    let mut text = Text::new(alloc);
    text.add(said)?;
    let mut ends = Ends::new();
    ends.add(0, end);
    Ok(Sheet {
        tempo: Tempo::of(cps, 2_208_988_800).ok_or("a tempo")?,
        history: history(alloc, text, end)?,
        ends,
    })
}

#[test]
fn puts_a_log(rt: HostRuntime) -> Result<(), Fail> {
    for (end, log) in &LOGS {
        let sheet = sheet(rt.alloc(), SHORT, *end)?;
        let mut sink = MemSink::of(rt.alloc(), 1_000, &[])?;
        assert!(rt; put_log(&sheet, &mut sink).is_ok());
        assert!(rt; sink.bytes() == log.as_bytes());
    }
    Ok(())
}

// Whether bytes are the front of a log, so many of the text's bytes, and this end.
fn is_front(bytes: &[u8], length: usize, end: &[u8]) -> bool {
    let Some(text) = bytes.strip_prefix(FRONT) else {
        return false;
    };
    let Some(text) = text.strip_suffix(end) else {
        return false;
    };
    text.len() == length && text.iter().all(|byte| *byte == b'~')
}

#[test]
fn puts_a_long_text_in_three_calls(rt: HostRuntime) -> Result<(), Fail> {
    let text = vec![in rt.alloc(); b'~'; LONG]?;
    let sheet = sheet(rt.alloc(), &text, PortEnd::Stopped)?;
    for case in &CASES {
        let mut sink = MemSink::of(rt.alloc(), case.room, case.fails)?;
        assert!(rt; put_log(&sheet, &mut sink).is_ok() == case.is_put);
        assert!(rt; is_front(sink.bytes(), case.length, case.end));
    }
    Ok(())
}

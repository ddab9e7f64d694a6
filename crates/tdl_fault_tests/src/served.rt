// Two performers who are served beside a clock, with each call of each device failing in turn. In which order their calls
// and the ticks come differs from run to run: the calls of the history that came about are made again, one after another.
ghost use Rattle.std.specs.Prelude.{◌≡◌, [], IfOk};

use crate::devices::{Device, Fault};
use crate::texts::{first_lines, lines_in, words_of};
use std::alloc::Global;
use std::sync::Wait;
use std::test::Fail;
use std::thread::Threads;
use tdl_answer::{ReplyText, asked_call, reply_text, send_with};
use tdl_app::{Ends, History, Outcome, Outside, Port, PortEnd, Ports, ports_of, run};
use tdl_control::NoMemory;
use tdl_core::{Call, Core, Reply};
use tdl_fraction::Frac;
use tdl_io::{MemClock, MemSink, MemSource, MemWire};
use tdl_log::{Sheet, put_log};
use tdl_score::{Deed, Entry};
use tdl_tempo::Tempo;
use tdl_words::words_ask_for_one_thing;

type Stage = Outside<MemSource, MemSink, MemWire, MemClock>;

static WORDS: [&str; 5] = ["serve", "--performers", "2", "--cycles", "4"];

// What each performer says, all of which is accepted.
static SAID: [&str; 2] = [
    "d1 $ s \"bd*2\"\nlook\n",
    "d2 $ note \"0 7\" # s \"midi\"\nmute 3\nlook\n",
];

// At most so many packets and messages are sent in four cycles.
const PACKETS: usize = 8;

const MESSAGES: usize = 16;

// A beat a quarter of a cycle.
const BEAT: u64 = 11_520;

const BEATS: u64 = 16;

static DEVICES: [Device; 8] = [
    Device::Out,
    Device::Log,
    Device::Osc,
    Device::Midi,
    Device::Source(0),
    Device::Source(1),
    Device::Sink(0),
    Device::Sink(1),
];

// A port gives so many bytes at a time.
const PIECE: u32 = 3;

// More calls than any device has in a run.
const MANY: u32 = 200;

fn clock(alloc: Global) -> Result<MemClock, NoMemory> {
    MemClock::of(
        alloc,
        &[
            11_520, 23_040, 34_560, 46_080, 57_600, 69_120, 80_640, 92_160, 103_680, 115_200,
            126_720, 138_240, 149_760, 161_280, 172_800, 184_320,
        ],
    )
}

fn stage(alloc: Global, fault: Fault) -> Result<Stage, NoMemory> {
    let mut ports = Ports::new(alloc);
    for (port, said) in SAID.iter().enumerate() {
        ports.push(Port {
            source: fault.source(alloc, Device::Source(port), said, PIECE)?,
            sink: fault.sink(alloc, Device::Sink(port))?,
        })?;
    }
    Ok(Outside {
        input: MemSource::of(alloc, b"", &[])?,
        out: fault.sink(alloc, Device::Out)?,
        log: fault.sink(alloc, Device::Log)?,
        osc: fault.wire(alloc, Device::Osc)?,
        midi: fault.wire(alloc, Device::Midi)?,
        clock: clock(alloc)?,
        ports,
    })
}

fn serve<R: Threads + Wait + Sync>(
    rt: &R,
    alloc: Global,
    words: &[String],
    stage: &mut Stage,
) -> Option<Outcome> {
    words_ask_for_one_thing();
    match ports_of(alloc, words) {
        Ok(ports) if stage.ports.len() == ports as usize => Some(run(rt, alloc, words, stage)),
        _ => None,
    }
}

// How many calls a device has where none fails, or may have at most.
fn calls_of(device: Device) -> usize {
    match device {
        Device::Osc => PACKETS,
        Device::Midi => MESSAGES,
        Device::Source(port) => match SAID.get(port) {
            Some(said) => said.len().div_ceil(PIECE as usize) + 1,
            None => 0,
        },
        Device::Sink(port) => match SAID.get(port) {
            Some(said) => lines_in(said.as_bytes()),
            None => 0,
        },
        _ => 1,
    }
}

// A run, and whether the call was made that was to fail.
#[derive(Drop)]
struct Run {
    fault: Fault,
    has_failed: bool,
    outcome: Outcome,
    stage: Stage,
}

impl Run {
    // Whether a call of this device failed.
    fn has_failed(&self, device: Device) -> bool {
        self.has_failed && self.fault.device == device
    }

    fn status(&self) -> u8 {
        match self.fault.device {
            Device::Out | Device::Osc | Device::Midi if self.has_failed => 4,
            Device::Log if self.has_failed => 7,
            _ => 0,
        }
    }

    fn end(&self, port: usize) -> PortEnd {
        if self.has_failed(Device::Source(port)) || self.has_failed(Device::Sink(port)) {
            PortEnd::Fault
        } else {
            PortEnd::Eof
        }
    }

    fn ends(&self) -> Ends {
        let mut ends = Ends::new();
        ends.add(1, self.end(0));
        ends.add(2, self.end(1));
        ends
    }
}

// The calls of a history, made again of a new core: its replies, what goes to the wires, and how much of that before the
// last tick or finish.
#[derive(Drop)]
struct Again {
    core: Core,
    replies: Vec<ReplyText>,
    osc: MemWire,
    midi: MemWire,
    packets: usize,
    messages: usize,
}

fn new_core(alloc: Global) -> Result<Core, Fail>
    ensures { IfOk result (λ core. core.history ≡ []) }
{
    let cps = Frac::of(9, 16).ok_or("cps")?;
    let tempo = Tempo::of(cps, 2_208_988_800).ok_or("tempo")?;
    Ok(Core::start(alloc, tempo)?)
}

// The reply to the entry's call, made of this core.
fn call_again(alloc: Global, core: &mut Core, entry: &Entry) -> Option<Reply> {
    let who = entry.who;
    match &entry.deed {
        Deed::Swap { text, .. } if who >= 1 && who <= 8 => {
            let call = asked_call(alloc, text.bytes()).ok()?;
            core.apply(who, call).ok()
        }
        Deed::Look if who >= 1 && who <= 8 => core.apply(who, Call::Look).ok(),
        Deed::Tick { to } if !core.is_finished() => core.apply(0, Call::Tick { to: *to }).ok(),
        Deed::Finish if !core.is_finished() => core.apply(0, Call::Finish).ok(),
        _ => None,
    }
}

impl Again {
    fn new(alloc: Global) -> Result<Again, Fail> {
        Ok(Again {
            core: new_core(alloc)?,
            replies: Vec::new(alloc),
            osc: MemWire::of(alloc, 100, 10_000, &[])?,
            midi: MemWire::of(alloc, 100, 10_000, &[])?,
            packets: 0,
            messages: 0,
        })
    }

    // Makes an entry's call, sends what goes with the reply, and keeps the reply.
    fn add(&mut self, alloc: Global, entry: &Entry) -> Option<()> {
        if entry.who == 0 {
            self.packets = self.osc.len();
            self.messages = self.midi.len();
        }
        let reply = call_again(alloc, &mut self.core, entry)?;
        send_with(&reply, &mut self.osc, &mut self.midi).ok()?;
        let text = reply_text(alloc, &reply, 0).ok()?;
        self.replies.push(text).ok()
    }
}

fn made_again(alloc: Global, history: &History) -> Result<Again, Fail> {
    let mut again = Again::new(alloc)?;
    for place in 0..history.len() {
        again.add(alloc, history.get(place)).ok_or("call")?;
    }
    Ok(again)
}

// The line that an entry's performer said.
fn line_of(entry: &Entry) -> &[u8] {
    match &entry.deed {
        Deed::Swap { text, .. } => text.bytes(),
        _ => b"look",
    }
}

// Whether the entries of a performer are these lines, in order.
fn has_said(history: &History, who: u32, lines: &[u8]) -> bool {
    let mut rest = lines;
    for place in 0..history.len() {
        let entry = history.get(place);
        if entry.who == who {
            let after = rest.strip_prefix(line_of(entry));
            match after.and_then(|after| after.strip_prefix(b"\n".as_slice())) {
                Some(after) => rest = after,
                None => return false,
            }
        }
    }
    rest.is_empty()
}

// Whether a performer got the replies to so many entries.
fn has_replies(
    history: &History,
    replies: &[ReplyText],
    who: u32,
    count: usize,
    found: &[u8],
) -> bool {
    let mut rest = found;
    let mut left = count;
    for place in 0..history.len() {
        if left > 0 && history.get(place).who == who {
            let reply = replies.get(place as usize).map(|reply| reply.bytes());
            match reply.and_then(|reply| rest.strip_prefix(reply)) {
                Some(after) => rest = after,
                None => return false,
            }
            left -= 1;
        }
    }
    left == 0 && rest.is_empty()
}

// Whether a performer's lines up to a fault, or all, have their entries, and these their replies; that of a line whose reply
// could not be put has none.
fn is_heard(run: &Run, again: &Again, port: u8, said: &str) -> bool {
    let who = u32::from(port) + 1;
    let port = usize::from(port);
    if run.stage.ports.len() <= port {
        return false;
    }
    let Port { source, sink } = run.stage.ports.get(port);
    let said = said.as_bytes();
    let taken = said.len().saturating_sub(source.left().len());
    let call = run.fault.call as usize;
    let (done, answered) = if run.has_failed(Device::Sink(port)) {
        (call, call.saturating_sub(1))
    } else {
        (lines_in(&said[..taken]), lines_in(&said[..taken]))
    };
    has_said(&run.outcome.history, who, first_lines(said, done))
        && has_replies(
            &run.outcome.history,
            &again.replies,
            who,
            answered,
            sink.bytes(),
        )
        && (run.end(port) == PortEnd::Fault || taken == said.len())
}

// Whether the ticks are those of the beats, with the finish behind them; after a fault of a wire there may be fewer.
fn is_ticked(history: &History, is_cut: bool) -> bool {
    let mut count = 0u64;
    for place in 0..history.len() {
        let entry = history.get(place);
        if entry.who == 0 {
            let is_next = match entry.deed {
                Deed::Tick { to } => count < BEATS && to == BEAT * (count + 1),
                Deed::Finish => count == BEATS,
                _ => false,
            };
            if !is_next {
                return false;
            }
            count += 1;
        }
    }
    if is_cut { count > 0 } else { count > BEATS }
}

// Whether a wire sent the first of the other's packets, at least so many.
fn is_front(wire: &MemWire, whole: &MemWire, least: usize) -> bool {
    if wire.len() < least || wire.len() > whole.len() {
        return false;
    }
    for i in 0..wire.len() {
        if wire.packet(i) != whole.packet(i) {
            return false;
        }
    }
    true
}

// Whether so many packets are there where this call is to fail: those before it and not that one, or fewer calls were made.
fn is_call(call: u32, has_failed: bool, sent: usize, whole: usize) -> bool {
    let call = call as usize;
    if has_failed {
        sent.saturating_add(1) == call && call <= whole
    } else {
        whole < call
    }
}

// Whether the wires have what goes with the history; where one failed, each has at least what goes with what was played
// before the last tick or finish.
fn are_sent(run: &Run, again: &Again) -> bool {
    let (osc, midi) = (&run.stage.osc, &run.stage.midi);
    let has_call = match run.fault.device {
        Device::Osc => is_call(run.fault.call, run.has_failed, osc.len(), again.osc.len()),
        Device::Midi => is_call(run.fault.call, run.has_failed, midi.len(), again.midi.len()),
        _ => true,
    };
    let (packets, messages) = if run.has_failed(Device::Osc) || run.has_failed(Device::Midi) {
        (again.packets, again.messages)
    } else {
        (again.osc.len(), again.midi.len())
    };
    has_call && is_front(osc, &again.osc, packets) && is_front(midi, &again.midi, messages)
}

// Whether the end line was put, where nothing that comes before it failed.
fn is_printed(alloc: Global, run: &Run, again: &Again) -> Result<bool, Fail> {
    if run.status() == 4 {
        return Ok(run.stage.out.bytes().is_empty());
    }
    let entries = run.outcome.history.len();
    let (packets, messages) = (again.osc.len(), again.midi.len());
    let line = format!(in alloc; "end 4 entries {entries} osc {packets} midi {messages}\n")?;
    Ok(run.stage.out.bytes() == line.as_bytes())
}

// Whether the log is that of the history and of how the ports have to end, or a beginning of it where its put failed.
fn is_logged(alloc: Global, run: &Run, core: Core) -> Result<bool, Fail> {
    let mut log = MemSink::of(alloc, 5_000, &[])?;
    let sheet = Sheet {
        tempo: core.tempo(),
        history: core.into_history(),
        ends: run.ends(),
    };
    put_log(&sheet, &mut log).ok().ok_or("log")?;
    let found = run.stage.log.bytes();
    if run.has_failed(Device::Log) {
        return Ok(found.len() < log.bytes().len() && log.bytes().starts_with(found));
    }
    Ok(found == log.bytes())
}

// Whether both ports ended as they have to.
fn have_ended(run: &Run) -> bool {
    let ends = &run.outcome.ends;
    ends.len() == 2 && ends.get(0) == (1, run.end(0)) && ends.get(1) == (2, run.end(1))
}

// Whether all devices have what they have to.
fn is_served(alloc: Global, run: &Run) -> Result<bool, Fail> {
    let again = made_again(alloc, &run.outcome.history)?;
    let is_cut = run.has_failed(Device::Osc) || run.has_failed(Device::Midi);
    Ok(
        run.outcome.status == run.status()
            && have_ended(run)
            && is_heard(run, &again, 0, SAID[0])
            && is_heard(run, &again, 1, SAID[1])
            && is_ticked(&run.outcome.history, is_cut)
            && are_sent(run, &again)
            && is_printed(alloc, run, &again)?
            && is_logged(alloc, run, again.core)?,
    )
}

// Whether the device's calls fail as they should, from the first one on to one past the last.
fn obeys<R: Threads + Wait + Sync>(rt: &R, alloc: Global, device: Device) -> Result<bool, Fail> {
    let words = words_of(alloc, &WORDS)?;
    let calls = calls_of(device);
    for call in 1..MANY {
        let fault = Fault { device, call };
        let mut stage = stage(alloc, fault)?;
        let outcome = serve(rt, alloc, &words, &mut stage).ok_or("ports")?;
        let has_failed = match device {
            Device::Osc | Device::Midi => outcome.status == 4,
            _ => call as usize <= calls,
        };
        let run = Run {
            fault,
            has_failed,
            outcome,
            stage,
        };
        if !is_served(alloc, &run)? {
            return Ok(false);
        }
        if call as usize > calls {
            return Ok(true);
        }
    }
    Ok(false)
}

#[test]
fn each_call_of_a_served_run_fails_in_turn(rt: HostRuntime) -> Result<(), Fail> {
    for device in &DEVICES {
        assert!(rt; obeys(&rt, rt.alloc(), *device)?);
    }
    Ok(())
}

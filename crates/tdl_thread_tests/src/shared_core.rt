ghost use Rattle.std.specs.Prelude.{◌≡◌, [], IfSome, OnOk};
ghost use Rattle.tdl_score.specs.declared.histories.Entry.{Entry};
ghost use Rattle.tdl_session.specs.Passes.{IsPassOf, SamePass, mine};
ghost use Rattle.tdl_core.specs.Replies.{IsPerformer, MayPlay};

use std::alloc::Global;
use std::sync::Wait;
use std::thread::Threads;
use tdl_answer::asked_call;
use tdl_core::{Call, Core, Reply, tickers_go_on};
use tdl_fraction::Frac;
use tdl_osc::Packets;
use tdl_score::{Deed, Entry};
use tdl_session::{Caller, Hall, Leader, Pass, gather};
use tdl_tempo::Tempo;

// An eighth of a cycle, in tick units.
const STEP: u64 = 5_760;

const TICKS: u32 = 1_000;

const LINES: u32 = 1_000;

// A change and a look by turns.
static TEXTS: [&str; 16] = [
    r#"d1 $ s "bd sn""#,
    "look",
    r#"d2 $ note "0 7" # s "midi""#,
    "look",
    "mute 1",
    "look",
    r#"d3 $ s "bd(3,8)""#,
    "look",
    r#"jumpMod 3 4 $ s "arpy""#,
    "look",
    "unmuteAll",
    "look",
    r#"d4 $ every 2 rev $ note "<0 3> 5" # s "midi""#,
    "look",
    "hush",
    "look",
];

// Says so many lines, of the table from this place on.
#[derive(Drop)]
struct Performer {
    first: u32,
}

impl Caller<Core> for Performer {
    // Whether all were accepted, each at a place above the one before.
    type End = bool;

    ghost did = { λ tempo number history old new end. Unit {0} };

    fn did_law() {}

    fn make_calls<R: Wait>(&mut self, rt: &R, hall: &Hall<Core>, pass: &mut Pass<Core>) -> bool {
        let mut last = None;
        for line in 0..LINES {
            let text = TEXTS[(self.first.wrapping_add(line) % 16) as usize];
            let place = say(rt, hall, pass, text);
            if place <= last {
                return false;
            }
            last = place;
        }
        true
    }
}

// The place of what the pass's holder says, where it is accepted.
fn say<R: Wait>(rt: &R, hall: &Hall<Core>, pass: &mut Pass<Core>, text: &str) -> Option<u32>
    requires pass { IsPassOf hall.now.shared pass.old }
    requires performer { IsPerformer pass.old.number }
    ensures { SamePass pass.old pass.new }
{
    let call = asked_call(hall.alloc, text.as_bytes()).ok()?;
    let reply = hall.shared.call(rt, hall.alloc, pass, call).ok()?;
    match &reply {
        Reply::Swapped { place, .. } | Reply::Looked { place, .. } => Some(*place),
        Reply::Ticked { .. } | Reply::Finished { .. } => None,
    }
}

// Ticks and then finishes, and keeps what it was answered.
#[derive(Drop)]
struct Ticker {
    replies: Vec<Reply>,
}

// A call was refused, or memory ran out.
#[derive(Drop)]
struct Stopped;

impl Ticker {
    fn tick<R: Wait>(
        &mut self,
        rt: &R,
        hall: &Hall<Core>,
        pass: &mut Pass<Core>,
        to: u64,
    ) -> Result<(), Stopped>
        requires pass { IsPassOf hall.now.shared pass.old }
        requires may { MayPlay (mine (λ (e : Entry). e.who) pass.old) pass.old.number }
        ensures pass { SamePass pass.old pass.new }
        ensures may { OnOk result (MayPlay (mine (λ (e : Entry). e.who) pass.new) pass.new.number) }
    {
        tickers_go_on();
        let Ok(reply) = hall.shared.call(rt, hall.alloc, pass, Call::Tick { to }) else {
            return Err(Stopped);
        };
        self.keep(reply)
    }

    fn finish<R: Wait>(
        &mut self,
        rt: &R,
        hall: &Hall<Core>,
        pass: &mut Pass<Core>,
    ) -> Result<(), Stopped>
        requires pass { IsPassOf hall.now.shared pass.old }
        requires may { MayPlay (mine (λ (e : Entry). e.who) pass.old) pass.old.number }
        ensures { SamePass pass.old pass.new }
    {
        let Ok(reply) = hall.shared.call(rt, hall.alloc, pass, Call::Finish) else {
            return Err(Stopped);
        };
        self.keep(reply)
    }

    fn keep(&mut self, reply: Reply) -> Result<(), Stopped> {
        match self.replies.push(reply) {
            Ok(()) => Ok(()),
            Err(_) => Err(Stopped),
        }
    }
}

impl Leader<Core> for Ticker {
    type End = Result<(), Stopped>;

    ghost did = { λ tempo history old new end. Unit {0} };

    fn did_law() {}

    fn lead<R: Wait>(
        &mut self,
        rt: &R,
        hall: &Hall<Core>,
        pass: &mut Pass<Core>,
    ) -> Result<(), Stopped> {
        for tick in 0..TICKS {
            let to = (u64::from(tick) + 1) * STEP;
            self.tick(rt, hall, pass, to)?;
        }
        self.finish(rt, hall, pass)
    }
}

fn new_core(alloc: Global) -> Option<Core>
    ensures { IfSome result (λ core. core.history ≡ []) }
{
    let cps = Frac::of(9, 16)?;
    let tempo = Tempo::of(cps, 7)?;
    Core::start(alloc, tempo).ok()
}

// The reply to the entry's call, made of this core.
fn call_again(alloc: Global, core: &mut Core, entry: &Entry) -> Option<Reply> {
    let who = entry.who;
    match &entry.deed {
        Deed::Swap { text, .. } if who >= 1 && who <= 8 => {
            let call = asked_call(alloc, text.bytes()).ok()?;
            core.apply(who, call).ok()
        }
        Deed::Look if who >= 1 && who <= 8 => core.apply(who, Call::Look).ok(),
        Deed::Tick { to } if !core.is_finished() => core.apply(0, Call::Tick { to: *to }).ok(),
        Deed::Finish if !core.is_finished() => core.apply(0, Call::Finish).ok(),
        _ => None,
    }
}

// Whether both replies have these packets.
fn have_packets(one: &Packets, other: &Packets) -> bool {
    let (one, other) = (one.as_slice(), other.as_slice());
    one.len() == other.len() && one.iter().zip(other).all(|(a, b)| a.bytes() == b.bytes())
}

// Whether both are ticks or finishes of one place, with the same packets and messages.
fn are_same(one: &Reply, other: &Reply) -> bool {
    match (one, other) {
        (
            Reply::Ticked {
                place: at,
                osc: packets,
                midi: messages,
            },
            Reply::Ticked { place, osc, midi },
        ) => at == place && have_packets(packets, osc) && messages.as_slice() == midi.as_slice(),
        (
            Reply::Finished {
                place: at,
                midi: messages,
            },
            Reply::Finished { place, midi },
        ) => at == place && messages.as_slice() == midi.as_slice(),
        _ => false,
    }
}

// Whether the calls of the history, one after another, are answered to the ticker as it was told.
fn plays_again(alloc: Global, core: &Core, told: &[Reply]) -> bool {
    let Some(mut again) = new_core(alloc) else {
        return false;
    };
    let mut next = 0;
    for place in 0..core.history().len() {
        let Some(reply) = call_again(alloc, &mut again, core.history().get(place)) else {
            return false;
        };
        if matches!(reply, Reply::Ticked { .. } | Reply::Finished { .. }) {
            if next >= told.len() || !are_same(&told[next], &reply) {
                return false;
            }
            next += 1;
        }
    }
    next == told.len() && again.packets() == core.packets() && again.messages() == core.messages()
}

// Whether eight performers and a ticker on threads are all answered, and the same calls one after another send the same.
fn share_a_core<R: Threads + Wait + Sync>(rt: &R, alloc: Global) -> bool {
    let Some(core) = new_core(alloc) else {
        return false;
    };
    let mut ticker = Ticker {
        replies: Vec::new(alloc),
    };
    let mut performers = [
        Performer { first: 0 },
        Performer { first: 3 },
        Performer { first: 4 },
        Performer { first: 7 },
        Performer { first: 8 },
        Performer { first: 10 },
        Performer { first: 13 },
        Performer { first: 14 },
    ];
    let Some(gathered) = gather(rt, alloc, core, &mut ticker, &mut performers) else {
        return false;
    };
    gathered.led.is_ok()
        && gathered.ends.iter().all(|accepted| *accepted)
        && gathered.machine.history().len() == 8 * LINES + TICKS + 1
        && plays_again(alloc, &gathered.machine, &ticker.replies)
}

#[test]
fn eight_performers_and_a_ticker_share_a_core(rt: HostRuntime) {
    assert!(rt; share_a_core(&rt, rt.alloc()));
}

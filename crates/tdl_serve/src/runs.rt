// Performers beside the clock, from start to end.
ghost use Rattle.std.specs.Prelude.{◌≡◌, ◌≤◌, length, IfOk, OnErr};
ghost use Rattle.tdl_core.specs.Said.{IsLegal};
ghost use Rattle.tdl_answer.specs.Account.{wires};
ghost use Rattle.tdl_answer.specs.Ends.{PortsEnd};
ghost use Rattle.tdl_perform.specs.Port.{ServesPort};
ghost use Rattle.tdl_beats.specs.Beaten.{Beaten};
ghost use Rattle.tdl_serve.specs.PortAccounts.{port_accounts};

use crate::endings::endings_of;
use crate::lengths::Length;
use crate::ports::Ports;
use crate::ticker::Ticker;
use std::alloc::Global;
use std::sync::Wait;
use std::thread::Threads;
use tdl_beats::BeatEnd;
use tdl_control::NoMemory;
use tdl_core::Core;
use tdl_io::{Clock, Sink, Source, Wire};
use tdl_log::Ends;
use tdl_session::{Gathered, gather};
use tdl_tempo::Tempo;

/// What a served run came to: the core with its one history, how each port ended, and how the beats did.
#[derive(Drop)]
pub struct Served {
    pub core: Core,
    pub ends: Ends,
    pub beat: BeatEnd,
}

/// Answers the lines of each port as the performer of its number, from 1 on, and ticks as the clock gives its beats, up
/// to so many cycles: all beside one another, each on a thread of its own where one can be made. It ends when each port
/// and the beats have ended. `NoMemory` comes before any of them began.
pub fn serve<
    R: Threads + Wait + Sync,
    S: Source + Send,
    K: Sink + Send,
    W: Wire + Send,
    C: Clock + Send,
>(
    rt: &R,
    alloc: Global,
    tempo: Tempo,
    ports: &mut Ports<S, K>,
    clock: &mut C,
    osc: &mut W,
    midi: &mut W,
    cycles: u32,
) -> Result<Served, NoMemory>
    requires few { length ports.old.items ≤ 8 }
    requires bounded { cycles ≤ 65536 }
    ensures tempo { IfOk result (λ served. served.core.tempo ≡ tempo) }
    ensures legal { IfOk result (λ served. IsLegal served.core.history) }
    ensures ports { IfOk result (λ served. PortsEnd
        (λ number port end. ServesPort tempo number served.core.history port.source port.sink end)
        1 (port_accounts S.left S.faults K.held K.faults ports.old.items ports.new.items) served.ends) }
    ensures as_many { length ports.new.items ≡ length ports.old.items }
    ensures beaten { IfOk result (λ served. Beaten tempo cycles served.core.history (C.beats clock.old)
        (wires W.sent W.faults osc.old osc.new midi.old midi.new) served.beat) }
    ensures none { OnErr result ((ports.new ≡ ports.old) × (clock.new ≡ clock.old) × (osc.new ≡ osc.old) × (midi.new ≡ midi.old)) }
{
    let core = Core::start(alloc, tempo)?;
    let mut ticker = Ticker {
        length: Length::of(cycles),
        clock,
        osc,
        midi,
    };
    match gather(rt, alloc, core, &mut ticker, ports.as_mut_slice()) {
        Some(Gathered { machine, led, ends }) => Ok(Served {
            core: machine,
            ends: endings_of(&ends),
            beat: led,
        }),
        None => Err(NoMemory),
    }
}

// Performers who are served, and the log of that.
ghost use Rattle.std.specs.Prelude.{◌≡◌, ◌≤◌, ℕ, List, length};
ghost use Rattle.tdl_answer.specs.Account.{account, WireAccounts};
ghost use Rattle.tdl_answer.specs.EndLine.{IsEndLine};
ghost use Rattle.tdl_answer.specs.Sent.{Sends};
ghost use Rattle.tdl_beats.specs.Beaten.{is_broken};
ghost use Rattle.tdl_beats.specs.declared.runs.BeatEnd.TheVariants as beat;
ghost use Rattle.tdl_app.specs.Accounts.{accounts};
ghost use Rattle.tdl_app.specs.Served.{EndsServed, Served as ServedAs, all_stopped};

use crate::devices::Outside;
use crate::outcomes::{DONE, FAULT, OUT_OF_MEMORY, Outcome, put_logged};
use std::alloc::Global;
use std::sync::Wait;
use std::thread::Threads;
use tdl_answer::end_line;
use tdl_control::NoMemory;
use tdl_core::{Core, History};
use tdl_io::{Clock, Failed, Sink, Source, Wire};
use tdl_log::{Ends, PortEnd, Sheet};
use tdl_serve::{BeatEnd, Served, serve};
use tdl_words::ServeWords;

// Serves the performers beside the clock, and puts the log.
pub(crate) fn serve_logged<
    R: Threads + Wait + Sync,
    S: Source + Send,
    K: Sink + Send,
    W: Wire + Send,
    C: Clock + Send,
>(rt: &R, alloc: Global, words: ServeWords, outside: &mut Outside<S, K, W, C>) -> Outcome
    requires few { length outside.old.ports.items ≤ 8 }
    requires bounded { words.cycles ≤ 65536 }
    ensures { ServedAs words.tempo words.cycles result.status result.history.entries result.ends
        (accounts (record {
          left = S.left;
          source_faults = S.faults;
          held = K.held;
          sink_faults = K.faults;
          sent = W.sent;
          wire_faults = W.faults;
          beats = C.beats;
        })
        outside.old outside.new) outside.old outside.new }
{
    let tempo = words.tempo;
    let served = serve(
        rt,
        alloc,
        tempo,
        &mut outside.ports,
        &mut outside.clock,
        &mut outside.osc,
        &mut outside.midi,
        words.cycles,
    );
    match served {
        Ok(Served { core, ends, beat }) => {
            let playing = end_run(alloc, &core, beat, &mut outside.out);
            let history = core.into_history();
            let sheet = Sheet {
                tempo,
                history,
                ends,
            };
            put_logged(playing, sheet, &mut outside.log)
        }
        Err(NoMemory) => {
            let ends = all_stopped(outside.ports.len());
            let sheet = Sheet {
                tempo,
                history: History::new(alloc),
                ends,
            };
            put_logged(OUT_OF_MEMORY, sheet, &mut outside.log)
        }
    }
}

// The ends of so many ports of which none began.
fn all_stopped(count: usize) -> Ends
    requires { count ≤ 8 }
    ensures { result ≡ all_stopped 1 count }
{
    let mut ends = Ends::new();
    for i in 0..count {
        ends.add(i as u8 + 1, PortEnd::Stopped);
    }
    ends
}

// Puts the end line of a run whose beats ended so, if it has its finish, and answers the status of the run.
fn end_run<K: Sink>(alloc: Global, core: &Core, beat: BeatEnd, out: &mut K) -> u8
    ensures ended { (wires : WireAccounts) → Sends (is_broken beat) core.now.tempo core.now.history wires
        → EndsServed core.now.tempo core.now.history beat result (account K.held K.faults out.old out.new) }
    ensures kept { K.faults out.old ≤ K.faults out.new }
{
    match beat {
        BeatEnd::Done => put_end(alloc, core, out),
        BeatEnd::Fault => FAULT,
        BeatEnd::Memory => OUT_OF_MEMORY,
    }
}

// Puts the end line of a run that has its finish, and answers the status of the run.
fn put_end<K: Sink>(alloc: Global, core: &Core, out: &mut K) -> u8
    ensures ended { (line : List ℕ) → IsEndLine core.now.tempo core.now.history line
        → EndsServed core.now.tempo core.now.history beat.Done result (account K.held K.faults out.old out.new) }
    ensures kept { K.faults out.old ≤ K.faults out.new }
{
    let Ok(line) = end_line(alloc, core) else {
        return OUT_OF_MEMORY;
    };
    match out.put(line.bytes()) {
        Ok(()) => DONE,
        Err(Failed) => FAULT,
    }
}

ghost use Rattle.std.specs.Prelude.{◌≡◌, ◌<◌, ◌≤◌, [], ◌∷◌, map, string_bytes};
ghost use Rattle.tdl_log.specs.LogText.{log_text};
ghost use Rattle.tdl_answer.specs.Account.{account, wires};
ghost use Rattle.tdl_answer.specs.Ends.{Logs};
ghost use Rattle.tdl_app.specs.Answer.{RefusesQuery};
ghost use Rattle.tdl_app.specs.Drilled.{Drilled};
ghost use Rattle.tdl_app.specs.Played.{Played};
ghost use Rattle.tdl_app.specs.CallOrder.{AnswersPromptly, PlaysPromptly};
ghost use Rattle.tdl_app.specs.QueryRun.{Puts, Queried};
ghost use Rattle.tdl_app.specs.Ran.{HasPorts, IsAlone, Ran};
ghost use Rattle.tdl_app.specs.Untouched.{UnusedStay};
ghost use Rattle.tdl_words.specs.Modes.{Query, max_lines, max_start};
ghost use Rattle.tdl_words.specs.View.{query_of};
ghost use Rattle.tdl_app.specs.inside.Stops.{status_of, status_of_stop};

use crate::console::Console;
use crate::devices::Outside;
use crate::drills::drill;
use crate::event_lines::put_events;
use crate::outcomes::{
    BAD_WORDS, DONE, FAULT, INPUT_FAULT, OUT_OF_MEMORY, Outcome, REFUSED, SPENT, put_logged,
    without_history,
};
use crate::play::{End, Performance, play};
use crate::queries::read_query;
use crate::query_faults::{QueryFault, QueryRefusal};
use crate::served::serve_logged;
use crate::stops::Stop;
use crate::wires::Wires;
use std::alloc::Global;
use std::sync::Wait;
use std::thread::Threads;
use tdl_control::NoMemory;
use tdl_io::{Clock, Failed, Sink, Source, Wire};
use tdl_log::{Ends, Sheet};
use tdl_tempo::Tempo;
use tdl_words::{
    DrillWords, ModeWords, QueryWords, WordsFault, drill_words_are_in_bounds, mode_words,
    serve_words_are_in_bounds, usual_tempo, words_ask_for_one_thing,
};

const USAGE: &[u8] = b"usage: tdl query|play|serve|drill\n";

// The port of a script.
const SCRIPT: u8 = 0;

/// Does what the words ask for, on this thread alone.
///
/// `query`, a pattern and the two ends of an arc in cycles: `out` gets a line for each event, or the
/// one line that says why there are none.
///
/// `play`, perhaps with a tempo: each line of the script that `input` has is answered in order, up to
/// the finish, if there is one. The packets of a tick are sent to `osc` and its messages to `midi`, those
/// of the finish to `midi`, and then `out` gets the line's reply, and one last line at the
/// end. Then `log` gets the history, also after a fault.
///
/// `drill`, a start and how many lines: a script is made of these numbers and played so, but without replies, and want
/// of memory for any line ends it.
pub fn run_alone<S: Source, K: Sink, W: Wire, C: Clock>(
    alloc: Global,
    words: &[String],
    outside: &mut Outside<S, K, W, C>,
) -> Outcome
    requires ports { HasPorts (map string_bytes words.now) outside.old }
    requires alone { IsAlone (map string_bytes words.now) }
    ensures ran { Ran (record {
      left = S.left;
      source_faults = S.faults;
      held = K.held;
      sink_faults = K.faults;
      sent = W.sent;
      wire_faults = W.faults;
      beats = C.beats;
    })
        (map string_bytes words.now) outside.old outside.new result }
    ensures prompt { PlaysPromptly S.gave S.lost K.took K.broke (map string_bytes words.now) outside.old outside.new }
{
    words_ask_for_one_thing();
    drill_words_are_in_bounds();
    match mode_words(alloc, words) {
        Ok(ModeWords::Play(words)) => play_logged(alloc, words.tempo, outside),
        Ok(ModeWords::Drill(words)) => drill_logged(alloc, words, outside),
        Ok(ModeWords::Query(words)) => {
            without_history(alloc, query(alloc, &words, &mut outside.out))
        }
        Err(WordsFault::BadWords) => {
            without_history(alloc, put_text(&mut outside.out, USAGE, BAD_WORDS))
        }
        Err(WordsFault::NoMemory) => without_history(alloc, OUT_OF_MEMORY),
        Ok(ModeWords::Serve(_)) => unreachable!(),
    }
}

// Plays the script, and puts the log.
fn play_logged<S: Source, K: Sink, W: Wire, C: Clock>(
    alloc: Global,
    tempo: Tempo,
    outside: &mut Outside<S, K, W, C>,
) -> Outcome
    ensures played { Played tempo result.status result.history.entries result.ends (account S.left S.faults outside.old.input outside.new.input)
        (account K.held K.faults outside.old.out outside.new.out) (account K.held K.faults outside.old.log outside.new.log)
        (wires W.sent W.faults outside.old.osc outside.new.osc outside.old.midi outside.new.midi) }
    ensures prompt { AnswersPromptly S.gave S.lost K.took K.broke outside.old outside.new }
    ensures unused { UnusedStay outside.old outside.new }
{
    let mut console = Console {
        input: &mut outside.input,
        out: &mut outside.out,
    };
    let mut wires = Wires {
        osc: &mut outside.osc,
        midi: &mut outside.midi,
    };
    let performance = play(alloc, tempo, &mut console, &mut wires);
    log_script(tempo, performance, &mut outside.log)
}

// Plays a drill, and puts the log.
fn drill_logged<S: Source, K: Sink, W: Wire, C: Clock>(
    alloc: Global,
    words: DrillWords,
    outside: &mut Outside<S, K, W, C>,
) -> Outcome
    requires small { words.start ≤ max_start }
    requires few { words.lines ≤ max_lines }
    ensures drilled { Drilled words.start words.lines result.status result.history.entries result.ends
        (account K.held K.faults outside.old.out outside.new.out) (account K.held K.faults outside.old.log outside.new.log)
        (wires W.sent W.faults outside.old.osc outside.new.osc outside.old.midi outside.new.midi) }
    ensures input { outside.new.input ≡ outside.old.input }
    ensures unused { UnusedStay outside.old outside.new }
{
    let mut wires = Wires {
        osc: &mut outside.osc,
        midi: &mut outside.midi,
    };
    let tempo = usual_tempo();
    let performance = drill(alloc, tempo, words, &mut outside.out, &mut wires);
    log_script(tempo, performance, &mut outside.log)
}

// Puts the log of a script that was played at this tempo.
fn log_script<K: Sink>(tempo: Tempo, performance: Performance, log: &mut K) -> Outcome
    ensures history { result.history.entries ≡ performance.history.entries }
    ensures ends { result.ends ≡ record { port = 0; end = performance.port } ∷ [] }
    ensures logged { Logs (log_text (record { tempo = tempo; history = result.history.entries; ends = result.ends }))
        (status_of performance.result) result.status (account K.held K.faults log.old log.new) }
    ensures kept { K.faults log.old ≤ K.faults log.new }
{
    let Performance {
        result,
        port,
        history,
    } = performance;
    let mut ends = Ends::new();
    ends.add(SCRIPT, port);
    let sheet = Sheet {
        tempo,
        history,
        ends,
    };
    put_logged(status_of(result), sheet, log)
}

/// Does what the words ask for. `serve`, with performers, cycles and perhaps a tempo: the lines of each port are
/// answered as those of the performer of its number, from 1 on, while the beats of `clock` play up to so many cycles,
/// all beside one another. When each port and the beats have ended, `out` gets one last line, unless memory ran out
/// for a tick or a send failed, and then `log` gets the history. All else is done by `run_alone`.
pub fn run<
    R: Threads + Wait + Sync,
    S: Source + Send,
    K: Sink + Send,
    W: Wire + Send,
    C: Clock + Send,
>(rt: &R, alloc: Global, words: &[String], outside: &mut Outside<S, K, W, C>) -> Outcome
    requires { HasPorts (map string_bytes words.now) outside.old }
    ensures ran { Ran (record {
      left = S.left;
      source_faults = S.faults;
      held = K.held;
      sink_faults = K.faults;
      sent = W.sent;
      wire_faults = W.faults;
      beats = C.beats;
    })
        (map string_bytes words.now) outside.old outside.new result }
    ensures prompt { PlaysPromptly S.gave S.lost K.took K.broke (map string_bytes words.now) outside.old outside.new }
{
    words_ask_for_one_thing();
    serve_words_are_in_bounds();
    match mode_words(alloc, words) {
        Ok(ModeWords::Serve(words)) => serve_logged(rt, alloc, words, outside),
        Ok(ModeWords::Query(_) | ModeWords::Play(_) | ModeWords::Drill(_))
        | Err(WordsFault::BadWords) => run_alone(alloc, words, outside),
        Err(WordsFault::NoMemory) => without_history(alloc, OUT_OF_MEMORY),
    }
}

// The status of a run that played a script.
fn status_of(end: Result<End, Stop>) -> u8
    ensures { result ≡ status_of end }
{
    match end {
        Ok(End::Finish | End::Input) => DONE,
        Ok(End::Spent) => SPENT,
        Err(stop) => status_of_stop(stop),
    }
}

// The status of a run that stopped before its end.
fn status_of_stop(stop: Stop) -> u8
    ensures { result ≡ status_of_stop stop }
{
    match stop {
        Stop::Memory => OUT_OF_MEMORY,
        Stop::Fault => FAULT,
        Stop::Input => INPUT_FAULT,
    }
}

// Puts what a query calls for, and answers the status of the run.
fn query<K: Sink>(alloc: Global, words: &QueryWords, out: &mut K) -> u8
    ensures { Queried (query_of words.now) result [] [] (account K.held K.faults out.old out.new) }
{
    match read_query(alloc, words) {
        Ok(plan) => match put_events(alloc, &plan.program, plan.arc, out) {
            Ok(()) => DONE,
            Err(stop) => status_of_stop(stop),
        },
        Err(QueryFault::Refused { why }) => put_refusal(alloc, why, out),
        Err(QueryFault::NoMemory) => OUT_OF_MEMORY,
    }
}

// Puts the line of a refusal, and answers the status of the run.
fn put_refusal<K: Sink>(alloc: Global, why: QueryRefusal, out: &mut K) -> u8
    ensures { (q : Query) → RefusesQuery q why → Queried q result [] [] (account K.held K.faults out.old out.new) }
{
    match why.line(alloc) {
        Ok(line) => put_text(out, line.bytes(), REFUSED),
        Err(NoMemory) => OUT_OF_MEMORY,
    }
}

// Puts a text, and answers the status that goes with it, or that of a fault.
fn put_text<K: Sink>(out: &mut K, text: &[u8], status: u8) -> u8
    requires { status < 3 }
    ensures { Puts text.now status result (account K.held K.faults out.old out.new) }
{
    match out.put(text) {
        Ok(()) => status,
        Err(Failed) => FAULT,
    }
}

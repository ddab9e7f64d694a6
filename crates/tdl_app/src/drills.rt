// Scripts that are played without replies.
ghost use Rattle.std.specs.Prelude.{◌≡◌, ◌≤◌, false, [], ◌∷◌, IfErr, OnOk};
ghost use Rattle.tdl_score.specs.History.{is_finished};
ghost use Rattle.tdl_answer.specs.Account.{KeepsWires, account};
ghost use Rattle.tdl_core.specs.Replies.{core_of};
ghost use Rattle.tdl_drill.specs.Drill.{drill_lines};
ghost use Rattle.tdl_words.specs.Modes.{max_lines, max_start};
ghost use Rattle.tdl_app.specs.Drilled.{PlayedThrough};
ghost use Rattle.tdl_app.specs.inside.Drilling.{AreDrilled, LinePlays, LineStops, PlaysOn, ScriptEnds, StopsAt};
ghost use Rattle.tdl_app.specs.inside.Wiring.{SameWires, wires_of};
ghost use Rattle.tdl_app.specs.inside.Stops.{status_of};

use crate::lines::{accepted_calls_make_changes, answer_line};
use crate::play::{End, Performance, put_end, unplayed};
use crate::stops::Stop;
use crate::wires::Wires;
use std::alloc::Global;
use tdl_core::{Core, History, Lines};
use tdl_drill::{DrillLines, the_finish_is_the_last_line};
use tdl_io::{Sink, Wire};
use tdl_log::PortEnd;
use tdl_score::last_plays_send_last;
use tdl_tempo::Tempo;
use tdl_words::DrillWords;

// Plays the script of a drill at this tempo.
pub(crate) fn drill<K: Sink, W: Wire>(
    alloc: Global,
    tempo: Tempo,
    words: DrillWords,
    out: &mut K,
    wires: &mut Wires<'_, '_, W>,
) -> Performance
    requires small { words.start ≤ max_start }
    requires few { words.lines ≤ max_lines }
    ensures played { PlayedThrough tempo (drill_lines words.start words.lines) (status_of result.result) result.history.entries
        (record { port = 0; end = result.port } ∷ [])
        (account K.held K.faults out.old out.new) (wires_of W.sent W.faults wires.old wires.new) }
    ensures same { SameWires wires.old wires.new }
{
    let Ok(mut core) = Core::start(alloc, tempo) else {
        return unplayed(History::new(alloc));
    };
    let mut lines = DrillLines::of(words.start, words.lines);
    let (result, port) = drill_script(alloc, &mut core, &mut lines, out, wires);
    Performance {
        result,
        port,
        history: core.into_history(),
    }
}

// Plays the lines, and puts the line that tells the end.
fn drill_script<K: Sink, W: Wire>(
    alloc: Global,
    core: &mut Core,
    lines: &mut DrillLines,
    out: &mut K,
    wires: &mut Wires<'_, '_, W>,
) -> (Result<End, Stop>, PortEnd)
    requires core { core.old ≡ core_of core.old.tempo [] }
    requires drilled { AreDrilled lines.old }
    ensures ends { ScriptEnds core.old.tempo lines.old (status_of result.0) result.1 core.new
        (account K.held K.faults out.old out.new) (wires_of W.sent W.faults wires.old wires.new) }
    ensures same { SameWires wires.old wires.new }
{
    match play_lines(alloc, core, lines, wires) {
        Ok(()) => (put_end(alloc, core, End::Finish, out), PortEnd::Finish),
        Err(stop) => (Err(stop), PortEnd::Stopped),
    }
}

// Plays the lines one after another.
fn play_lines<W: Wire>(
    alloc: Global,
    core: &mut Core,
    lines: &mut DrillLines,
    wires: &mut Wires<'_, '_, W>,
) -> Result<(), Stop>
    requires core { core.old ≡ core_of core.old.tempo [] }
    requires drilled { AreDrilled lines.old }
    ensures ok { OnOk result (PlaysOn core.old.tempo lines.old core.new (wires_of W.sent W.faults wires.old wires.new)) }
    ensures err { IfErr result (λ stop. StopsAt core.old.tempo lines.old stop core.new (wires_of W.sent W.faults wires.old wires.new)) }
    ensures same { SameWires wires.old wires.new }
{
    the_finish_is_the_last_line();
    last_plays_send_last::<Lines>();
    'lines: loop {
        match lines.next_line() {
            Some(line) => play_line(alloc, core, line.bytes(), wires)?,
            None => return Ok(()),
        }
    }
}

// Answers a line, whose reply goes nowhere. A performer's line for which there is no memory ends the run.
fn play_line<W: Wire>(
    alloc: Global,
    core: &mut Core,
    line: &[u8],
    wires: &mut Wires<'_, '_, W>,
) -> Result<(), Stop>
    requires going { is_finished core.old.history ≡ false }
    ensures ok { OnOk result (LinePlays line.now core.old core.new (wires_of W.sent W.faults wires.old wires.new)) }
    ensures err { IfErr result (λ stop. LineStops line.now core.old core.new stop (wires_of W.sent W.faults wires.old wires.new)) }
    ensures counts { KeepsWires (wires_of W.sent W.faults wires.old wires.new) }
    ensures same { SameWires wires.old wires.new }
{
    accepted_calls_make_changes(core);
    let response = answer_line(alloc, core, line, wires)?;
    if response.is_no_memory() {
        return Err(Stop::Memory);
    }
    Ok(())
}

ghost use Rattle.std.specs.Prelude.{◌≡◌, ◌≤◌, ℕ, false, List, [], ◌∷◌, Err, IfOk, IfErr, OnOk, OnErr};
ghost use Rattle.tdl_score.specs.History.{is_finished};
ghost use Rattle.tdl_lines.specs.Prompt.{GoesPromptly, TalksPromptly};
ghost use Rattle.tdl_lines.specs.Reading.{HasRead, fresh};
ghost use Rattle.tdl_io.specs.Told.{GainedExactly};
ghost use Rattle.tdl_answer.specs.Account.{account};
ghost use Rattle.tdl_app.specs.Played.{Performed};
ghost use Rattle.tdl_answer.specs.EndLine.{IsEndLine};
ghost use Rattle.tdl_core.specs.Replies.{core_of};
ghost use Rattle.tdl_app.specs.inside.Progress.{Ends, Finishes};
ghost use Rattle.tdl_app.specs.inside.OneLine.{AnsweredSoFar, AnswersAs, BrokeText, IsUnput};
ghost use Rattle.tdl_app.specs.inside.Wiring.{SameWires, wires_of};
ghost use Rattle.tdl_app.specs.inside.Stops.{port_of_end, port_of_stop, status_of, status_of_stop};

use crate::lines::answer_line;
use crate::stops::Stop;
use crate::wires::Wires;
use std::alloc::Global;
use tdl_answer::end_line;
use tdl_core::{Core, History, Lines};
use tdl_io::{Sink, Talk, Wire};
use tdl_lines::{LineReader, Next, given_lines_are_the_first};
use tdl_log::PortEnd;
use tdl_score::last_plays_send_last;
use tdl_tempo::Tempo;

// How a script ended: with the finish, with its input, or after as many bytes as count.
#[derive(Clone, Copy, PartialEq, Eq)]
pub(crate) enum End {
    Finish,
    Input,
    Spent,
}

// How a script was played: whether to its end, how its port ended, and what was accepted.
#[derive(Drop)]
pub(crate) struct Performance {
    pub result: Result<End, Stop>,
    pub port: PortEnd,
    pub history: History,
}

// Plays the script that the input has at this tempo. The input and the output are one device: each line that ended is
// answered before more is asked for.
pub(crate) fn play<T: Talk, W: Wire>(
    alloc: Global,
    tempo: Tempo,
    talk: &mut T,
    wires: &mut Wires<'_, '_, W>,
) -> Performance
    ensures played { Performed tempo (status_of result.result) result.history.entries (record { port = 0; end = result.port } ∷ [])
        (account T.left T.Source.faults talk.old talk.new)
        (account T.held T.Sink.faults talk.old talk.new) (wires_of W.sent W.faults wires.old wires.new) }
    ensures prompt { TalksPromptly T.gave T.lost T.took T.broke talk.old talk.new }
    ensures same { SameWires wires.old wires.new }
{
    let Ok(mut core) = Core::start(alloc, tempo) else {
        return unplayed(History::new(alloc));
    };
    let Ok(mut reader) = LineReader::new(alloc) else {
        return unplayed(core.into_history());
    };
    let (result, port) = play_script(alloc, &mut core, &mut reader, talk, wires);
    Performance {
        result,
        port,
        history: core.into_history(),
    }
}

// There was no memory to begin with.
pub(crate) fn unplayed(history: History) -> Performance
    ensures result { result.result ≡ Err Stop.Memory }
    ensures port { result.port ≡ PortEnd.Stopped }
    ensures history { result.history.entries ≡ history.entries }
{
    Performance {
        result: Err(Stop::Memory),
        port: PortEnd::Stopped,
        history,
    }
}

// Answers the lines of the script, and puts the line that tells the end.
fn play_script<T: Talk, W: Wire>(
    alloc: Global,
    core: &mut Core,
    reader: &mut LineReader,
    talk: &mut T,
    wires: &mut Wires<'_, '_, W>,
) -> (Result<End, Stop>, PortEnd)
    requires core { core.old ≡ core_of core.old.tempo [] }
    requires fresh { reader.old ≡ fresh }
    requires read { HasRead reader.old [] [] }
    ensures ends { Ends core.old.tempo (status_of result.0) result.1 core.new
        (account T.left T.Source.faults talk.old talk.new)
        (account T.held T.Sink.faults talk.old talk.new) (wires_of W.sent W.faults wires.old wires.new) }
    ensures prompt { TalksPromptly T.gave T.lost T.took T.broke talk.old talk.new }
    ensures same { SameWires wires.old wires.new }
{
    match answer_lines(alloc, core, reader, talk, wires) {
        Ok(end) => (put_end(alloc, core, end, talk), port_of_end(end)),
        Err(stop) => (Err(stop), port_of_stop(stop)),
    }
}

// Puts the line that tells the end.
pub(crate) fn put_end<K: Sink>(
    alloc: Global,
    core: &Core,
    end: End,
    out: &mut K,
) -> Result<End, Stop>
    ensures ok { (line : List ℕ) → IsEndLine core.now.tempo core.now.history line
        → OnOk result (GainedExactly (K.held out.old) (K.held out.new) line) }
    ensures end { IfOk result (λ e. e ≡ end) }
    ensures err { (line : List ℕ) → IsEndLine core.now.tempo core.now.history line
        → IfErr result (λ stop. BrokeText line stop (account K.held K.faults out.old out.new)) }
    ensures put { OnOk result ((text : List ℕ) × K.took out.old text out.new) }
    ensures unput { OnErr result (IsUnput K.broke out.old out.new) }
    ensures kept { K.faults out.old ≤ K.faults out.new }
{
    let line = end_line(alloc, core)?;
    put(out, line.bytes())?;
    Ok(end)
}

fn port_of_end(end: End) -> PortEnd
    ensures { result ≡ port_of_end end }
{
    match end {
        End::Finish => PortEnd::Finish,
        End::Input => PortEnd::Eof,
        End::Spent => PortEnd::Spent,
    }
}

fn port_of_stop(stop: Stop) -> PortEnd
    ensures { result ≡ port_of_stop stop }
{
    match stop {
        Stop::Memory | Stop::Fault => PortEnd::Stopped,
        Stop::Input => PortEnd::Fault,
    }
}

// Answers the lines of the script one after another, up to the finish or the end.
fn answer_lines<T: Talk, W: Wire>(
    alloc: Global,
    core: &mut Core,
    reader: &mut LineReader,
    talk: &mut T,
    wires: &mut Wires<'_, '_, W>,
) -> Result<End, Stop>
    requires core { core.old ≡ core_of core.old.tempo [] }
    requires fresh { reader.old ≡ fresh }
    requires read { HasRead reader.old [] [] }
    ensures ok { IfOk result (λ end. Finishes core.old.tempo end core.new
        (account T.left T.Source.faults talk.old talk.new)
        (account T.held T.Sink.faults talk.old talk.new) (wires_of W.sent W.faults wires.old wires.new)) }
    ensures err { IfErr result (λ stop. Ends core.old.tempo (status_of_stop stop) (port_of_stop stop) core.new
        (account T.left T.Source.faults talk.old talk.new)
        (account T.held T.Sink.faults talk.old talk.new) (wires_of W.sent W.faults wires.old wires.new)) }
    ensures goes { OnOk result (GoesPromptly T.gave T.took talk.old talk.new) }
    ensures prompt { OnErr result (TalksPromptly T.gave T.lost T.took T.broke talk.old talk.new) }
    ensures same { SameWires wires.old wires.new }
{
    given_lines_are_the_first();
    last_plays_send_last::<Lines>();
    'lines: loop {
        match reader.next(talk)? {
            Next::Line => {
                play_line(alloc, core, reader.line(), talk, wires)?;
                if core.is_finished() {
                    return Ok(End::Finish);
                }
            }
            Next::Ended => return Ok(End::Input),
            Next::Spent => return Ok(End::Spent),
        }
    }
}

// Answers a line: its packets and messages are sent, and then its reply is put.
fn play_line<K: Sink, W: Wire>(
    alloc: Global,
    core: &mut Core,
    line: &[u8],
    out: &mut K,
    wires: &mut Wires<'_, '_, W>,
) -> Result<(), Stop>
    requires going { is_finished core.old.history ≡ false }
    ensures answered { AnsweredSoFar (AnswersAs core.old line.now) core.old core.new result
        (account K.held K.faults out.old out.new) (wires_of W.sent W.faults wires.old wires.new) }
    ensures put { OnOk result ((text : List ℕ) × K.took out.old text out.new) }
    ensures unput { OnErr result (IsUnput K.broke out.old out.new) }
    ensures same { SameWires wires.old wires.new }
{
    let response = answer_line(alloc, core, line, wires)?;
    let reply = response.text(alloc)?;
    put(out, reply.bytes())
}

// Puts a text.
fn put<K: Sink>(out: &mut K, text: &[u8]) -> Result<(), Stop>
    ensures ok { OnOk result (GainedExactly (K.held out.old) (K.held out.new) text.now) }
    ensures err { IfErr result (λ stop. BrokeText text.now stop (account K.held K.faults out.old out.new)) }
    ensures put { OnOk result (K.took out.old text.now out.new) }
    ensures broke { OnErr result (K.broke out.old text.now out.new) }
    ensures kept { K.faults out.old ≤ K.faults out.new }
{
    out.put(text)?;
    Ok(())
}
